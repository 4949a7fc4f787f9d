use crate::making::{Row, entries};
use seg_file::Entry;
use seg_terms::{TermPlaces, terms_of};
use seg_writing::{Written, write_segment};
use std::alloc::Global;
use std::test::Fail;
use test_keys::fixed_keys;

const LIBRARY: &[Row] = &[
    (
        "d",
        "Rust in\tRUST",
        &[&["Author", "Bob"], &["Tag", "x\u{1f}y"]],
        &[7, 7],
    ),
    ("d", "", &[], &[]),
    (
        "d",
        " \r\n",
        &[&["Author"], &["Author", "Ann", "B"]],
        &[7, 7],
    ),
    ("d", "Ä rust", &[&["Tag", "x", "y"]], &[7]),
];

const TERMS: &str = "\"fAuthor\" [0, 2]
\"fAuthor\\u{1f}Ann\" [2]
\"fAuthor\\u{1f}Ann\\u{1f}B\" [2]
\"fAuthor\\u{1f}Bob\" [0]
\"fTag\" [0, 3]
\"fTag\\u{1f}x\" [3]
\"fTag\\u{1f}x\\u{1e}\\u{1f}y\" [0]
\"fTag\\u{1f}x\\u{1f}y\" [3]
\"win\" [0]
\"wrust\" [0, 3]
\"wÄ\" [3]
";

fn shown(alloc: Global, terms: &[TermPlaces]) -> Result<String, Fail> {
    let mut text = String::new(alloc);
    for term in terms {
        text.push_str(format!(in alloc; "{:?} {:?}\n", term.term, term.places)?.as_str())?;
    }
    Ok(text)
}

fn terms_are(alloc: Global, entries: &[Entry], expected: &str) -> Result<bool, Fail> {
    if entries.len() > 1000000 {
        return Ok(false);
    }
    let terms = terms_of(alloc, fixed_keys()?, entries)?;
    Ok(shown(alloc, &terms)?.as_str() == expected)
}

fn library_has_terms(alloc: Global) -> Result<bool, Fail> {
    let entries = entries(alloc, LIBRARY)?;
    terms_are(alloc, &entries, TERMS)
}

const BOOK: &[u8] = b"FSEG\x00\x00\x00\x01\x00\x00\x00\x01\
\x02b1\x04Rust\x01\x00\x00\x00\x02\x01\x00\x00\x00\x02\
\x00\x00\x00\x03\
\x07fAuthor\x00\x00\x00\x01\x00\x00\x00\x00\
\x0bfAuthor\x1fBob\x00\x00\x00\x01\x00\x00\x00\x00\
\x05wrust\x00\x00\x00\x01\x00\x00\x00\x00";

fn written(alloc: Global, entries: &[Entry]) -> Result<Written, Fail> {
    if entries.is_empty() || entries.len() > 1000000 {
        return Err("no segment".into());
    }
    let terms = terms_of(alloc, fixed_keys()?, entries)?;
    Ok(write_segment(alloc, entries, &terms)?)
}

const BOOK_ROW: &[Row] = &[("b1", "Rust", &[&["Author", "Bob"]], &[2])];

// Returns whether the record, the counted ordinals and the terms of the book are written there.
fn is_book(written: &Written) -> bool {
    let index = &written.index;
    let records = index.records.as_slice() == [12].as_slice();
    let counted = index.counted.as_slice() == [25].as_slice();
    let terms = index.terms.as_slice() == [34, 50, 70].as_slice();
    written.bytes.as_slice() == BOOK && records && counted && terms
}

fn book_is_written(alloc: Global) -> Result<bool, Fail> {
    let book = entries(alloc, BOOK_ROW)?;
    let written = written(alloc, &book)?;
    Ok(is_book(&written))
}

#[test]
fn terms_and_bytes(rt: HostRuntime) -> Result<(), Fail> {
    let alloc = rt.alloc();
    let terms = library_has_terms(alloc)? && terms_are(alloc, &[], "")?;
    assert!(rt; terms && book_is_written(alloc)?);
    Ok(())
}
