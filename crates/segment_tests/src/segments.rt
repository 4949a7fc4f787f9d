ghost use Rattle.std.specs.Prelude.{◌<◌};

use crate::making::{Row, segment};
use seg_file::{Ords, SegFault, Segment};
use seg_postings::{Places, Postings};
use std::alloc::{AllocError, AllocFailed, Global};
use std::test::Fail;

// One document with the id `b1`, the text `Rust` and the label Author/Bob, whose ordinal is 2. Its terms begin at bytes
// 34, 50 and 70.
const ONE: [u8; 84] = [
    0x46, 0x53, 0x45, 0x47, 0, 0, 0, 1, 0, 0, 0, 1, 2, 0x62, 0x31, 4, 0x52, 0x75, 0x73, 0x74, 1, 0,
    0, 0, 2, 1, 0, 0, 0, 2, 0, 0, 0, 3, 7, 0x66, 0x41, 0x75, 0x74, 0x68, 0x6f, 0x72, 0, 0, 0, 1, 0,
    0, 0, 0, 0x0b, 0x66, 0x41, 0x75, 0x74, 0x68, 0x6f, 0x72, 0x1f, 0x42, 0x6f, 0x62, 0, 0, 0, 1, 0,
    0, 0, 0, 5, 0x77, 0x72, 0x75, 0x73, 0x74, 0, 0, 0, 1, 0, 0, 0, 0,
];

// Returns the bytes of ONE with those from one place up to another replaced.
fn spliced(alloc: Global, from: usize, middle: &[u8], to: usize) -> Result<Vec<u8>, AllocError> {
    let front = ONE.iter().take(from);
    let back = ONE.iter().skip(to);
    front
        .chain(middle.iter())
        .chain(back)
        .copied()
        .collect(alloc)
}

fn fault_of(alloc: Global, bytes: Vec<u8>) -> Option<SegFault> {
    match Segment::open(alloc, bytes) {
        Ok(_) => None,
        Err(fault) => Some(fault),
    }
}

fn ordinals(alloc: Global, mut ords: Ords<'_>) -> Result<Vec<u32>, AllocFailed<u32>> {
    let mut all = Vec::new(alloc);
    while let Some(ord) = ords.next() {
        all.push(ord)?;
    }
    Ok(all)
}

fn first_place(postings: Option<Postings<'_>>) -> Option<(usize, Option<u32>)> {
    let postings = postings?;
    Some((postings.len(), postings.cursor().next()))
}

fn may_be_shared<T: Send + Sync>(_value: &T) -> bool {
    true
}

const ROWS: &[Row] = &[
    ("b1", "Rust", &[&["Author", "Bob"]], &[2]),
    ("b2", "", &[&["Tag", "b"], &["Tag", "a"]], &[5, 4]),
];

// Returns whether the segment has a second document, and the places of its terms.
fn has_second(alloc: Global, segment: &Segment) -> Result<bool, Fail> {
    if segment.docs() != 2 {
        return Ok(false);
    }
    let leaves = ordinals(alloc, segment.leaves(1))?;
    let texts = segment.id(1) == "b2" && segment.text(1) == "";
    let tag = first_place(segment.postings("fTag")) == Some((1, Some(1)));
    let none = segment.postings("fTag\u{1f}c").is_none();
    Ok(leaves.as_slice() == [5, 4].as_slice() && texts && tag && none)
}

fn first_is_built(alloc: Global) -> Result<bool, Fail> {
    let one = segment(alloc, &[ROWS[0]])?;
    Ok(one.bytes() == ONE.as_slice())
}

fn both_are_built(alloc: Global) -> Result<bool, Fail> {
    let two = segment(alloc, ROWS)?;
    let again = fault_of(alloc, two.bytes().to_vec(alloc)?).is_none();
    Ok(has_second(alloc, &two)? && again)
}

// Returns whether the segment has the one document.
fn has_one(alloc: Global, segment: &Segment) -> Result<bool, Fail> {
    if segment.docs() != 1 || segment.bytes() != ONE.as_slice() {
        return Ok(false);
    }
    let leaves = ordinals(alloc, segment.leaves(0))?;
    let counted = ordinals(alloc, segment.counted(0))?;
    let ords = leaves.as_slice() == [2].as_slice() && counted.as_slice() == [2].as_slice();
    Ok(ords && segment.id(0) == "b1" && segment.text(0) == "Rust")
}

// Returns whether the second of two records is the live one.
fn second_is_live(one: &Segment) -> bool {
    if one.docs() < 2 || one.live() != 1 {
        return false;
    }
    !one.is_live(0) && one.is_live(1) && one.rank(1) == 0 && one.live_at(0) == 1
}

fn none_is_left(alloc: Global, one: &Segment) -> Result<bool, Fail> {
    if one.docs() < 2 {
        return Ok(false);
    }
    let none = one.without(alloc, &[1])?;
    Ok(none.live() == 0)
}

fn is_without(alloc: Global, both: &Segment) -> Result<bool, Fail> {
    if both.docs() < 2 || both.live() != 2 {
        return Ok(false);
    }
    let one = both.without(alloc, &[0])?;
    let same = one.bytes() == both.bytes() && one.dead() == [0].as_slice();
    Ok(same && second_is_live(&one) && none_is_left(alloc, &one)?)
}

// Returns whether a record that is left out is no longer live, and the one after it is the first.
fn is_thinned(alloc: Global) -> Result<bool, Fail> {
    let both = segment(alloc, ROWS)?;
    is_without(alloc, &both)
}

const TERMS: &[(&str, bool)] = &[
    ("fAuthor", true),
    ("fAuthor\u{1f}Bob", true),
    ("wrust", true),
    ("", false),
    ("fAuthor\u{1f}Bo", false),
    ("rust", false),
    ("wrust ", false),
];

fn has_terms(segment: &Segment) -> bool {
    for (term, there) in TERMS {
        let want = if *there { Some((1, Some(0))) } else { None };
        if first_place(segment.postings(*term)) != want {
            return false;
        }
    }
    true
}

fn is_opened(alloc: Global) -> Result<bool, Fail> {
    let one = Segment::open(alloc, ONE.as_slice().to_vec(alloc)?)?;
    Ok(may_be_shared(&one) && has_terms(&one) && has_one(alloc, &one)?)
}

#[test]
fn built_and_opened_segments(rt: HostRuntime) -> Result<(), Fail> {
    let alloc = rt.alloc();
    let built = first_is_built(alloc)? && both_are_built(alloc)?;
    assert!(rt; built && is_opened(alloc)? && is_thinned(alloc)?);
    Ok(())
}

// The same bytes with the last two terms exchanged, and with the first two exchanged.
const LAST_TWO: [u8; 34] = [
    5, 0x77, 0x72, 0x75, 0x73, 0x74, 0, 0, 0, 1, 0, 0, 0, 0, 0x0b, 0x66, 0x41, 0x75, 0x74, 0x68,
    0x6f, 0x72, 0x1f, 0x42, 0x6f, 0x62, 0, 0, 0, 1, 0, 0, 0, 0,
];

const FIRST_TWO: [u8; 36] = [
    0x0b, 0x66, 0x41, 0x75, 0x74, 0x68, 0x6f, 0x72, 0x1f, 0x42, 0x6f, 0x62, 0, 0, 0, 1, 0, 0, 0, 0,
    7, 0x66, 0x41, 0x75, 0x74, 0x68, 0x6f, 0x72, 0, 0, 0, 1, 0, 0, 0, 0,
];

// What replaces the bytes between two places, and the fault.
type Spliced = (usize, &'static [u8], usize, SegFault);

const FAULTS: &[Spliced] = &[
    (0, &[], 84, SegFault::BadMagic),
    (3, &[0x46], 84, SegFault::BadMagic),
    (4, &[0, 0, 0], 84, SegFault::Codec { at: 4 }),
    (7, &[2], 84, SegFault::BadVersion { v: 2 }),
    (8, &[], 84, SegFault::Codec { at: 8 }),
    (8, &[0, 0, 0, 0], 12, SegFault::Disorder { at: 8 }),
    (8, &[0, 15, 66, 65], 12, SegFault::Codec { at: 8 }),
    (12, &[0], 15, SegFault::Disorder { at: 12 }),
    (12, &[0x81, 2], 13, SegFault::Codec { at: 12 }),
    (16, &[0xff], 17, SegFault::Codec { at: 15 }),
    (20, &[0x81, 0], 21, SegFault::Codec { at: 20 }),
    (20, &[0x81, 2], 21, SegFault::Codec { at: 20 }),
    (25, &[0x81, 0x40], 26, SegFault::Codec { at: 25 }),
    (25, &[2, 0, 0, 0, 2], 26, SegFault::Disorder { at: 30 }),
    (42, &[0, 0, 0, 0], 46, SegFault::Disorder { at: 42 }),
    (46, &[0, 0, 0, 1], 50, SegFault::Disorder { at: 46 }),
    (50, &LAST_TWO, 84, SegFault::Disorder { at: 64 }),
    (34, &FIRST_TWO, 70, SegFault::Disorder { at: 54 }),
    (83, &[], 84, SegFault::Codec { at: 80 }),
    (84, &[0], 84, SegFault::Disorder { at: 84 }),
];

fn is_first_fault(alloc: Global, row: &Spliced) -> Result<bool, Fail> {
    let (from, middle, to, fault) = *row;
    let bytes = spliced(alloc, from, middle, to)?;
    Ok(fault_of(alloc, bytes) == Some(fault))
}

fn are_first_faults(alloc: Global) -> Result<bool, Fail> {
    for row in FAULTS {
        if !is_first_fault(alloc, row)? {
            return Ok(false);
        }
    }
    Ok(true)
}

#[test]
fn first_faults(rt: HostRuntime) -> Result<(), Fail> {
    assert!(rt; are_first_faults(rt.alloc())?);
    Ok(())
}

// Returns whether the bytes are not a segment, or are opened as a segment that has exactly these bytes, each time.
fn is_consistent(alloc: Global, bytes: Vec<u8>) -> Result<bool, Fail> {
    let copy = bytes.as_slice().to_vec(alloc)?;
    let Ok(segment) = Segment::open(alloc, bytes) else {
        return Ok(true);
    };
    Ok(segment.bytes() == copy.as_slice() && fault_of(alloc, copy).is_none())
}

fn is_cut(alloc: Global, at: usize) -> Result<bool, Fail> {
    let cut = spliced(alloc, at, &[], 84)?;
    Ok(fault_of(alloc, cut).is_some())
}

// Returns whether the bytes with any other byte at this place are consistent.
fn is_changed(alloc: Global, at: usize) -> Result<bool, Fail>
    requires { at < 84 }
{
    for byte in 0..=255u8 {
        let changed = spliced(alloc, at, &[byte], at + 1)?;
        if !is_consistent(alloc, changed)? {
            return Ok(false);
        }
    }
    Ok(true)
}

fn are_cut_and_changed(alloc: Global) -> Result<bool, Fail> {
    for at in 0..84usize {
        if !is_cut(alloc, at)? || !is_changed(alloc, at)? {
            return Ok(false);
        }
    }
    Ok(true)
}

#[test]
fn cut_and_changed(rt: HostRuntime) -> Result<(), Fail> {
    assert!(rt; are_cut_and_changed(rt.alloc())?);
    Ok(())
}
