use crate::making::{document, path};
use crate::plain_top;
use facet_model::{Ask, DimFlags, DocShape, Document, Drill, FacetResult, Query, Word, words};
use std::alloc::Global;
use std::test::Fail;

fn shown(alloc: Global, top: &FacetResult) -> Result<String, Fail> {
    let mut text = format!(in alloc; "{} of {}:", top.value, top.child_count)?;
    for child in &top.children {
        text.push_str(format!(in alloc; " {}={}", child.part.text(), child.count)?.as_str())?;
    }
    Ok(text)
}

fn shop(alloc: Global) -> Result<Vec<Document>, Fail> {
    let rows: [&[&str]; 6] = [
        &["Tag/z", "Tag/é/x", "Tag/é/y"],
        &["Tag/z", "Year/1999"],
        &["Tag/é", "Tag/a/x"],
        &["Tag/a"],
        &["Year/2010/10"],
        &[],
    ];
    let mut docs = Vec::new(alloc);
    for labels in rows {
        docs.push(document(alloc, "d", labels)?)?;
    }
    Ok(docs)
}

// The path, whether its dimension is multi-valued and its count required, how many children to list, and the result, or
// empty if there is none.
type TopRow = (&'static str, (bool, bool), u32, &'static str);

const TOPS: &[TopRow] = &[
    ("Year", (false, false), 9, "2 of 2: 1999=1 2010=1"),
    ("Year", (false, false), 1, "2 of 2: 1999=1"),
    ("Year/2010", (false, false), 9, "1 of 1: 10=1"),
    ("Tag", (true, false), 9, "-1 of 3: a=2 z=2 é=2"),
    ("Tag", (true, true), 2, "4 of 3: a=2 z=2"),
    ("Tag/é", (true, true), 9, "2 of 2: x=1 y=1"),
    ("Tag", (true, false), 0, "-1 of 3:"),
    ("Tag/z", (false, false), 9, ""),
];

fn is_listed(alloc: Global, docs: &[Document], row: &TopRow) -> Result<bool, Fail> {
    let (text, (multi_valued, require_dim_count), n, expected) = *row;
    let flags = DimFlags {
        hierarchical: true,
        multi_valued,
        require_dim_count,
    };
    if docs.len() != 6 {
        return Ok(false);
    }
    match plain_top(alloc, flags, docs, &path(alloc, text)?, n)? {
        Some(top) => Ok(shown(alloc, &top)?.as_str() == expected),
        None => Ok(expected.is_empty()),
    }
}

fn are_listed(alloc: Global) -> Result<bool, Fail> {
    let docs = shop(alloc)?;
    for row in TOPS {
        if !is_listed(alloc, &docs, row)? {
            return Ok(false);
        }
    }
    Ok(true)
}

#[test]
fn plain_tops(rt: HostRuntime) -> Result<(), Fail> {
    assert!(rt; are_listed(rt.alloc())?);
    Ok(())
}

fn is_alike(alloc: Global, doc: &Document) -> Result<bool, Fail> {
    let copy = doc.dup(alloc)?;
    let alike = copy.id() == "b1" && copy.text() == "" && copy.facets() == doc.facets();
    Ok(alike && copy.has(&path(alloc, "Author")?))
}

fn document_is_copied(alloc: Global) -> Result<bool, Fail> {
    let doc = document(alloc, "b1", &["Author/Bob"])?;
    is_alike(alloc, &doc)
}

fn word(alloc: Global, text: &str) -> Result<Word, Fail> {
    Ok(Word::new(alloc, text)?.ok_or("no word")?)
}

fn word_is_copied(alloc: Global) -> Result<bool, Fail> {
    let word = word(alloc, "Wörter")?;
    Ok(word.dup(alloc)?.text() == "Wörter")
}

fn ask(alloc: Global) -> Result<Ask, Fail> {
    let author = path(alloc, "Author")?;
    Ok(Ask::Top {
        path: author.dup(alloc)?,
        n: 3,
    })
}

fn is_asked(alloc: Global) -> Result<bool, Fail> {
    match ask(alloc)? {
        Ask::Top { path, n } => Ok(path.len() == 1 && path.part(0) == "Author" && n == 3),
        _ => Ok(false),
    }
}

fn shape_of(alloc: Global, id: usize, text: usize) -> Result<Option<DocShape>, Fail> {
    let id = "x".repeat(alloc, id)?;
    let text = "x".repeat(alloc, text)?;
    Ok(Document::new(alloc, id.as_str(), text.as_str(), Vec::new(alloc)).err())
}

fn has_words(alloc: Global, text: &str, expected: &[&str]) -> Result<bool, Fail> {
    let list = words(alloc, text)?;
    for (at, word) in expected.iter().enumerate() {
        if at >= list.len() || list.at(at) != *word {
            return Ok(false);
        }
    }
    Ok(list.len() == expected.len())
}

fn query(alloc: Global) -> Result<Query, Fail> {
    let term = Query::Term(word(alloc, "rust")?);
    Ok(Query::Bool {
        must: vec![in alloc; term]?,
        should: vec![in alloc; Query::All]?,
        must_not: Vec::new(alloc),
    })
}

fn query_is_copied(alloc: Global) -> Result<bool, Fail> {
    let query = query(alloc)?;
    let copy = query.dup(alloc)?;
    let shown = format!(in alloc; "{query:?}")?;
    Ok(format!(in alloc; "{copy:?}")?.as_str() == shown.as_str())
}

fn drill(alloc: Global) -> Result<Drill, Fail> {
    let paths = vec![in alloc; path(alloc, "Author/Bob")?, path(alloc, "Year")?]?;
    if paths.len() > 256 {
        return Err("too many paths".into());
    }
    Ok(Drill::new(alloc, paths)?)
}

fn drill_is_copied(alloc: Global) -> Result<bool, Fail> {
    let drill = drill(alloc)?;
    let copy = drill.dup(alloc)?;
    Ok(copy.paths().len() == 2 && copy.paths() == drill.paths())
}

const SHAPES: &[(usize, usize, DocShape)] = &[
    (0, 65537, DocShape::BadId { len: 0 }),
    (257, 0, DocShape::BadId { len: 257 }),
    (2, 65537, DocShape::TextTooLong { len: 65537 }),
];

fn have_shapes(alloc: Global) -> Result<bool, Fail> {
    for (id, text, expected) in SHAPES {
        if shape_of(alloc, *id, *text)? != Some(*expected) {
            return Ok(false);
        }
    }
    Ok(true)
}

fn are_no_words(alloc: Global) -> Result<bool, Fail> {
    let long = "x".repeat(alloc, 65537)?;
    Ok(Word::new(alloc, "")? == None && Word::new(alloc, long.as_str())? == None)
}

const WORDS: &[(&str, &[&str])] = &[
    ("\tÄ  Rust\r\nin\u{b}RUST\n", &["Ä", "rust", "in\u{b}rust"]),
    (" \t", &[]),
];

fn have_words(alloc: Global) -> Result<bool, Fail> {
    for (text, expected) in WORDS {
        if !has_words(alloc, *text, *expected)? {
            return Ok(false);
        }
    }
    Ok(true)
}

fn words_are_taken(alloc: Global) -> Result<bool, Fail> {
    Ok(word_is_copied(alloc)? && are_no_words(alloc)? && have_words(alloc)?)
}

fn documents_are_taken(alloc: Global) -> Result<bool, Fail> {
    Ok(have_shapes(alloc)? && document_is_copied(alloc)?)
}

fn queries_are_taken(alloc: Global) -> Result<bool, Fail> {
    Ok(is_asked(alloc)? && query_is_copied(alloc)? && drill_is_copied(alloc)?)
}

#[test]
fn shapes_and_copies(rt: HostRuntime) -> Result<(), Fail> {
    let alloc = rt.alloc();
    let documents = documents_are_taken(alloc)?;
    assert!(rt; documents && words_are_taken(alloc)? && queries_are_taken(alloc)?);
    Ok(())
}
