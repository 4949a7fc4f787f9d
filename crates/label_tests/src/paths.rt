use facet_names::{Path, PathFault};
use std::alloc::Global;
use std::collections::HashMap;
use std::test::Fail;

fn fault(alloc: Global, parts: &[&str]) -> Option<PathFault> {
    match Path::of(alloc, parts) {
        Ok(_) => None,
        Err(fault) => Some(fault),
    }
}

// Returns whether a component of this many letters é is rejected at its place, before an empty one after it.
fn is_too_long(alloc: Global) -> Result<bool, Fail> {
    let long = "é".repeat(alloc, 513)?;
    let found = fault(alloc, &["A", "b", long.as_str(), ""]);
    Ok(found == Some(PathFault::PartTooLong { at: 2, len: 1026 }))
}

fn longest_is_taken(alloc: Global) -> Result<bool, Fail> {
    let longest = "x".repeat(alloc, 1024)?;
    Ok(fault(alloc, &["A", longest.as_str()]) == None)
}

const REFUSED: &[(&[&str], Option<PathFault>)] = &[
    (&[], Some(PathFault::NoPart)),
    (&["A", ""], Some(PathFault::EmptyPart { at: 1 })),
    (&["A"; 32], None),
    (&[""; 33], Some(PathFault::TooManyParts { len: 33 })),
];

fn are_refused(alloc: Global) -> bool {
    for (parts, expected) in REFUSED {
        if fault(alloc, *parts) != *expected {
            return false;
        }
    }
    true
}

const DATE: &[&str] = &["Date", "2010", "10"];

const YEAR: &[&str] = &["Date", "2010"];

const DIM: &[&str] = &["Date"];

fn is_path(alloc: Global, path: &Path, parts: &[&str]) -> Result<bool, Fail> {
    Ok(*path == Path::of(alloc, parts)?)
}

fn has_parts(year: &Path) -> bool {
    year.len() == 2 && year.part(1) == "2010"
}

fn has_child(alloc: Global, year: &Path) -> Result<bool, Fail> {
    is_path(alloc, &year.child(alloc, "10")?, DATE)
}

fn refuses_child(alloc: Global, year: &Path) -> bool {
    year.child(alloc, "").is_err()
}

fn is_year(alloc: Global) -> Result<bool, Fail> {
    let year = Path::of(alloc, YEAR)?;
    Ok(has_parts(&year) && refuses_child(alloc, &year) && has_child(alloc, &year)?)
}

// Returns whether the parent of the date, copied, is the year.
fn has_parent(alloc: Global, date: &Path) -> Result<bool, Fail> {
    match date.parent(alloc)? {
        Some(parent) => is_path(alloc, &parent.dup(alloc)?, YEAR),
        None => Ok(false),
    }
}

fn is_date(alloc: Global) -> Result<bool, Fail> {
    let date = Path::of(alloc, DATE)?;
    Ok(date.dim() == "Date" && has_parent(alloc, &date)?)
}

fn is_dim(alloc: Global) -> Result<bool, Fail> {
    let dim = Path::of_dim(alloc, "Date")?;
    Ok(is_path(alloc, &dim, DIM)? && dim.parent(alloc)? == None)
}

// Returns whether the parts, the parent and the child of a date are as expected.
fn is_taken_apart(alloc: Global) -> Result<bool, Fail> {
    Ok(is_year(alloc)? && is_date(alloc)? && is_dim(alloc)?)
}

fn is_under(alloc: Global, path: &Path, above: &[&str]) -> Result<bool, Fail> {
    let above = Path::of(alloc, above)?;
    Ok(path.is_under(&above))
}

const FAMILIES: &[(&[&str], &[&str], bool)] = &[
    (DATE, DATE, true),
    (DATE, DIM, true),
    (DIM, DATE, false),
    (DATE, &["Date", "20"], false),
];

fn are_families(alloc: Global) -> Result<bool, Fail> {
    for (parts, above, expected) in FAMILIES {
        if is_under(alloc, &Path::of(alloc, *parts)?, *above)? != *expected {
            return Ok(false);
        }
    }
    Ok(true)
}

const RISING: &[&[&str]] = &[
    &["A"],
    &["A", "b"],
    &["A", "b", "a"],
    &["A", "é"],
    &["AA"],
    &["Z"],
];

fn rising(alloc: Global) -> Result<Vec<Path>, Fail> {
    let mut paths = Vec::new(alloc);
    for parts in RISING {
        paths.push(Path::of(alloc, *parts)?)?;
    }
    Ok(paths)
}

fn are_sorted(alloc: Global) -> Result<bool, Fail> {
    let mut paths = rising(alloc)?;
    paths.reverse();
    paths.sort()?;
    Ok(paths.as_slice() == rising(alloc)?.as_slice())
}

fn places(alloc: Global) -> Result<HashMap<Path, usize>, Fail> {
    let mut places = HashMap::new(alloc);
    for (place, parts) in RISING.iter().enumerate() {
        places.insert(Path::of(alloc, *parts)?, place)?;
    }
    Ok(places)
}

// Returns whether each path is found in a map.
fn are_found(alloc: Global) -> Result<bool, Fail> {
    let places = places(alloc)?;
    for (place, path) in rising(alloc)?.iter().enumerate() {
        if places.get(path).copied() != Some(place) {
            return Ok(false);
        }
    }
    Ok(true)
}

fn has_term_text(alloc: Global, parts: &[&str], text: &str) -> Result<bool, Fail> {
    let spelled = Path::of(alloc, parts)?.term_text(alloc)?;
    Ok(spelled.as_str() == text)
}

fn is_read(alloc: Global, parts: &[&str], text: &str) -> Result<bool, Fail> {
    match Path::from_term_text(alloc, text)? {
        Some(read) => is_path(alloc, &read, parts),
        None => Ok(false),
    }
}

const SPELLED: &[(&[&str], &str)] = &[
    (
        &["A", "x\u{1f}y\u{1e}z"],
        "A\u{1f}x\u{1e}\u{1f}y\u{1e}\u{1e}z",
    ),
    (&["A", "x", "y"], "A\u{1f}x\u{1f}y"),
    (&["A", "x\u{1f}y"], "A\u{1f}x\u{1e}\u{1f}y"),
    (&["é"], "é"),
];

// Returns whether each path has this term text, and is read from it.
fn are_spelled(alloc: Global) -> Result<bool, Fail> {
    for (parts, text) in SPELLED {
        if !has_term_text(alloc, *parts, *text)? || !is_read(alloc, *parts, *text)? {
            return Ok(false);
        }
    }
    Ok(true)
}

const NO_PATHS: &[&str] = &["A\u{1e}", "\u{1e}A", "A\u{1f}", ""];

fn are_no_paths(alloc: Global) -> Result<bool, Fail> {
    for text in NO_PATHS {
        if Path::from_term_text(alloc, *text)?.is_some() {
            return Ok(false);
        }
    }
    Ok(true)
}

fn are_made(alloc: Global) -> Result<bool, Fail> {
    let refused = are_refused(alloc) && Path::of_dim(alloc, "").is_err();
    Ok(refused && is_too_long(alloc)? && longest_is_taken(alloc)?)
}

fn are_in_order(alloc: Global) -> Result<bool, Fail> {
    Ok(are_families(alloc)? && are_sorted(alloc)? && are_found(alloc)?)
}

fn have_term_texts(alloc: Global) -> Result<bool, Fail> {
    Ok(are_spelled(alloc)? && are_no_paths(alloc)?)
}

#[test]
fn paths_and_their_term_texts(rt: HostRuntime) -> Result<(), Fail> {
    let alloc = rt.alloc();
    let paths = are_made(alloc)? && is_taken_apart(alloc)? && are_in_order(alloc)?;
    assert!(rt; paths && have_term_texts(alloc)?);
    Ok(())
}
