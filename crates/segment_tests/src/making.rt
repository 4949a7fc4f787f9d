//! Documents of segments for the tests.
ghost use Rattle.std.specs.Prelude.{◌≤◌, IfOk, length};
ghost use Rattle.seg_postings.specs.Bytes.{AreRisingPlaces};

use facet_codec::put_u32;
use facet_model::{Counted, Document};
use facet_names::Path;
use seg_file::{Entry, Segment};
use seg_postings::Places;
use std::alloc::{AllocFailed, Global};
use std::test::Fail;
use test_keys::fixed_keys;

/// A document's id, text, labels and leaves. The first leaf is counted.
pub type Row = (
    &'static str,
    &'static str,
    &'static [&'static [&'static str]],
    &'static [u32],
);

fn paths(alloc: Global, labels: &[&[&str]]) -> Result<Vec<Path>, Fail> {
    let mut paths = Vec::new(alloc);
    for label in labels {
        paths.push(Path::of(alloc, *label)?)?;
    }
    Ok(paths)
}

fn counted(alloc: Global, leaves: &[u32]) -> Result<Counted, Fail>
    ensures { IfOk result (λ counted. length counted ≤ 8192) }
{
    match leaves.first() {
        Some(first) => Ok(Counted::new(vec![in alloc; *first]?)),
        None => Ok(Counted::new(Vec::new(alloc))),
    }
}

fn entry(alloc: Global, row: &Row) -> Result<Entry, Fail> {
    let (id, text, labels, leaves) = *row;
    let counted = counted(alloc, leaves)?;
    let leaves = leaves.to_vec(alloc)?;
    let doc = Document::new(alloc, id, text, paths(alloc, labels)?)?;
    if leaves.len() != doc.facets().len() {
        return Err("as many leaves as labels".into());
    }
    Ok(Entry {
        doc,
        leaves,
        counted,
    })
}

/// Returns the documents of these rows.
pub fn entries(alloc: Global, rows: &[Row]) -> Result<Vec<Entry>, Fail> {
    let mut entries = Vec::new(alloc);
    for row in rows {
        entries.push(entry(alloc, row)?)?;
    }
    Ok(entries)
}

/// Returns the segment of the documents of these rows.
pub fn segment(alloc: Global, rows: &[Row]) -> Result<Segment, Fail> {
    let entries = entries(alloc, rows)?;
    if entries.is_empty() || entries.len() > 1000000 {
        return Err("no segment".into());
    }
    Ok(Segment::build(alloc, fixed_keys()?, &entries)?)
}

/// Returns the bytes of those places that are above all before them.
pub fn spelled(alloc: Global, places: &[u32]) -> Result<Vec<u8>, facet_codec::NoMemory>
    ensures { IfOk result (λ bytes. AreRisingPlaces bytes.items) }
{
    let mut out = Vec::new(alloc);
    let mut least = 0u64;
    for place in places {
        if (*place as u64) < least {
            continue;
        }
        put_u32(&mut out, *place)?;
        least = *place as u64 + 1;
    }
    Ok(out)
}

/// Returns the places left.
pub fn all<P: Places + Drop>(alloc: Global, mut places: P) -> Result<Vec<u32>, AllocFailed<u32>> {
    let mut all = Vec::new(alloc);
    while let Some(place) = places.next() {
        all.push(place)?;
    }
    Ok(all)
}

/// Returns what a seek returns, and the place after it.
pub fn sought<P: Places + Drop>(mut places: P, place: u32) -> (Option<u32>, Option<u32>) {
    let first = places.seek(place);
    (first, places.next())
}
