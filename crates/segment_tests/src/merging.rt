ghost use Rattle.std.specs.Prelude.{List, IfOk};
ghost use Rattle.std.specs.Arc.{arc_value};
ghost use Rattle.facet_model.specs.Documents.{Doc};
ghost use Rattle.seg_merge.specs.Merged.{HasTerms};

use crate::making::{Row, entries, segment};
use seg_file::Segment;
use seg_merge::merge;
use std::alloc::Global;
use std::sync::Arc;
use std::test::Fail;
use test_keys::fixed_keys;

const ROWS: &[Row] = &[
    ("b1", "Rust alone", &[&["Author", "Bob"]], &[2]),
    ("b2", "old rust", &[&["Tag", "b"]], &[4]),
    ("b3", "Old", &[&["Author", "Bob"], &["Tag", "a"]], &[2, 5]),
    ("b4", "", &[], &[]),
];

// Returns a segment of the documents of these rows.
fn built(alloc: Global, rows: &[Row]) -> Result<Segment, Fail>
    ensures { IfOk result (λ s. (docs : List Doc) × HasTerms s docs) }
{
    let entries = entries(alloc, rows)?;
    if entries.is_empty() || entries.len() > 1000000 {
        return Err("no segment".into());
    }
    Ok(Segment::build(alloc, fixed_keys()?, &entries)?)
}

// Returns the same segment, whose first record is no longer live.
fn without_first(alloc: Global, segment: &Segment) -> Result<Segment, Fail>
    requires { (docs : List Doc) × HasTerms segment.now docs }
    ensures { IfOk result (λ s. (docs : List Doc) × HasTerms s docs) }
{
    if segment.docs() == 0 {
        return Err("no document".into());
    }
    Ok(segment.without(alloc, &[0])?)
}

fn merge_both(alloc: Global, one: Arc<Segment>, other: Arc<Segment>) -> Result<Segment, Fail>
    requires one { (docs : List Doc) × HasTerms (arc_value one) docs }
    requires other { (docs : List Doc) × HasTerms (arc_value other) docs }
{
    let live = one.live() as u64 + other.live() as u64;
    if live == 0 || live > 1000000 {
        return Err("no segment".into());
    }
    Ok(merge(alloc, fixed_keys()?, &[one, other])?)
}

// Returns whether two segments, one of which has a record that is not live, are merged to the segment of the other
// documents.
fn is_built_of_live(alloc: Global) -> Result<bool, Fail> {
    let one = without_first(alloc, &built(alloc, &ROWS[..2])?)?;
    let other = built(alloc, &ROWS[2..])?;
    let merged = merge_both(alloc, Arc::new(alloc, one)?, Arc::new(alloc, other)?)?;
    let live = segment(alloc, &ROWS[1..])?;
    Ok(merged.bytes() == live.bytes())
}

#[test]
fn merged_segments(rt: HostRuntime) -> Result<(), Fail> {
    assert!(rt; is_built_of_live(rt.alloc())?);
    Ok(())
}
