ghost use Rattle.std.specs.Prelude.{◌≡◌, ◌≤◌, ◌-◌, map, length, take, drop, OnOk};
ghost use Rattle.std.specs.Arc.{arc_value};
ghost use Rattle.facet_model.specs.Stored.{alive};
ghost use Rattle.seg_documents.specs.Decoding.{records_in};
ghost use Rattle.seg_merge.specs.Merged.{ArePut};

use facet_codec::NoMemory;
use seg_file::Segment;
use std::sync::Arc;

// Appends the bytes of the records from one number up to another one.
fn put_range(out: &mut Vec<u8>, segment: &Segment, from: u32, to: u32) -> Result<(), NoMemory>
    requires order { from ≤ to }
    requires within { to ≤ length segment.now.records }
    ensures { OnOk result (ArePut out.old.items out.new.items (take (to - from) (drop from segment.now.records))) }
{
    out.extend_from_slice(segment.record_range(from, to))?;
    Ok(())
}

// Appends the live records of a segment: in one step all bytes between two records that are not live.
fn put_segment(out: &mut Vec<u8>, segment: &Segment) -> Result<(), NoMemory>
    ensures { OnOk result (ArePut out.old.items out.new.items (alive segment.now.dead segment.now.records)) }
{
    let mut from = 0;
    for doc in 0..segment.docs() {
        if !segment.is_live(doc) {
            put_range(out, segment, from, doc)?;
            from = doc + 1;
        }
    }
    put_range(out, segment, from, segment.docs())?;
    Ok(())
}

/// Appends the live records of segments, in their order, as the bytes that they are.
pub(crate) fn put_segments(out: &mut Vec<u8>, segments: &[Arc<Segment>]) -> Result<(), NoMemory>
    ensures { OnOk result (ArePut out.old.items out.new.items (records_in (map arc_value segments.now))) }
{
    for segment in segments {
        put_segment(out, segment)?;
    }
    Ok(())
}
