ghost use Rattle.std.specs.Prelude.{◌≡◌, length, map, sum_by, MatchOption};
ghost use Rattle.std.specs.Arc.{arc_value};

use seg_file::Segment;
use std::sync::Arc;

/// Returns how many records the segments have.
pub fn records(segments: &[Arc<Segment>]) -> Option<u32>
    ensures { MatchOption result (Unit {0}) (λ n. n ≡ sum_by (λ s. length s.records) (map arc_value segments.now)) }
{
    let mut records = 0u32;
    for segment in segments {
        records = records.checked_add(segment.docs())?;
    }
    Some(records)
}
