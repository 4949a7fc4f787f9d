ghost use Rattle.std.specs.Prelude.{◌≡◌, ◌≤◌, true, false, length, map};
ghost use Rattle.std.specs.Arc.{arc_value};
ghost use Rattle.seg_documents.specs.Decoding.{records_in};

use chronicle::Token;
use facet_names::Path;
use seg_file::Segment;
use std::sync::Arc;

/// Neighbouring segments that are to become one, as they were under the index's lock: the segments, shared; how many
/// documents come before theirs; and a note of the labels under which they decode. They have at most 1,000,000
/// documents.
///
/// The index may change while they are merged. [`IndexState::try_install`](crate::IndexState::try_install) finds their
/// place again by the number of documents.
#[derive(Drop)]
pub struct SegmentRange {
    pub segments: Vec<Arc<Segment>>,
    pub before: u64,
    pub labels: Token<Path>,
    ghost note: { (labels.is_note ≡ true) × (labels.holds_turn ≡ false) },
    ghost few: { length (records_in (map arc_value segments.items)) ≤ 1000000 },
}
