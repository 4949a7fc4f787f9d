ghost use Rattle.std.specs.Prelude.{◌≡◌, ◌≤◌, true, false, length};
ghost use Rattle.seg_documents.specs.Decoding.{records_in};

use arc_list::ArcList;
use chronicle::Token;
use facet_names::Path;
use seg_file::Segment;

/// The index as it was under its lock: its segments, which have all documents, at most 1,000,000; how many operations
/// there were, and how many documents they left; and a note of the labels under which the segments decode.
#[derive(Drop)]
pub struct IndexView {
    pub segments: ArcList<Segment>,
    pub operations: u64,
    pub documents: u32,
    pub labels: Token<Path>,
    ghost note: { (labels.is_note ≡ true) × (labels.holds_turn ≡ false) },
    ghost few: { length (records_in segments) ≤ 1000000 },
}
