use commit_file::{DocumentPart, LabelPart};
use facet_disk::FileName;
use seg_file::Segment;
use std::marker::Model;
use std::sync::Arc;

/// A segment of documents, and how a commit names it.
#[derive(Drop)]
pub(crate) struct StoredSegment {
    pub part: DocumentPart,
    pub segment: Arc<Segment>,
}

/// What is known of the newest commits of a disk: the names of all files, and the segments that the commits name.
#[derive(Drop)]
pub struct CommitState {
    // the number that the next file takes
    pub(crate) next: u64,
    // the names of all files
    pub(crate) listed: Vec<FileName>,
    // the number of the taxonomy's commit, its segments, and how many labels there are
    pub(crate) taxonomy: Option<u64>,
    pub(crate) label_parts: Vec<LabelPart>,
    pub(crate) labels: u32,
    // the number of the index's commit, and its segments
    pub(crate) index: Option<u64>,
    pub(crate) stored: Vec<StoredSegment>,
}

impl Model for CommitState {
    ghost use Rattle.commit_plan.specs.Committed.{Committed, IsCommitted, committed_of};

    ghost Value = { Committed };

    ghost view = { λ s. committed_of s.next s.listed.items s.taxonomy s.label_parts.items s.labels s.index
        s.stored.items };

    ghost invariant = { λ s. IsCommitted
        (committed_of s.next s.listed.items s.taxonomy s.label_parts.items s.labels s.index s.stored.items) };
}
