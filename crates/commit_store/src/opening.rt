use crate::committer::Committer;
use facet_disk::Disk;
use seg_file::Segment;
use std::sync::Arc;
use store_opening::OpenFault;
use taxo_list::Taxonomy;

/// An opened disk, with the labels and the segments of its store.
#[derive(Drop)]
pub struct Opened<D: Disk> {
    /// The disk, ready for commits.
    pub committer: Committer<D>,
    /// The labels of the newest commit; the root alone if there is none.
    pub labels: Taxonomy,
    /// The segments of the newest commit, in order.
    pub segments: Vec<Arc<Segment>>,
}

/// Why a disk was not opened, with the disk. Nothing on it changed.
#[derive(Drop)]
pub struct NotOpened<D: Disk> {
    /// The first fault.
    pub fault: OpenFault,
    /// The disk that was to be opened.
    pub disk: D,
}
