use commit_file::{LabelPart, LivePart};
use facet_disk::FileName;

/// The newest commits of a disk, and the names of all files.
#[derive(Drop)]
pub struct Newest {
    /// The number of the next file: one more than the greatest, or 1 if there is no file; at most 2^63.
    pub next: u64,
    /// The names of all files of both directories, sorted.
    pub listed: Vec<FileName>,
    /// The number of the taxonomy's newest commit.
    pub taxonomy: Option<u64>,
    /// The segments of labels that it names, in order.
    pub label_parts: Vec<LabelPart>,
    /// The number of the index's newest commit.
    pub index: Option<u64>,
    /// The segments of documents that it names, in order, and which of their records are not live.
    pub document_parts: Vec<LivePart>,
}
