//! Merging segments: one segment of the live records of several, in their order, as Lucene's `SegmentMerger`.
#![tactic(auto)]

mod heads;
mod laws;
mod merging;
mod records;
mod terms;

pub use laws::{have_terms, same_documents};
pub use merging::merge;
