//! Which of a segment's records are live, as Lucene's `liveDocs`. A deleted record keeps its place in the segment, and
//! its place is listed here.
#![tactic(auto)]

pub mod laws;
mod live;
mod search;

pub use live::LiveRecords;
