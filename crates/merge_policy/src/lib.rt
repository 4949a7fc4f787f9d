//! When to merge segments, so that there are few of them and each document is seldom moved. It merges only neighbours,
//! as Lucene's `LogMergePolicy`.
#![tactic(auto)]

mod laws;
mod policy;

pub use laws::{moved_seldom, tiered_are_few};
pub use policy::merge_from;
