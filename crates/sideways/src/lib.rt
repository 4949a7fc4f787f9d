//! Drill-down and drill-sideways over the segments of a snapshot, as Lucene's `DrillSideways`. One pass finds the hits.
//! With sideways, one more for each drilled dimension finds its near misses: the documents that match everything but
//! this dimension. Each document's ordinals are counted once.
#![tactic(auto)]

mod answer;
mod ask;
mod common;
mod costs;
pub mod laws;
mod near;
mod newest;
mod part;
mod pass;
mod plan;

pub use answer::SidewaysAnswer;
pub use ask::{AskRefused, SearchAsk};
pub use part::Part;
pub use plan::DrillPlan;
