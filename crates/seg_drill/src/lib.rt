//! Drill-down over one segment: the nodes of the documents that a search has to match, as Lucene's `DrillDownQuery`
//! over one leaf of an index, and the counting of records.
#![tactic(auto)]

mod count;
mod node;

pub use count::{count_marked, count_places, count_record};
pub use node::{base_nodes, is_first, joined, nodes_of, push_paths, without_one};
