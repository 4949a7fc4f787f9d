//! Which documents of a segment match a query or a drill-down, place by place, as Lucene's `Query` and `DrillDownQuery`
//! over one leaf of an index. The nodes of queries and paths have places of all records, and `live_node` removes those
//! of dead records.
#![tactic(auto)]

mod drill;
mod live;
mod plan;
mod query;
mod sets;
mod terms;

pub use drill::{has_path, paths_node};
pub use live::live_node;
pub use plan::Plan;
pub use query::query_node;
