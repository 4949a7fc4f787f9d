//! Counting by ordinals, as Lucene's `TaxonomyFacetCounts`. The ordinals of each document are counted, and the counts
//! are rolled up to the parents in dimensions that are hierarchical and not multi-valued. The children of a path are
//! listed by these counts.
#![tactic(auto)]

mod ask;
mod children;
mod counter;
mod counts;
mod dims;
mod firsts;
mod laws;
mod links;
mod rolled;

pub use ask::{AskFault, check_ask};
pub use counter::Counter;
pub use counts::Counts;
pub use dims::{note_dim, order_dims};
pub use laws::{may_be_counted, no_result_elsewhere, none_elsewhere, one_all_dims};
pub use links::{child_of, sibling_of};
