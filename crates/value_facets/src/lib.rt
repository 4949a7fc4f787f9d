//! Counting ranges and adding up numbers over the hits of a search, from the labels that their records have.
#![tactic(auto)]

mod cuts;
mod dims;
mod hits;
mod marks;
mod ranging;
mod summing;
mod tally;
mod totals;
mod weights;

pub use number_facets::{Range, RangeCounts, Sum, read_number, read_small_number, sums_fit};
pub use ranging::RangeCounter;
pub use summing::{SumFault, sums};
