//! Numbers as labels: the definitions of values, ranges and sums, reading a number, and ranges. It corresponds to the
//! numeric part of Lucene's `LongRangeFacetCounts` and `TaxonomyFacetIntAssociations`, for numbers that are written as
//! the last component of a label.
#![tactic(auto)]

mod laws;
mod number;
mod range;
mod results;

pub use laws::sums_fit;
pub use number::{read_number, read_small_number};
pub use range::Range;
pub use results::{RangeCounts, Sum};
