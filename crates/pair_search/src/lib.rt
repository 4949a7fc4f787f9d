//! Reading a published pair: searching its documents, counting and adding up their numbers, and showing one of them.
#![tactic(auto)]

mod ranging;
mod searching;
mod showing;
mod summing;

pub use ranging::{RangesAnswer, RangesFault, ranges_pair};
pub use searching::{SearchAnswer, SearchFault, search_pair};
pub use showing::{DocumentFault, Shown, show_pair};
pub use summing::{SumsAnswer, SumsFault, sums_pair};
