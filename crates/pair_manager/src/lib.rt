//! Published pairs of an index and a taxonomy, which searches hold, like Lucene's `SearcherTaxonomyManager`.
#![tactic(auto)]

mod lease;
mod manager;
mod merging;
mod opening;
mod pair;
mod pass;
mod point;
mod publication;
mod state;
mod upkeep;

pub use lease::{Lease, release};
pub use manager::{Manager, Stats};
pub use pair::Pair;
pub use pass::Pass;
pub use point::CommitPoint;
pub use publication::Publication;
pub use state::PairState;
