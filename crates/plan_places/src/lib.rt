//! Trees of set operations over strictly rising lists of places, which are walked from left to right without
//! allocating, as Lucene's `Scorer`s of boolean queries.
#![tactic(auto)]

mod conjunction;
mod leaf;
mod listed;
mod node;
mod places;
mod range;
mod union;

pub use node::PlanNode;
pub use places::PlanPlaces;
