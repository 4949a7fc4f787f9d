//! Strictly rising lists of places over borrowed bytes, place by place and without allocating, as Lucene's
//! `DocIdSetIterator`s over postings, and the unions and differences of such lists.
#![tactic(auto)]

pub mod laws;
mod ords;
mod places;
mod postings;
mod search;

pub use ords::Ords;
pub use places::{Places, least};
pub use postings::{Postings, PostingsCursor};
