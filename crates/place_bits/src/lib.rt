//! Sets of places as bits, as Lucene's `FixedBitSet`: 64 places per word. A set of the documents of a segment takes one
//! bit per document, and what two sets have in common is found a word at a time. A set of few places is better walked.
#![tactic(auto)]

mod bits;
mod cursor;
mod near;
mod words;

pub use bits::Bits;
pub use cursor::BitPlaces;
pub use near::near_misses;
