//! The counted ordinals of a segment's documents, stored so that sets of documents are counted by bits. An ordinal of
//! many documents has a bit map of them. What it has in common with the documents to be counted is found 64 at a time,
//! as in bitset faceting.
#![tactic(auto)]

mod column;
mod counting;
mod making;

pub use column::Column;
