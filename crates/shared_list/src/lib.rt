//! A persistent list: a copy shares the entries with the original, and each of the two can then grow and change on its
//! own.
#![tactic(auto)]

mod shared;

pub use shared::Shared;
