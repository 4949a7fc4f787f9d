//! A cache from paths to their ordinals in the labels of a chronicle, as the label cache of Lucene's
//! `DirectoryTaxonomyWriter`. It has stripes, each under its own lock, and a path's hash chooses its stripe. A hit
//! needs no lock of the chronicle.
#![tactic(auto)]

mod laws;
mod looked;
mod memo;
mod memos;
mod name;
mod stripe;
mod stripes;

pub use laws::ordinals_stay;
pub use looked::Looked;
pub use memos::Memos;
pub use name::Name;
pub use stripe::Stripe;
pub use stripes::Stripes;
