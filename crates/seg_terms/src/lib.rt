//! What a segment stores of documents, and their terms, each with the places of the documents that have it.
#![tactic(auto)]

mod collector;
mod entry;
mod laws;
mod recent;
mod table;
mod term_places;

pub use collector::{word_end, write_word_term};
pub use entry::Entry;
pub use laws::{terms_are_found, terms_rise};
pub use table::TermTable;
pub use term_places::{TermPlaces, terms_of};
