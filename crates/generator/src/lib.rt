//! A script of generated documents, in memory, and a summary of the replies to it.
#![tactic(auto)]

mod closing;
mod documents;
mod labels;
mod script;
mod settings;
mod tally;

pub use script::script_for;
pub use tally::Tally;
