//! A lock around a value, with a history that only grows. A thread takes the lock and the value, enters what it did
//! into the history, and gives the value back. A token is what its holder knows: the entries that it has seen, and
//! which of them are its own. `docs/chronicle.md` explains the rule.
#![tactic(auto)]

mod board;
mod chronicle;
mod knowledge;
mod rule;
mod standing;
mod token;

pub use chronicle::Chronicle;
pub use standing::Standing;
pub use token::Token;
