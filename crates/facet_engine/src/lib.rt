//! Sessions over one store: open a [`Store`], make a [`System`] of it, and call the system with a [`Session`] per
//! thread.
//!
//! Each call of a session is one step of four histories: those of the labels, the operations, the published pairs and
//! the commits.
#![tactic(auto)]

mod adding;
mod committing;
mod ending;
mod exchange;
mod executing;
mod held;
mod holding;
mod merging;
mod notes;
mod opening;
mod pairing;
mod ranging;
mod refreshing;
mod searching;
mod session;
mod showing;
mod stats;
mod summing;
mod system;
mod upkeep;

pub use ending::{EndedSystem, Trace};
pub use executing::execute;
pub use facet_adding::AddFault;
pub use held::{Held, HeldPairs};
pub use holding::{HoldFault, NotHeld};
pub use notes::Notes;
pub use opening::Store;
pub use pair_search::{
    DocumentFault, RangesAnswer, RangesFault, SearchAnswer, SearchFault, Shown, SumsAnswer,
    SumsFault, ranges_pair, search_pair, sums_pair,
};
pub use pairing::PairFault;
pub use session::Session;
pub use system::System;
