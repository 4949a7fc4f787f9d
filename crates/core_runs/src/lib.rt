//! The law that what the sessions of a script do is an execution of the core, the pure state machine of `facet_core`.
//!
//! The crate has definitions and laws only, and no code that runs. `facet_core` proves its promises for every list of
//! events; the law says that the sessions of the program are such a list.
#![tactic(auto)]

mod laws;

pub use laws::{impossible_changes_nothing, sessions_are_core_runs};
