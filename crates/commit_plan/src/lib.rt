//! The plan of a commit, made in memory: which files it writes and removes, and what is known of the files before and
//! after it. Nothing here calls the disk.
#![tactic(auto)]

mod documents;
mod draft;
mod fault;
mod labels;
mod matching;
mod names;
mod placing;
mod planning;
mod reading;
mod state;

pub use fault::CommitFault;
pub use planning::{Planned, plan_commit};
pub use reading::state_of;
pub use state::CommitState;
