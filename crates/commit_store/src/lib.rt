//! Commits of labels and documents to a disk: opening what was committed, and committing more.
#![tactic(auto)]

mod committer;
mod opening;

pub use commit_plan::{CommitFault, CommitState};
pub use committer::Committer;
pub use opening::{NotOpened, Opened};
