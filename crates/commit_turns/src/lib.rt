//! Commits of several sessions: the value of the commits chronicle, a commit under its lock, and the end, which returns
//! the disk.
#![tactic(auto)]

mod committing;
mod ending;
mod noting;
mod opening;
mod start;
mod turn;

pub use committing::commit;
pub use ending::end_commits;
pub use opening::{Begun, begin, open_commits};
pub use start::Start;
pub use turn::CommitTurn;
