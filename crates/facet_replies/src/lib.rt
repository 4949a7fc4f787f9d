//! Replies and faults, and the lines of JSON that they are written as.
#![tactic(auto)]

mod answers;
mod last_line;
mod named_fault;
mod refusals;
mod reply;
mod summary;
mod values;
mod writing;

pub use last_line::write_last_line;
pub use named_fault::{Detail, write_named_fault};
pub use reply::{Content, HitLine, RangeLine, Refusal, Reply};
pub use summary::{Summary, write_summary};
pub use writing::write_reply;
