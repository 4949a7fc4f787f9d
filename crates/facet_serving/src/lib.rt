//! Carries out a script, read or generated, on the store of a disk: opens the store, runs the sessions, writes their
//! replies, and ends with a status. Also the laws of such invocations, and what a process needs that reads its phases
//! while it runs: `run_on_store`, and what is written at the end.
#![tactic(auto)]

mod closing;
mod generating;
mod laws;
mod reporting;
mod serving;
mod session_numbers;
mod status;
mod tallying;

pub use closing::end_line;
pub use generating::run_generated;
pub use laws::{adds_stand, commits_stay, equal_stores_reply_alike, runs_go_on};
pub use reporting::{
    open_fault_line, report_open_fault, report_script_fault, report_status, write_status,
};
pub use serving::{Carried, run_on_store, run_script};
pub use status::{Ended, Status};
