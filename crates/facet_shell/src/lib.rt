//! The program as functions. [`run`] reads a script from a source, carries it out on the store of a disk with concurrent
//! sessions, and writes the replies to a sink. [`live`] answers each line of a client as soon as it has come.
#![tactic(auto)]

mod line_mode;
mod program;

pub use command_line::{LiveWords, read_live};
pub use facet_engine::Trace;
pub use facet_phases::{Gate, OpenGate};
pub use facet_serving::{
    Ended, Status, adds_stand, commits_stay, equal_stores_reply_alike, runs_go_on,
};
pub use line_mode::live;
pub use live_serving::LiveEnded;
pub use program::{place, run};
