//! Concurrent sessions over one system, each on its own thread, phase after phase.
//!
//! In a phase each session carries out its commands, one after the other, concurrently with the other sessions. Between
//! two phases each session is shown what all others have seen. `Phases` gives them: those of a script, or such as are
//! read while the process runs.
#![tactic(auto)]

mod answering;
mod collector;
mod dealing;
mod exchange;
mod fault;
mod flushing;
mod gate;
mod lane;
mod lines;
mod listed;
mod making;
mod outcome;
mod phase;
mod phases;
mod running;

pub use collector::{Collector, Output};
pub use fault::PhaseFault;
pub use gate::{Gate, OpenGate};
pub use lane::Lane;
pub use lines::Lines;
pub use listed::ListedPhases;
pub use making::make_lanes;
pub use outcome::RanToEnd;
pub use phase::{execute_phase, run_phase, run_phases};
pub use phases::Phases;
pub use running::run_to_end;
