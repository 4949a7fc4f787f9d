//! Reads the lines of a process that serves. Each line is carried out as a phase of its own, and the lines of a group
//! together as one phase.
#![tactic(auto)]

mod fault_line;
mod group;
mod grouping;
mod laws;
mod line;

pub use fault_line::{write_line_fault, write_opened};
pub use group::GivenItem;
pub use grouping::Grouping;
pub use laws::{items_are_composed, items_are_in_order, lines_are_numbered};
pub use line::{LineFault, LiveLine, MOST_BYTES, read_live_line};
