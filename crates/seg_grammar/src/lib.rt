//! The grammar of a stored segment, format 1: which bytes are the segment of which records and terms, and reading them.
//!
//! A segment has exactly one spelling, so two segments are equal if their bytes are. Reading stores only where the
//! parts begin.
#![tactic(auto)]

mod fault;
mod index;
pub mod laws;
mod reading;

pub use fault::SegFault;
pub use index::{Index, read_index};
