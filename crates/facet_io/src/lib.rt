//! Where a program reads from and writes to: sources and sinks of bytes, each with a count of its faults.
#![tactic(auto)]

mod calls;
mod failed;
mod memory;
mod retrying;
mod sink;
mod source;
mod standard;

pub use calls::Calls;
pub use failed::Failed;
pub use memory::{MemorySink, MemorySource};
pub use retrying::{read_retrying, write_retrying};
pub use sink::{Sink, write_all};
pub use source::{ReadFault, Source, read_to_end};
pub use standard::{StdSink, StdSource};
