//! What a process that answers a client reads and writes: a source and a sink that are one object, so that a contract
//! can say which call came first, and the client's lines as they come.
#![tactic(auto)]

mod buffer;
mod duplex;
mod line_reader;
mod memory;
mod putting;
mod standard;

pub use duplex::Duplex;
pub use line_reader::{FillFault, LineReader};
pub use memory::{DuplexEvent, MemoryDuplex};
pub use putting::put_all;
pub use standard::StdDuplex;
