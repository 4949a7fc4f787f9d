//! What the files of a store represent, and reading them.
#![tactic(auto)]

mod fault;
mod index;
pub mod laws;
mod names;
mod newest;
mod numbers;
mod opening;
mod reading;
mod taxonomy;

pub use fault::OpenFault;
pub use newest::Newest;
pub use opening::{Read, read_store};
