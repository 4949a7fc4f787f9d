//! How each dimension takes labels, as Lucene's `FacetsConfig`: its flags, which documents they accept, and which
//! ordinals are counted.
#![tactic(auto)]

mod checking;
mod config;
mod differing;
mod expanding;
mod fault;
mod laws;

pub use config::FacetsConfig;
pub use fault::{DeclareFault, DocFault};
pub use laws::one_difference;
