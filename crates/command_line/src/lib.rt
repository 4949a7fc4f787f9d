//! The command-line arguments: `facets [--generate N] [--sessions K] DIR`, and `facets --live [--read] DIR`.
#![tactic(auto)]

mod live;
mod words;

pub use live::{LiveWords, read_live};
pub use words::{CommandLine, read_words};
