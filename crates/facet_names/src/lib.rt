//! Category paths, as Lucene's `FacetLabel`: their shape, order and hash, and the definitions of a label list and of
//! its arrays.
#![tactic(auto)]

mod block;
mod fault;
mod laws;
mod path;
mod term;

pub use fault::{NoMemory, PathFault};
pub use laws::{one_term_text, term_text_is_short};
pub use path::Path;
pub use term::push_part;
