//! Writing documents and their terms as the bytes of a segment, format 1.
#![tactic(auto)]

mod records;
mod sizes;
mod terms;
mod writing;

pub use terms::put_terms;
pub use writing::{Written, put_head, write_segment};
