//! The labels of a taxonomy as the bytes of a taxonomy segment, format 1: writing those from an ordinal on, and reading
//! them after the labels before that ordinal.
//!
//! Labels have exactly one spelling. All numbers have four bytes and are big-endian. A segment is `FTAX`, the version
//! 1, the ordinal of its first label, the number of its labels, and for each label the ordinal of its parent and its
//! last component: the length as a vInt (as Lucene's `DataOutput.writeVInt`), and that many bytes in UTF-8. The root is
//! not stored.
#![tactic(auto)]

mod fault;
pub mod laws;
mod reading;
mod writing;

pub use fault::LabelsFault;
pub use reading::read_labels;
pub use writing::write_labels;
