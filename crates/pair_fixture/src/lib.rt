//! The beginning of tests and measurements of published pairs: the chronicle of only the root, a manager over no
//! documents with two passes, and names and entries for what sessions add.
#![tactic(auto)]

mod entries;
mod labels;
mod names;
mod passes;

pub use entries::bare_entry;
pub use labels::{Opened, open_labels};
pub use names::{label_of, labels_differ, name_of};
pub use passes::{Begun, begin};
