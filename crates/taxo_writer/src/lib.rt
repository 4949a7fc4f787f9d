//! The writer of labels: paths to ordinals, for sessions on any threads. A path that was resolved before is found in a
//! cache, without the lock of the labels.
#![tactic(auto)]

mod viewing;
mod writer;

pub use taxo_adding::LabelList;
pub use writer::TaxoWriter;
