//! The core as a pure state machine: labels, documents, refreshes, commits, disk calls and crashes, event by event, and
//! the proof that no list of events breaks the guarantees. It is no part of the program.
#![tactic(auto)]

mod event;
mod laws;
mod machine;
mod parts;
mod steps;

pub use event::Event;
pub use laws::{
    crashes_keep_acknowledged, every_run_is_valid, publications_never_fall, published_labels_stand,
};
pub use machine::Core;
pub use parts::Publication;
pub use steps::{run, step};
