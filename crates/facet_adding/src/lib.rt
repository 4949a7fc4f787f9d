//! Adding a document of a session: its labels are resolved, and then it becomes an operation after all others, or the
//! add is rejected.
#![tactic(auto)]

mod adding;

pub use adding::{AddFault, add_to};
