//! The documents that stored segments represent, and opening a stored segment: it is opened exactly if its bytes are
//! those that are written for its documents.
#![tactic(auto)]

mod difference;
mod entries;
mod facts;
mod fault;
mod hints;
pub mod laws;
mod met;
mod opening;
mod resolving;
mod sizes;
mod unlike;
mod verifying;
mod walk;

pub use entries::{document_of, ordinals_of};
pub use fault::StoredFault;
pub use opening::open_stored;
