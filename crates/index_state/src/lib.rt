//! The index under the lock of the operations: documents in segments, documents that wait to become one, and the
//! session that added each.
#![tactic(auto)]

mod fault;
mod flushing;
mod merging;
mod operation;
mod places;
mod range;
mod state;
mod view;

pub use fault::AppendFault;
pub use flushing::count_documents;
pub use merging::merge_segments;
pub use operation::Operation;
pub use range::SegmentRange;
pub use state::IndexState;
pub use view::IndexView;
