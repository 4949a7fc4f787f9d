//! Stored segments: documents and their terms as bytes, format 1, which are read in place, as Lucene's segments are.
#![tactic(auto)]

mod fronts;
mod key;
mod segment;
mod segment_bytes;

pub use counted_column::Column;
pub use seg_grammar::SegFault;
pub use seg_postings::Ords;
pub use seg_terms::Entry;
pub use segment::Segment;
