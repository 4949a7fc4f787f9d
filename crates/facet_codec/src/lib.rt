//! Numbers and texts as bytes: a cursor over borrowed bytes, and calls that append to a vector.
//!
//! Each value has exactly one spelling. Numbers of a fixed width are big-endian. A vInt has seven bits per byte, the
//! low bits first, and the high bit set on every byte except the last, as Lucene's `DataOutput.writeVInt`. Unlike
//! Lucene, this crate rejects a longer spelling of a number.
#![tactic(auto)]

mod cursor;
mod fault;
pub mod laws;
mod vint;
mod writing;

pub use cursor::Cursor;
pub use fault::{CodecFault, NoMemory};
pub use writing::{put_text, put_u8, put_u32, put_u64, put_vint};
