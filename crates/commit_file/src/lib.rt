//! The commit files of a store. A commit of the taxonomy names its segments of labels. A commit of the index names its
//! segments of documents, which of their records are live, and the declarations under which they were stored.
//!
//! Numbers are big-endian. The last 32 bytes of a file are the SHA-256 digest (FIPS 180-4) of those before them. In each
//! version a commit has exactly one spelling. Commits of the taxonomy have version 1. Commits of the index are written
//! in version 2; version 1, in which all records are live, is still read.
#![tactic(auto)]

mod bits;
mod digest;
mod fault;
mod index;
mod kept;
pub mod laws;
mod parts;
mod reading;
mod taxonomy;
mod writing;

pub use digest::{check_digest, digest_of};
pub use fault::FileFault;
pub use index::{DocumentPart, IndexCommit, LivePart, read_index_commit, write_index_commit};
pub use taxonomy::{LabelPart, TaxonomyCommit, read_taxonomy_commit, write_taxonomy_commit};
