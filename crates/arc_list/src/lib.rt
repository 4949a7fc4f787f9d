//! Lists of shared entries, which are shared by pieces: copying a list costs a pointer for each full piece, and one
//! owner more of each entry after them.
#![tactic(auto)]

mod list;

pub use list::ArcList;
