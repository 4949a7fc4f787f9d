//! Documents and what is counted of them: the types that the crates share, and the definitions that their contracts
//! use.
#![tactic(auto)]

mod ask;
mod change;
mod counted;
mod document;
mod drill;
mod flags;
mod laws;
mod query;
mod result;
mod word;
mod word_list;

pub use ask::Ask;
pub use change::Change;
pub use counted::{Counted, Resolved};
pub use document::{DocShape, Document, dup_paths};
pub use drill::{Drill, path_term};
pub use flags::DimFlags;
pub use laws::{one_config, one_listing, one_top};
pub use query::Query;
pub use result::{Child, FacetAnswer, FacetResult};
pub use word::Word;
pub use word_list::{WordList, is_blank, words};
