//! The list of labels, as Lucene's taxonomy: each label has an ordinal, its place in the list, and is never removed.
//! Views of the list are immutable, and have the parents, children and siblings of its labels as arrays by ordinal.
#![tactic(auto)]

mod arrays;
mod dims;
mod fault;
mod labelled;
mod taxonomy;
mod view;

pub use arrays::Arrays;
pub use fault::TaxoFault;
pub use labelled::Labelled;
pub use taxonomy::Taxonomy;
pub use view::TaxoView;
