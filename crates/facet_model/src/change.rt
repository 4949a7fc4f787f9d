ghost use Rattle.std.specs.Prelude.{◌≡◌, IfOk, IfSome, option_map, MatchOption};
ghost use Rattle.facet_model.specs.Histories.{doc_of};
ghost use Rattle.facet_model.specs.ChangeViews.{change_view};

use crate::document::Document;
use crate::word::Word;
use facet_names::NoMemory;
use std::alloc::Global;

/// A change of an index: a document is added, each document with an id is deleted, or each document with a document's id
/// is deleted and then that one is added. So do Lucene's `addDocument`, `deleteDocuments` and `updateDocument`.
#[derive(Debug, Drop)]
pub enum Change {
    Add(Document),
    Delete(Word),
    Replace(Document),
}

impl Change {
    /// The document that is added, if one is.
    pub fn document(&self) -> Option<&Document>
        ensures { option_map (λ d. d.now) result ≡ doc_of (change_view self.now) }
    {
        match self {
            Change::Add(doc) | Change::Replace(doc) => Some(doc),
            Change::Delete(_) => None,
        }
    }

    /// An equal change with memory of its own.
    pub fn dup(&self, alloc: Global) -> Result<Change, NoMemory>
        ensures { IfOk result (λ c. change_view c ≡ change_view self.now) }
    {
        match self {
            Change::Add(doc) => Ok(Change::Add(doc.dup(alloc)?)),
            Change::Delete(id) => Ok(Change::Delete(id.dup(alloc)?)),
            Change::Replace(doc) => Ok(Change::Replace(doc.dup(alloc)?)),
        }
    }
}
