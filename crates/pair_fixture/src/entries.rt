ghost use Rattle.std.specs.Prelude.{◌≡◌, ◌≢◌, [], Some, None, IfOk, IfErr};
ghost use Rattle.facet_model.specs.Shapes.{doc_fault};
ghost use Rattle.facet_model.specs.declared.document.DocShape.TheVariants.{NoMemory as Memory};

use facet_model::{Counted, DocShape, Document};
use seg_file::Entry;
use std::alloc::Global;

/// Returns the entry of a document without a facet.
pub fn bare_entry(alloc: Global, id: &str, text: &str) -> Result<Entry, DocShape>
    ensures doc { IfOk result (λ e. e.doc ≡ record { id = id.now; text = text.now; labels = [] }) }
    ensures bare { IfOk result (λ e. (e.doc.labels ≡ []) × (e.leaves.items ≡ []) × (e.counted ≡ [])) }
    ensures err { IfErr result (λ e. e ≢ Memory → doc_fault id.now text.now [] ≡ Some e) }
    ensures memory { IfErr result (λ e. e ≡ Memory → doc_fault id.now text.now [] ≡ None) }
{
    let doc = Document::new(alloc, id, text, Vec::new(alloc))?;
    Ok(Entry {
        doc,
        leaves: Vec::new(alloc),
        counted: Counted::new(Vec::new(alloc)),
    })
}
