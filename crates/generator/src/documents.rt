ghost use Rattle.std.specs.Prelude.{◌≡◌, IfOk, map};
ghost use Rattle.std.specs.List.{range_with_len};
ghost use Rattle.generator.specs.Generated.{generated_doc, generated_labels, generated_text};

use crate::labels::PERIOD;
use facet_model::{DocShape, Document, dup_paths};
use facet_names::{NoMemory, Path};
use std::alloc::Global;

fn text(number: u32) -> &'static str
    ensures { result.now ≡ generated_text number }
{
    if number % 2 == 0 {
        "item even"
    } else {
        "item odd"
    }
}

// Returns the labels of a document, copied from those of the first documents.
fn labels(alloc: Global, first: &[Vec<Path>], number: u32) -> Result<Vec<Path>, NoMemory>
    requires { map (λ l. l.items) first.now ≡ map generated_labels (range_with_len 0 60) }
    ensures { IfOk result (λ v. v.items ≡ generated_labels number) }
{
    let at = number % PERIOD;
    dup_paths(alloc, &first[at as usize])
}

/// Returns the document of this number. The labels of the first documents are given, so only the id is formatted.
#[tactic(auto, using(crate::proofs::Fitting::doc_fits), unfolding(crate::specs::Generated::generated_doc))]
pub(crate) fn document(
    alloc: Global,
    first: &[Vec<Path>],
    number: u32,
) -> Result<Document, NoMemory>
    requires { map (λ l. l.items) first.now ≡ map generated_labels (range_with_len 0 60) }
    ensures { IfOk result (λ d. d ≡ generated_doc number) }
{
    let id = format!(in alloc; "g{number}")?;
    let labels = labels(alloc, first, number)?;
    match Document::new(alloc, id.as_str(), text(number), labels) {
        Ok(doc) => Ok(doc),
        Err(DocShape::NoMemory) => Err(NoMemory),
        Err(_) => unreachable!(),
    }
}
