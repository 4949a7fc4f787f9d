ghost use Rattle.std.specs.Prelude.{◌≡◌, ◌≤◌, length, map, IfOk};
ghost use Rattle.std.specs.List.{AllByRecursion};
ghost use Rattle.facet_model.specs.Terms.{terms_of};
ghost use Rattle.seg_terms.specs.Places.{term_view, IsShortTerm};

use crate::collector::TermCollector;
use crate::entry::Entry;
use facet_names::NoMemory;
use std::alloc::Global;
use std::hash::RandomState;

/// A term, and the places of the documents that have it.
#[derive(Debug, Drop)]
pub struct TermPlaces {
    /// The term: `w` and a word, or `f` and the text of a drill-down term.
    pub term: String,
    /// The places, rising.
    pub places: Vec<u32>,
}

/// Returns the terms of documents, rising by their bytes, each once and with the places of the documents that have it.
/// They are the terms that Lucene's `FacetsConfig.build` and an analysed text field index.
///
/// Costs: it visits the documents once and looks each term up by hash. It allocates each different term and its places.
/// At the end it sorts the terms.
///
/// Errors: out of memory.
pub fn terms_of(
    alloc: Global,
    keys: RandomState,
    entries: &[Entry],
) -> Result<Vec<TermPlaces>, NoMemory>
    requires few { length entries.now ≤ 1000000 }
    ensures terms { IfOk result (λ v. map term_view v.items ≡ terms_of (map (λ e. e.doc) entries.now)) }
    ensures short { IfOk result (λ v. AllByRecursion (λ t. IsShortTerm t.0) (map term_view v.items)) }
{
    let mut collector = TermCollector::new(alloc, keys)?;
    for (place, entry) in entries.iter().enumerate() {
        collector.note_document(alloc, &entry.doc, place as u32)?;
    }
    collector.into_sorted(alloc)
}
