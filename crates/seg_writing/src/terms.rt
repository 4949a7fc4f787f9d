ghost use Rattle.std.specs.Prelude.{◌≡◌, ◌<◌, ◌^◌, ◌++◌, map, length, IfOk, OnOk};
ghost use Rattle.std.specs.List.{AllByRecursion};
ghost use Rattle.seg_grammar.specs.Spelling.{term_bytes};
ghost use Rattle.seg_terms.specs.Places.{term_view, IsShortTerm};
ghost use Rattle.seg_writing.specs.Written.{IsTermText, HasFewPlaces, AreTermsPut};

use crate::records::put_numbers;
use facet_codec::{NoMemory, put_text, put_u32};
use seg_terms::TermPlaces;
use std::alloc::Global;

// Appends a term and its places.
fn put_term(out: &mut Vec<u8>, term: &TermPlaces) -> Result<(), NoMemory>
    requires short { IsShortTerm (term_view term.now).0 }
    requires few { HasFewPlaces (term_view term.now) }
    ensures bytes { OnOk result (out.new.items ≡ out.old.items ++ term_bytes (term_view term.now)) }
    ensures fits { OnOk result (IsTermText (term_view term.now)) }
{
    put_text(out, term.term.as_str())?;
    put_u32(out, term.places.len() as u32)?;
    put_numbers(out, &term.places)?;
    Ok(())
}

/// Appends terms with their places, and returns where each begins. Errors: out of memory.
pub fn put_terms(
    alloc: Global,
    out: &mut Vec<u8>,
    terms: &[TermPlaces],
) -> Result<Vec<usize>, NoMemory>
    requires short { AllByRecursion (λ t. IsShortTerm t.0) (map term_view terms.now) }
    requires few { AllByRecursion HasFewPlaces (map term_view terms.now) }
    ensures { IfOk result (λ marks. AreTermsPut out.old.items out.new.items marks.items (map term_view terms.now)) }
{
    let mut marks = Vec::with_capacity(alloc, terms.len())?;
    for term in terms {
        marks.push(out.len())?;
        put_term(out, term)?;
    }
    Ok(marks)
}
