//! What is known of a label before the documents that have it are checked.
ghost use Rattle.std.specs.Prelude.{◌≡◌, ◌≤◌, ◌<◌, ℕ, [], ◌∷◌, length, All, IfOk, OnOk};
ghost use Rattle.facet_names.specs.Labels.{IsLabelList, prefixes};
ghost use Rattle.facet_model.specs.CountedPaths.{counted_ordinals};
ghost use Rattle.seg_file.specs.Search.{term_of};
ghost use Rattle.seg_terms.specs.Noting.{path_terms};
ghost use Rattle.seg_decoding.specs.Answers.{IsLeaf};
ghost use Rattle.seg_decoding.specs.Facts.{AreFacts, label_of, texts_at};

use crate::entries::{entry_of, is_leaf, labels_at};
use crate::unlike::Unlike;
use facet_config::FacetsConfig;
use facet_model::{Counted, Document};
use facet_names::{Path, push_part};
use seg_file::Segment;
use std::alloc::Global;
use taxo_list::{Labelled, Taxonomy};

/// What is known of a label.
#[derive(Drop)]
pub struct LabelFacts {
    /// Its ordinal.
    pub ord: u32,
    /// Whether its dimension may occur more than once in a document.
    pub multi_valued: bool,
    /// What is counted for a document that has only this label.
    pub counted: Counted,
    /// The indexes of the terms of its prefixes among the segment's.
    pub terms: Vec<usize>,
}

/// Returns the index of a term among the segment's. Errors: `Differs` if it is not stored.
pub(crate) fn find_term(segment: &Segment, term: &str) -> Result<usize, Unlike>
    ensures there { IfOk result (λ at. at < length segment.now.terms) }
    ensures is { IfOk result (λ at. (term_of segment.now.terms at).0 ≡ term.now) }
{
    let at = segment.first_from(term);
    if at == segment.terms() {
        return Err(Unlike::Differs);
    }
    if segment.term_text(at) != term {
        return Err(Unlike::Differs);
    }
    Ok(at)
}

// Returns the indexes of the terms of a label's prefixes. The text of each continues the one before it.
fn find_prefixes(alloc: Global, segment: &Segment, label: &Path) -> Result<Vec<usize>, Unlike>
    ensures there { IfOk result (λ v. All (λ at. at < length segment.now.terms) v.items) }
    ensures texts { IfOk result (λ v. texts_at segment.now.terms v.items ≡ path_terms (prefixes label.now)) }
{
    let mut terms = Vec::with_capacity(alloc, label.len())?;
    let mut term = String::new(alloc);
    term.push('f')?;
    for at in 0..label.len() {
        push_part(&mut term, at, label.part(at))?;
        let index = find_term(segment, term.as_str())?;
        terms.push(index)?;
    }
    Ok(terms)
}

// Returns what is counted for a document that has only this label.
fn counted_alone(
    alloc: Global,
    config: &FacetsConfig,
    labels: &Taxonomy,
    ord: u32,
) -> Result<Counted, Unlike>
    requires list { IsLabelList labels.now }
    requires leaf { IsLeaf (length labels.now) ord }
    ensures { IfOk result (λ c. c ≡ counted_ordinals labels.now config.now (label_of labels.now ord ∷ [])) }
{
    let mut leaves = Vec::with_capacity(alloc, 1)?;
    leaves.push(ord)?;
    let paths = labels_at(alloc, labels, &leaves)?;
    let document = Document::new(alloc, "label", "", paths)?;
    let entry = entry_of(alloc, config, labels, document, leaves)?;
    Ok(entry.counted)
}

/// Returns what is known of a label. Errors: `Differs` if no document with it is accepted, or if a term of it is not
/// stored; out of memory.
pub(crate) fn facts_of(
    alloc: Global,
    config: &FacetsConfig,
    labels: &Taxonomy,
    needs: u32,
    segment: &Segment,
    ord: u32,
) -> Result<LabelFacts, Unlike>
    requires list { IsLabelList labels.now }
    requires needs { needs ≤ length labels.now }
    requires leaf { IsLeaf needs ord }
    ensures facts { IfOk result (λ f. AreFacts config.now labels.now needs segment.now.terms f) }
    ensures ord { IfOk result (λ f. f.ord ≡ ord) }
{
    let label = labels.path_of(ord);
    let flags = config.flags(label.dim());
    if label.len() == 1 {
        return Err(Unlike::Differs);
    }
    if !flags.hierarchical && label.len() != 2 {
        return Err(Unlike::Differs);
    }
    let terms = find_prefixes(alloc, segment, label)?;
    let counted = counted_alone(alloc, config, labels, ord)?;
    Ok(LabelFacts {
        ord,
        multi_valued: flags.multi_valued,
        counted,
        terms,
    })
}
