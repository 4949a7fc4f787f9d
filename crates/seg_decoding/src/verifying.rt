//! Checks that a stored segment is what is written for its documents, in one pass and without making a document.
ghost use Rattle.std.specs.Prelude.{◌≡◌, ◌≤◌, ◌<◌, ◌++◌, ◌||◌, ℕ, List, [], ◌∷◌, true, not, length, map, All, OnOk};
ghost use Rattle.std.specs.Prelude.{IfOk};
ghost use Rattle.std.specs.List.{AllByRecursion, list_any};
ghost use Rattle.std.specs.Str.{bytes_eq};
ghost use Rattle.facet_names.specs.Labels.{IsLabelList};
ghost use Rattle.facet_model.specs.Documents.{dim_of};
ghost use Rattle.facet_model.specs.Terms.{doc_terms};
ghost use Rattle.seg_grammar.specs.Lookups.{record_of};
ghost use Rattle.seg_grammar.specs.Spelling.{IsRecord};
ghost use Rattle.seg_postings.specs.Rising.{is_in};
ghost use Rattle.seg_decoding.specs.Answers.{IsLeaf};
ghost use Rattle.seg_documents.specs.Decoding.{doc_in};
ghost use Rattle.seg_decoding.specs.Facts.{AreSeen, IsNoted, label_of, labels_of};
ghost use Rattle.seg_decoding.specs.Ready.{IsReady};
ghost use Rattle.seg_decoding.specs.Pairs.{AreTheirs, IsRight, Passes};

use crate::facts::LabelFacts;
use crate::met::MetLabels;
use crate::unlike::Unlike;
use crate::walk::Walk;
use facet_config::FacetsConfig;
use seg_file::{Ords, Segment};
use std::alloc::Global;
use taxo_list::{Labelled, Taxonomy};

/// What is known of a segment so far.
#[derive(Drop)]
pub struct Verifier {
    /// The labels that occurred so far.
    pub met: MetLabels,
    /// The places that were passed so far.
    pub walk: Walk,
    /// The leaves of one document.
    pub leaves: Vec<u32>,
    /// The ordinals that are counted for them, in any order.
    pub counted: Vec<u32>,
}

// Returns whether one of the labels has the dimension.
fn has_dimension(labels: &Taxonomy, leaves: &[u32], dim: &str) -> bool
    requires { All (IsLeaf (length labels.now)) leaves.now }
    ensures { result ≡ list_any (λ l. bytes_eq (dim_of l) dim.now) (labels_of labels.now leaves.now) }
{
    for leaf in leaves {
        if labels.path_of(*leaf).dim() == dim {
            return true;
        }
    }
    false
}

// Returns whether the label may follow the others of a document: its dimension may repeat, or none of them has it.
fn may_follow(labels: &Taxonomy, leaves: &[u32], facts: &LabelFacts) -> bool
    requires leaves { All (IsLeaf (length labels.now)) leaves.now }
    requires leaf { IsLeaf (length labels.now) facts.now.ord }
    ensures { result ≡ (facts.now.multi_valued
        || not (list_any (λ l. bytes_eq (dim_of l) (dim_of (label_of labels.now facts.now.ord)))
        (labels_of labels.now leaves.now))) }
{
    if facts.multi_valued {
        return true;
    }
    !has_dimension(labels, leaves, labels.path_of(facts.ord).dim())
}

// Adds a label to those of a document, with the ordinals that are counted for it, and passes the document's place under
// the label's terms.
fn note_label(
    segment: &Segment,
    doc: u32,
    facts: &LabelFacts,
    leaves: &mut Vec<u32>,
    counted: &mut Vec<u32>,
    walk: &mut Walk,
) -> Result<(), Unlike>
    requires there { All (λ at. at < length segment.now.terms) facts.now.terms.items }
    requires size { length walk.old.next.items ≡ length segment.now.terms }
    ensures { OnOk result
        (IsNoted segment.now.terms doc facts.now leaves.old.items counted.old.items walk.old.next.items
        leaves.new.items counted.new.items
        walk.new.next.items) }
{
    leaves.push(facts.ord)?;
    counted.extend_from_slice(facts.counted.ords())?;
    walk.pass_terms(segment, &facts.terms, doc)
}

// Returns whether the numbers are those of the slice.
fn are_same(mut stored: Ords<'_>, ords: &[u32]) -> bool
    ensures { result ≡ true → stored.entry ≡ ords.now }
{
    let mut at = 0;
    while let Some(ord) = stored.next() {
        if at == ords.len() || ords[at] != ord {
            return false;
        }
        at += 1;
    }
    at == ords.len()
}

// Checks that the ordinals stored as counted for a document are these, each once.
fn check_counted(segment: &Segment, doc: u32, ords: &mut Vec<u32>) -> Result<(), Unlike>
    requires { doc < length segment.now.records }
    ensures { OnOk result ((ord : ℕ) → is_in ord (record_of segment.now doc).counted ≡ is_in ord ords.old.items) }
{
    ords.sort_unstable();
    ords.dedup();
    if are_same(segment.counted(doc), ords) {
        Ok(())
    } else {
        Err(Unlike::Differs)
    }
}

impl Verifier {
    // Checks one more label of a document: it may follow those before it, and the document's place is passed under its
    // terms.
    fn check_label(
        &mut self,
        alloc: Global,
        config: &FacetsConfig,
        labels: &Taxonomy,
        needs: u32,
        segment: &Segment,
        doc: u32,
        leaf: u32,
    ) -> Result<(), Unlike>
        requires list { IsLabelList labels.now }
        requires needs { needs ≤ length labels.now }
        requires ready { IsReady config.now labels.now needs segment.now.terms self.old }
        requires fit { AllByRecursion (IsLeaf needs) self.old.leaves.items }
        ensures ready { OnOk result (IsReady config.now labels.now needs segment.now.terms self.new) }
        ensures fit { OnOk result (AllByRecursion (IsLeaf needs) self.new.leaves.items) }
        ensures leaves { OnOk result (self.new.leaves.items ≡ self.old.leaves.items ++ leaf ∷ []) }
        ensures seen { OnOk result ((start : List ℕ)
            → AreSeen config.now labels.now segment.now.terms doc self.old.leaves.items
            self.old.counted.items start self.old.walk.next.items
            → AreSeen config.now labels.now segment.now.terms doc self.new.leaves.items
            self.new.counted.items start self.new.walk.next.items) }
    {
        let at = self.met.meet(alloc, config, labels, needs, segment, leaf)?;
        let facts = &self.met.facts[at];
        if !may_follow(labels, &self.leaves, facts) {
            return Err(Unlike::Differs);
        }
        note_label(
            segment,
            doc,
            facts,
            &mut self.leaves,
            &mut self.counted,
            &mut self.walk,
        )
    }

    // Checks that the labels of a document are accepted, and passes its place under their terms.
    fn check_labels(
        &mut self,
        alloc: Global,
        config: &FacetsConfig,
        labels: &Taxonomy,
        needs: u32,
        segment: &Segment,
        doc: u32,
    ) -> Result<(), Unlike>
        requires there { doc < length segment.now.records }
        requires list { IsLabelList labels.now }
        requires needs { needs ≤ length labels.now }
        requires ready { IsReady config.now labels.now needs segment.now.terms self.old }
        ensures ready { OnOk result (IsReady config.now labels.now needs segment.now.terms self.new) }
        ensures fit { OnOk result (AllByRecursion (IsLeaf needs) (record_of segment.now doc).leaves) }
        ensures seen { OnOk result
            (AreSeen config.now labels.now segment.now.terms doc
            (record_of segment.now doc).leaves self.new.counted.items
            self.old.walk.next.items self.new.walk.next.items) }
    {
        self.leaves.clear();
        self.counted.clear();
        let mut leaves = segment.leaves(doc);
        while let Some(leaf) = leaves.next() {
            self.check_label(alloc, config, labels, needs, segment, doc, leaf)?;
        }
        Ok(())
    }

    // Checks that the record is right, and passes its place under each of its document's terms.
    fn check_document(
        &mut self,
        alloc: Global,
        config: &FacetsConfig,
        labels: &Taxonomy,
        needs: u32,
        segment: &Segment,
        doc: u32,
    ) -> Result<(), Unlike>
        requires there { doc < length segment.now.records }
        requires fits { IsRecord (record_of segment.now doc) }
        requires list { IsLabelList labels.now }
        requires needs { needs ≤ length labels.now }
        requires ready { IsReady config.now labels.now needs segment.now.terms self.old }
        ensures ready { OnOk result (IsReady config.now labels.now needs segment.now.terms self.new) }
        ensures right { OnOk result (IsRight config.now labels.now needs (record_of segment.now doc)) }
        ensures passes { OnOk result
            (Passes segment.now.terms doc (doc_terms (doc_in labels.now
            (record_of segment.now doc))) self.old.walk.next.items self.new.walk.next.items) }
    {
        self.walk.pass_text(alloc, segment, segment.text(doc), doc)?;
        self.check_labels(alloc, config, labels, needs, segment, doc)?;
        check_counted(segment, doc, &mut self.counted)
    }
}

// Returns whether memory for all labels is little compared with the documents.
fn has_many_documents(labels: u32, docs: u32) -> bool {
    labels as u64 <= 64 * (docs as u64 + 64)
}

/// Checks that each record is right, and that the stored terms and places are exactly those of the documents. It makes
/// no document, and looks each label up once for all documents that have it. With many labels and few documents it
/// returns `Differs` without a check, since one would save nothing.
///
/// Errors: `Differs`; out of memory.
pub(crate) fn verify(
    alloc: Global,
    config: &FacetsConfig,
    labels: &Taxonomy,
    needs: u32,
    segment: &Segment,
) -> Result<(), Unlike>
    requires { needs ≤ length labels.now }
    ensures right { OnOk result (AllByRecursion (IsRight config.now labels.now needs) segment.now.records) }
    ensures theirs { OnOk result (AreTheirs (map (doc_in labels.now) segment.now.records) segment.now.terms) }
    ensures list { IsLabelList labels.now }
{
    let all_labels = labels.size();
    if !has_many_documents(all_labels, segment.docs()) {
        return Err(Unlike::Differs);
    }
    let mut verifier = Verifier {
        met: MetLabels::new(alloc, all_labels as usize)?,
        walk: Walk::new(alloc, segment.terms())?,
        leaves: Vec::new(alloc),
        counted: Vec::new(alloc),
    };
    for doc in 0..segment.docs() {
        verifier.check_document(alloc, config, labels, needs, segment, doc)?;
    }
    verifier.walk.check_end(segment)
}
