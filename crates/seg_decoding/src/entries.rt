//! The documents of a segment's records, with their ordinals computed again.
ghost use Rattle.std.specs.Prelude.{◌≡◌, ◌<◌, ◌≤◌, ◌+◌, ◌*◌, ◌^◌, ◌++◌, ◌&&◌, nat_lt, ℕ, List, Some, All, IfOk, length};
ghost use Rattle.std.specs.Prelude.{map, slice_get};
ghost use Rattle.facet_names.specs.Labels.{IsLabelList};
ghost use Rattle.facet_model.specs.CountedPaths.{counted_ordinals};
ghost use Rattle.facet_model.specs.Stored.{AreLabelsAt};
ghost use Rattle.facet_model.specs.declared.document.DocShape.TheVariants.{NoMemory as Memory};
ghost use Rattle.seg_grammar.specs.Lookups.{record_of};
ghost use Rattle.seg_grammar.specs.Spelling.{IsRecord};
ghost use Rattle.seg_terms.specs.Entries.{stored_of};
ghost use Rattle.seg_decoding.specs.Answers.{Gives, IsLeaf};
ghost use Rattle.seg_documents.specs.Decoding.{doc_in};
ghost use Rattle.seg_documents.specs.Entries.{docs_of};
ghost use Rattle.seg_decoding.specs.Opening.{leaves_fit, document_fits, documents_fit, counted_anew};

use crate::fault::StoredFault;
use crate::resolving::resolve_all;
use crate::sizes::{leaves_place, next_record};
use facet_config::FacetsConfig;
use facet_model::{DocShape, Document};
use facet_names::{NoMemory, Path};
use seg_file::{Entry, Ords, Segment};
use std::alloc::Global;
use taxo_list::{Labelled, Taxonomy};

/// Returns the ordinals as a vector, in order. Errors: out of memory.
pub fn ordinals_of(alloc: Global, mut leaves: Ords<'_>) -> Result<Vec<u32>, NoMemory>
    ensures { IfOk result (λ v. v.items ≡ leaves.entry) }
{
    let mut ordinals = Vec::with_capacity(alloc, leaves.len())?;
    while let Some(leaf) = leaves.next() {
        ordinals.push(leaf)?;
    }
    Ok(ordinals)
}

/// Returns whether this is the ordinal of a label after the root, below `needs`.
pub(crate) fn is_leaf(needs: u32, leaf: u32) -> bool
    ensures { result ≡ (nat_lt 0 leaf && nat_lt leaf needs) }
{
    0 < leaf && leaf < needs
}

// Checks that each of the leaves is from 1 to `needs` - 1. The first leaf is at the place `at`.
fn check_leaves(needs: u32, leaves: &[u32], at: u64) -> Result<(), StoredFault>
    requires few { length leaves.now ≤ 256 }
    requires at { at < 2 ^ 63 }
    ensures { Gives (λ _. tt) result (leaves_fit needs at leaves.now) }
{
    for (k, leaf) in leaves.iter().enumerate() {
        if !is_leaf(needs, *leaf) {
            return Err(StoredFault::Malformed {
                at: at + 4 * k as u64,
            });
        }
    }
    Ok(())
}

/// Copies the labels at these ordinals. Errors: out of memory.
pub fn labels_at<L: Labelled>(
    alloc: Global,
    labels: &L,
    ordinals: &[u32],
) -> Result<Vec<Path>, NoMemory>
    requires { All (IsLeaf (length (L.labels labels.now))) ordinals.now }
    ensures { IfOk result (λ v. AreLabelsAt (L.labels labels.now) ordinals.now v.items) }
{
    let mut copies = Vec::with_capacity(alloc, ordinals.len())?;
    for ord in ordinals {
        let path = labels.path_of(*ord).dup(alloc)?;
        copies.push(path)?;
    }
    Ok(copies)
}

// A record is within the limits of a document, so the only fault is out of memory.
fn no_memory(fault: DocShape) -> NoMemory
    requires { fault ≡ Memory }
{
    NoMemory
}

/// Returns the document of a segment at a place. Its labels are those at its leaves. It copies the id, the text and the
/// labels. Errors: out of memory.
pub fn document_of<L: Labelled>(
    alloc: Global,
    labels: &L,
    segment: &Segment,
    doc: u32,
    leaves: &[u32],
) -> Result<Document, NoMemory>
    requires there { doc < length segment.now.records }
    requires own { leaves.now ≡ (record_of segment.now doc).leaves }
    requires within { All (IsLeaf (length (L.labels labels.now))) leaves.now }
    ensures doc { IfOk result (λ d. d ≡ doc_in (L.labels labels.now) (record_of segment.now doc)) }
    ensures labels { IfOk result (λ d. AreLabelsAt (L.labels labels.now) leaves.now d.labels) }
{
    let paths = labels_at(alloc, labels, leaves)?;
    match Document::new(alloc, segment.id(doc), segment.text(doc), paths) {
        Ok(document) => Ok(document),
        Err(fault) => Err(no_memory(fault)),
    }
}

/// Returns the document with its leaves and the ordinals that are counted for it. Errors: out of memory.
pub(crate) fn entry_of(
    alloc: Global,
    config: &FacetsConfig,
    labels: &Taxonomy,
    doc: Document,
    leaves: Vec<u32>,
) -> Result<Entry, NoMemory>
    requires list { IsLabelList labels.now }
    requires labels { AreLabelsAt labels.now leaves.items doc.labels }
    ensures doc { IfOk result (λ e. e.doc ≡ doc) }
    ensures stored { IfOk result (λ e. stored_of e ≡ record {
      id = doc.id;
      text = doc.text;
      leaves = leaves.items;
      counted = counted_ordinals labels.now config.now doc.labels;
    }) }
{
    let resolved = resolve_all(alloc, labels, doc.facets())?;
    let counted = config.expand(alloc, &doc, &resolved)?;
    Ok(Entry {
        doc,
        leaves,
        counted,
    })
}

// Returns the document of a record that begins at a place, with its ordinals computed again, if it fits.
fn entry_at(
    alloc: Global,
    config: &FacetsConfig,
    labels: &Taxonomy,
    needs: u32,
    segment: &Segment,
    doc: u32,
    at: u64,
) -> Result<Entry, StoredFault>
    requires list { IsLabelList labels.now }
    requires needs { needs ≤ length labels.now }
    requires there { doc < length segment.now.records }
    requires fits { IsRecord (record_of segment.now doc) }
    requires at { at < 2 ^ 62 }
    ensures fits { Gives (λ _. tt) result (document_fits config.now labels.now needs at (record_of segment.now doc)) }
    ensures doc { IfOk result (λ e. e.doc ≡ doc_in labels.now (record_of segment.now doc)) }
    ensures stored { IfOk result (λ e. stored_of e ≡ counted_anew config.now labels.now (record_of segment.now doc)) }
{
    let leaves = ordinals_of(alloc, segment.leaves(doc))?;
    check_leaves(needs, &leaves, leaves_place(segment, doc, at))?;
    let document = document_of(alloc, labels, segment, doc, &leaves)?;
    match config.check(&document) {
        Ok(()) => {}
        Err(_) => return Err(StoredFault::Malformed { at }),
    }
    let entry = entry_of(alloc, config, labels, document, leaves)?;
    Ok(entry)
}

/// Returns the documents of a segment, in order, with their ordinals computed again. Errors: the first document that
/// does not fit; out of memory.
pub(crate) fn entries_of(
    alloc: Global,
    config: &FacetsConfig,
    labels: &Taxonomy,
    needs: u32,
    segment: &Segment,
) -> Result<Vec<Entry>, StoredFault>
    requires list { IsLabelList labels.now }
    requires needs { needs ≤ length labels.now }
    ensures fits { Gives (λ _. tt) result (documents_fit config.now labels.now needs 12 segment.now.records) }
    ensures docs { IfOk result (λ v. docs_of v.items ≡ map (doc_in labels.now) segment.now.records) }
    ensures stored { IfOk result (λ v. map stored_of v.items
        ≡ map (counted_anew config.now labels.now) segment.now.records) }
{
    let docs = segment.docs();
    let mut entries = Vec::with_capacity(alloc, docs as usize)?;
    let mut at = 12;
    for doc in 0..docs {
        let entry = entry_at(alloc, config, labels, needs, segment, doc, at)?;
        entries.push(entry)?;
        at = next_record(segment, doc, at);
    }
    Ok(entries)
}
