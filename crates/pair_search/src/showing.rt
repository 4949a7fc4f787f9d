ghost use Rattle.std.specs.Prelude.{◌≡◌, ◌≢◌, ◌<◌, None, Some, Err, All, IfOk, MatchOption, length, map, slice_get};
ghost use Rattle.std.specs.Arc.{arc_value};
ghost use Rattle.seg_documents.specs.Decoding.{doc_in, records_in};
ghost use Rattle.seg_grammar.specs.Lookups.{record_of};
ghost use Rattle.pair_manager.specs.Kept.{IsPair};
ghost use Rattle.pair_search.specs.Replies.{document_reply};
ghost use Rattle.pair_search.specs.Showing.{IsShownIn};
ghost use Rattle.pair_search.specs.declared.showing.DocumentFault.TheVariants.{NoMemory as NoRoom};

use facet_model::Document;
use facet_names::NoMemory;
use pair_manager::Pair;
use seg_decoding::{document_of, ordinals_of};
use seg_file::Segment;
use std::alloc::Global;
use std::sync::Arc;
use taxo_list::TaxoView;

/// A document of a pair.
#[derive(Debug, Drop)]
pub struct Shown {
    /// How many operations the documents of the pair come from.
    pub operations: u64,
    /// A copy of the document.
    pub doc: Document,
    /// The ordinals of its labels, in the order of its facets.
    pub ordinals: Vec<u32>,
}

/// Why no document is returned.
#[derive(Drop, Clone, Copy, Debug, PartialEq, Eq)]
pub enum DocumentFault {
    /// The session holds no pair under the name.
    NotHeld,
    /// There are `count` documents, and none at the place.
    NoSuchDocument { count: u64 },
    /// Out of memory.
    NoMemory,
}

/// Returns the segment that has the live document at a place, and the document's place in the segment. It visits the
/// segments in order, and allocates nothing.
pub(crate) fn find(segments: &[Arc<Segment>], at: usize) -> Option<(&Segment, u32)>
    ensures { MatchOption result (slice_get (records_in (map arc_value segments.now)) at
        ≡ None) (λ p. (p.1 < length p.0.now.records)
        × (slice_get (records_in (map arc_value segments.now)) at ≡ Some (record_of p.0.now p.1))) }
{
    let mut at = at;
    for segment in segments {
        let live = segment.live() as usize;
        if at < live {
            return Some((segment, segment.live_at(at as u32)));
        }
        at -= live;
    }
    None
}

// Returns the document at a place of a segment, with its ordinals.
fn show(
    alloc: Global,
    view: &TaxoView,
    segment: &Segment,
    place: u32,
    operations: u64,
) -> Result<Shown, NoMemory>
    requires leaves { All (λ ord. (0 < ord) × (ord < length view.now)) (record_of segment.now place).leaves }
    requires place { place < length segment.now.records }
    ensures { IfOk result (λ s. (s.operations ≡ operations)
        × (s.doc ≡ doc_in view.now (record_of segment.now place))
        × (s.ordinals.items ≡ (record_of segment.now place).leaves)) }
{
    let ordinals = ordinals_of(alloc, segment.leaves(place))?;
    let doc = document_of(alloc, view, segment, place, &ordinals)?;
    Ok(Shown {
        operations,
        doc,
        ordinals,
    })
}

// Returns the document at a place of a pair that has these segments.
fn show_in(
    alloc: Global,
    pair: &Pair,
    segments: &[Arc<Segment>],
    at: u32,
) -> Result<Shown, DocumentFault>
    requires segments { map arc_value segments.now ≡ pair.now.segments }
    requires is { IsPair pair.now }
    ensures { result ≢ Err NoRoom → IsShownIn pair.now at (document_reply at result) }
{
    match find(segments, at as usize) {
        Some((segment, place)) => match show(
            alloc,
            pair.view(),
            segment,
            place,
            pair.operations(),
        ) {
            Ok(shown) => Ok(shown),
            Err(NoMemory) => Err(DocumentFault::NoMemory),
        },
        None => Err(DocumentFault::NoSuchDocument {
            count: u64::from(pair.documents()),
        }),
    }
}

/// Returns the document at a place of a pair, from 0. It takes no lock, visits the segments in order, and copies the
/// document. If there are 256 segments or more it also allocates eight bytes per segment.
///
/// Errors: `NoSuchDocument`; out of memory.
pub fn show_pair(alloc: Global, pair: &Pair, at: u32) -> Result<Shown, DocumentFault>
    ensures { result ≢ Err NoRoom → IsShownIn pair.now at (document_reply at result) }
{
    let segments = pair.segments();
    if let Some(few) = segments.as_slice() {
        return show_in(alloc, pair, few, at);
    }
    match segments.to_vec() {
        Ok(all) => show_in(alloc, pair, &all, at),
        Err(_) => Err(DocumentFault::NoMemory),
    }
}
