ghost use Rattle.std.specs.Prelude.{◌≡◌, ◌≤◌, ◌<◌, ◌||◌, ◌-◌, ◌++◌, not, codes, false, ℕ, List, map, length, take};
ghost use Rattle.std.specs.Prelude.{drop, IfOk, IfErr, MatchResult, None};
ghost use Rattle.std.specs.List.{flat_map, AllByRecursion};
ghost use Rattle.facet_codec.specs.Laws.{IsBelow};
ghost use Rattle.seg_postings.specs.Rising.{IsRising};
ghost use Rattle.facet_model.specs.Stored.{Records, is_dead, live_before};
ghost use Rattle.seg_terms.specs.Entries.{segment_of};
ghost use Rattle.seg_grammar.specs.declared.fault.SegFault.TheVariants.{NoMemory as Memory};
ghost use Rattle.seg_grammar.specs.Spelling.{IsRecord, IsSegment, all_live, record_bytes, seg_bytes, TermsRise};
ghost use Rattle.seg_grammar.specs.Reading.{Fails, segment_at};
ghost use Rattle.seg_grammar.specs.Lookups.{record_of, places_of_term};
ghost use Rattle.seg_file.specs.Search.{term_of, IsFirstFrom};

use crate::key::Key;
use crate::segment_bytes::SegmentBytes;
use counted_column::Column;
use facet_names::NoMemory;
use live_records::LiveRecords;
use seg_grammar::SegFault;
use seg_postings::{Ords, Postings};
use seg_terms::Entry;
use std::alloc::{AllocError, Global};
use std::hash::RandomState;
use std::marker::Model;
use std::sync::Arc;

/// Documents and their terms, as bytes that are read in place. No reader copies or allocates.
///
/// Memory: the bytes; where their parts begin, 16 bytes per document and 8 per term; and the [`Column`] of the counted
/// ordinals, 4.5 to 5 bytes per document if documents share their labels. Records are live until they are left out,
/// which takes 4 bytes each.
#[derive(Drop)]
pub struct Segment {
    stored: Arc<SegmentBytes>,
    column: Arc<Column>,
    live: LiveRecords,
}

impl Model for Segment {
    ghost use Rattle.std.specs.Arc.{arc_value};
    ghost use Rattle.facet_model.specs.Stored.{Records};
    ghost use Rattle.seg_file.specs.Live.{IsKept, with_dead};

    ghost Value = { Records };

    ghost view = { λ s. with_dead (arc_value s.stored) s.live.dead };

    ghost invariant = { λ s. IsKept (arc_value s.stored) (arc_value s.column) s.live };
}

// Returns the counted ordinals of each document, as a column. While it works it takes 16 bytes per document.
fn column_of(alloc: Global, stored: &SegmentBytes) -> Result<Column, AllocError>
    ensures { IfOk result (λ c. c ≡ map (λ r. r.counted) stored.now.records) }
{
    let docs = stored.docs();
    let mut lists = Vec::with_capacity(alloc, docs as usize)?;
    for doc in 0..docs {
        lists.push(stored.counted(doc))?;
    }
    Column::of(alloc, &lists)
}

// Returns a segment whose records are all live.
fn of_stored(alloc: Global, stored: SegmentBytes) -> Result<Segment, AllocError>
    ensures { IfOk result (λ s. s ≡ stored) }
{
    let column = column_of(alloc, &stored)?;
    let live = LiveRecords::all(alloc, stored.docs());
    Ok(Segment {
        stored: Arc::new(alloc, stored)?,
        column: Arc::new(alloc, column)?,
        live,
    })
}

impl Segment {
    /// Makes the segment of documents and their terms: the records in order, and each term once. `keys` are hash keys;
    /// no result depends on them.
    ///
    /// It allocates the bytes, the index and the column, and while it works the terms with their places.
    ///
    /// Errors: out of memory, also for 2^32 terms or more, which the format cannot number, or 2^32 counted ordinals
    /// without a bit map, which the column cannot.
    pub fn build(alloc: Global, keys: RandomState, entries: &[Entry]) -> Result<Segment, NoMemory>
        requires some { 0 < length entries.now }
        requires few { length entries.now ≤ 1000000 }
        ensures { IfOk result (λ s. s ≡ segment_of entries.now) }
    {
        let stored = SegmentBytes::build(alloc, keys, entries)?;
        Ok(of_stored(alloc, stored)?)
    }

    /// Opens the segment in these bytes, and keeps them. It checks them in one pass from left to right. The column
    /// needs two more passes over the counted ordinals.
    ///
    /// Errors: the first fault of the bytes; out of memory, also for 2^32 counted ordinals without a bit map, which the
    /// column cannot number.
    pub fn open(alloc: Global, bytes: Vec<u8>) -> Result<Segment, SegFault>
        ensures found { IfOk result (λ s. IsSegment bytes.items s) }
        ensures only { (r : Records) → IsSegment bytes.items r → MatchResult result (λ s. s ≡ r) (λ e. e ≡ Memory) }
        ensures fault { IfErr result (λ e. Fails e (segment_at bytes.items)) }
    {
        let stored = SegmentBytes::open(alloc, bytes)?;
        Ok(of_stored(alloc, stored)?)
    }

    /// Returns the bytes.
    pub fn bytes(&self) -> &[u8]
        ensures bytes { result.now ≡ seg_bytes self.now }
        ensures is { IsSegment (seg_bytes self.now) (all_live self.now) }
    {
        self.stored.bytes()
    }

    /// Returns how many documents there are, 1 to 1,000,000.
    pub fn docs(&self) -> u32
        ensures number { result ≡ length self.now.records }
        ensures is { IsSegment (seg_bytes self.now) (all_live self.now) }
    {
        self.stored.docs()
    }

    /// Returns the id of a document.
    pub fn id(&self, doc: u32) -> &str
        requires { doc < length self.now.records }
        ensures id { result.now ≡ (record_of self.now doc).id }
        ensures fits { IsRecord (record_of self.now doc) }
    {
        self.stored.id(doc)
    }

    /// Returns the text of a document.
    pub fn text(&self, doc: u32) -> &str
        requires { doc < length self.now.records }
        ensures { result.now ≡ (record_of self.now doc).text }
    {
        self.stored.text(doc)
    }

    /// Returns the ordinals of a document's labels, in the order given.
    pub fn leaves(&self, doc: u32) -> Ords<'_>
        requires { doc < length self.now.records }
        ensures { result ≡ (record_of self.now doc).leaves }
    {
        self.stored.leaves(doc)
    }

    /// Returns the ordinals that are counted for a document, rising, at most 8,192, in constant time.
    pub fn counted(&self, doc: u32) -> Ords<'_>
        requires { doc < length self.now.records }
        ensures { result ≡ (record_of self.now doc).counted }
    {
        self.stored.counted(doc)
    }

    /// Returns the bytes of a record: its id, its text, its leaves and its counted ordinals, as format 1 writes them.
    /// It takes constant time.
    pub fn record_bytes(&self, doc: u32) -> &[u8]
        requires { doc < length self.now.records }
        ensures bytes { result.now ≡ record_bytes (record_of self.now doc) }
        ensures fits { IsRecord (record_of self.now doc) }
    {
        let doc = doc as usize;
        self.stored.record_range(doc, doc + 1)
    }

    /// Returns the bytes of the records from `from` up to `to`, without that one, each following the one before it. It
    /// takes constant time.
    pub fn record_range(&self, from: u32, to: u32) -> &[u8]
        requires order { from ≤ to }
        requires within { to ≤ length self.now.records }
        ensures bytes { result.now ≡ flat_map record_bytes (take (to - from) (drop from self.now.records)) }
        ensures fit { AllByRecursion IsRecord (take (to - from) (drop from self.now.records)) }
    {
        self.stored.record_range(from as usize, to as usize)
    }

    /// Returns the documents that have a term, rising, or `None` if there is no such term. It takes a binary search
    /// over the terms.
    pub fn postings(&self, term: &str) -> Option<Postings<'_>>
        ensures { result ≡ places_of_term self.now.terms term.now }
    {
        self.stored.postings(&Key::Text(term))
    }

    /// Returns the documents that have a word, rising, or `None` if there is no such word. It costs as much as
    /// [`postings`](Segment::postings).
    pub fn word_postings(&self, word: &str) -> Option<Postings<'_>>
        ensures { result ≡ places_of_term self.now.terms (codes "w" ++ word.now) }
    {
        self.stored.postings(&Key::Word(word))
    }

    /// Returns how many terms there are.
    pub fn terms(&self) -> usize
        ensures number { result ≡ length self.now.terms }
        ensures rise { TermsRise None self.now.terms }
    {
        self.stored.terms()
    }

    /// Returns how many terms are less than the text, by binary search.
    pub fn first_from(&self, text: &str) -> usize
        ensures first { IsFirstFrom text.now self.now.terms result result }
        ensures within { result ≤ length self.now.terms }
        ensures rise { TermsRise None self.now.terms }
    {
        self.stored.first_from(&Key::Text(text))
    }

    /// Returns the text of a term.
    pub fn term_text(&self, at: usize) -> &str
        requires { at < length self.now.terms }
        ensures { result.now ≡ (term_of self.now.terms at).0 }
    {
        self.stored.term_text(at)
    }

    /// Returns the places of a term.
    pub fn places(&self, at: usize) -> Postings<'_>
        requires { at < length self.now.terms }
        ensures { result ≡ (term_of self.now.terms at).1 }
    {
        self.stored.places(at)
    }

    /// Returns the counted ordinals of all documents.
    pub fn column(&self) -> &Column
        ensures { result.now ≡ map (λ r. r.counted) self.now.records }
    {
        &self.column
    }

    /// Returns how many records are live.
    pub fn live(&self) -> u32
        ensures { result ≡ live_before self.now.dead (length self.now.records) }
    {
        self.live.number()
    }

    /// Returns whether a record is live, by binary search.
    pub fn is_live(&self, doc: u32) -> bool
        requires { doc < length self.now.records }
        ensures { result ≡ not (is_dead self.now.dead doc) }
    {
        self.live.is_live(doc)
    }

    /// Returns how many live records there are before a record, by binary search.
    pub fn rank(&self, doc: u32) -> u32
        requires { doc < length self.now.records }
        ensures { result ≡ live_before self.now.dead doc }
    {
        self.live.rank(doc)
    }

    /// Returns the live record with `rank` live ones before it, by binary search.
    pub fn live_at(&self, rank: u32) -> u32
        requires { rank < live_before self.now.dead (length self.now.records) }
        ensures within { result < length self.now.records }
        ensures live { is_dead self.now.dead result ≡ false }
        ensures rank { live_before self.now.dead result ≡ rank }
    {
        self.live.place_of(rank)
    }

    /// Returns the records that are not live, rising.
    pub fn dead(&self) -> &[u32]
        ensures dead { result.now ≡ self.now.dead }
        ensures rise { IsRising self.now.dead }
        ensures within { AllByRecursion (IsBelow (length self.now.records)) self.now.dead }
    {
        self.live.dead()
    }

    /// Returns a segment of the same bytes in which these records are no longer live. The two share the bytes. Errors:
    /// out of memory.
    pub fn without(&self, alloc: Global, docs: &[u32]) -> Result<Segment, NoMemory>
        requires { AllByRecursion (IsBelow (length self.now.records)) docs.now }
        ensures records { IfOk result (λ s. s.records ≡ self.now.records) }
        ensures terms { IfOk result (λ s. s.terms ≡ self.now.terms) }
        ensures dead { IfOk result (λ s. (n : ℕ) → is_dead s.dead n ≡ (is_dead self.now.dead n || is_dead docs.now n)) }
        ensures rise { IfOk result (λ s. IsRising s.dead) }
        ensures within { IfOk result (λ s. AllByRecursion (IsBelow (length s.records)) s.dead) }
    {
        Ok(Segment {
            stored: Arc::try_clone(&self.stored)?,
            column: Arc::try_clone(&self.column)?,
            live: self.live.without(alloc, docs)?,
        })
    }
}
