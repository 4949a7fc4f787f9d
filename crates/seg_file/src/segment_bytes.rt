ghost use Rattle.std.specs.Prelude.{◌≡◌, ◌≤◌, ◌<◌, ◌+◌, ◌-◌, ℕ, List, map, length, take, drop, IfOk, IfErr};
ghost use Rattle.std.specs.Prelude.{MatchResult, None};
ghost use Rattle.std.specs.List.{flat_map, AllByRecursion};
ghost use Rattle.facet_model.specs.Stored.{Records};
ghost use Rattle.seg_terms.specs.Entries.{segment_of};
ghost use Rattle.seg_grammar.specs.declared.fault.SegFault.TheVariants.{NoMemory as Memory};
ghost use Rattle.seg_grammar.specs.Spelling.{IsRecord, IsSegment, record_bytes, seg_bytes, TermsRise};
ghost use Rattle.seg_grammar.specs.Reading.{Fails, segment_at};
ghost use Rattle.seg_grammar.specs.Lookups.{record_of, places_of_term};
ghost use Rattle.seg_file.specs.Fronts.{BeginsRecord, BeginsCounted, BeginsTerm};
ghost use Rattle.seg_file.specs.Search.{term_of, text_of, IsFirstFrom};

use crate::fronts::{cursor_at, list_front, places_front, text_front};
use crate::key::Key;
use facet_codec::Cursor;
use facet_names::NoMemory;
use seg_grammar::{Index, SegFault, read_index};
use seg_postings::{Ords, Postings};
use seg_terms::{Entry, terms_of};
use seg_writing::write_segment;
use std::alloc::Global;
use std::hash::RandomState;
use std::marker::Model;

/// The bytes of a segment, which are read in place, and where their parts begin: 16 bytes per document and 8 per term.
#[derive(Drop)]
pub(crate) struct SegmentBytes {
    bytes: Vec<u8>,
    index: Index,
}

impl Model for SegmentBytes {
    ghost use Rattle.facet_model.specs.Stored.{Records};
    ghost use Rattle.seg_file.specs.Decoded.{decoded, IsIndexed};

    ghost Value = { Records };

    ghost view = { λ s. decoded s.bytes.items };

    ghost invariant = { λ s. IsIndexed (decoded s.bytes.items) s.bytes.items s.index };
}

impl SegmentBytes {
    /// Makes the segment of documents and their terms: the records in order, and each term once. It allocates the
    /// bytes, and while it works the terms with their places.
    ///
    /// Errors: out of memory, also for 2^32 terms or more, which the format cannot number.
    pub(crate) fn build(
        alloc: Global,
        keys: RandomState,
        entries: &[Entry],
    ) -> Result<SegmentBytes, NoMemory>
        requires some { 0 < length entries.now }
        requires few { length entries.now ≤ 1000000 }
        ensures { IfOk result (λ s. s ≡ segment_of entries.now) }
    {
        let terms = terms_of(alloc, keys, entries)?;
        let written = write_segment(alloc, entries, &terms)?;
        Ok(SegmentBytes {
            bytes: written.bytes,
            index: written.index,
        })
    }

    /// Opens the segment in these bytes, and keeps them. It reads them once from left to right, and frees their spare
    /// capacity. Errors: the first fault; out of memory.
    pub(crate) fn open(alloc: Global, mut bytes: Vec<u8>) -> Result<SegmentBytes, SegFault>
        ensures found { IfOk result (λ s. IsSegment bytes.items s) }
        ensures only { (r : Records) → IsSegment bytes.items r → MatchResult result (λ s. s ≡ r) (λ e. e ≡ Memory) }
        ensures fault { IfErr result (λ e. Fails e (segment_at bytes.items)) }
    {
        let mut index = read_index(alloc, &bytes)?;
        bytes.shrink_to_fit();
        index.records.shrink_to_fit();
        index.counted.shrink_to_fit();
        index.terms.shrink_to_fit();
        Ok(SegmentBytes { bytes, index })
    }

    /// Returns the bytes.
    pub(crate) fn bytes(&self) -> &[u8]
        ensures bytes { result.now ≡ seg_bytes self.now }
        ensures is { IsSegment (seg_bytes self.now) self.now }
    {
        self.bytes.as_slice()
    }

    /// Returns how many documents there are, 1 to 1,000,000.
    pub(crate) fn docs(&self) -> u32
        ensures number { result ≡ length self.now.records }
        ensures is { IsSegment (seg_bytes self.now) self.now }
    {
        self.index.records.len() as u32
    }

    /// Returns the id of a document.
    pub(crate) fn id(&self, doc: u32) -> &str
        requires { doc < length self.now.records }
        ensures id { result.now ≡ (record_of self.now doc).id }
        ensures fits { IsRecord (record_of self.now doc) }
    {
        let mut cursor = self.record(doc);
        text_front(&mut cursor)
    }

    /// Returns the text of a document.
    pub(crate) fn text(&self, doc: u32) -> &str
        requires { doc < length self.now.records }
        ensures { result.now ≡ (record_of self.now doc).text }
    {
        let mut cursor = self.record(doc);
        text_front(&mut cursor);
        text_front(&mut cursor)
    }

    /// Returns the ordinals of a document's labels, in the order given.
    pub(crate) fn leaves(&self, doc: u32) -> Ords<'_>
        requires { doc < length self.now.records }
        ensures { result ≡ (record_of self.now doc).leaves }
    {
        let mut cursor = self.record(doc);
        text_front(&mut cursor);
        text_front(&mut cursor);
        list_front(&mut cursor)
    }

    /// Returns the ordinals that are counted for a document, rising, at most 8,192, in constant time.
    pub(crate) fn counted(&self, doc: u32) -> Ords<'_>
        requires { doc < length self.now.records }
        ensures { result ≡ (record_of self.now doc).counted }
    {
        let mut cursor = self.counted_list(doc);
        list_front(&mut cursor)
    }

    /// Returns the documents that have a term, rising, or `None` if there is no such term, by binary search.
    pub(crate) fn postings(&self, key: &Key<'_>) -> Option<Postings<'_>>
        ensures { result ≡ places_of_term self.now.terms (text_of key.now) }
    {
        let at = self.first_from(key);
        if at == self.terms() {
            return None;
        }
        if key.order(self.term_text(at)).is_ne() {
            return None;
        }
        Some(self.places(at))
    }

    /// Returns how many terms there are.
    pub(crate) fn terms(&self) -> usize
        ensures number { result ≡ length self.now.terms }
        ensures rise { TermsRise None self.now.terms }
    {
        self.index.terms.len()
    }

    /// Returns how many terms are less than this one, by binary search.
    pub(crate) fn first_from(&self, key: &Key<'_>) -> usize
        ensures first { IsFirstFrom (text_of key.now) self.now.terms result result }
        ensures within { result ≤ length self.now.terms }
        ensures rise { TermsRise None self.now.terms }
    {
        let mut low = 0;
        let mut high = self.terms();
        while low < high {
            let middle = low + (high - low) / 2;
            if key.order(self.term_text(middle)).is_lt() {
                low = middle + 1;
            } else {
                high = middle;
            }
        }
        low
    }

    /// Returns the text of a term.
    pub(crate) fn term_text(&self, at: usize) -> &str
        requires { at < length self.now.terms }
        ensures { result.now ≡ (term_of self.now.terms at).0 }
    {
        let mut cursor = self.term(at);
        text_front(&mut cursor)
    }

    /// Returns the places of a term.
    pub(crate) fn places(&self, at: usize) -> Postings<'_>
        requires { at < length self.now.terms }
        ensures { result ≡ (term_of self.now.terms at).1 }
    {
        let mut cursor = self.term(at);
        text_front(&mut cursor);
        places_front(&mut cursor)
    }

    /// Returns the bytes of the records from one number up to another one.
    pub(crate) fn record_range(&self, from: usize, to: usize) -> &[u8]
        requires order { from ≤ to }
        requires within { to ≤ length self.now.records }
        ensures bytes { result.now ≡ flat_map record_bytes (take (to - from) (drop from self.now.records)) }
        ensures fit { AllByRecursion IsRecord (take (to - from) (drop from self.now.records)) }
    {
        let start = self.record_start(from);
        let end = self.record_start(to);
        &self.bytes[start..end]
    }

    // Returns where the record of a number begins, or where all of them end.
    fn record_start(&self, number: usize) -> usize
        requires { number ≤ length self.now.records }
        ensures { result ≡ 12 + length (flat_map record_bytes (take number self.now.records)) }
    {
        if number < self.index.records.len() {
            return self.index.records[number];
        }
        // The number of terms, in four bytes, follows them.
        if self.index.terms.is_empty() {
            return self.bytes.len() - 4;
        }
        self.index.terms[0] - 4
    }

    // Returns a cursor at a term.
    fn term(&self, at: usize) -> Cursor<'_>
        requires { at < length self.now.terms }
        ensures { BeginsTerm (length self.now.records) result.rest (term_of self.now.terms at) }
    {
        cursor_at(self.bytes.as_slice(), self.index.terms[at])
    }

    // Returns a cursor at a record.
    fn record(&self, doc: u32) -> Cursor<'_>
        requires { doc < length self.now.records }
        ensures { BeginsRecord result.rest (record_of self.now doc) }
    {
        cursor_at(self.bytes.as_slice(), self.index.records[doc as usize])
    }

    // Returns a cursor at the counted ordinals of a record.
    fn counted_list(&self, doc: u32) -> Cursor<'_>
        requires { doc < length self.now.records }
        ensures { BeginsCounted result.rest (record_of self.now doc) }
    {
        cursor_at(self.bytes.as_slice(), self.index.counted[doc as usize])
    }
}
