//! Counting documents: once for each counter, however many of a document's labels count for it.
ghost use Rattle.std.specs.Prelude.{◌≡◌, ◌+◌, ◌<◌, ◌≤◌, ◌++◌, ◌∷◌, [], ℕ, List, nat_eq, All, length, replicate, IfOk};
ghost use Rattle.std.specs.Prelude.{slice_index_or};
ghost use Rattle.std.specs.List.{list_any};
ghost use Rattle.value_facets.specs.Marking.{counters_of, is_marked};
ghost use Rattle.value_facets.specs.Tallying.{HasCounted, IsNoted, IsTally, rows_to, total_of};

use crate::marks::Marks;
use facet_names::NoMemory;
use number_facets::RangeCounts;
use seg_postings::Ords;
use std::alloc::Global;
use std::marker::Model;

/// How many documents each counter has counted. A document whose numbers have one row of counters is counted by the row
/// alone, in one step, and the rows are added to the counters in the end. For other documents it notes for each counter
/// the number of the document that it has counted last, so that it counts a document once.
#[derive(Drop)]
pub(crate) struct Tally {
    counts: Vec<u32>,
    last: Vec<u32>,
    rows: Vec<u32>,
    hits: u32,
}

impl Model for Tally {
    ghost use Rattle.value_facets.specs.Tallying.{IsTally, Tallied};

    ghost Value = { Tallied };

    ghost view = { λ t. record { counts = t.counts.items; rows = t.rows.items; hits = t.hits } };

    ghost invariant = { λ t. IsTally t.counts.items t.last.items t.rows.items t.hits };
}

// Adds to one counter, unless that has counted the document.
fn note(k: u32, hit: u32, number: u32, counts: &mut [u32], last: &mut [u32])
    requires within { k < length counts.old }
    requires same { length last.old ≡ length counts.old }
    requires room { slice_index_or counts.old k 0 ≤ 2000000 }
    requires few { number ≤ 1000000 }
    ensures { IsNoted (λ j. nat_eq j k) hit number counts.old last.old counts.new last.new }
{
    let k = k as usize;
    if last[k] != hit {
        last[k] = hit;
        counts[k] += number;
    }
}

// Adds to each of these counters.
fn note_each(counters: &[u32], hit: u32, number: u32, counts: &mut [u32], last: &mut [u32])
    requires within { All (λ k. k < length counts.old) counters.now }
    requires same { length last.old ≡ length counts.old }
    requires room { (k : ℕ) → k < length counts.old → slice_index_or counts.old k 0 ≤ 1000000 }
    requires few { number ≤ 1000000 }
    ensures { IsNoted (λ k. list_any (nat_eq k) counters.now) hit number counts.old last.old counts.new last.new }
{
    for k in counters {
        note(*k, hit, number, counts, last);
    }
}

// Counts it by the counters that one of its labels counts for.
fn note_leaves(marks: &Marks, leaves: &Ords<'_>, hit: u32, counts: &mut [u32], last: &mut [u32])
    requires within { (ord : ℕ) → All (λ k. k < length counts.old) (counters_of marks.now ord) }
    requires same { length last.old ≡ length counts.old }
    requires room { (k : ℕ) → k < length counts.old → slice_index_or counts.old k 0 < 1000000 }
    ensures { IsNoted (λ k. list_any (is_marked marks.now k) leaves.now) hit 1 counts.old last.old counts.new last.new }
{
    for i in 0..leaves.len() {
        note_each(marks.counters(leaves.at(i)), hit, 1, counts, last);
    }
}

// Returns how many documents a row has counted.
fn number_of_row(rows: &[u32], slot: usize) -> u32
    ensures { result ≡ slice_index_or rows.now slot 0 }
{
    if slot < rows.len() { rows[slot] } else { 0 }
}

// Adds what each row has counted to its counters. The first so many numbers of documents have been noted.
fn add_rows(marks: &Marks, rows: &[u32], hits: u32, counts: &mut [u32], last: &mut [u32])
    requires within { (slot : ℕ) → All (λ k. k < length counts.old) (slice_index_or marks.now.rows slot []) }
    requires tally { IsTally counts.old last.old rows.now hits }
    requires room { (k : ℕ) → k < length counts.old
        → slice_index_or counts.old k 0 + rows_to marks.now.rows rows.now k (length marks.now.rows) ≤ 1000000 }
    ensures as_many { length counts.new ≡ length counts.old }
    ensures each { (k : ℕ) → k < length counts.old → slice_index_or counts.new k 0
        ≡ slice_index_or counts.old k 0 + rows_to marks.now.rows rows.now k (length marks.now.rows) }
{
    for slot in 0..marks.rows() {
        note_each(
            marks.row(slot),
            hits + 1 + slot as u32,
            number_of_row(rows, slot),
            counts,
            last,
        );
    }
}

impl Tally {
    /// Returns a tally of no document, for so many counters and so many rows of them. Memory: 8 bytes for each counter,
    /// and 4 for each row. Errors: out of memory.
    pub(crate) fn new(alloc: Global, counters: usize, slots: usize) -> Result<Tally, NoMemory>
        ensures { IfOk result (λ t. t ≡ record { counts = replicate counters 0; rows = replicate slots 0; hits = 0 }) }
    {
        let mut counts = Vec::new(alloc);
        counts.resize(counters, 0)?;
        let mut last = Vec::new(alloc);
        last.resize(counters, 0)?;
        let mut rows = Vec::new(alloc);
        rows.resize(slots, 0)?;
        Ok(Tally {
            counts,
            last,
            rows,
            hits: 0,
        })
    }

    /// Counts a document, by the ordinals of its labels, once for each counter that one of them counts for. Fewer than
    /// a million were counted before. It allocates nothing.
    pub(crate) fn count(&mut self, marks: &Marks, leaves: &Ords<'_>)
        requires within { (ord : ℕ) → All (λ k. k < length self.old.counts) (counters_of marks.now ord) }
        requires few { self.old.hits < 1000000 }
        ensures hits { self.new.hits ≡ self.old.hits + 1 }
        ensures as_many { length self.new.counts ≡ length self.old.counts }
        ensures counted { (lists : List (List ℕ)) → HasCounted marks.now lists self.old
            → HasCounted marks.now (lists ++ leaves.now ∷ []) self.new }
    {
        self.hits += 1;
        if let Some(slot) = marks.slot_of_all(leaves) {
            if slot < self.rows.len() {
                self.rows[slot] += 1;
                return;
            }
        }
        note_leaves(marks, leaves, self.hits, &mut self.counts, &mut self.last);
    }

    /// Returns the counts: those of the last counter as the documents with a value, and those of the others as ranges.
    pub(crate) fn into_counts(self, marks: &Marks) -> RangeCounts
        requires some { 0 < length self.counts }
        requires within { (slot : ℕ) → All (λ k. k < length self.counts) (slice_index_or marks.now.rows slot []) }
        requires room { (k : ℕ) → k < length self.counts → total_of marks.now self k ≤ 1000000 }
        ensures { (counts : List ℕ) (valued : ℕ) → length (counts ++ valued ∷ []) ≡ length self.counts
            → ((k : ℕ) → k < length self.counts
            → total_of marks.now self k ≡ slice_index_or (counts ++ valued ∷ []) k 0)
            → result ≡ record { counts = counts; valued = valued } }
    {
        let Tally {
            mut counts,
            mut last,
            rows,
            hits,
        } = self;
        add_rows(marks, &rows, hits, &mut counts, &mut last);
        match counts.pop() {
            Some(valued) => RangeCounts::new(counts, valued),
            None => unreachable!(),
        }
    }
}
