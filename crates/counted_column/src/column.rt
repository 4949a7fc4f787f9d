ghost use Rattle.std.specs.Prelude.{◌≡◌, ◌<◌, ◌≤◌, ◌+◌, ◌/◌, ◌^◌, [], ℕ, true, All, nat_eq, length, map};
ghost use Rattle.std.specs.Prelude.{slice_index_or, count_by, IfOk};
ghost use Rattle.std.specs.List.{list_any, AllByRecursion};
ghost use Rattle.seg_postings.specs.Rising.{IsRising, is_in};

use crate::counting::{count_maps, count_sparse};
use crate::making::{dense_ordinals, document_numbers, empty_sets, note_lists};
use place_bits::Bits;
use seg_postings::Ords;
use std::alloc::{AllocError, Global};
use std::marker::Model;

/// The counted ordinals of a segment's documents, stored so that sets of documents are counted quickly.
///
/// - An ordinal that at least one document in 64 has is dense. It has a bit map with a bit for each document.
/// - Ordinals of 1,000,000 or more are not dense, nor are those of 64 times the number of all ordinals of the documents
///   or more. With fewer than 64 documents no ordinal is dense.
/// - The other ordinals are sparse. They are stored document by document.
///
/// Memory: a bit per document for each dense ordinal; 4 bytes for each sparse ordinal of a document; and, if there are
/// any, 4 bytes per document. So the bit maps take at most 8 bytes for each ordinal that a document has.
#[derive(Drop)]
pub struct Column {
    docs: u32,
    dense: Vec<u32>,
    maps: Vec<Bits>,
    starts: Vec<u32>,
    ords: Vec<u32>,
}

impl Model for Column {
    ghost use Rattle.std.specs.Prelude.{List, ℕ};
    ghost use Rattle.counted_column.specs.Columns.{Parts, IsColumn, lists_of};

    ghost Value = { List (List ℕ) };

    ghost view = { λ c. lists_of (record {
      docs = c.docs;
      dense = c.dense.items;
      maps = c.maps.items;
      starts = c.starts.items;
      ords = c.ords.items;
    }) };

    ghost invariant = { λ c. IsColumn (record {
      docs = c.docs;
      dense = c.dense.items;
      maps = c.maps.items;
      starts = c.starts.items;
      ords = c.ords.items;
    }) };
}

impl Column {
    /// Makes the column of these lists, one for each document. It reads each ordinal twice. While it works, it also
    /// takes 4 bytes for each ordinal up to the greatest one below 1,000,000.
    ///
    /// Errors: out of memory, also for more than 4,294,967,295 sparse ordinals.
    pub fn of(alloc: Global, lists: &[Ords<'_>]) -> Result<Column, AllocError>
        requires few { length lists.now ≤ 1000000 }
        requires rising { AllByRecursion IsRising lists.now }
        ensures { IfOk result (λ c. c ≡ lists.now) }
    {
        let docs = lists.len() as u32;
        let mut slots = document_numbers(alloc, lists)?;
        let dense = dense_ordinals(alloc, &mut slots, docs)?;
        let mut maps = empty_sets(alloc, docs, dense.len())?;
        let mut starts = Vec::new(alloc);
        let mut ords = Vec::new(alloc);
        note_lists(lists, &slots, &mut maps, &mut starts, &mut ords)?;
        if ords.is_empty() {
            starts = Vec::new(alloc);
        }
        Ok(Column {
            docs,
            dense,
            maps,
            starts,
            ords,
        })
    }

    /// Returns whether [`count_at`](Column::count_at) is cheaper than counting `number` documents one by one. The
    /// estimates, in instructions: 5 for each word of a dense ordinal's bit map, 6 for each document's bit and 20 for
    /// the sparse ordinals of a place, against 70 for a document that is counted alone. No contract depends on them.
    pub fn is_quick_for(&self, number: u64) -> bool {
        let words = (self.docs as u64 + 63) / 64;
        let sets = (self.dense.len() as u64).saturating_mul(5 * words);
        let lists = if self.starts.is_empty() {
            0
        } else {
            number
                .saturating_mul(20)
                .saturating_add(6 * self.docs as u64)
        };
        sets.saturating_add(lists) < number.saturating_mul(70)
    }

    /// Adds to each ordinal's count how many of the documents at the places have it. It reads each word of the dense
    /// ordinals' bit maps. If there are sparse ordinals, it also reads the bit of each document, and the sparse
    /// ordinals of the places. It allocates nothing.
    pub fn count_at(&self, places: &Bits, counts: &mut [u32])
        requires words { places.now.words ≡ (length self.now + 63) / 64 }
        requires below { (n : ℕ) → is_in n places.now.places ≡ true → n < length self.now }
        requires within { (n : ℕ) → is_in n places.now.places ≡ true
            → All (λ ord. ord < length counts.old) (slice_index_or self.now n []) }
        requires room { (ord : ℕ) → ord < length counts.old → slice_index_or counts.old ord 0
            + length places.now.places < 2 ^ 32 }
        ensures len { length counts.new ≡ length counts.old }
        ensures counted { (ord : ℕ) → ord < length counts.old → slice_index_or counts.new ord 0
            ≡ slice_index_or counts.old ord 0
            + count_by (list_any (nat_eq ord)) (map (λ n. slice_index_or self.now n []) places.now.places) }
    {
        count_maps(counts, &self.dense, &self.maps, places);
        if !self.starts.is_empty() {
            count_sparse(counts, &self.starts, &self.ords, places);
        }
    }
}
