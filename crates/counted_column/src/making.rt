//! Making a column: which ordinals are dense, and the pass that stores each document's ordinals.
ghost use Rattle.std.specs.Prelude.{◌≡◌, ◌==◌, ◌<◌, ◌≤◌, ◌+◌, ◌++◌, ◌*◌, ◌/◌, [], ℕ, length, filter, replicate};
ghost use Rattle.std.specs.Prelude.{slice_index_or, IfOk, OnOk};
ghost use Rattle.place_bits.specs.Words.{empty_set};
ghost use Rattle.counted_column.specs.Making.{AreSlots, AreAdded, AreNoted};

use place_bits::Bits;
use seg_postings::Ords;
use std::alloc::{AllocError, Global};

// No ordinal from here on is dense. This bounds the counts of documents that are needed.
const MOST_SLOTS: usize = 1000000;

// With fewer documents, which fit into a word, no ordinal is dense. The other constant bounds the counts per ordinal of
// a document,
// so that a segment of few documents costs nothing for the number of labels.
const FEWEST_DOCUMENTS: usize = 64;

const MOST_SLOTS_EACH: usize = 64;

// Returns whether an ordinal with this number of documents is dense: at least one document in 64 has it.
fn is_dense(number: u32, docs: u32) -> bool {
    number > 0 && number as u64 * 64 >= docs as u64
}

// Returns one more than the greatest ordinal that may be dense.
fn slots_needed(lists: &[Ords<'_>]) -> usize
    ensures { result ≤ 1000000 }
{
    if lists.len() < FEWEST_DOCUMENTS {
        return 0;
    }
    let mut needed = 0;
    let mut total: usize = 0;
    for list in lists {
        let number = list.len();
        total = total.saturating_add(number);
        if number > 0 {
            let last = list.at(number - 1) as usize;
            needed = needed.max(last + 1);
        }
    }
    needed
        .min(total.saturating_mul(MOST_SLOTS_EACH))
        .min(MOST_SLOTS)
}

// Counts a document at each of its ordinals.
fn add_document(numbers: &mut [u32], list: &Ords<'_>)
    ensures { length numbers.new ≡ length numbers.old }
{
    for k in 0..list.len() {
        let ord = list.at(k) as usize;
        if ord < numbers.len() {
            numbers[ord] = numbers[ord].saturating_add(1);
        }
    }
}

/// Returns how many of the documents have each ordinal, up to the greatest that may be dense. Errors: out of memory.
pub(crate) fn document_numbers(alloc: Global, lists: &[Ords<'_>]) -> Result<Vec<u32>, AllocError>
    ensures { IfOk result (λ v. length v.items ≤ 1000000) }
{
    let needed = slots_needed(lists);
    let mut numbers = vec![in alloc; 0u32; needed]?;
    for list in lists {
        add_document(&mut numbers, list);
    }
    Ok(numbers)
}

/// Replaces each number of documents with the slot of its ordinal: its place among the dense ones, from 1 on, or 0.
/// Returns the dense ordinals, rising. Errors: out of memory.
pub(crate) fn dense_ordinals(
    alloc: Global,
    numbers: &mut [u32],
    docs: u32,
) -> Result<Vec<u32>, AllocError>
    requires { length numbers.old ≤ 1000000 }
    ensures { IfOk result (λ v. AreSlots numbers.new v.items) }
{
    let mut dense = Vec::new(alloc);
    for ord in 0..numbers.len() {
        let number = numbers[ord];
        numbers[ord] = 0;
        if is_dense(number, docs) {
            dense.push(ord as u32)?;
            numbers[ord] = dense.len() as u32;
        }
    }
    Ok(dense)
}

/// Returns `number` empty sets with a bit for each document. Errors: out of memory.
pub(crate) fn empty_sets(alloc: Global, docs: u32, number: usize) -> Result<Vec<Bits>, AllocError>
    ensures { IfOk result (λ v. v.items ≡ replicate number (empty_set ((docs + 63) / 64))) }
{
    let mut sets = Vec::with_capacity(alloc, number)?;
    for _ in 0..number {
        sets.push(Bits::none(alloc, docs)?)?;
    }
    Ok(sets)
}

// Returns the slot of an ordinal: its place among the dense ones, from 1 on, or 0.
fn slot_of(slots: &[u32], ord: u32) -> u32
    ensures { result ≡ slice_index_or slots.now ord 0 }
{
    match slots.get(ord as usize) {
        Some(slot) => *slot,
        None => 0,
    }
}

// Adds a document to the sets of its dense ordinals, and its other ordinals to the sparse ones.
fn note_list(
    list: &Ords<'_>,
    doc: u32,
    slots: &[u32],
    maps: &mut [Bits],
    ords: &mut Vec<u32>,
) -> Result<(), AllocError>
    requires slots { (ord : ℕ) → slice_index_or slots.now ord 0 ≤ length maps.old }
    requires room { (j : ℕ) → j < length maps.old → doc < 64 * (slice_index_or maps.old j (empty_set 0)).words }
    ensures { OnOk result (AreAdded slots.now doc list.now maps.old maps.new ords.old.items ords.new.items) }
{
    for k in 0..list.len() {
        let ord = list.at(k);
        let slot = slot_of(slots, ord);
        if slot > 0 {
            maps[slot as usize - 1].add(doc);
        } else {
            ords.push(ord)?;
        }
    }
    Ok(())
}

/// Stores the ordinals of all documents, and where the sparse ones of each document start and end. The sets are empty
/// at first. Errors: out of memory.
pub(crate) fn note_lists(
    lists: &[Ords<'_>],
    slots: &[u32],
    maps: &mut [Bits],
    starts: &mut Vec<u32>,
    ords: &mut Vec<u32>,
) -> Result<(), AllocError>
    requires few { length lists.now ≤ 1000000 }
    requires slots { (ord : ℕ) → slice_index_or slots.now ord 0 ≤ length maps.old }
    requires empty { maps.old ≡ replicate (length maps.old) (empty_set ((length lists.now + 63) / 64)) }
    requires starts { starts.old.items ≡ [] }
    requires ords { ords.old.items ≡ [] }
    ensures { OnOk result (AreNoted lists.now slots.now (length maps.old)
        (length lists.now) maps.new starts.new.items ords.new.items) }
{
    starts.push(0)?;
    for doc in 0..lists.len() {
        note_list(&lists[doc], doc as u32, slots, maps, ords)?;
        let end = ords.len();
        if end > u32::MAX as usize {
            return Err(AllocError);
        }
        starts.push(end as u32)?;
    }
    Ok(())
}
