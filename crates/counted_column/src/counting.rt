//! Counting by sets of documents, and document by document.
ghost use Rattle.std.specs.Prelude.{◌≡◌, ◌<◌, ◌≤◌, ◌+◌, ◌*◌, ◌^◌, ℕ, true, length, slice_index_or, count_by};
ghost use Rattle.std.specs.Prelude.{if◌then◌else◌};
ghost use Rattle.seg_postings.specs.Rising.{IsRising, is_in};
ghost use Rattle.place_bits.specs.Misses.{HaveWords};
ghost use Rattle.counted_column.specs.Columns.{dense_at, sparse_at};

use place_bits::Bits;

/// Adds to each ordinal's count how many of the places its set has.
pub(crate) fn count_maps(counts: &mut [u32], ords: &[u32], maps: &[Bits], places: &Bits)
    requires rising { IsRising ords.now }
    requires sets { length maps.now ≡ length ords.now }
    requires rooms { HaveWords places.now.words maps.now }
    requires within { (n ord : ℕ) → is_in n places.now.places ≡ true → is_in ord (dense_at ords.now maps.now n) ≡ true
        → ord < length counts.old }
    requires room { (ord : ℕ) → ord < length counts.old → slice_index_or counts.old ord 0
        + length places.now.places < 2 ^ 32 }
    ensures len { length counts.new ≡ length counts.old }
    ensures counted { (ord : ℕ) → ord < length counts.old → slice_index_or counts.new ord 0
        ≡ slice_index_or counts.old ord 0 + count_by (λ n. is_in ord (dense_at ords.now maps.now n)) places.now.places }
{
    for k in 0..ords.len() {
        let number = places.common(&maps[k]);
        if number > 0 {
            counts[ords[k] as usize] += number as u32;
        }
    }
}

// Adds one to the count of each of these ordinals.
fn count_each(counts: &mut [u32], ords: &[u32])
    requires rising { IsRising ords.now }
    requires within { (ord : ℕ) → is_in ord ords.now ≡ true → ord < length counts.old }
    requires room { (ord : ℕ) → is_in ord ords.now ≡ true → slice_index_or counts.old ord 0 + 1 < 2 ^ 32 }
    ensures len { length counts.new ≡ length counts.old }
    ensures counted { (ord : ℕ) → ord < length counts.old → slice_index_or counts.new ord 0
        ≡ slice_index_or counts.old ord 0 + (if is_in ord ords.now then 1 else 0) }
{
    for k in 0..ords.len() {
        counts[ords[k] as usize] += 1;
    }
}

/// Adds to each ordinal's count how many of the places have it among their sparse ordinals. It reads each document's
/// bit, and the ordinals of each place.
pub(crate) fn count_sparse(counts: &mut [u32], starts: &[u32], ords: &[u32], places: &Bits)
    requires starts { 0 < length starts.now }
    requires few { length starts.now ≤ 1000001 }
    requires words { length starts.now ≤ 64 * places.now.words + 1 }
    requires ordered { (n : ℕ) → n + 1 < length starts.now → slice_index_or starts.now n 0
        ≤ slice_index_or starts.now (n + 1) 0 }
    requires inside { (n : ℕ) → n + 1 < length starts.now → slice_index_or starts.now (n + 1) 0 ≤ length ords.now }
    requires rising { (n : ℕ) → n + 1 < length starts.now → IsRising (sparse_at starts.now ords.now n) }
    requires below { (n : ℕ) → is_in n places.now.places ≡ true → n + 1 < length starts.now }
    requires within { (n ord : ℕ) → is_in n places.now.places ≡ true
        → is_in ord (sparse_at starts.now ords.now n) ≡ true → ord < length counts.old }
    requires room { (ord : ℕ) → ord < length counts.old → slice_index_or counts.old ord 0
        + count_by (λ n. is_in ord (sparse_at starts.now ords.now n)) places.now.places < 2 ^ 32 }
    ensures len { length counts.new ≡ length counts.old }
    ensures counted { (ord : ℕ) → ord < length counts.old → slice_index_or counts.new ord 0
        ≡ slice_index_or counts.old ord 0
        + count_by (λ n. is_in ord (sparse_at starts.now ords.now n)) places.now.places }
{
    for place in 0..starts.len() - 1 {
        if places.has(place as u32) {
            let from = starts[place] as usize;
            let to = starts[place + 1] as usize;
            count_each(counts, &ords[from..to]);
        }
    }
}
