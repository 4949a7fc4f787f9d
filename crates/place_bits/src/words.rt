//! Operations on words, place by place.
ghost use Rattle.std.specs.Prelude.{◌≡◌, ◌==◌, ◌<◌, ◌≤◌, ◌*◌, ◌&&◌, ◌||◌, not, [], ℕ, filter, length, nat_le, nat_lt};
ghost use Rattle.std.specs.Int.{bit_at};
ghost use Rattle.std.specs.List.{range_with_len};
ghost use Rattle.seg_postings.specs.Rising.{IsRising, is_in};
ghost use Rattle.place_bits.specs.Words.{has, AreBelow};

use seg_postings::Places;

/// Keeps the places that the other has too.
pub(crate) fn keep(words: &mut [u64], other: &[u64])
    requires { length words.old ≡ length other.now }
    ensures len { length words.new ≡ length words.old }
    ensures kept { (n : ℕ) → has words.new n ≡ (has words.old n && has other.now n) }
{
    for k in 0..words.len() {
        words[k] &= other[k];
    }
}

/// Keeps the places that the other lacks.
pub(crate) fn leave(words: &mut [u64], other: &[u64])
    requires { length words.old ≡ length other.now }
    ensures len { length words.new ≡ length words.old }
    ensures left { (n : ℕ) → has words.new n ≡ (has words.old n && not (has other.now n)) }
{
    for k in 0..words.len() {
        words[k] &= !other[k];
    }
}

/// Keeps the places from one on.
pub(crate) fn leave_from(words: &mut [u64], from: u64)
    ensures len { length words.new ≡ length words.old }
    ensures left { (n : ℕ) → has words.new n ≡ (has words.old n && nat_le from n) }
{
    let start = (from / 64).min(words.len() as u64) as usize;
    for k in 0..start {
        words[k] = 0;
    }
    if start < words.len() {
        words[start] &= u64::MAX << (from % 64);
    }
}

/// Adds the place.
pub(crate) fn mark(words: &mut [u64], place: u32)
    requires { place < 64 * length words.old }
    ensures len { length words.new ≡ length words.old }
    ensures marked { (n : ℕ) → has words.new n ≡ (has words.old n || n == place) }
{
    words[place as usize / 64] |= 1u64 << (place % 64);
}

/// Adds all places that are left.
pub(crate) fn mark_all<P: Places>(words: &mut [u64], places: &mut P)
    requires { AreBelow (64 * length words.old) (P.left places.old) }
    ensures rising { IsRising (P.left places.old) }
    ensures len { length words.new ≡ length words.old }
    ensures marked { (n : ℕ) → has words.new n ≡ (has words.old n || is_in n (P.left places.old)) }
    ensures end { P.left places.new ≡ [] }
{
    while let Some(place) = places.next() {
        mark(words, place);
    }
}

/// Returns whether it has the place.
pub(crate) fn has_place(words: &[u64], place: u32) -> bool
    requires { place < 64 * length words.now }
    ensures { result ≡ has words.now place }
{
    words[place as usize / 64] >> (place % 64) & 1 == 1
}

/// Returns how many places both have.
pub(crate) fn common(words: &[u64], other: &[u64]) -> u64
    requires same { length words.now ≡ length other.now }
    requires few { length words.now ≤ 67108864 }
    ensures { result ≡ length (filter (λ n. has words.now n
        && has other.now n) (range_with_len 0 (64 * length words.now))) }
{
    let mut number = 0;
    for k in 0..words.len() {
        number += (words[k] & other[k]).count_ones() as u64;
    }
    number
}

/// Replaces a dimension's places with those of the base that it lacks. `ones` has the places of the base that at least
/// one dimension lacked, and `twos` those that at least two lacked.
pub(crate) fn note(base: &[u64], dim: &mut [u64], ones: &mut [u64], twos: &mut [u64])
    requires dim { length dim.old ≡ length base.now }
    requires ones { length ones.old ≡ length base.now }
    requires twos { length twos.old ≡ length base.now }
    ensures dim_len { length dim.new ≡ length dim.old }
    ensures ones_len { length ones.new ≡ length ones.old }
    ensures twos_len { length twos.new ≡ length twos.old }
    ensures missed { (n : ℕ) → has dim.new n ≡ (has base.now n && not (has dim.old n)) }
    ensures ones { (n : ℕ) → has ones.new n ≡ (has ones.old n || (has base.now n && not (has dim.old n))) }
    ensures twos { (n : ℕ) → has twos.new n ≡ (has twos.old n
        || (has ones.old n && (has base.now n && not (has dim.old n)))) }
{
    for k in 0..base.len() {
        let miss = base[k] & !dim[k];
        dim[k] = miss;
        twos[k] |= ones[k] & miss;
        ones[k] |= miss;
    }
}

// Returns a word whose lowest `number` bits are set.
fn low_ones(number: u32) -> u64
    requires { number ≤ 64 }
    ensures { (i : ℕ) → i < 64 → (bit_at result i == 1) ≡ nat_lt i number }
{
    if number == 64 {
        return u64::MAX;
    }
    (1u64 << number) - 1
}

/// Sets the places below `docs`, and clears all others.
pub(crate) fn fill(words: &mut [u64], docs: u32)
    requires { docs ≤ 64 * length words.old }
    ensures len { length words.new ≡ length words.old }
    ensures filled { (n : ℕ) → has words.new n ≡ nat_lt n docs }
{
    let mut left = docs;
    for k in 0..words.len() {
        let here = left.min(64);
        words[k] = low_ones(here);
        left -= here;
    }
}
