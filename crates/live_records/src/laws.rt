//! Laws of live places, for proofs of other crates. Each call does nothing: its contract is the law.

ghost use Rattle.std.specs.Prelude.{◌≡◌, ◌<◌, [], ℕ, List, false, length, map, slice_get};
ghost use Rattle.facet_model.specs.Stored.{alive, is_dead, live_before};

/// States that as many elements are left as are live, and that a live one is at its rank. If none is dead, all are
/// left, each at its place.
pub fn of_alive<A>()
    ensures number { (dead : List ℕ) (xs : List A) → length (alive dead xs) ≡ live_before dead (length xs) }
    ensures place { (dead : List ℕ) (xs : List A) (at : ℕ) → at < length xs → is_dead dead at ≡ false
        → slice_get (alive dead xs) (live_before dead at) ≡ slice_get xs at }
    ensures all { (xs : List A) → alive [] xs ≡ xs }
    ensures none { (n : ℕ) → live_before [] n ≡ n }
{}

/// States that mapping the elements and then leaving out the dead ones gives the same as leaving them out and then
/// mapping.
pub fn of_made<A, B>()
    ensures { (f : A → B) (dead : List ℕ) (xs : List A) → map f (alive dead xs) ≡ alive dead (map f xs) }
{}
