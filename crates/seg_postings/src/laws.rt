//! Laws of rising lists as sets, for proofs of other crates. Each call does nothing: its contract is the law.

ghost use Rattle.std.specs.Prelude.{◌≡◌, ℕ, Bool, not, ◌||◌, ◌&&◌, List};
ghost use Rattle.std.specs.List.{filter};
ghost use Rattle.seg_postings.specs.Rising.{IsRising, is_in};
ghost use Rattle.seg_postings.specs.Sets.{either, without};

/// States that a union has what one or both have. If two tests choose from one rising list, the union of their choices
/// is what one or both choose.
pub fn of_union()
    ensures members { (n : ℕ) (xs ys : List ℕ) → is_in n (either xs ys) ≡ (is_in n xs || is_in n ys) }
    ensures rising { (xs ys : List ℕ) → IsRising xs → IsRising ys → IsRising (either xs ys) }
    ensures filters { (p q : ℕ → Bool) (xs : List ℕ) → IsRising xs
        → either (filter p xs) (filter q xs) ≡ filter (λ x. p x || q x) xs }
{}

/// States that a difference has what the first has and the second has not. If two tests choose from one rising list, it
/// is what the first test chooses and the second does not.
pub fn of_difference()
    ensures members { (n : ℕ) (xs ys : List ℕ) → is_in n (without xs ys) ≡ (is_in n xs && not (is_in n ys)) }
    ensures rising { (xs ys : List ℕ) → IsRising xs → IsRising ys → IsRising (without xs ys) }
    ensures filters { (p q : ℕ → Bool) (xs : List ℕ) → IsRising xs
        → without (filter p xs) (filter q xs) ≡ filter (λ x. p x && not (q x)) xs }
{}

/// States that rising lists with the same numbers are equal.
pub fn of_rising()
    ensures { (xs ys : List ℕ) → IsRising xs → IsRising ys → ((n : ℕ) → is_in n xs ≡ is_in n ys) → xs ≡ ys }
{}
