//! Near misses: the places that only one set excludes.
ghost use Rattle.std.specs.Prelude.{◌≡◌, ◌==◌, ◌&&◌, ℕ, nat_lt};
ghost use Rattle.std.specs.List.{AllZip};
ghost use Rattle.seg_postings.specs.Rising.{IsRising, is_in};
ghost use Rattle.place_bits.specs.Misses.{HaveWords, IsLeftBy, IsMissed, IsNear, fails};
ghost use Rattle.place_bits.specs.Words.{empty_set};

use crate::bits::Bits;

/// Reduces the base to the hits, the places that no dimension lacks, and each dimension to its near misses, the places
/// of the base that only it lacks. `ones` and `twos` are scratch sets of the base's length, empty at first.
///
/// It reads each word of a dimension twice, and allocates nothing.
pub fn near_misses(base: &mut Bits, dims: &mut [Bits], ones: &mut Bits, twos: &mut Bits)
    requires dims { HaveWords base.old.words dims.old }
    requires ones { ones.old ≡ empty_set base.old.words }
    requires twos { twos.old ≡ empty_set base.old.words }
    ensures words { base.new.words ≡ base.old.words }
    ensures hits { (n : ℕ) → is_in n base.new.places ≡ (is_in n base.old.places && fails dims.old n == 0) }
    ensures rising { IsRising base.new.places }
    ensures near { AllZip (IsNear base.old.places dims.old) dims.old dims.new }
{
    note_all(base, dims, ones, twos);
    base.leave(ones);
    leave_all(dims, twos);
}

// Replaces each dimension's places with those of the base that it lacks, and notes which places one lacks, and which
// two.
fn note_all(base: &Bits, dims: &mut [Bits], ones: &mut Bits, twos: &mut Bits)
    requires dims { HaveWords base.now.words dims.old }
    requires ones { ones.old ≡ empty_set base.now.words }
    requires twos { twos.old ≡ empty_set base.now.words }
    ensures missed { AllZip (IsMissed base.now.places) dims.old dims.new }
    ensures ones_words { ones.new.words ≡ base.now.words }
    ensures ones { (n : ℕ) → is_in n ones.new.places ≡ (is_in n base.now.places && nat_lt 0 (fails dims.old n)) }
    ensures twos_words { twos.new.words ≡ base.now.words }
    ensures twos { (n : ℕ) → is_in n twos.new.places ≡ (is_in n base.now.places && nat_lt 1 (fails dims.old n)) }
{
    for k in 0..dims.len() {
        base.note(&mut dims[k], ones, twos);
    }
}

// Keeps in each set the places that the other lacks.
fn leave_all(dims: &mut [Bits], other: &Bits)
    requires { HaveWords other.now.words dims.old }
    ensures { AllZip (IsLeftBy other.now.places) dims.old dims.new }
{
    for k in 0..dims.len() {
        dims[k].leave(other);
    }
}
