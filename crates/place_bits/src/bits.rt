ghost use Rattle.std.specs.Prelude.{◌≡◌, ◌<◌, ◌≤◌, ◌+◌, ◌*◌, ◌/◌, ◌&&◌, ◌||◌, ◌∷◌, not, [], ℕ, IfOk, filter, length};
ghost use Rattle.std.specs.List.{range_with_len};
ghost use Rattle.seg_postings.specs.Rising.{IsRising, is_in};
ghost use Rattle.seg_postings.specs.Sets.{either};
ghost use Rattle.place_bits.specs.Misses.{IsMissed};
ghost use Rattle.place_bits.specs.Words.{AreBelow, empty_set, marked, with_places};

use crate::cursor::BitPlaces;
use crate::words;
use seg_postings::Places;
use std::alloc::{AllocError, Global};
use std::marker::Model;

/// A set of places below a bound, one bit each. It allocates when it is made, and no later call does.
#[derive(Drop)]
pub struct Bits {
    words: Vec<u64>,
}

impl Model for Bits {
    ghost use Rattle.std.specs.Prelude.{◌≤◌, length};
    ghost use Rattle.place_bits.specs.Words.{Marked, marked};

    ghost Value = { Marked };

    ghost view = { λ b. marked b.words.items };

    ghost invariant = { λ b. length b.words.items ≤ 67108864 };
}

impl Bits {
    /// Returns an empty set with a bit for each place below `docs`. Errors: out of memory.
    pub fn none(alloc: Global, docs: u32) -> Result<Bits, AllocError>
        ensures { IfOk result (λ b. b ≡ empty_set ((docs + 63) / 64)) }
    {
        let number = (docs as usize + 63) / 64;
        let words = vec![in alloc; 0u64; number]?;
        Ok(Bits { words })
    }

    /// Sets the places below `docs` and clears all others, a word at a time.
    pub fn fill(&mut self, docs: u32)
        requires { docs ≤ 64 * self.old.words }
        ensures { self.new ≡ with_places (range_with_len 0 docs) self.old }
    {
        words::fill(&mut self.words, docs);
    }

    /// Keeps the places that the other set has too, a word at a time.
    pub fn keep(&mut self, other: &Bits)
        requires { self.old.words ≡ other.now.words }
        ensures words { self.new.words ≡ self.old.words }
        ensures kept { (n : ℕ) → is_in n self.new.places ≡ (is_in n self.old.places && is_in n other.now.places) }
        ensures rising { IsRising self.new.places }
    {
        words::keep(&mut self.words, &other.words);
    }

    /// Keeps the places that the other set lacks, a word at a time.
    pub fn leave(&mut self, other: &Bits)
        requires { self.old.words ≡ other.now.words }
        ensures words { self.new.words ≡ self.old.words }
        ensures left { (n : ℕ) → is_in n self.new.places ≡ (is_in n self.old.places && not (is_in n other.now.places)) }
        ensures rising { IsRising self.new.places }
    {
        words::leave(&mut self.words, &other.words);
    }

    /// Adds one place, in constant time.
    pub fn add(&mut self, place: u32)
        requires { place < 64 * self.old.words }
        ensures { self.new ≡ with_places (either (place ∷ []) self.old.places) self.old }
    {
        words::mark(&mut self.words, place);
    }

    /// Adds all places that are left, one by one.
    pub fn mark<P: Places>(&mut self, places: &mut P)
        requires { AreBelow (64 * self.old.words) (P.left places.old) }
        ensures rising { IsRising (P.left places.old) }
        ensures marked { self.new ≡ with_places (either self.old.places (P.left places.old)) self.old }
        ensures end { P.left places.new ≡ [] }
    {
        words::mark_all(&mut self.words, places);
    }

    /// Returns how many places the set has, with one count of bits per word.
    pub fn len(&self) -> u64
        ensures { result ≡ length self.now.places }
    {
        words::common(&self.words, &self.words)
    }

    /// Returns how many places both sets have, with one count of bits per word. It allocates nothing.
    pub fn common(&self, other: &Bits) -> u64
        requires { self.now.words ≡ other.now.words }
        ensures { result ≡ length (filter (λ n. is_in n other.now.places) self.now.places) }
    {
        words::common(&self.words, &other.words)
    }

    /// Returns whether the set has the place, in constant time.
    pub fn has(&self, place: u32) -> bool
        requires { place < 64 * self.now.words }
        ensures has { result ≡ is_in place self.now.places }
        ensures rising { IsRising self.now.places }
    {
        words::has_place(&self.words, place)
    }

    // Makes the set of the bits that are set in words.
    pub(crate) fn of_words(words: Vec<u64>) -> Bits
        requires { length words.items ≤ 67108864 }
        ensures { result ≡ marked words.items }
    {
        Bits { words }
    }

    /// Visits the places one after the other. It allocates nothing.
    pub fn into_places(self) -> BitPlaces
        ensures places { result ≡ self }
        ensures rising { IsRising result.places }
    {
        BitPlaces::new(self.words)
    }

    // Replaces a dimension's places with those of the base that it lacks, and notes which places one dimension lacked
    // and which two.
    pub(crate) fn note(&self, dim: &mut Bits, ones: &mut Bits, twos: &mut Bits)
        requires dim { dim.old.words ≡ self.now.words }
        requires ones { ones.old.words ≡ self.now.words }
        requires twos { twos.old.words ≡ self.now.words }
        ensures missed { IsMissed self.now.places dim.old dim.new }
        ensures ones_words { ones.new.words ≡ ones.old.words }
        ensures ones { (n : ℕ) → is_in n ones.new.places ≡ (is_in n ones.old.places
            || (is_in n self.now.places && not (is_in n dim.old.places))) }
        ensures twos_words { twos.new.words ≡ twos.old.words }
        ensures twos { (n : ℕ) → is_in n twos.new.places
            ≡ (is_in n twos.old.places || (is_in n ones.old.places
            && (is_in n self.now.places && not (is_in n dim.old.places)))) }
    {
        words::note(
            &self.words,
            &mut dim.words,
            &mut ones.words,
            &mut twos.words,
        );
    }
}
