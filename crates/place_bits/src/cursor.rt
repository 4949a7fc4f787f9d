//! The places of words, one after the other.
ghost use Rattle.std.specs.Prelude.{◌≡◌, ◌≤◌, ◌*◌, length};
ghost use Rattle.seg_postings.specs.Rising.{IsNext, IsRising, from_place};
ghost use Rattle.place_bits.specs.Words.{IsFirstIn, marked, with_places};

use crate::bits::Bits;
use crate::words;
use seg_postings::Places;
use std::marker::Model;

/// The places of a set, one after the other. `next` and `seek` read once each word between the last place and the next
/// one, and allocate nothing.
#[derive(Drop)]
pub struct BitPlaces {
    words: Vec<u64>,
    // where what is left begins
    next: u64,
}

impl Model for BitPlaces {
    ghost use Rattle.std.specs.Prelude.{◌≤◌, length};
    ghost use Rattle.place_bits.specs.Words.{Marked, marked_from};

    ghost Value = { Marked };

    ghost view = { λ p. marked_from p.next p.words.items };

    ghost invariant = { λ p. (p.next ≤ 4294967296) × (length p.words.items ≤ 67108864) };
}

impl BitPlaces {
    /// Returns all places of the words.
    pub(crate) fn new(words: Vec<u64>) -> BitPlaces
        requires { length words.items ≤ 67108864 }
        ensures places { result ≡ marked words.items }
        ensures rising { IsRising result.places }
    {
        BitPlaces { words, next: 0 }
    }

    /// Returns the places that are left, as a set of the same length. It clears each word before them, and allocates
    /// nothing.
    pub fn into_rest(self) -> Bits
        ensures rest { result ≡ self }
        ensures rising { IsRising result.places }
    {
        let BitPlaces { mut words, next } = self;
        words::leave_from(&mut words, next);
        Bits::of_words(words)
    }

    // Passes the places before `place`.
    fn pass(&mut self, place: u32)
        ensures rising { IsRising self.old.places }
        ensures moved { self.new ≡ with_places (from_place place self.old.places) self.old }
    {
        if self.next < place as u64 {
            self.next = place as u64;
        }
    }
}

impl Places for BitPlaces {
    ghost left = { λ p. p.places };

    fn next(&mut self) -> Option<u32>
        ensures rising { IsRising self.old.places }
        ensures next { IsNext result self.old.places self.new.places }
        ensures words { self.new.words ≡ self.old.words }
    {
        let place = first_from(&self.words, self.next)?;
        self.next = place as u64 + 1;
        Some(place)
    }

    fn seek(&mut self, place: u32) -> Option<u32>
        ensures rising { IsRising self.old.places }
        ensures next { IsNext result (from_place place self.old.places) self.new.places }
        ensures words { self.new.words ≡ self.old.words }
    {
        self.pass(place);
        self.next()
    }
}

// Returns the first place from there on.
fn first_from(words: &[u64], from: u64) -> Option<u32>
    requires few { length words.now ≤ 67108864 }
    ensures { IsFirstIn words.now from result }
{
    let start = (from / 64) as usize;
    if start >= words.len() {
        return None;
    }
    let left = words[start] & (u64::MAX << (from % 64));
    if left != 0 {
        return Some(start as u32 * 64 + left.trailing_zeros());
    }
    first_word(words, start + 1)
}

// Returns the first place from a word on.
fn first_word(words: &[u64], start: usize) -> Option<u32>
    requires few { length words.now ≤ 67108864 }
    ensures { IsFirstIn words.now (64 * start) result }
{
    for k in start..words.len() {
        let word = words[k];
        if word != 0 {
            return Some(k as u32 * 64 + word.trailing_zeros());
        }
    }
    None
}
