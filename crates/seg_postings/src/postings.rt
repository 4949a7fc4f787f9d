ghost use Rattle.std.specs.Prelude.{◌≡◌, ◌<◌, ℕ, List, length, slice_index_or};
ghost use Rattle.seg_postings.specs.Bytes.{ArePlaces, AreRisingPlaces};

use crate::places::Places;
use crate::search::first_from;
use std::marker::Model;

/// A strictly rising list of places over borrowed bytes, four bytes each and big-endian. No call allocates.
#[derive(Drop)]
pub struct Postings<'a> {
    places: &'a [[u8; 4]],
}

impl<'a> Model for Postings<'a> {
    ghost use Rattle.std.specs.Prelude.{List, ℕ};
    ghost use Rattle.seg_postings.specs.Rising.{IsRising};
    ghost use Rattle.seg_postings.specs.Bytes.{places_of};

    ghost Value = { List ℕ };

    ghost view = { λ p. places_of p.places.now };

    ghost invariant = { λ p. IsRising (places_of p.places.now) };
}

impl<'a> Postings<'a> {
    /// Reads bytes as places. It reads none of them yet, and takes constant time.
    pub fn new(bytes: &'a [u8]) -> Postings<'a>
        requires { AreRisingPlaces bytes.now }
        ensures { (places : List ℕ) → ArePlaces bytes.now places → result ≡ places }
    {
        let (places, _) = bytes.as_chunks::<4>();
        Postings { places }
    }

    /// Returns how many places there are, in constant time.
    pub fn len(&self) -> usize
        ensures { result ≡ length self.now }
    {
        self.places.len()
    }

    /// Returns the place at an index, from 0, in constant time.
    pub fn at(&self, index: usize) -> u32
        requires { index < length self.now }
        ensures { result ≡ slice_index_or self.now index 0 }
    {
        let places = self.places;
        u32::from_be_bytes(places[index])
    }

    /// Returns a cursor at the first place.
    pub fn cursor(&self) -> PostingsCursor<'a>
        ensures { result ≡ self.now }
    {
        PostingsCursor {
            places: self.places,
        }
    }
}

/// Visits the places of a list from left to right. No call allocates.
///
/// `next` takes constant time. `seek` gallops (exponential search): from the cursor on it reads places at doubling
/// distances until it has passed the one asked for, and then bisects between the last two. It reads a number of places
/// logarithmic in how many it passes, and a near place costs as little as `next`.
#[derive(Drop)]
pub struct PostingsCursor<'a> {
    places: &'a [[u8; 4]],
}

impl<'a> Model for PostingsCursor<'a> {
    ghost use Rattle.std.specs.Prelude.{List, ℕ};
    ghost use Rattle.seg_postings.specs.Rising.{IsRising};
    ghost use Rattle.seg_postings.specs.Bytes.{places_of};

    ghost Value = { List ℕ };

    ghost view = { λ p. places_of p.places.now };

    ghost invariant = { λ p. IsRising (places_of p.places.now) };
}

impl<'a> Places for PostingsCursor<'a> {
    ghost left = { λ p. p };

    fn next(&mut self) -> Option<u32> {
        match self.places {
            [] => None,
            [first, rest @ ..] => {
                self.places = rest;
                Some(u32::from_be_bytes(*first))
            }
        }
    }

    fn seek(&mut self, place: u32) -> Option<u32> {
        let passed = first_from(self.places, place);
        let (_, rest) = self.places.split_at(passed);
        self.places = rest;
        self.next()
    }
}
