ghost use Rattle.std.specs.Prelude.{◌≡◌, ◌<◌, ℕ, List, length, slice_index_or};
ghost use Rattle.seg_postings.specs.Bytes.{AreNumbers, IsOfNumbers};
ghost use Rattle.seg_postings.specs.Rising.{IsNext};

use std::marker::Model;

/// Numbers over borrowed bytes, four bytes each and big-endian, in the order in which they are stored. No call
/// allocates.
#[derive(Drop)]
pub struct Ords<'a> {
    ords: &'a [[u8; 4]],
}

impl<'a> Model for Ords<'a> {
    ghost use Rattle.std.specs.Prelude.{List, ℕ};
    ghost use Rattle.seg_postings.specs.Bytes.{places_of};

    ghost Value = { List ℕ };

    ghost view = { λ o. places_of o.ords.now };
}

impl<'a> Ords<'a> {
    /// Reads bytes as numbers. It reads none of them yet, and takes constant time.
    pub fn new(bytes: &'a [u8]) -> Ords<'a>
        requires { IsOfNumbers bytes.now }
        ensures { (numbers : List ℕ) → AreNumbers bytes.now numbers → result ≡ numbers }
    {
        let (ords, _) = bytes.as_chunks::<4>();
        Ords { ords }
    }

    /// Returns how many numbers are left, in constant time.
    pub fn len(&self) -> usize
        ensures { result ≡ length self.now }
    {
        self.ords.len()
    }

    /// Returns the number at an index, from 0, in constant time.
    pub fn at(&self, index: usize) -> u32
        requires { index < length self.now }
        ensures { result ≡ slice_index_or self.now index 0 }
    {
        let ords = self.ords;
        u32::from_be_bytes(ords[index])
    }

    /// Returns the next number, or `None` at the end, in constant time.
    pub fn next(&mut self) -> Option<u32>
        ensures { IsNext result self.old self.new }
    {
        match self.ords {
            [] => None,
            [first, rest @ ..] => {
                self.ords = rest;
                Some(u32::from_be_bytes(*first))
            }
        }
    }
}
