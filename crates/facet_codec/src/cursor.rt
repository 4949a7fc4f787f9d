ghost use Rattle.std.specs.Prelude.{◌≡◌, ◌+◌, ◌<◌, ◌^◌, length, MatchOption, true, false};
ghost use Rattle.std.specs.Str.{is_utf8};
ghost use Rattle.facet_codec.specs.Places.{IsBytes};
ghost use Rattle.facet_codec.specs.Reading.{Reads, u8_at, u32_at, u64_at, vint_at, bytes_at, text_at};

use crate::fault::CodecFault;
use crate::vint::read_vint;
use std::marker::Model;

/// Reads borrowed bytes from left to right, and returns slices of them without copying.
///
/// Each call returns the value at the beginning of what is left, or the first fault in reading it. After a fault the
/// cursor has not moved, so `at` is the place of the fault. No call allocates.
#[derive(Drop)]
pub struct Cursor<'a> {
    at: usize,
    rest: &'a [u8],
}

impl<'a> Model for Cursor<'a> {
    ghost use Rattle.std.specs.Prelude.{◌+◌, ◌<◌, ◌^◌, length};
    ghost use Rattle.facet_codec.specs.Places.{Place};

    ghost Value = { Place };

    ghost view = { λ c. record { at = c.at; rest = c.rest.now } };

    ghost invariant = { λ c. c.at + length c.rest.now < 2 ^ 64 };
}

impl<'a> Cursor<'a> {
    /// Returns a cursor at the first byte.
    pub fn new(bytes: &'a [u8]) -> Cursor<'a>
        ensures { result ≡ record { at = 0; rest = bytes.now } }
    {
        Cursor { at: 0, rest: bytes }
    }

    /// Returns how many bytes were read.
    pub fn at(&self) -> usize
        ensures { result ≡ self.now.at }
    {
        self.at
    }

    /// Returns how many bytes are left.
    pub fn rest(&self) -> usize
        ensures { result ≡ length self.now.rest }
    {
        self.rest.len()
    }

    /// Does nothing. Its contract states what holds for each cursor, for callers whose proofs need it.
    pub fn bounds(&self)
        ensures bytes { IsBytes self.now.rest }
        ensures size { self.now.at + length self.now.rest < 2 ^ 64 }
    {
        are_bytes(self.rest);
    }

    /// Reads one byte. Errors: `Short`.
    pub fn u8(&mut self) -> Result<u8, CodecFault>
        ensures { Reads (λ x. x) result self.old self.new (u8_at self.old) }
    {
        match self.rest {
            [] => Err(CodecFault::Short { at: self.at as u64 }),
            [byte, rest @ ..] => {
                self.at += 1;
                self.rest = rest;
                Ok(*byte)
            }
        }
    }

    /// Reads four bytes, big-endian. Errors: `Short`.
    pub fn u32(&mut self) -> Result<u32, CodecFault>
        ensures { Reads (λ x. x) result self.old self.new (u32_at self.old) }
    {
        if self.rest.len() < 4 {
            return Err(CodecFault::Short { at: self.at as u64 });
        }
        let (front, rest) = self.rest.split_at(4);
        self.at += 4;
        self.rest = rest;
        Ok(u32::from_be_bytes([front[0], front[1], front[2], front[3]]))
    }

    /// Reads eight bytes, big-endian. Errors: `Short`.
    pub fn u64(&mut self) -> Result<u64, CodecFault>
        ensures { Reads (λ x. x) result self.old self.new (u64_at self.old) }
    {
        if self.rest.len() < 8 {
            return Err(CodecFault::Short { at: self.at as u64 });
        }
        let (front, rest) = self.rest.split_at(8);
        self.at += 8;
        self.rest = rest;
        Ok(u64::from_be_bytes([
            front[0], front[1], front[2], front[3], front[4], front[5], front[6], front[7],
        ]))
    }

    /// Reads a vInt: a number of one to five bytes, seven bits per byte, the low bits first.
    ///
    /// Errors: `Short`; `LongSpelling` if a shorter spelling exists; `OutOfRange` if it is not below 2^32.
    pub fn vint(&mut self) -> Result<u32, CodecFault>
        ensures { Reads (λ x. x) result self.old self.new (vint_at self.old) }
    {
        let found = read_vint(self.at, self.rest)?;
        self.at = found.at;
        self.rest = found.rest;
        Ok(found.value)
    }

    /// Reads `n` bytes. Errors: `Short`.
    pub fn bytes(&mut self, n: usize) -> Result<&'a [u8], CodecFault>
        ensures { Reads (λ x. x.now) result self.old self.new (bytes_at n self.old) }
    {
        if self.rest.len() < n {
            return Err(CodecFault::Short { at: self.at as u64 });
        }
        let (front, rest) = self.rest.split_at(n);
        self.at += n;
        self.rest = rest;
        Ok(front)
    }

    /// Reads a text: its length as a vInt, at most `max`, and its bytes, which are checked to be UTF-8 in one pass.
    ///
    /// Errors: those of the length; `OutOfRange` if it is above `max`; `Short`; `NotUtf8`.
    #[tactic(auto, unfolding(crate::specs::Reading::text_at))]
    pub fn text(&mut self, max: u32) -> Result<&'a str, CodecFault>
        ensures { Reads (λ x. x.now) result self.old self.new (text_at max self.old) }
    {
        let found = read_vint(self.at, self.rest)?;
        let at = self.at as u64;
        if found.value > max {
            return Err(CodecFault::OutOfRange { at });
        }
        let n = found.value as usize;
        if found.rest.len() < n {
            return Err(CodecFault::Short { at });
        }
        let (front, rest) = found.rest.split_at(n);
        let Some(text) = utf8(front) else {
            return Err(CodecFault::NotUtf8 { at });
        };
        self.at = found.at + n;
        self.rest = rest;
        Ok(text)
    }
}

// Each byte is below 256.
fn are_bytes(bytes: &[u8])
    ensures { IsBytes bytes.now }
{}

// Returns the text in the bytes.
fn utf8(bytes: &[u8]) -> Option<&str>
    ensures { MatchOption result (is_utf8 bytes.now ≡ false) (λ s. (is_utf8 bytes.now ≡ true) × (s.now ≡ bytes.now)) }
{
    match str::from_utf8(bytes) {
        Ok(text) => Some(text),
        Err(_) => None,
    }
}
