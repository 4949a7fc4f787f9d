ghost use Rattle.std.specs.Prelude.{◌≡◌, ◌≤◌, length, take, min};

use crate::calls::Calls;
use crate::failed::Failed;
use crate::sink::Sink;
use crate::source::Source;
use std::alloc::Global;
use std::marker::Model;

/// A source of bytes in memory, for tests and the laboratory.
#[derive(Drop)]
pub struct MemorySource {
    bytes: Vec<u8>,
    at: usize,
    piece: usize,
    calls: Calls,
}

impl Model for MemorySource {
    ghost use Rattle.std.specs.Prelude.{◌≤◌, vec_len, drop};
    ghost use Rattle.facet_io.specs.Memory.{SourceState};

    ghost Value = { SourceState };

    ghost view = { λ s. record {
      left = drop s.at s.bytes.items;
      piece = s.piece;
      calls = s.calls;
    } };

    ghost invariant = { λ s. (s.at ≤ vec_len s.bytes) × (1 ≤ s.piece) };
}

impl MemorySource {
    ghost use Rattle.std.specs.Prelude.{◌≡◌, ◌≤◌};
    ghost use Rattle.facet_io.specs.Memory.{no_call};

    /// Returns a source of these bytes, whose reads return at most `piece` bytes. Reads are counted from 1, and those
    /// in `failing` fail.
    pub fn new(bytes: Vec<u8>, piece: usize, failing: Vec<u64>) -> MemorySource
        requires { 1 ≤ piece }
        ensures { result ≡ record { left = bytes.items; piece = piece; calls = no_call failing.items } }
    {
        MemorySource {
            bytes,
            at: 0,
            piece,
            calls: Calls::new(failing),
        }
    }
}

// Copies as many bytes as fit, at most `piece` of them.
fn hand_out(left: &[u8], piece: usize, into: &mut [u8]) -> usize
    ensures bound { result ≤ length into.new }
    ensures count { result ≡ min (min (length into.new) piece) (length left.now) }
    ensures bytes { take result into.new ≡ take result left.now }
{
    let count = into.len().min(piece).min(left.len());
    let (front, _) = left.split_at(count);
    into[..count].copy_from_slice(front);
    count
}

impl Source for MemorySource {
    ghost use Rattle.std.specs.Prelude.{◌≡◌, ◌<◌, ◌↔◌, Some, IfOk, IsErr, IsTrue, length, min};
    ghost use Rattle.std.specs.Io.{ReadsAtMost};
    ghost use Rattle.std.specs.Io.KnownBytes.{ReadConsumes};
    ghost use Rattle.facet_io.specs.Faults.{CountsFaults};
    ghost use Rattle.facet_io.specs.Memory.{fails_next, after_call};

    ghost left = { λ s. Some s.left };

    ghost faults = { λ s. s.calls.faults };

    fn read(&mut self, into: &mut [u8]) -> Result<usize, Failed>
        requires { 0 < length into.old }
        ensures bound { ReadsAtMost result into.new }
        ensures bytes { ReadConsumes (Some self.old.left) (Some self.new.left) result into.new }
        ensures cause { CountsFaults self.old.calls.faults self.new.calls.faults (IsErr result) }

        // Exactly the listed reads fail. Each other read returns as many bytes as it may.
        ensures fails { IsErr result ↔ IsTrue (fails_next self.old.calls) }
        ensures count { IfOk result (λ k. k ≡ min (min (length into.new) self.old.piece) (length self.old.left)) }
        ensures calls { self.new.calls ≡ after_call self.old.calls }
        ensures piece { self.new.piece ≡ self.old.piece }
    {
        self.calls.count()?;
        let (_, left) = self.bytes.split_at(self.at);
        let count = hand_out(left, self.piece, into);
        self.at += count;
        Ok(count)
    }
}

/// A sink in memory, for tests and the laboratory. Each write takes the whole piece.
#[derive(Drop)]
pub struct MemorySink {
    bytes: Vec<u8>,
    calls: Calls,
}

impl Model for MemorySink {
    ghost use Rattle.facet_io.specs.Memory.{SinkState};

    ghost Value = { SinkState };

    ghost view = { λ s. record {
      written = s.bytes.items;
      calls = s.calls;
    } };
}

impl MemorySink {
    ghost use Rattle.std.specs.Prelude.{◌≡◌, []};
    ghost use Rattle.facet_io.specs.Memory.{no_call};

    /// Returns an empty sink. Writes are counted from 1, and those in `failing` fail.
    pub fn new(alloc: Global, failing: Vec<u64>) -> MemorySink
        ensures { result ≡ record { written = []; calls = no_call failing.items } }
    {
        MemorySink {
            bytes: Vec::new(alloc),
            calls: Calls::new(failing),
        }
    }

    /// Returns what was written.
    pub fn bytes(&self) -> &[u8]
        ensures { result.now ≡ self.now.written }
    {
        &self.bytes
    }
}

impl Sink for MemorySink {
    ghost use Rattle.std.specs.Prelude.{◌≡◌, ◌<◌, ◌≤◌, Some, IfOk, OnOk, OnErr, IsErr, IsTrue, length};
    ghost use Rattle.std.specs.Io.KnownBytes.{WriteAppends};
    ghost use Rattle.facet_io.specs.Faults.{CountsFaults};
    ghost use Rattle.facet_io.specs.Memory.{fails_next, after_call, counted, with_fault};

    ghost written = { λ s. Some s.written };

    ghost faults = { λ s. s.calls.faults };

    /// Appends the whole piece. It also fails if it runs out of memory.
    fn write(&mut self, piece: &[u8]) -> Result<usize, Failed>
        requires { 0 < length piece.now }
        ensures bound { IfOk result (λ k. (0 < k) × (k ≤ length piece.now)) }
        ensures bytes { WriteAppends (Some self.old.written) (Some self.new.written) result piece.now }
        ensures cause { CountsFaults self.old.calls.faults self.new.calls.faults (IsErr result) }

        // The listed writes fail. Another one fails only out of memory, and counts one more fault.
        ensures fails { IsTrue (fails_next self.old.calls) → IsErr result }
        ensures count { IfOk result (λ k. k ≡ length piece.now) }
        ensures calls { OnOk result (self.new.calls ≡ after_call self.old.calls) }
        ensures failed { OnErr result (self.new.calls ≡ with_fault (counted self.old.calls)) }
    {
        self.calls.count()?;
        if self.bytes.extend_from_slice(piece).is_err() {
            self.calls.count_fault();
            return Err(Failed);
        }
        Ok(piece.len())
    }
}
