ghost use Rattle.std.specs.Prelude.{◌≡◌, ◌≤◌, ◌++◌, ◌∷◌, [], length, map, take, min, OnOk, OnErr};
ghost use Rattle.live_io.specs.Events.{got, put};
ghost use Rattle.live_io.specs.EventViews.{event_view};

use crate::duplex::Duplex;
use facet_io::{Calls, Failed};
use std::alloc::{AllocError, Global};
use std::marker::Model;

/// A call of a [`MemoryDuplex`] that succeeded.
#[derive(Debug, Drop)]
pub enum DuplexEvent {
    /// A read, with the bytes that it returned. No byte is the end of input.
    Got(Vec<u8>),
    /// A write, with the bytes that it appended.
    Put(Vec<u8>),
    /// A flush.
    Flushed,
}

/// A source and a sink in memory that are one object, for tests and the laboratory. It keeps its events. Each write
/// takes the whole piece.
#[derive(Drop)]
pub struct MemoryDuplex {
    alloc: Global,
    bytes: Vec<u8>,
    at: usize,
    piece: usize,
    written: Vec<u8>,
    reads: Calls,
    writes: Calls,
    events: Vec<DuplexEvent>,
}

impl Model for MemoryDuplex {
    ghost use Rattle.std.specs.Prelude.{◌≤◌, vec_len, drop};
    ghost use Rattle.live_io.specs.Memory.{DuplexState};
    ghost use Rattle.live_io.specs.EventViews.{events_view};

    ghost Value = { DuplexState };

    ghost view = { λ d. record {
      left = drop d.at d.bytes.items;
      piece = d.piece;
      written = d.written.items;
      reads = d.reads;
      writes = d.writes;
      events = events_view d.events.items;
    } };

    ghost invariant = { λ d. (d.at ≤ vec_len d.bytes) × (1 ≤ d.piece) };
}

impl MemoryDuplex {
    ghost use Rattle.std.specs.Prelude.{◌≡◌, ◌≤◌, []};
    ghost use Rattle.facet_io.specs.Memory.{no_call};
    ghost use Rattle.live_io.specs.EventViews.{events_view};

    /// Returns an object with these bytes to read, whose reads return at most `piece` bytes. Reads are counted from 1,
    /// and those in `failing_reads` fail. Writes and flushes are counted together from 1, and those in
    /// `failing_writes` fail.
    pub fn new(
        alloc: Global,
        bytes: Vec<u8>,
        piece: usize,
        failing_reads: Vec<u64>,
        failing_writes: Vec<u64>,
    ) -> MemoryDuplex
        requires { 1 ≤ piece }
        ensures { result ≡ record {
          left = bytes.items;
          piece = piece;
          written = [];
          reads = no_call failing_reads.items;
          writes = no_call failing_writes.items;
          events = [];
        } }
    {
        MemoryDuplex {
            alloc,
            bytes,
            at: 0,
            piece,
            written: Vec::new(alloc),
            reads: Calls::new(failing_reads),
            writes: Calls::new(failing_writes),
            events: Vec::new(alloc),
        }
    }

    /// Returns what was written.
    pub fn bytes(&self) -> &[u8]
        ensures { result.now ≡ self.now.written }
    {
        &self.written
    }

    /// Returns the calls that succeeded, the newest last.
    pub fn events(&self) -> &[DuplexEvent]
        ensures { events_view result.now ≡ self.now.events }
    {
        &self.events
    }
}

// Notes a read that returned these bytes.
fn note_got(alloc: Global, events: &mut Vec<DuplexEvent>, bytes: &[u8]) -> Result<(), AllocError>
    ensures ok { OnOk result (map event_view events.new.items ≡ map event_view events.old.items ++ got bytes.now ∷ []) }
    ensures err { OnErr result (events.new.items ≡ events.old.items) }
{
    let bytes = Vec::from_slice(alloc, bytes)?;
    events.push(DuplexEvent::Got(bytes))?;
    Ok(())
}

// Notes a write that appended these bytes.
fn note_put(alloc: Global, events: &mut Vec<DuplexEvent>, bytes: &[u8]) -> Result<(), AllocError>
    ensures ok { OnOk result (map event_view events.new.items ≡ map event_view events.old.items ++ put bytes.now ∷ []) }
    ensures err { OnErr result (events.new.items ≡ events.old.items) }
{
    let bytes = Vec::from_slice(alloc, bytes)?;
    events.push(DuplexEvent::Put(bytes))?;
    Ok(())
}

impl Duplex for MemoryDuplex {
    ghost use Rattle.std.specs.Prelude.{◌≡◌, ◌<◌, ◌≤◌, ◌↔◌, Some, IfOk, OnOk, OnErr, IsErr, IsTrue, length, min};
    ghost use Rattle.std.specs.Io.{ReadsAtMost};
    ghost use Rattle.std.specs.Io.KnownBytes.{ReadConsumes, WriteAppends, Keeps};
    ghost use Rattle.facet_io.specs.Faults.{CountsFaults};
    ghost use Rattle.facet_io.specs.Memory.{fails_next, after_call, counted, with_fault};
    ghost use Rattle.live_io.specs.Events.{ReadNotes, WriteNotes, FlushNotes};

    ghost left = { λ d. Some d.left };

    ghost written = { λ d. Some d.written };

    ghost events = { λ d. Some d.events };

    ghost read_faults = { λ d. d.reads.faults };

    ghost write_faults = { λ d. d.writes.faults };

    /// Returns as many bytes as it may. It also fails if it runs out of memory.
    fn read(&mut self, into: &mut [u8]) -> Result<usize, Failed>
        requires { 0 < length into.old }
        ensures bound { ReadsAtMost result into.new }
        ensures bytes { ReadConsumes (Some self.old.left) (Some self.new.left) result into.new }
        ensures notes { ReadNotes result into.new (Some self.old.events) (Some self.new.events) }
        ensures cause { CountsFaults self.old.reads.faults self.new.reads.faults (IsErr result) }
        ensures same_written { Some self.new.written ≡ Some self.old.written }
        ensures same_faults { self.new.writes.faults ≡ self.old.writes.faults }

        // The listed reads fail. Another one fails only out of memory, and counts one more fault.
        ensures fails { IsTrue (fails_next self.old.reads) → IsErr result }
        ensures count { IfOk result (λ k. k ≡ min (min (length into.new) self.old.piece) (length self.old.left)) }
        ensures calls { OnOk result (self.new.reads ≡ after_call self.old.reads) }
        ensures failed { OnErr result (self.new.reads ≡ with_fault (counted self.old.reads)) }
        ensures piece { self.new.piece ≡ self.old.piece }
    {
        self.reads.count()?;
        let (_, left) = self.bytes.split_at(self.at);
        let count = into.len().min(self.piece).min(left.len());
        let (front, _) = left.split_at(count);
        if note_got(self.alloc, &mut self.events, front).is_err() {
            self.reads.count_fault();
            return Err(Failed);
        }
        into[..count].copy_from_slice(front);
        self.at += count;
        Ok(count)
    }

    /// Appends the whole piece. It also fails if it runs out of memory.
    fn write(&mut self, piece: &[u8]) -> Result<usize, Failed>
        requires { 0 < length piece.now }
        ensures bound { IfOk result (λ k. (0 < k) × (k ≤ length piece.now)) }
        ensures bytes { WriteAppends (Some self.old.written) (Some self.new.written) result piece.now }
        ensures notes { WriteNotes result piece.now (Some self.old.events) (Some self.new.events) }
        ensures cause { CountsFaults self.old.writes.faults self.new.writes.faults (IsErr result) }
        ensures same_left { Some self.new.left ≡ Some self.old.left }
        ensures same_faults { self.new.reads.faults ≡ self.old.reads.faults }

        // The listed calls fail. Another write fails only out of memory, and counts one more fault.
        ensures fails { IsTrue (fails_next self.old.writes) → IsErr result }
        ensures count { IfOk result (λ k. k ≡ length piece.now) }
        ensures calls { OnOk result (self.new.writes ≡ after_call self.old.writes) }
        ensures failed { OnErr result (self.new.writes ≡ with_fault (counted self.old.writes)) }
    {
        self.writes.count()?;
        if self.written.reserve(piece.len()).is_err()
            || note_put(self.alloc, &mut self.events, piece).is_err()
        {
            self.writes.count_fault();
            return Err(Failed);
        }
        // There is memory for it, so it does not fail.
        let _ = self.written.extend_from_slice(piece);
        Ok(piece.len())
    }

    /// Writes nothing. It also fails if it runs out of memory.
    fn flush(&mut self) -> Result<(), Failed>
        ensures notes { FlushNotes result (Some self.old.events) (Some self.new.events) }
        ensures cause { CountsFaults self.old.writes.faults self.new.writes.faults (IsErr result) }
        ensures same_written { Keeps (Some self.old.written) (Some self.new.written) }
        ensures same_left { Some self.new.left ≡ Some self.old.left }
        ensures same_faults { self.new.reads.faults ≡ self.old.reads.faults }

        // The listed calls fail. Another flush fails only out of memory, and counts one more fault.
        ensures fails { IsTrue (fails_next self.old.writes) → IsErr result }
        ensures calls { OnOk result (self.new.writes ≡ after_call self.old.writes) }
        ensures failed { OnErr result (self.new.writes ≡ with_fault (counted self.old.writes)) }
    {
        self.writes.count()?;
        if self.events.push(DuplexEvent::Flushed).is_err() {
            self.writes.count_fault();
            return Err(Failed);
        }
        Ok(())
    }
}
