ghost use Rattle.std.specs.Prelude.{◌≡◌, ◌≤◌, ◌<◌, ℕ, List, [], Some, None, true, false, IfOk, IfErr, IfSome, OnOk, flat_map};
ghost use Rattle.std.specs.Prelude.{length, map, option_map};
ghost use Rattle.live_io.specs.Unread.{first_feed};
ghost use Rattle.live_lines.specs.FaultLines.{line_fault_line};
ghost use Rattle.live_lines.specs.Items.{step};
ghost use Rattle.live_lines.specs.Views.{item_view, line_fault_view, reading_of};
ghost use Rattle.live_serving.specs.Answering.{Puts};
ghost use Rattle.live_serving.specs.Moments.{FailsItem, FailsOn, FailsToPut, GoesOn, IsInOrder, IsNextLine, TakesGot};
ghost use Rattle.live_serving.specs.Moments.{TakesItem, TakesNext, TakesRest};
ghost use Rattle.facet_phases.specs.declared.fault.PhaseFault.TheVariants.{NoMemory as Memory};

use crate::answering::Answering;
use facet_io::Failed;
use facet_names::NoMemory;
use facet_phases::{PhaseFault, Phases};
use facet_words::Order;
use live_io::{Duplex, FillFault, LineReader, put_all};
use live_lines::{GivenItem, Grouping, LineFault, write_line_fault};
use std::alloc::Global;

/// How many bytes a line may have without its line feed.
pub(crate) const MOST_BYTES: usize = 67_108_864;

/// The phases that are read while the process runs: one for each line behind the first, and one for each group. The
/// lines of its faults are written when it is given.
///
/// It reads only when no whole line is left, and flushes before each read call. The memory is that of the longest line
/// and of the longest group.
#[derive(Drop)]
pub struct LinePhases {
    /// The bytes that were got and not taken.
    pub reader: LineReader,
    /// The open group, and the number of the next line.
    pub grouping: Grouping,
    /// Whether a commit is a faulty line.
    pub only_reads: bool,
    /// Whether input has ended.
    pub is_ended: bool,
}

impl LinePhases {
    // Reads the next line, of `len` bytes. Errors: out of memory.
    fn read_line(&mut self, alloc: Global, len: usize) -> Result<Option<GivenItem>, NoMemory>
        requires { len ≤ length self.old.reader.bytes }
        ensures ok { IfOk result (λ o. (line : List ℕ) → IsNextLine self.old.reader len line
            → (option_map item_view o, reading_of self.new.grouping)
            ≡ step self.old.only_reads (reading_of self.old.grouping) line) }
        ensures order { IfOk result (λ o. IfSome o IsInOrder) }
        ensures reader { self.new.reader ≡ self.old.reader }
        ensures only_reads { self.new.only_reads ≡ self.old.only_reads }
        ensures is_ended { self.new.is_ended ≡ self.old.is_ended }
    {
        if self.grouping.next_line() == u64::MAX {
            Err(NoMemory)
        } else if self.reader.is_dropped() {
            self.grouping.too_long(alloc)
        } else {
            let line = self.reader.line(len);
            self.grouping.line(alloc, self.only_reads, line)
        }
    }

    // Takes the next line, of `len` bytes. Errors: out of memory.
    fn take_line(&mut self, alloc: Global, len: usize) -> Result<Option<GivenItem>, PhaseFault>
        requires { first_feed self.old.reader.bytes ≡ Some len }
        ensures ok { IfOk result (λ o. TakesItem self.old self.new (option_map item_view o)) }
        ensures order { IfOk result (λ o. IfSome o IsInOrder) }
        ensures err { IfErr result (λ e. e ≡ Memory) }
        ensures only_reads { self.new.only_reads ≡ self.old.only_reads }
        ensures is_ended { self.new.is_ended ≡ self.old.is_ended }
    {
        match self.read_line(alloc, len) {
            Ok(item) => {
                self.reader.pass(len);
                Ok(item)
            }
            Err(NoMemory) => Err(PhaseFault::NoMemory),
        }
    }

    // Whether some bytes of a line are left.
    fn has_rest(&self) -> bool
        ensures some { result ≡ true → self.now.reader.dropped ≡ false → 0 < length self.now.reader.bytes }
        ensures none { result ≡ false → (self.now.reader.dropped ≡ false) × (self.now.reader.bytes ≡ []) }
    {
        if self.reader.is_dropped() {
            true
        } else {
            !self.reader.rest().is_empty()
        }
    }

    // Takes what is left of a line at the end of input. Errors: out of memory.
    fn take_rest(&mut self, alloc: Global) -> Result<Option<GivenItem>, PhaseFault>
        requires { first_feed self.old.reader.bytes ≡ None }
        ensures ok { IfOk result (λ o. TakesRest self.old self.new (option_map item_view o)) }
        ensures order { IfOk result (λ o. IfSome o IsInOrder) }
        ensures err { IfErr result (λ e. e ≡ Memory) }
        ensures only_reads { self.new.only_reads ≡ self.old.only_reads }
        ensures is_ended { self.new.is_ended ≡ true }
    {
        self.is_ended = true;
        let len = self.reader.rest().len();
        if !self.has_rest() {
            return Ok(None);
        }
        match self.read_line(alloc, len) {
            Ok(item) => Ok(item),
            Err(NoMemory) => Err(PhaseFault::NoMemory),
        }
    }

    // Goes on after a read call that got so many bytes. Errors: out of memory.
    fn take_got(&mut self, alloc: Global, count: usize) -> Result<Option<GivenItem>, PhaseFault>
        requires { count ≡ 0 → first_feed self.old.reader.bytes ≡ None }
        ensures ok { IfOk result (λ o. TakesGot count self.old self.new (option_map item_view o)) }
        ensures order { IfOk result (λ o. IfSome o IsInOrder) }
        ensures err { IfErr result (λ e. e ≡ Memory) }
        ensures only_reads { self.new.only_reads ≡ self.old.only_reads }
    {
        if count == 0 {
            self.take_rest(alloc)
        } else {
            Ok(None)
        }
    }

    // Flushes, and reads once. At the end of input it takes what is left of a line.
    fn read_on<X: Duplex>(
        &mut self,
        alloc: Global,
        io: &mut X,
    ) -> Result<Option<GivenItem>, PhaseFault>
        requires { first_feed self.old.reader.bytes ≡ None }
        ensures ok { IfOk result (λ o. GoesOn X.Duplex self.old io.old self.new io.new (option_map item_view o)) }
        ensures failed { IfErr result (FailsOn X.Duplex self.old io.old self.new io.new) }
        ensures order { IfOk result (λ o. IfSome o IsInOrder) }
    {
        match io.flush() {
            Ok(()) => match self.reader.fill(io, MOST_BYTES) {
                Ok(count) => self.take_got(alloc, count),
                Err(FillFault::Failed) => Err(PhaseFault::Read),
                Err(FillFault::NoMemory) => Err(PhaseFault::NoMemory),
            },
            Err(Failed) => Err(PhaseFault::Write),
        }
    }

    // Takes a line, or reads where no whole one is left.
    fn go_on<X: Duplex>(
        &mut self,
        alloc: Global,
        io: &mut X,
    ) -> Result<Option<GivenItem>, PhaseFault>
        ensures ok { IfOk result (λ o. GoesOn X.Duplex self.old io.old self.new io.new (option_map item_view o)) }
        ensures failed { IfErr result (FailsOn X.Duplex self.old io.old self.new io.new) }
        ensures order { IfOk result (λ o. IfSome o IsInOrder) }
    {
        match self.reader.whole() {
            Some(len) => self.take_line(alloc, len),
            None => self.read_on(alloc, io),
        }
    }

    // Takes the next item. `None` if input has ended and there is no further one.
    fn next_item<X: Duplex>(
        &mut self,
        alloc: Global,
        io: &mut X,
    ) -> Result<Option<GivenItem>, PhaseFault>
        ensures ok { IfOk result (λ o. TakesNext X.Duplex self.old io.old self.new io.new (option_map item_view o)) }
        ensures failed { IfErr result (FailsItem X.Duplex self.old io.old self.new io.new) }
        ensures order { IfOk result (λ o. IfSome o IsInOrder) }
    {
        'reading: for _ in 0..u64::MAX {
            if self.is_ended {
                return Ok(self.grouping.end());
            }
            match self.go_on(alloc, io) {
                Ok(Some(item)) => return Ok(Some(item)),
                Ok(None) => {}
                Err(fault) => return Err(fault),
            }
        }
        Err(PhaseFault::NoMemory)
    }
}

// Returns the lines of faults.
fn lines_of_faults(alloc: Global, faults: &[LineFault]) -> Result<Vec<u8>, NoMemory>
    ensures { IfOk result (λ v. v.items ≡ flat_map line_fault_line (map line_fault_view faults.now)) }
{
    let mut lines = Vec::new(alloc);
    for fault in faults {
        write_line_fault(alloc, &mut lines, *fault)?;
    }
    Ok(lines)
}

// Puts the lines of faults.
fn put_faults<X: Duplex>(alloc: Global, io: &mut X, faults: &[LineFault]) -> Result<(), PhaseFault>
    ensures ok { OnOk result (Puts X.Duplex io.old io.new (flat_map line_fault_line (map line_fault_view faults.now))) }
    ensures failed { IfErr result (FailsToPut X.Duplex io.old io.new
        (flat_map line_fault_line (map line_fault_view faults.now))) }
{
    match lines_of_faults(alloc, faults) {
        Ok(lines) => match put_all(io, &lines) {
            Ok(()) => Ok(()),
            Err(Failed) => Err(PhaseFault::Write),
        },
        Err(NoMemory) => Err(PhaseFault::NoMemory),
    }
}

impl<X: Duplex> Phases<Answering<X>> for LinePhases {
    ghost use Rattle.live_serving.specs.Moments.{EndsItems, FailsItem, GivesItem};

    ghost sessions = { λ p. 64 };

    ghost gives = { λ p before q now orders. GivesItem X.Duplex p before.io q now.io orders };

    ghost ends = { λ p before q now. EndsItems X.Duplex p before.io q now.io };

    ghost fails = { λ p before q now fault. FailsItem X.Duplex p before.io q now.io fault };

    fn next(
        &mut self,
        alloc: Global,
        out: &mut Answering<X>,
    ) -> Result<Option<Vec<Order>>, PhaseFault> {
        match self.next_item(alloc, &mut out.io) {
            Ok(Some(item)) => {
                let GivenItem { faults, orders } = item;
                match put_faults(alloc, &mut out.io, &faults) {
                    Ok(()) => Ok(Some(orders)),
                    Err(fault) => Err(fault),
                }
            }
            Ok(None) => Ok(None),
            Err(fault) => Err(fault),
        }
    }
}
