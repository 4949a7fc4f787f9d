ghost use Rattle.std.specs.Prelude.{◌≡◌, ◌+◌, ◌<◌, ◌≤◌, ℕ, Bool, List, None, IfOk, IfErr, IfSome, IsTrue, All, length};
ghost use Rattle.std.specs.Prelude.{map, option_map};
ghost use Rattle.facet_words.specs.CommandViews.{order_view};
ghost use Rattle.facet_words.specs.ScriptOrder.{lines_rise};
ghost use Rattle.live_lines.specs.Items.{first_reading, last_item, step};
ghost use Rattle.live_lines.specs.Views.{item_view, reading_of};

use crate::group::{GivenItem, OpenGroup, step_group};
use crate::line::{LineFault, LiveLine, MOST_BYTES, read_live_line};
use facet_names::NoMemory;
use json::Scratch;
use std::alloc::Global;
use std::marker::Model;

/// Reads the lines of a process behind the first one, and gathers the lines of a group. It keeps the faults and the
/// commands of the open group, and at most 64 KiB of scratch memory.
#[derive(Drop)]
pub struct Grouping {
    next: u64,
    open_group: Option<OpenGroup>,
    scratch: Scratch,
}

impl Model for Grouping {
    ghost use Rattle.std.specs.Coded.{codes};
    ghost use Rattle.live_lines.specs.Items.{IsReading};
    ghost use Rattle.live_lines.specs.Views.{Kept, reading_of};
    ghost use Rattle.live_lines.specs.contracts.group.OpenGroup as e;

    ghost Value = { Kept };

    ghost coded = { Prim.hlevel (codes, e.the_row.coded) };

    ghost view = { λ g. record { next = g.next; group = g.open_group } };

    ghost invariant = { λ g. IsReading (reading_of (record { next = g.next; group = g.open_group })) };
}

// The memory that a long line needed is not kept.
fn release(alloc: Global, scratch: &mut Scratch, length: usize) {
    if 65_536 < length {
        *scratch = Scratch::new(alloc);
    }
}

impl Grouping {
    /// Returns a reader whose next line is line 2, with no open group. It takes no memory.
    pub fn new(alloc: Global) -> Grouping
        ensures { reading_of result ≡ first_reading }
    {
        Grouping {
            next: 2,
            open_group: None,
            scratch: Scratch::new(alloc),
        }
    }

    /// Returns the number of the next line.
    pub fn next_line(&self) -> u64
        ensures { result ≡ self.now.next }
    {
        self.next
    }

    /// Reads the next line, without its line feed, and returns what is carried out as one phase: of a line outside a
    /// group its command or its fault, of a phase line in a group all commands and faults of the group, and nothing of
    /// a phase line outside a group. `None` if the line begins a group or is in one. A process that only reads has no
    /// `commit`.
    ///
    /// Errors: out of memory. Then the line is counted, and otherwise lost.
    pub fn line(
        &mut self,
        alloc: Global,
        only_reads: bool,
        bytes: &[u8],
    ) -> Result<Option<GivenItem>, NoMemory>
        requires number { self.old.next + 1 < 18446744073709551616 }
        ensures ok { IfOk result (λ o. (option_map item_view o, reading_of self.new)
            ≡ step only_reads (reading_of self.old) bytes.now) }
        ensures err { IfErr result (λ _. reading_of self.new
            ≡ record (reading_of self.old) { next = self.old.next + 1 }) }
        ensures rise { IfOk result (λ o. IfSome o (λ i. IsTrue (lines_rise (map order_view i.orders.items)))) }
        ensures sessions { IfOk result (λ o.
            IfSome o (λ i. All (λ o. (1 ≤ o.session) × (o.session ≤ 64)) i.orders.items)) }
    {
        let number = self.next;
        self.next += 1;
        let line = read_live_line(alloc, &mut self.scratch, only_reads, number, bytes)?;
        release(alloc, &mut self.scratch, bytes.len());
        step_group(alloc, &mut self.open_group, number, bytes.len(), line)
    }

    /// Counts a line of more than 67,108,864 bytes, and returns what `line` returns for any such line.
    ///
    /// Errors: out of memory. Then the line is counted, and otherwise lost.
    pub fn too_long(&mut self, alloc: Global) -> Result<Option<GivenItem>, NoMemory>
        requires number { self.old.next + 1 < 18446744073709551616 }
        ensures ok { IfOk result (λ o. (only_reads : Bool) (bytes : List ℕ) → 67108864 < length bytes
            → (option_map item_view o, reading_of self.new) ≡ step only_reads (reading_of self.old) bytes) }
        ensures err { IfErr result (λ _. reading_of self.new
            ≡ record (reading_of self.old) { next = self.old.next + 1 }) }
        ensures rise { IfOk result (λ o. IfSome o (λ i. IsTrue (lines_rise (map order_view i.orders.items)))) }
        ensures sessions { IfOk result (λ o.
            IfSome o (λ i. All (λ o. (1 ≤ o.session) × (o.session ≤ 64)) i.orders.items)) }
    {
        let number = self.next;
        self.next += 1;
        let fault = LineFault::TooLong { line: number };
        step_group(
            alloc,
            &mut self.open_group,
            number,
            MOST_BYTES + 1,
            LiveLine::Faulty(fault),
        )
    }

    /// Returns what is carried out of an open group at the end of the lines, and closes it.
    pub fn end(&mut self) -> Option<GivenItem>
        ensures item { option_map item_view result ≡ last_item (reading_of self.old) }
        ensures closed { reading_of self.new ≡ record (reading_of self.old) { open_group = None } }
        ensures rise { IfSome result (λ i. IsTrue (lines_rise (map order_view i.orders.items))) }
        ensures sessions { IfSome result (λ i. All (λ o. (1 ≤ o.session) × (o.session ≤ 64)) i.orders.items) }
    {
        match self.open_group.take() {
            Some(open) => Some(open.item),
            None => None,
        }
    }
}
