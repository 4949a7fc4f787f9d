ghost use Rattle.std.specs.Prelude.{◌≡◌, ◌≤◌, ◌≢◌, IfOk, IfErr, IfSome, OnOk, OnErr, option_map};
ghost use Rattle.facet_words.specs.CommandViews.{order_view};
ghost use Rattle.live_lines.specs.Lines.{end};
ghost use Rattle.live_lines.specs.Items.{no_item, with_fault, with_order, item_with, open_with, begun, stepped};
ghost use Rattle.live_lines.specs.Views.{line_fault_view, line_view, item_view, open_view};

use crate::line::{LineFault, LiveLine, MOST_BYTES};
use facet_names::NoMemory;
use facet_words::{Order, ScriptFault};
use std::alloc::Global;

/// What is carried out as one phase: the faults and the commands of its lines, both in line order.
#[derive(Drop)]
pub struct GivenItem {
    /// The faults of its lines.
    pub faults: Vec<LineFault>,
    /// The commands of its lines.
    pub orders: Vec<Order>,
}

impl GivenItem {
    fn new(alloc: Global) -> GivenItem
        ensures { item_view result ≡ no_item }
    {
        GivenItem {
            faults: Vec::new(alloc),
            orders: Vec::new(alloc),
        }
    }

    fn add_fault(&mut self, fault: LineFault) -> Result<(), NoMemory>
        ensures ok { OnOk result (item_view self.new ≡ with_fault (line_fault_view fault) (item_view self.old)) }
        ensures err { OnErr result (item_view self.new ≡ item_view self.old) }
    {
        self.faults.push(fault)?;
        Ok(())
    }

    fn add_order(&mut self, order: Order) -> Result<(), NoMemory>
        ensures ok { OnOk result (item_view self.new ≡ with_order (order_view order) (item_view self.old)) }
        ensures err { OnErr result (item_view self.new ≡ item_view self.old) }
    {
        self.orders.push(order)?;
        Ok(())
    }

    // Adds the line of this number. No group begins in a group.
    fn add_line(&mut self, number: u64, line: LiveLine) -> Result<(), NoMemory>
        ensures ok { OnOk result (item_view self.new ≡ item_with number (line_view line) (item_view self.old)) }
        ensures err { OnErr result (item_view self.new ≡ item_view self.old) }
    {
        match line {
            LiveLine::Order(order) => self.add_order(order),
            LiveLine::End => Ok(()),
            LiveLine::Group => {
                self.add_fault(LineFault::Script(ScriptFault::BadShape { line: number }))
            }
            LiveLine::Faulty(fault) => self.add_fault(fault),
        }
    }
}

/// An open group.
#[derive(Drop)]
pub(crate) struct OpenGroup {
    /// What its lines are so far.
    pub item: GivenItem,
    /// How many bytes its lines have with their line feeds; one more than the most if it is full.
    pub size: usize,
}

impl OpenGroup {
    fn new(alloc: Global) -> OpenGroup
        ensures { open_view result ≡ record { item = no_item; size = 0 } }
    {
        OpenGroup {
            item: GivenItem::new(alloc),
            size: 0,
        }
    }

    // Adds the line of this number and length. With the first one that is too much the group is full, and no further
    // one is added.
    fn add(&mut self, number: u64, length: usize, line: LiveLine) -> Result<(), NoMemory>
        requires few { self.old.size ≤ 67108865 }
        ensures ok { OnOk result
            (open_view self.new ≡ open_with number length (line_view line) (open_view self.old)) }
        ensures err { OnErr result (open_view self.new ≡ open_view self.old) }
    {
        if MOST_BYTES < self.size {
            return Ok(());
        }
        if MOST_BYTES - self.size <= length {
            self.item.add_fault(LineFault::TooLong { line: number })?;
            self.size = MOST_BYTES + 1;
            return Ok(());
        }
        self.item.add_line(number, line)?;
        self.size += length + 1;
        Ok(())
    }
}

// Closes the group, or ends a phase without lines.
fn close(alloc: Global, group: &mut Option<OpenGroup>) -> GivenItem
    ensures item { (Some (item_view result), option_map open_view group.new)
        ≡ stepped 0 0 end (option_map open_view group.old) }
{
    match group.take() {
        Some(open) => open.item,
        None => GivenItem::new(alloc),
    }
}

// A line outside a group that is not the end of one.
fn begin(
    alloc: Global,
    group: &mut Option<OpenGroup>,
    line: LiveLine,
) -> Result<Option<GivenItem>, NoMemory>
    requires none { group.old ≡ None }
    requires other { line_view line ≢ end }
    ensures ok { IfOk result (λ o. (option_map item_view o, option_map open_view group.new)
        ≡ stepped 0 0 (line_view line) None) }
    ensures err { IfErr result (λ _. group.new ≡ None) }
{
    if let LiveLine::Group = line {
        *group = Some(OpenGroup::new(alloc));
        return Ok(None);
    }
    let mut item = GivenItem::new(alloc);
    item.add_line(0, line)?;
    Ok(Some(item))
}

/// Carries out the line of this number and length, in the group or outside one. `None` if the line begins a group or is
/// in one.
///
/// Errors: out of memory. Then the group is as before.
pub(crate) fn step_group(
    alloc: Global,
    group: &mut Option<OpenGroup>,
    number: u64,
    length: usize,
    line: LiveLine,
) -> Result<Option<GivenItem>, NoMemory>
    requires few { IfSome group.old (λ g. g.size ≤ 67108865) }
    ensures ok { IfOk result (λ o. (option_map item_view o, option_map open_view group.new)
        ≡ stepped number length (line_view line) (option_map open_view group.old)) }
    ensures err { IfErr result (λ _. option_map open_view group.new ≡ option_map open_view group.old) }
{
    match line {
        LiveLine::End => Ok(Some(close(alloc, group))),
        line => match group {
            Some(open) => {
                open.add(number, length, line)?;
                Ok(None)
            }
            None => begin(alloc, group, line),
        },
    }
}
