//! The numbers of the labels of a dimension, and the counters that each of them counts for.
ghost use Rattle.std.specs.Prelude.{◌≡◌, ◌==◌, ◌+◌, ◌<◌, ◌≤◌, ◌^◌, length, replicate, slice_get, slice_index_or, [], ◌∷◌};
ghost use Rattle.std.specs.Prelude.{Some, IfOk, IfSome};
ghost use Rattle.facet_names.specs.Labels.{IsLabelList};
ghost use Rattle.value_facets.specs.Cuts.{AreRising};
ghost use Rattle.value_facets.specs.Marking.{AreMarks, AreSlots, IsSlot, IsSlotOfAll, counters_of, joined_slot};

use crate::cuts::{cuts_of, rank_of, rows_of};
use crate::dims::dim_at;
use facet_counts::{child_of, sibling_of};
use facet_names::{NoMemory, Path};
use number_facets::read_number;
use seg_postings::Ords;
use std::alloc::Global;
use std::marker::Model;
use taxo_list::{Labelled, TaxoView};

/// The counters that each label of a view counts for. Memory: 4 bytes per label, and 4 for each counter that has a cut.
#[derive(Drop)]
pub(crate) struct Marks {
    slots: Vec<u32>,
    rows: Vec<Vec<u32>>,
}

impl Model for Marks {
    ghost use Rattle.std.specs.Prelude.{◌≡◌, ◌+◌, ◌^◌, ◌<◌, ◌≤◌, All, [], length};
    ghost use Rattle.value_facets.specs.Cuts.{row_at};
    ghost use Rattle.value_facets.specs.Marking.{Marked, marked_of};

    ghost Value = { Marked };

    ghost view = { λ m. marked_of m.slots.items m.rows.items };

    ghost invariant = { λ m. (0 < length m.rows.items) × All (λ slot. slot < length m.rows.items) m.slots.items
        × (row_at m.rows.items 0 ≡ []) × (length m.rows.items ≤ 2 ^ 31 + 1) };
}

fn has_two_components(path: &Path) -> bool
    ensures { result ≡ (length path.now == 2) }
{
    path.len() == 2
}

// Returns the slot of a label, from its text.
fn slot_of(view: &TaxoView, ord: u32, dim: &str, cuts: &[i64]) -> u32
    requires some { 0 < ord }
    requires label { ord < length view.now }
    requires rising { AreRising cuts.now }
    requires few { length cuts.now < 2 ^ 32 }
    ensures slot { IsSlot view.now dim.now cuts.now ord result }
    ensures within { result ≤ length cuts.now }
{
    let path = view.path_of(ord);
    if !has_two_components(path) || path.dim() != dim {
        return 0;
    }
    match read_number(path.part(1)) {
        Some(number) => rank_of(cuts, number) as u32,
        None => 0,
    }
}

// Notes the slots of the labels below a dimension, where all slots were the first one. It visits these labels alone.
fn note_slots(view: &TaxoView, ord: u32, dim: &str, cuts: &[i64], slots: &mut [u32])
    requires list { IsLabelList view.now }
    requires dim { slice_get view.now ord ≡ Some (dim.now ∷ []) }
    requires rising { AreRising cuts.now }
    requires few { length cuts.now < 2 ^ 32 }
    requires none { slots.old ≡ replicate (length view.now) 0 }
    ensures { AreSlots view.now dim.now cuts.now slots.new }
{
    let mut next = child_of(view, ord);
    while let Some(child) = next {
        slots[child as usize] = slot_of(view, child, dim, cuts);
        next = sibling_of(view, child);
    }
}

// Returns the slot of each label of a view. It visits the labels below the dimension, and reads their texts. All other
// slots are set to zero. Errors: out of memory.
fn slots_of(alloc: Global, view: &TaxoView, dim: &str, cuts: &[i64]) -> Result<Vec<u32>, NoMemory>
    requires rising { AreRising cuts.now }
    requires few { length cuts.now < 2 ^ 32 }
    ensures { IfOk result (λ v. AreSlots view.now dim.now cuts.now v.items) }
{
    let size = view.size() as usize;
    let mut slots = vec![in alloc; 0u32; size]?;
    if let Some(ord) = dim_at(alloc, view, dim)? {
        note_slots(view, ord, dim, cuts, &mut slots);
    }
    Ok(slots)
}

// Returns the slot of both, if one of them is the first slot, which has no counter, or they are equal.
fn joined(one: usize, other: usize) -> Option<usize>
    ensures { result ≡ joined_slot one other }
{
    if one == 0 || one == other {
        Some(other)
    } else if other == 0 {
        Some(one)
    } else {
        None
    }
}

impl Marks {
    /// Returns the counters of each label of a view: those of the bounds that have the label's number in a dimension.
    /// Errors: out of memory.
    pub(crate) fn new(
        alloc: Global,
        view: &TaxoView,
        dim: &str,
        bounds: &[(i64, i64)],
    ) -> Result<Marks, NoMemory>
        requires { length bounds.now ≤ 2 ^ 30 }
        ensures { IfOk result (λ m. AreMarks view.now dim.now bounds.now m) }
    {
        let cuts = cuts_of(alloc, bounds)?;
        let rows = rows_of(alloc, bounds, &cuts)?;
        let slots = slots_of(alloc, view, dim, &cuts)?;
        Ok(Marks { slots, rows })
    }

    fn slot(&self, ord: u32) -> usize
        ensures slot { result ≡ slice_index_or self.now.slots ord 0 }
        ensures within { result < length self.now.rows }
    {
        let ord = ord as usize;
        if ord < self.slots.len() {
            self.slots[ord] as usize
        } else {
            0
        }
    }

    /// Returns the counters that a label counts for, in constant time; none for an ordinal that the view does not have.
    pub(crate) fn counters(&self, ord: u32) -> &[u32]
        ensures { result.now ≡ counters_of self.now ord }
    {
        &self.rows[self.slot(ord)]
    }

    // Returns the first slot, whose row has no counter.
    fn none_slot(&self) -> usize
        ensures zero { result ≡ 0 }
        ensures some { 0 < length self.now.rows }
        ensures none { slice_index_or self.now.rows 0 [] ≡ [] }
    {
        let _rows = &self.rows;
        0
    }

    /// Returns how many rows of counters there are.
    pub(crate) fn rows(&self) -> usize
        ensures rows { result ≡ length self.now.rows }
        ensures few { result ≤ 2 ^ 31 + 1 }
    {
        self.rows.len()
    }

    /// Returns the counters in a row.
    pub(crate) fn row(&self, slot: usize) -> &[u32]
        requires { slot < length self.now.rows }
        ensures { result.now ≡ slice_index_or self.now.rows slot [] }
    {
        &self.rows[slot]
    }

    /// Returns the row of the counters that these labels count for, or `None` if their numbers have several rows.
    pub(crate) fn slot_of_all(&self, leaves: &Ords<'_>) -> Option<usize>
        ensures { IfSome result (IsSlotOfAll self.now leaves.now) }
    {
        let mut slot = self.none_slot();
        for i in 0..leaves.len() {
            match joined(slot, self.slot(leaves.at(i))) {
                Some(both) => slot = both,
                None => return None,
            }
        }
        Some(slot)
    }
}
