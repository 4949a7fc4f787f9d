//! The children of a label with their counts.
ghost use Rattle.std.specs.Prelude.{◌≡◌, ◌<◌, ◌≤◌, ◌++◌, ◌*◌, ◌∷◌, [], All, length, map, sum_by, IfOk, OnOk};
ghost use Rattle.facet_names.specs.Paths.{last_part};
ghost use Rattle.facet_model.specs.Listing.{counted_child};
ghost use Rattle.facet_counts.specs.Children.{entry_of, entries_of, children_at};

use crate::links::{child_of, sibling_of};
use facet_model::{Child, Word};
use facet_names::{NoMemory, Path};
use std::alloc::Global;
use taxo_list::{Labelled, TaxoView};

// Returns the last component of a path.
fn last_part(alloc: Global, path: &Path) -> Result<Word, NoMemory>
    ensures { IfOk result (λ w. w ≡ last_part path.now) }
{
    Ok(Word::new(alloc, path.part(path.len() - 1))?.unwrap())
}

// Returns a child with its count.
fn child_with(alloc: Global, view: &TaxoView, totals: &[u32], child: u32) -> Result<Child, NoMemory>
    requires some { 0 < child }
    requires within { child < length view.now }
    requires sized { length totals.now ≡ length view.now }
    ensures { IfOk result (λ c. counted_child c ≡ entry_of view.now totals.now child) }
{
    let part = last_part(alloc, view.path_of(child))?;
    let count = totals[child as usize];
    Ok(Child { part, count })
}

// Adds a child if its count is above 0.
fn note(
    alloc: Global,
    view: &TaxoView,
    totals: &[u32],
    child: u32,
    children: &mut Vec<Child>,
) -> Result<(), NoMemory>
    requires some { 0 < child }
    requires within { child < length view.now }
    requires sized { length totals.now ≡ length view.now }
    ensures { OnOk result (map counted_child children.new.items
        ≡ map counted_child children.old.items ++ entries_of view.now totals.now (child ∷ [])) }
{
    if totals[child as usize] > 0 {
        let one = child_with(alloc, view, totals, child)?;
        children.push(one)?;
    }
    Ok(())
}

/// Returns the children of a label with a count above 0, the one that was added last first. It walks over the child and
/// sibling arrays, and copies the text of each child. Errors: out of memory.
pub fn children_below(
    alloc: Global,
    view: &TaxoView,
    totals: &[u32],
    ord: u32,
) -> Result<Vec<Child>, NoMemory>
    requires within { ord < length view.now }
    requires sized { length totals.now ≡ length view.now }
    ensures children { IfOk result (λ v. map counted_child v.items ≡ children_at view.now totals.now ord) }
    ensures few { IfOk result (λ v. length v.items ≤ length view.now) }
{
    let mut children = Vec::new(alloc);
    let mut next = child_of(view, ord);
    while let Some(child) = next {
        note(alloc, view, totals, child, &mut children)?;
        next = sibling_of(view, child);
    }
    Ok(children)
}

/// Returns the sum of the counts.
pub fn sum_of(children: &[Child]) -> u64
    requires few { length children.now ≤ 1000000 }
    requires small { All (λ c. c.count ≤ 1000000) children.now }
    ensures sum { result ≡ sum_by (λ c. c.count) children.now }
    ensures small { result ≤ 1000000 * length children.now }
{
    let mut sum = 0;
    for child in children {
        sum += child.count as u64;
    }
    sum
}
