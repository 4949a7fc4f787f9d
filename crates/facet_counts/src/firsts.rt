//! The first children of a label in the order of a listing.
ghost use Rattle.std.specs.Prelude.{◌≡◌, ◌<◌, ◌≤◌, ◌+◌, ◌-◌, ◌++◌, ◌*◌, ◌∷◌, [], ℕ, List, true, false, All, length};
ghost use Rattle.std.specs.Prelude.{map, take, slice_index_or, IfOk, OnOk};
ghost use Rattle.std.specs.List.Sorted.{IsPermutation, IsSorted};
ghost use Rattle.std.specs.Ordering.{is_lt};
ghost use Rattle.facet_names.specs.Arrays.{is_child};
ghost use Rattle.facet_names.specs.Labels.{IsLabelList};
ghost use Rattle.facet_names.specs.Paths.{last_part};
ghost use Rattle.facet_model.specs.Listing.{PartCount, counted_child, listing_cmp};
ghost use Rattle.facet_counts.specs.Children.{entries_of, children_at};
ghost use Rattle.facet_counts.specs.Firsts.{AreFirst, AreChosen, IsShort, standing};

use crate::children::{children_below, sum_of};
use crate::links::{child_of, sibling_of};
use facet_model::{Child, Word};
use facet_names::NoMemory;
use std::alloc::Global;
use taxo_list::{Labelled, TaxoView};

// Up to this many children are chosen while walking, where each chosen one moves those after it. For more of them, all
// are sorted.
const MOST_CHOSEN: u32 = 64;

/// The first children of a label, and a summary of all that a document has.
#[derive(Drop)]
pub struct Firsts {
    /// The first children, in order.
    pub children: Vec<Child>,
    /// The sum of the counts of all children.
    pub sum: u64,
    /// The number of all children with a document.
    pub number: u32,
}

/// A child that is among the first ones so far. It borrows its text from the view.
#[derive(Drop)]
pub(crate) struct Candidate<'a> {
    pub(crate) text: &'a str,
    pub(crate) count: u32,
}

/// The first children so far, and a summary of all that were visited.
#[derive(Drop)]
pub(crate) struct Chosen<'a> {
    pub(crate) candidates: Vec<Candidate<'a>>,
    pub(crate) sum: u64,
    pub(crate) number: u32,
}

// Returns how many components a label has. The last one of each of its children is at this place.
fn depth_of(view: &TaxoView, ord: u32) -> usize
    requires within { ord < length view.now }
    requires list { IsLabelList view.now }
    ensures { (child : ℕ) → child < length view.now → is_child view.now ord child ≡ true
        → length (slice_index_or view.now child []) ≡ result + 1 }
{
    if ord == 0 {
        return 0;
    }
    view.path_of(ord).len()
}

// Returns the component of a label at a place.
fn text_of(view: &TaxoView, ord: u32, depth: usize) -> &str
    requires some { 0 < ord }
    requires within { ord < length view.now }
    requires last { length (slice_index_or view.now ord []) ≡ depth + 1 }
    ensures text { result.now ≡ last_part (slice_index_or view.now ord []) }
    ensures filled { 0 < length result.now }
    ensures short { length result.now ≤ 1024 }
{
    view.path_of(ord).part(depth)
}

// Returns whether a child precedes another one. Their texts are compared only if their counts are equal.
fn comes_before(one: &Candidate<'_>, other: &Candidate<'_>) -> bool
    ensures { result ≡ is_lt (listing_cmp (standing one.now) (standing other.now)) }
{
    if one.count != other.count {
        return one.count > other.count;
    }
    one.text.cmp(other.text).is_lt()
}

// Returns where a child belongs among others. Most belong after all of them. If the labels were added in the order of
// their texts, each belongs before all. So these two places are tried first.
fn place_among(child: &Candidate<'_>, candidates: &[Candidate<'_>]) -> usize
    ensures within { result ≤ length candidates.now }
    ensures after { 0 < result → is_lt (listing_cmp (standing child.now)
        (slice_index_or (map standing candidates.now) (result - 1) (standing child.now))) ≡ false }
    ensures before { result < length candidates.now → is_lt (listing_cmp (standing child.now)
        (slice_index_or (map standing candidates.now) result (standing child.now))) ≡ true }
{
    let len = candidates.len();
    if len == 0 || !comes_before(child, &candidates[len - 1]) {
        return len;
    }
    if comes_before(child, &candidates[0]) {
        return 0;
    }
    let mut low = 1;
    let mut high = len - 1;
    while low < high {
        let middle = low + (high - low) / 2;
        if comes_before(child, &candidates[middle]) {
            high = middle;
        } else {
            low = middle + 1;
        }
    }
    low
}

// Adds a child to the first ones if it is one of them.
fn choose<'a>(
    child: Candidate<'a>,
    n: usize,
    candidates: &mut Vec<Candidate<'a>>,
) -> Result<(), NoMemory>
    requires short { IsShort child }
    requires all_short { All IsShort candidates.old.items }
    ensures chosen { OnOk result ((ordered : List PartCount) → IsSorted listing_cmp ordered
        → map standing candidates.old.items ≡ take n ordered
        → (more : List PartCount) × IsPermutation (standing child.entry ∷ ordered) more × IsSorted listing_cmp more
        × (map standing candidates.new.items ≡ take n more)) }
    ensures short { OnOk result (All IsShort candidates.new.items) }
{
    let at = place_among(&child, candidates);
    if at < n {
        candidates.insert(at, child)?;
        candidates.truncate(n);
    }
    Ok(())
}

// Returns whether `n` children are chosen and the last of them has more documents than this.
fn has_passed(candidates: &[Candidate<'_>], n: usize, count: u32) -> bool
    ensures many { result ≡ true → n ≤ length candidates.now }
    ensures more { result ≡ true → (part : List ℕ) → is_lt (listing_cmp (part, count)
        (slice_index_or (map standing candidates.now) (length candidates.now - 1) (part, count))) ≡ false }
{
    let len = candidates.len();
    if len == 0 || len < n {
        return false;
    }
    count < candidates[len - 1].count
}

// Adds a child to the first ones if it is one of them. Where `n` others have more documents, its text is not read.
fn choose_child<'a>(
    view: &'a TaxoView,
    child: u32,
    count: u32,
    depth: usize,
    n: usize,
    candidates: &mut Vec<Candidate<'a>>,
) -> Result<(), NoMemory>
    requires some { 0 < child }
    requires within { child < length view.now }
    requires last { length (slice_index_or view.now child []) ≡ depth + 1 }
    requires short { All IsShort candidates.old.items }
    ensures chosen { OnOk result ((ordered : List PartCount) → IsSorted listing_cmp ordered
        → map standing candidates.old.items ≡ take n ordered
        → (more : List PartCount) × IsPermutation ((last_part (slice_index_or view.now child []), count) ∷ ordered) more
        × IsSorted listing_cmp more × (map standing candidates.new.items ≡ take n more)) }
    ensures short { OnOk result (All IsShort candidates.new.items) }
{
    if has_passed(candidates, n, count) {
        return Ok(());
    }
    let text = text_of(view, child, depth);
    choose(Candidate { text, count }, n, candidates)
}

// Visits one more child, if its count is above 0.
fn choose_among<'a>(
    view: &'a TaxoView,
    totals: &[u32],
    child: u32,
    depth: usize,
    n: usize,
    chosen: &mut Chosen<'a>,
) -> Result<(), NoMemory>
    requires some { 0 < child }
    requires within { child < length view.now }
    requires last { length (slice_index_or view.now child []) ≡ depth + 1 }
    requires sized { length totals.now ≡ length view.now }
    requires small { slice_index_or totals.now child 0 ≤ 1000000 }
    requires few { chosen.old.number ≤ 1000000 }
    requires low { chosen.old.sum ≤ 1000000 * chosen.old.number }
    requires short { All IsShort chosen.old.candidates.items }
    ensures { OnOk result ((children : List PartCount) → AreChosen n children chosen.old
        → AreChosen n (children ++ entries_of view.now totals.now (child ∷ [])) chosen.new) }
{
    let count = totals[child as usize];
    if count > 0 {
        choose_child(view, child, count, depth, n, &mut chosen.candidates)?;
        chosen.sum += count as u64;
        chosen.number += 1;
    }
    Ok(())
}

// Returns the first children of a label, chosen in one walk. It allocates n candidates.
fn chosen_below<'a>(
    alloc: Global,
    view: &'a TaxoView,
    totals: &[u32],
    ord: u32,
    n: usize,
) -> Result<Chosen<'a>, NoMemory>
    requires within { ord < length view.now }
    requires list { IsLabelList view.now }
    requires few { length view.now ≤ 1000000 }
    requires sized { length totals.now ≡ length view.now }
    requires small { (k : ℕ) → 0 < k → k < length view.now → slice_index_or totals.now k 0 ≤ 1000000 }
    ensures { IfOk result (λ c. AreChosen n (children_at view.now totals.now ord) c) }
{
    let mut chosen = Chosen {
        candidates: Vec::new(alloc),
        sum: 0,
        number: 0,
    };
    let depth = depth_of(view, ord);
    let mut next = child_of(view, ord);
    while let Some(child) = next {
        choose_among(view, totals, child, depth, n, &mut chosen)?;
        next = sibling_of(view, child);
    }
    Ok(chosen)
}

// Returns the chosen children, each with a copy of its text.
fn children_of(alloc: Global, candidates: &[Candidate<'_>]) -> Result<Vec<Child>, NoMemory>
    requires { All IsShort candidates.now }
    ensures { IfOk result (λ v. map counted_child v.items ≡ map standing candidates.now) }
{
    let mut children = Vec::with_capacity(alloc, candidates.len())?;
    for candidate in candidates {
        let part = Word::new(alloc, candidate.text)?.unwrap();
        children.push(Child {
            part,
            count: candidate.count,
        })?;
    }
    Ok(children)
}

// Does the same for any n: all children are sorted, each with a copy of its text.
fn sorted_below(
    alloc: Global,
    view: &TaxoView,
    totals: &[u32],
    ord: u32,
    n: usize,
) -> Result<Firsts, NoMemory>
    requires within { ord < length view.now }
    requires few { length view.now ≤ 1000000 }
    requires sized { length totals.now ≡ length view.now }
    requires small { (k : ℕ) → 0 < k → k < length view.now → slice_index_or totals.now k 0 ≤ 1000000 }
    ensures first { IfOk result (λ f. AreFirst n (children_at view.now totals.now ord)
        (map counted_child f.children.items) f.sum f.number) }
    ensures few { IfOk result (λ f. f.number ≤ 1000000) }
    ensures low { IfOk result (λ f. f.sum ≤ 1000000 * f.number) }
{
    let mut children = children_below(alloc, view, totals, ord)?;
    children.sort()?;
    let sum = sum_of(&children);
    let number = children.len() as u32;
    children.truncate(n);
    Ok(Firsts {
        children,
        sum,
        number,
    })
}

/// Returns the first `n` children of a label with a count above 0, by falling counts, ties by their texts. It walks
/// over the children once. For `n` up to 64 it allocates only these `n`, with copies of their texts. Otherwise it
/// copies and sorts all.
///
/// Errors: out of memory.
pub fn first_below(
    alloc: Global,
    view: &TaxoView,
    totals: &[u32],
    ord: u32,
    n: u32,
) -> Result<Firsts, NoMemory>
    requires within { ord < length view.now }
    requires list { IsLabelList view.now }
    requires few { length view.now ≤ 1000000 }
    requires sized { length totals.now ≡ length view.now }
    requires small { (k : ℕ) → 0 < k → k < length view.now → slice_index_or totals.now k 0 ≤ 1000000 }
    ensures first { IfOk result (λ f. AreFirst n (children_at view.now totals.now ord)
        (map counted_child f.children.items) f.sum f.number) }
    ensures few { IfOk result (λ f. f.number ≤ 1000000) }
    ensures low { IfOk result (λ f. f.sum ≤ 1000000 * f.number) }
{
    if n > MOST_CHOSEN {
        return sorted_below(alloc, view, totals, ord, n as usize);
    }
    let chosen = chosen_below(alloc, view, totals, ord, n as usize)?;
    let children = children_of(alloc, &chosen.candidates)?;
    Ok(Firsts {
        children,
        sum: chosen.sum,
        number: chosen.number,
    })
}
