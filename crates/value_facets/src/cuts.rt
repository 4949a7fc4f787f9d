//! The numbers where the ranges that have a number change. All numbers from one of them up to the next are in the same
//! ranges.
ghost use Rattle.std.specs.Prelude.{◌≡◌, ◌+◌, ◌*◌, ◌≤◌, ◌^◌, ℤ, length, All, IfOk, OnOk};
ghost use Rattle.std.specs.List.{Contains};
ghost use Rattle.number_facets.specs.Bounds.{is_within};
ghost use Rattle.value_facets.specs.Cuts.{AreBounds, AreRising, AreRows, HasCuts, IsRank, IsRow};

use facet_names::NoMemory;
use number_facets::Range;
use std::alloc::Global;

// The greatest number of ranges and of the one of all numbers, so that a row has a number of 32 bits.
const MOST_BOUNDS: usize = 1 << 30;

/// Returns the bounds of each range, and after them those of all numbers. Errors: out of memory, also for 2^30 ranges.
pub(crate) fn bounds_of(alloc: Global, ranges: &[Range]) -> Result<Vec<(i64, i64)>, NoMemory>
    ensures { IfOk result (λ v. AreBounds ranges.now v.items) }
{
    if ranges.len() >= MOST_BOUNDS {
        return Err(NoMemory);
    }
    let mut bounds = Vec::with_capacity(alloc, ranges.len() + 1)?;
    for range in ranges {
        bounds.push(range.bounds())?;
    }
    bounds.push((i64::MIN, i64::MAX))?;
    Ok(bounds)
}

// Adds the cuts of a bound.
fn add_cuts(cuts: &mut Vec<i64>, bound: (i64, i64)) -> Result<(), NoMemory>
    ensures has { OnOk result (HasCuts cuts.new.items bound) }
    ensures kept { OnOk result ((cut : ℤ) → Contains cuts.old.items cut → Contains cuts.new.items cut) }
    ensures few { OnOk result (length cuts.new.items ≤ length cuts.old.items + 2) }
{
    let (first, last) = bound;
    cuts.push(first)?;
    if last < i64::MAX {
        cuts.push(last + 1)?;
    }
    Ok(())
}

/// Returns the cuts, rising: the first number of each bound, and the one after its last. Errors: out of memory.
pub(crate) fn cuts_of(alloc: Global, bounds: &[(i64, i64)]) -> Result<Vec<i64>, NoMemory>
    requires { length bounds.now ≤ 2 ^ 30 }
    ensures rising { IfOk result (λ v. AreRising v.items) }
    ensures each { IfOk result (λ v. All (HasCuts v.items) bounds.now) }
    ensures few { IfOk result (λ v. length v.items ≤ 2 * length bounds.now) }
{
    let mut cuts = Vec::with_capacity(alloc, 2 * bounds.len())?;
    for bound in bounds {
        add_cuts(&mut cuts, *bound)?;
    }
    cuts.sort_unstable();
    Ok(cuts)
}

/// Returns how many cuts are not above a number, by binary search.
pub(crate) fn rank_of(cuts: &[i64], number: i64) -> usize
    requires { AreRising cuts.now }
    ensures { IsRank cuts.now number result }
{
    let mut low = 0;
    let mut high = cuts.len();
    while low < high {
        let middle = low + (high - low) / 2;
        if cuts[middle] <= number {
            low = middle + 1;
        } else {
            high = middle;
        }
    }
    low
}

fn has_number(bound: (i64, i64), number: i64) -> bool
    ensures { result ≡ is_within bound number }
{
    bound.0 <= number && number <= bound.1
}

// Returns the places of the bounds that have a number.
fn row_of(alloc: Global, bounds: &[(i64, i64)], number: i64) -> Result<Vec<u32>, NoMemory>
    requires { length bounds.now ≤ 2 ^ 30 }
    ensures { IfOk result (λ v. IsRow bounds.now number v.items) }
{
    let mut row = Vec::new(alloc);
    for k in 0..bounds.len() {
        if has_number(bounds[k], number) {
            row.push(k as u32)?;
        }
    }
    Ok(row)
}

/// Returns a row without a bound, and after it the row of each cut. Errors: out of memory.
pub(crate) fn rows_of(
    alloc: Global,
    bounds: &[(i64, i64)],
    cuts: &[i64],
) -> Result<Vec<Vec<u32>>, NoMemory>
    requires small { length bounds.now ≤ 2 ^ 30 }
    requires few { length cuts.now ≤ 2 * length bounds.now }
    ensures { IfOk result (λ v. AreRows bounds.now cuts.now v.items) }
{
    let mut rows = Vec::with_capacity(alloc, cuts.len() + 1)?;
    rows.push(Vec::new(alloc))?;
    for cut in cuts {
        rows.push(row_of(alloc, bounds, *cut)?)?;
    }
    Ok(rows)
}
