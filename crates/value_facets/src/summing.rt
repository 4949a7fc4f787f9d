//! The sums of numbers below the components of a dimension.
ghost use Rattle.std.specs.Prelude.{◌≡◌, ◌<◌, ◌≤◌, ◌++◌, ℕ, List, Err, length, map, IfOk, IfErr, OnOk};
ghost use Rattle.std.specs.List.Sorted.{IsPermutation, IsSorted};
ghost use Rattle.facet_model.specs.Documents.{Doc};
ghost use Rattle.facet_model.specs.Flags.{Config};
ghost use Rattle.facet_model.specs.Hits.{hits};
ghost use Rattle.facet_model.specs.QueryViews.{query_view};
ghost use Rattle.facet_model.specs.Stored.{Decodes};
ghost use Rattle.facet_names.specs.Paths.{last_part};
ghost use Rattle.number_facets.specs.SumViews.{sum_view};
ghost use Rattle.number_facets.specs.Values.{AreSums, IsSums, sums_cmp};
ghost use Rattle.sideways.specs.Searches.{records_of};
ghost use Rattle.value_facets.specs.declared.summing.SumFault.TheVariants.{TopZero as Zero, NoMemory as Memory};
ghost use Rattle.value_facets.specs.Summing.{sums_at, sums_before};

use crate::dims::dim_at;
use crate::totals::totals_of;
use crate::weights::weights_of;
use facet_model::{Drill, Query, Word};
use facet_names::{NoMemory, Path};
use number_facets::Sum;
use seg_file::Segment;
use std::alloc::Global;
use std::sync::Arc;
use taxo_list::{Labelled, TaxoView};

/// Why no sums are returned.
#[derive(Debug, Clone, Copy, PartialEq, Eq, Drop)]
pub enum SumFault {
    /// No component is asked for: `n` is 0.
    TopZero,
    /// Out of memory.
    NoMemory,
}

impl From<NoMemory> for SumFault {
    ghost use Rattle.value_facets.specs.declared.summing.SumFault.TheVariants.{NoMemory as Memory};

    ghost from_gives = { λ _ e. e ≡ Memory };

    fn from(_error: NoMemory) -> SumFault {
        SumFault::NoMemory
    }
}

// Returns the last component of a path.
fn last_part(alloc: Global, path: &Path) -> Result<Word, NoMemory>
    ensures { IfOk result (λ w. w ≡ last_part path.now) }
{
    Ok(Word::new(alloc, path.part(path.len() - 1))?.unwrap())
}

// Adds the component at an ordinal, if it has a sum.
fn note(
    alloc: Global,
    view: &TaxoView,
    totals: &[Option<i64>],
    ord: u32,
    sums: &mut Vec<Sum>,
) -> Result<(), NoMemory>
    requires some { 0 < ord }
    requires within { ord < length view.now }
    requires sized { length totals.now ≡ length view.now }
    ensures { OnOk result (map sum_view sums.new.items
        ≡ map sum_view sums.old.items ++ sums_at view.now totals.now ord) }
{
    if let Some(value) = totals[ord as usize] {
        let part = last_part(alloc, view.path_of(ord))?;
        sums.push(Sum { part, value })?;
    }
    Ok(())
}

// Returns the components that have a sum, in the order of their ordinals.
fn listed(alloc: Global, view: &TaxoView, totals: &[Option<i64>]) -> Result<Vec<Sum>, NoMemory>
    requires { length totals.now ≡ length view.now }
    ensures { IfOk result (λ v. map sum_view v.items ≡ sums_before view.now totals.now (length view.now)) }
{
    let mut sums = Vec::new(alloc);
    for ord in 1..view.size() {
        note(alloc, view, totals, ord, &mut sums)?;
    }
    Ok(sums)
}

// Orders the components: by falling sums, ties by their rising bytes. It allocates nothing.
#[tactic(auto, using(crate::proofs::SummedLists::sorted_views))]
fn order(sums: &mut Vec<Sum>)
    ensures moved { IsPermutation sums.old.items sums.new.items }
    ensures sorted { IsSorted sums_cmp (map sum_view sums.new.items) }
{
    sums.sort_unstable();
}

// Returns all components with their sums, in order.
fn all_sums(
    alloc: Global,
    view: &TaxoView,
    segments: &[Arc<Segment>],
    query: &Query,
    drill: &Drill,
    dim: &str,
) -> Result<Vec<Sum>, NoMemory>
    requires { (config : Config) × (docs : List Doc) × Decodes view.now config (records_of segments.now) docs }
    ensures { IfOk result (λ v. (config : Config) (docs : List Doc)
        → Decodes view.now config (records_of segments.now) docs
        → AreSums (hits docs (query_view query.now) drill.now) dim.now (map sum_view v.items)) }
{
    let size = view.size();
    let Some(dim) = dim_at(alloc, view, dim)? else {
        return Ok(Vec::new(alloc));
    };
    let weights = weights_of(alloc, view, dim)?;
    let totals = totals_of(alloc, size, &weights, segments, query, drill)?;
    let mut sums = listed(alloc, view, &totals)?;
    order(&mut sums);
    Ok(sums)
}

/// Adds up the numbers below the components of a dimension, over the documents that match a query and pass a
/// drill-down, and returns the first `n` components by falling sums, ties by their rising bytes. It corresponds to
/// Lucene's `TaxonomyFacetIntAssociations`.
///
/// A number is the last component of a label of three: the dimension, the component, and the text of a number that
/// fits into an `i32`, as [`read_small_number`](number_facets::read_small_number) reads it. A label that a document has
/// several times counts each time. Each component with a number is listed, also if its sum is 0 or less.
///
/// It visits the labels of the dimension that have two or three components, and each label of the documents found. It
/// allocates 24 bytes for each label of the view and sets them to zero, and looks at the sum of each in the end. It also
/// allocates the plan of one segment at a time, and the components that have a number, with their texts.
///
/// Errors: `n` is 0; out of memory. `NoMemory` is also returned if a sum does not fit into an `i64`. That never happens
/// below 1,000,000 documents of 256 labels: see [`sums_fit`](number_facets::sums_fit).
pub fn sums(
    alloc: Global,
    view: &TaxoView,
    segments: &[Arc<Segment>],
    query: &Query,
    drill: &Drill,
    dim: &str,
    n: u32,
) -> Result<Vec<Sum>, SumFault>
    requires docs { (config : Config) × (docs : List Doc) × Decodes view.now config (records_of segments.now) docs
        × (length docs ≤ 1000000) }
    ensures zero { n ≡ 0 → result ≡ Err Zero }
    ensures some { 0 < n → IfErr result (λ e. e ≡ Memory) }
    ensures sums { IfOk result (λ v. (config : Config) (docs : List Doc)
        → Decodes view.now config (records_of segments.now) docs
        → IsSums (hits docs (query_view query.now) drill.now) dim.now n (map sum_view v.items)) }
{
    if n == 0 {
        return Err(SumFault::TopZero);
    }
    let mut sums = all_sums(alloc, view, segments, query, drill, dim)?;
    sums.truncate(n as usize);
    Ok(sums)
}
