//! Adding up the numbers of the hits, by the ordinals of the components.
ghost use Rattle.std.specs.Prelude.{◌≡◌, ◌<◌, ◌∷◌, [], ℕ, List, None, length, slice_index_or, slice_set, OnOk, IfOk};
ghost use Rattle.std.specs.List.{AllByRecursion};
ghost use Rattle.facet_model.specs.Documents.{Doc};
ghost use Rattle.facet_model.specs.QueryViews.{query_view};
ghost use Rattle.query_eval.specs.Segments.{HasTermsOf};
ghost use Rattle.seg_drill.specs.Passing.{passes_all};
ghost use Rattle.sideways.specs.Counted.{PartLeft, ArePartsOf};
ghost use Rattle.sideways.specs.Searches.{records_of};
ghost use Rattle.value_facets.specs.Hits.{leaves_at, leaves_of};
ghost use Rattle.value_facets.specs.Summing.{plus, no_weight, numbers_below, all_below, AreAdded, AreLeavesBelow};
ghost use Rattle.value_facets.specs.Summing.{AreTotals};

use crate::weights::Weight;
use facet_model::{Drill, Query};
use facet_names::NoMemory;
use seg_file::Segment;
use seg_postings::Ords;
use sideways::Part;
use std::alloc::Global;
use std::sync::Arc;

// Adds a number to the sum at an ordinal. Errors: `NoMemory` if the sum does not fit.
fn add_number(totals: &mut [Option<i64>], part: u32, number: i32) -> Result<(), NoMemory>
    requires { part < length totals.old }
    ensures { OnOk result (totals.new ≡ slice_set totals.old part
        (plus (slice_index_or totals.old part None) number)) }
{
    let sum = totals[part as usize].unwrap_or(0);
    let Some(sum) = sum.checked_add(number as i64) else {
        return Err(NoMemory);
    };
    totals[part as usize] = Some(sum);
    Ok(())
}

// Adds the number of a label, if it has one.
fn add_leaf(weights: &[Weight], leaf: u32, totals: &mut [Option<i64>]) -> Result<(), NoMemory>
    requires leaf { leaf < length weights.now }
    requires within { (ord : ℕ) → (slice_index_or weights.now ord no_weight).part < length totals.old }
    ensures { OnOk result (AreAdded (numbers_below weights.now (leaf ∷ [])) totals.old totals.new) }
{
    let weight = &weights[leaf as usize];
    if weight.part == 0 {
        return Ok(());
    }
    add_number(totals, weight.part, weight.number)
}

// Adds the numbers of a record's labels.
fn add_leaves(
    weights: &[Weight],
    mut leaves: Ords<'_>,
    totals: &mut [Option<i64>],
) -> Result<(), NoMemory>
    requires leaves { AllByRecursion (λ leaf. leaf < length weights.now) leaves }
    requires within { (ord : ℕ) → (slice_index_or weights.now ord no_weight).part < length totals.old }
    ensures { OnOk result (AreAdded (numbers_below weights.now leaves.entry) totals.old totals.new) }
{
    while let Some(leaf) = leaves.next() {
        add_leaf(weights, leaf, totals)?;
    }
    Ok(())
}

// Adds those of the records of a segment that are left.
fn add_part(
    weights: &[Weight],
    segment: &Segment,
    mut part: Part<'_>,
    totals: &mut [Option<i64>],
) -> Result<(), NoMemory>
    requires same { part.segment ≡ segment.now }
    requires leaves { AreLeavesBelow (length weights.now) segment.now }
    requires within { (ord : ℕ) → (slice_index_or weights.now ord no_weight).part < length totals.old }
    ensures { OnOk result (AreAdded (all_below weights.now (leaves_at segment.now part.entry.left))
        totals.old totals.new) }
{
    while let Some(place) = part.take() {
        add_leaves(weights, segment.leaves(place), totals)?;
    }
    Ok(())
}

/// Adds up the numbers of the labels of all hits, by the ordinals of the components. It searches one segment after the
/// other. It allocates 16 bytes for each of `size` labels, and the plan of one segment at a time.
///
/// Errors: out of memory, also if a sum does not fit.
pub(crate) fn totals_of(
    alloc: Global,
    size: u32,
    weights: &[Weight],
    segments: &[Arc<Segment>],
    query: &Query,
    drill: &Drill,
) -> Result<Vec<Option<i64>>, NoMemory>
    requires terms { AllByRecursion (λ s. (docs : List Doc) × HasTermsOf s docs) (records_of segments.now) }
    requires leaves { AllByRecursion (AreLeavesBelow (length weights.now)) (records_of segments.now) }
    requires within { (ord : ℕ) → (slice_index_or weights.now ord no_weight).part < size }
    ensures { IfOk result (λ v. (parts : List PartLeft)
        × ArePartsOf (passes_all (query_view query.now) drill.now None) (records_of segments.now) parts
        × AreTotals size weights.now (leaves_of parts) v.items) }
{
    let mut totals = vec![in alloc; None; size as usize]?;
    for segment in segments {
        let part = Part::new(alloc, segment, query, drill, None)?;
        add_part(weights, segment, part, &mut totals)?;
    }
    Ok(totals)
}
