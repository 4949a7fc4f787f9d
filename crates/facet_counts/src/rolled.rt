//! Which counts are rolled up, and where to.
ghost use Rattle.std.specs.Prelude.{◌≡◌, ◌<◌, ◌≤◌, ◌+◌, ◌^◌, ◌&&◌, ℕ, false, not, length, slice_index_or, slice_set};
ghost use Rattle.std.specs.Prelude.{IfOk, IfSome};
ghost use Rattle.std.specs.List.{list_any};
ghost use Rattle.std.specs.Option.{option_map_or};
ghost use Rattle.facet_model.specs.Flags.{Config};
ghost use Rattle.taxo_list.specs.DimLists.{dims_of};
ghost use Rattle.taxo_list.specs.Links.{ordinal};
ghost use Rattle.facet_counts.specs.Climbs.{up_from, IsRolledTo};
ghost use Rattle.facet_counts.specs.Kept.{IsCounter};
ghost use Rattle.facet_counts.specs.Lists.{is_rolled};
ghost use Rattle.facet_counts.specs.Tallies.{Tally};

use crate::links::entry;
use facet_config::FacetsConfig;
use facet_model::DimFlags;
use facet_names::NoMemory;
use std::alloc::Global;
use taxo_list::{Labelled, TaxoView};

// how many labels are in a piece of a view's lists
const PIECE: usize = 1_024;

fn rolls_up(flags: DimFlags) -> bool
    ensures { result ≡ (flags.hierarchical && not flags.multi_valued) }
{
    flags.hierarchical && !flags.multi_valued
}

/// Returns for each dimension of the view whether its counts are rolled up. It looks each dimension up in the config
/// once. Errors: out of memory.
pub fn rolled_dims(
    alloc: Global,
    view: &TaxoView,
    config: &FacetsConfig,
) -> Result<Vec<bool>, NoMemory>
    ensures sized { IfOk result (λ v. length v.items ≡ length (dims_of view.now)) }
    ensures marks { IfOk result (λ v. (n : ℕ) → n < length (dims_of view.now)
        → slice_index_or v.items n false ≡ is_rolled config.now view.now (slice_index_or (dims_of view.now) n 0)) }
{
    let dims = view.dims();
    let mut rolled = Vec::with_capacity(alloc, dims.len())?;
    for dim in dims {
        rolled.push(rolls_up(config.flags(view.path_of(*dim).dim())))?;
    }
    Ok(rolled)
}

// Returns what a label's count is added to: the parent, if the count is rolled up and the parent is not the root.
fn next(mark: bool, parent: i32) -> Option<u32>
    ensures { result ≡ up_from mark (ordinal parent) }
{
    if !mark {
        return None;
    }
    let parent = entry(parent)?;
    if parent == 0 { None } else { Some(parent) }
}

// Adds a label's count to the next one, if its dimension is marked.
fn go_up(mark: bool, parent: i32, counts: &mut [u32], ord: usize)
    requires within { ord < length counts.old }
    requires parent { IfSome (up_from mark (ordinal parent)) (λ p. p < length counts.old) }
    requires fits { IfSome (up_from mark (ordinal parent)) (λ p. slice_index_or counts.old p 0
        + slice_index_or counts.old ord 0 < 2 ^ 32) }
    ensures { counts.new ≡ option_map_or (λ p. slice_set counts.old p (slice_index_or counts.old p 0
        + slice_index_or counts.old ord 0))
        (up_from mark (ordinal parent)) counts.old }
{
    if let Some(parent) = next(mark, parent) {
        counts[parent as usize] += counts[ord];
    }
}

// Rolls up the counts of the labels before a place that are in one piece of the view's lists, from the last to the
// first. Returns the place of the first, or 1 if that is the root.
fn roll_piece(view: &TaxoView, rolled: &[bool], counts: &mut [u32], end: usize) -> usize
    requires some { 1 < end }
    requires within { end ≤ length view.now }
    requires counter { (tally : Tally) × (tally.labels ≡ view.now) × IsCounter tally rolled.now
        × IsRolledTo tally end counts.old }
    ensures some { 0 < result }
    ensures before { result < end }
    ensures rolled { (tally : Tally) → tally.labels ≡ view.now → IsCounter tally rolled.now
        → IsRolledTo tally end counts.old → IsRolledTo tally result counts.new }
{
    let piece = (end - 1) / PIECE;
    let start = piece * PIECE;
    let first = if piece == 0 { 1 } else { start };
    let parents = view.arrays().parents_in(piece);
    let numbers = view.dim_numbers_in(piece);
    let mut ord = end;
    while ord > first {
        ord -= 1;
        let at = ord - start;
        go_up(rolled[numbers[at] as usize], parents[at], counts, ord);
    }
    first
}

// Returns whether any dimension is marked.
fn any_rolls_up(rolled: &[bool]) -> bool
    ensures { result ≡ list_any (λ mark. mark) rolled.now }
{
    rolled.iter().any(|mark| *mark)
}

/// Rolls the counts up, from the last label to the first, so that a label's count is complete before it is added to the
/// parent's. It takes no time per label if no dimension is marked.
pub fn roll(view: &TaxoView, rolled: &[bool], counts: &mut [u32])
    requires { (config : Config) × (added : ℕ) × IsCounter (record {
      labels = view.now;
      config = config;
      own = counts.old;
      added = added;
    }) rolled.now }
    ensures { (config : Config) (added : ℕ) → IsCounter (record {
      labels = view.now;
      config = config;
      own = counts.old;
      added = added;
    }) rolled.now
        → IsRolledTo (record { labels = view.now; config = config; own = counts.old; added = added }) 1 counts.new }
{
    if !any_rolls_up(rolled) {
        return;
    }
    let mut end = counts.len();
    while end > 1 {
        end = roll_piece(view, rolled, counts, end);
    }
}
