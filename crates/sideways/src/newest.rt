//! The last hits of a search, found from the last segment on.
ghost use Rattle.std.specs.Prelude.{◌≡◌, ◌+◌, ◌*◌, ◌≤◌, ◌<◌, ◌++◌, ◌∷◌, [], ℕ, List, None, IfOk, OnOk, length, reverse};
ghost use Rattle.std.specs.Prelude.{drop, sum_by, take};
ghost use Rattle.std.specs.List.{AllByRecursion};
ghost use Rattle.facet_codec.specs.Laws.{IsBelow};
ghost use Rattle.facet_model.specs.CountedPaths.{places};
ghost use Rattle.facet_model.specs.Documents.{Doc};
ghost use Rattle.facet_model.specs.Flags.{Config};
ghost use Rattle.facet_model.specs.QueryViews.{query_view};
ghost use Rattle.facet_model.specs.Stored.{Decodes};
ghost use Rattle.query_eval.specs.Segments.{HasTermsOf};
ghost use Rattle.seg_drill.specs.Passing.{passes_all};
ghost use Rattle.seg_postings.specs.Rising.{IsRising};
ghost use Rattle.sideways.specs.Counted.{AreLast, live_in, ranks_from};
ghost use Rattle.sideways.specs.Searches.{records_of};

use crate::part::Part;
use facet_model::{Drill, Query};
use facet_names::NoMemory;
use place_bits::Bits;
use seg_file::Segment;
use std::alloc::Global;
use std::collections::VecDeque;
use std::sync::Arc;

// Adds a place after the others, and drops the first one if there were `most`.
fn push_last(last: &mut VecDeque<u32>, most: usize, place: u32) -> Result<(), NoMemory>
    requires some { 0 < most }
    ensures last { OnOk result ((before : List ℕ) → AreLast most before last.old.items
        → AreLast most (before ++ place ∷ []) last.new.items) }
    ensures within { OnOk result ((bound : ℕ) → place < bound → AllByRecursion (IsBelow bound) last.old.items
        → AllByRecursion (IsBelow bound) last.new.items) }
{
    if last.len() >= most {
        let _first = last.pop_front();
    }
    last.push_back(place)?;
    Ok(())
}

// Takes all places of a part, and returns the last ones, at most `most`, in order.
fn walked_last(alloc: Global, part: &mut Part<'_>, most: usize) -> Result<VecDeque<u32>, NoMemory>
    requires some { 0 < most }
    ensures last { IfOk result (λ q. AreLast most part.old.left q.items) }
    ensures within { IfOk result (λ q. AllByRecursion (IsBelow (length part.old.segment.records)) q.items) }
    ensures segment { OnOk result (part.new.segment ≡ part.old.segment) }
{
    let mut last = VecDeque::with_capacity(alloc, most.min(part.live() as usize))?;
    while let Some(place) = part.take() {
        push_last(&mut last, most, place)?;
    }
    Ok(last)
}

// Returns the last places of a set, at most `most`, in order. It looks at the places from the last one on, and stops as
// soon as there are enough.
fn marked_last(alloc: Global, set: &Bits, docs: u32, most: usize) -> Result<VecDeque<u32>, NoMemory>
    requires room { docs ≤ 64 * set.now.words }
    requires within { AllByRecursion (IsBelow docs) set.now.places }
    requires rising { IsRising set.now.places }
    ensures last { IfOk result (λ q. AreLast most set.now.places q.items) }
    ensures within { IfOk result (λ q. AllByRecursion (IsBelow docs) q.items) }
{
    let mut last = VecDeque::with_capacity(alloc, most.min(docs as usize))?;
    let mut place = docs;
    while place > 0 && last.len() < most {
        place -= 1;
        if set.has(place) {
            last.push_front(place)?;
        }
    }
    Ok(last)
}

// Returns the last places of a part, at most `most`, in order. Of a set it takes the places from the last one on; a plan
// it walks to its end.
fn last_places(alloc: Global, part: &mut Part<'_>, most: usize) -> Result<VecDeque<u32>, NoMemory>
    requires some { 0 < most }
    ensures last { IfOk result (λ q. AreLast most part.old.left q.items) }
    ensures within { IfOk result (λ q. AllByRecursion (IsBelow (length part.old.segment.records)) q.items) }
    ensures segment { OnOk result (part.new.segment ≡ part.old.segment) }
{
    match part.take_set() {
        Some(set) => marked_last(alloc, &set, part.docs(), most),
        None => walked_last(alloc, part, most),
    }
}

// Adds the ranks of the last places of a part, counted on from `base`, the last one first, until there are `limit`.
fn add_last(
    alloc: Global,
    part: Part<'_>,
    base: u32,
    limit: usize,
    kept: &mut Vec<u32>,
) -> Result<(), NoMemory>
    requires few { base + live_in part.segment ≤ 1000000 }
    requires fewer { length kept.old.items < limit }
    ensures { OnOk result (kept.new.items ≡ take limit (kept.old.items
        ++ reverse (ranks_from base part.entry.segment part.entry.left))) }
{
    let mut part = part;
    let mut places = last_places(alloc, &mut part, limit - kept.len())?;
    while let Some(place) = places.pop_back() {
        kept.push(base + part.rank(place))?;
    }
    Ok(())
}

// Returns how many records of the segments are live.
fn all_live(segments: &[Arc<Segment>]) -> u32
    requires { sum_by live_in (records_of segments.now) ≤ 1000000 }
    ensures { result ≡ sum_by live_in (records_of segments.now) }
{
    let mut live = 0;
    for segment in segments {
        live += segment.live();
    }
    live
}

/// Returns the places of the last documents that match the query and the drill, the last one first: at most `limit`. It
/// looks for them in the segments from the last one to the first, and stops as soon as there are enough. In a segment
/// in which many documents match, it looks at the places from the last one on; in another it walks all of its hits.
///
/// Memory: that of a `Part` for each segment in turn, and 4 bytes per place, twice while a segment is walked. Errors:
/// out of memory.
pub(crate) fn last_of(
    alloc: Global,
    segments: &[Arc<Segment>],
    query: &Query,
    drill: &Drill,
    limit: usize,
) -> Result<Vec<u32>, NoMemory>
    requires has { AllByRecursion (λ s. (docs : List Doc) × HasTermsOf s docs) (records_of segments.now) }
    requires few { sum_by live_in (records_of segments.now) ≤ 1000000 }
    ensures { IfOk result (λ v. (known : List (List (List ℕ))) (config : Config) (docs : List Doc)
        → Decodes known config (records_of segments.now) docs → v.items
        ≡ take limit (reverse (places (passes_all (query_view query.now) drill.now None) docs))) }
{
    let mut kept = Vec::new(alloc);
    let mut base = all_live(segments);
    let mut at = segments.len();
    while at > 0 && kept.len() < limit {
        at -= 1;
        let segment = &segments[at];
        base -= segment.live();
        let part = Part::new(alloc, segment, query, drill, None)?;
        add_last(alloc, part, base, limit, &mut kept)?;
    }
    Ok(kept)
}

/// Returns the places after the first `from` ones. It allocates nothing.
pub(crate) fn without_first(places: Vec<u32>, from: u32) -> Vec<u32>
    ensures { result.items ≡ drop from places.items }
{
    let mut left = places;
    let passed = (from as usize).min(left.len());
    left.drain(..passed);
    left
}
