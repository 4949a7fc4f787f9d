ghost use Rattle.std.specs.Prelude.{◌≡◌, ◌+◌, ◌≤◌, ◌<◌, ◌⊎◌, ◌++◌, ◌∷◌, [], ℕ, List, IfOk, OnOk, length, take};
ghost use Rattle.std.specs.Vec.{vec_capacity, vec_len};
ghost use Rattle.facet_names.specs.Labels.{IsLabelList};
ghost use Rattle.facet_counts.specs.Tallies.{AreCounts, HasAdded};
ghost use Rattle.seg_drill.specs.Counting.{AreCountable, IsGrown, lists_at};
ghost use Rattle.sideways.specs.Counted.{HasRoomFor, IsNoting, IsTaking, IsReady, lists_of, live_in, placed};

use crate::part::Part;
use facet_config::FacetsConfig;
use facet_counts::{Counter, Counts};
use facet_names::NoMemory;
use std::alloc::Global;
use taxo_list::TaxoView;

/// One pass over all segments, with its own counter.
#[derive(Drop)]
pub(crate) struct Pass<'a> {
    pub(crate) parts: Vec<Part<'a>>,
    pub(crate) counter: Counter<'a>,
}

/// A pass over the near misses of a drilled dimension. With sideways the dimension is counted over these and the hits.
#[derive(Drop)]
pub(crate) struct LiftedPass<'a> {
    pub(crate) dim: &'a str,
    pub(crate) pass: Pass<'a>,
}

/// The counts of one drilled dimension.
#[derive(Drop)]
pub(crate) struct LiftedCounts<'a> {
    pub(crate) dim: &'a str,
    pub(crate) counts: Counts<'a>,
}

/// The hits, counted but not rolled up.
#[derive(Drop)]
pub(crate) struct Hits<'a> {
    pub(crate) counter: Counter<'a>,
    pub(crate) number: u64,
    pub(crate) places: Vec<u32>,
}

/// What the pass for the hits found: the counts, the number of hits, and the places of the first ones.
#[derive(Drop)]
pub(crate) struct Found<'a> {
    pub(crate) counts: Counts<'a>,
    pub(crate) number: u64,
    pub(crate) places: Vec<u32>,
}

/// Adds a value to a vector with spare capacity. It allocates nothing.
pub(crate) fn push_within<T: Drop>(values: &mut Vec<T>, value: T)
    requires { vec_len values.old < vec_capacity values.old }
    ensures items { values.new.items ≡ values.old.items ++ value ∷ [] }
    ensures capacity { vec_capacity values.old ≤ vec_capacity values.new }
{
    let _pushed = values.push(value);
}

// Takes the first places of a part until there are enough hits, counts their records, and returns how many they are.
fn take_hits(
    part: &mut Part<'_>,
    counter: &mut Counter<'_>,
    base: u32,
    limit: u32,
    hits: &mut Vec<u32>,
) -> u64
    requires countable { AreCountable counter.old.config counter.old.labels part.old.segment }
    requires room { counter.old.added + length part.old.left ≤ 1000000 }
    requires few { base + live_in part.old.segment ≤ 1000000 }
    requires limit { length hits.old.items ≤ limit }
    requires capacity { limit ≤ vec_capacity hits.old }
    ensures taking { IsTaking part.old part.new counter.old counter.new base limit hits.old.items hits.new.items
        result }
    ensures enough { (limit ≤ length hits.new.items) ⊎ (part.new.left ≡ []) }
    ensures capacity { vec_capacity hits.old ≤ vec_capacity hits.new }
{
    let mut number = 0;
    while hits.len() < limit as usize {
        let Some(place) = part.take() else {
            return number;
        };
        part.count_one(place, counter);
        push_within(hits, base + part.rank(place));
        number += 1;
    }
    number
}

// Counts all records of a part, notes the places of the first ones until there are enough, and returns how many were
// counted.
fn count_part(
    part: &mut Part<'_>,
    counter: &mut Counter<'_>,
    base: u32,
    limit: u32,
    hits: &mut Vec<u32>,
) -> u64
    requires countable { AreCountable counter.old.config counter.old.labels part.old.segment }
    requires room { counter.old.added + length part.old.left ≤ 1000000 }
    requires few { base + live_in part.old.segment ≤ 1000000 }
    requires limit { length hits.old.items ≤ limit }
    requires capacity { limit ≤ vec_capacity hits.old }
    ensures grown { IsGrown counter.old counter.new (lists_at part.old.segment part.old.left) }
    ensures number { result ≡ length part.old.left }
    ensures noted { IsNoting part.old base limit hits.old.items hits.new.items }
    ensures capacity { vec_capacity hits.old ≤ vec_capacity hits.new }
{
    let first = take_hits(part, counter, base, limit, hits);
    first + part.count(counter)
}

impl<'a> Pass<'a> {
    /// Returns a pass without a part, with capacity for one per segment. It allocates all that counting needs: 4 bytes
    /// per label. Errors: out of memory.
    pub(crate) fn new(
        alloc: Global,
        view: &'a TaxoView,
        config: &'a FacetsConfig,
        segments: usize,
    ) -> Result<Pass<'a>, NoMemory>
        ensures none { IfOk result (λ p. p.parts.items ≡ []) }
        ensures fresh { IfOk result (λ p. HasAdded p.counter []) }
        ensures labels { IfOk result (λ p. p.counter.labels ≡ view.now) }
        ensures config { IfOk result (λ p. p.counter.config ≡ config.now) }
        ensures list { IfOk result (λ p. IsLabelList p.counter.labels) }
    {
        let parts = Vec::with_capacity(alloc, segments)?;
        let counter = Counter::new(alloc, view, config)?;
        Ok(Pass { parts, counter })
    }

    /// Adds a part after the others. Errors: out of memory.
    pub(crate) fn add(&mut self, part: Part<'a>) -> Result<(), NoMemory>
        ensures parts { OnOk result (self.new.parts.items ≡ self.old.parts.items ++ part.entry ∷ []) }
        ensures counter { OnOk result (self.new.counter ≡ self.old.counter) }
    {
        self.parts.push(part)?;
        Ok(())
    }

    /// Counts all documents of the pass, and adds those that the counter of the hits has counted. It allocates nothing.
    pub(crate) fn count(self, hits: &Counter<'_>) -> Counts<'a>
        requires ready { IsReady self.parts.items self.counter }
        requires room { HasRoomFor self.parts.items self.counter hits.now }
        ensures counts { (others : List (List ℕ)) → HasAdded hits.now others
            → AreCounts result (lists_of self.entry.parts.items ++ others) }
        ensures labels { result.labels ≡ self.entry.counter.labels }
        ensures config { result.config ≡ self.entry.counter.config }
    {
        let Pass {
            mut parts,
            mut counter,
        } = self;
        for part in parts.iter_mut() {
            part.count(&mut counter);
        }
        counter.add_counter(hits);
        counter.roll_up()
    }

    /// Counts all documents of the pass, and returns how many they are and the places of the first ones. It allocates
    /// nothing.
    pub(crate) fn count_hits(self, limit: u32, places: Vec<u32>) -> Hits<'a>
        requires ready { IsReady self.parts.items self.counter }
        requires none { places.items ≡ [] }
        requires capacity { limit ≤ vec_capacity places }
        ensures counted { HasAdded result.counter (lists_of self.entry.parts.items) }
        ensures labels { result.counter.labels ≡ self.entry.counter.labels }
        ensures config { result.counter.config ≡ self.entry.counter.config }
        ensures number { result.number ≡ length (lists_of self.entry.parts.items) }
        ensures places { result.places.items ≡ take limit (placed 0 self.entry.parts.items) }
    {
        let Pass {
            mut parts,
            mut counter,
        } = self;
        let mut places = places;
        let mut number = 0;
        let mut base = 0;
        for part in parts.iter_mut() {
            let live = part.live();
            number += count_part(part, &mut counter, base, limit, &mut places);
            base += live;
        }
        Hits {
            counter,
            number,
            places,
        }
    }
}
