ghost use Rattle.std.specs.Prelude.{◌≡◌, ◌+◌, ◌≤◌, ◌<◌, ◌∷◌, [], Bool, List, None, length, IfOk, IfSome};
ghost use Rattle.facet_model.specs.Documents.{Doc};
ghost use Rattle.facet_model.specs.QueryViews.{query_view};
ghost use Rattle.facet_model.specs.Stored.{live_before};
ghost use Rattle.query_eval.specs.Segments.{HasTermsOf};
ghost use Rattle.seg_postings.specs.Rising.{IsNext};
ghost use Rattle.seg_drill.specs.Counting.{AreCountable, IsGrown, IsSetWithin, lists_at};
ghost use Rattle.seg_drill.specs.Passing.{AreAllOf, passes_all};
ghost use Rattle.sideways.specs.Counted.{IsPartOf, is_near, live_in};
ghost use Rattle.facet_names.specs.Texts.{text_in};
ghost use Rattle.sideways.specs.Parts.{IsLeft, left_of};

use crate::common::in_common;
use crate::costs::{are_many, lists_of};
use facet_counts::Counter;
use facet_model::{Drill, Query};
use facet_names::NoMemory;
use place_bits::{BitPlaces, Bits};
use plan_places::{PlanNode, PlanPlaces};
use query_eval::{live_node, paths_node};
use seg_drill::{count_marked, count_places, count_record, joined, nodes_of, without_one};
use seg_file::Segment;
use seg_postings::Places;
use std::alloc::Global;
use std::marker::Model;
use std::mem;

/// The records of one segment that a search has yet to visit: a plan that is walked, or, if the conditions match many
/// documents, a set of one bit per record. It corresponds to the `DocIdSetIterator` of one leaf in Lucene.
#[derive(Drop)]
pub struct Part<'a> {
    segment: &'a Segment,
    left: Left<'a>,
}

/// Which records of a segment are left.
#[derive(Drop)]
pub(crate) enum Left<'a> {
    /// Those at the places of a plan.
    At(PlanPlaces<'a>),
    /// Those at the places of a set.
    Marked(BitPlaces),
    /// None: all were counted.
    Nothing,
}

impl<'a> Model for Part<'a> {
    ghost use Rattle.sideways.specs.Counted.{PartLeft};
    ghost use Rattle.sideways.specs.Parts.{left_of, IsLeft};

    ghost Value = { PartLeft };

    ghost view = { λ p. record { segment = p.segment.now; left = left_of p.left } };

    ghost invariant = { λ p. IsLeft p.segment.now p.left };
}

// Counts the records of a segment that are left, and returns how many they are.
fn count_left(segment: &Segment, left: Left<'_>, counter: &mut Counter<'_>) -> u64
    requires countable { AreCountable counter.old.config counter.old.labels segment.now }
    requires left { IsLeft segment.now left }
    requires room { counter.old.added + length (left_of left) ≤ 1000000 }
    ensures grown { IsGrown counter.old counter.new (lists_at segment.now (left_of left.entry)) }
    ensures number { result ≡ length (left_of left.entry) }
{
    match left {
        Left::At(mut places) => count_places(segment, &mut places, counter),
        Left::Marked(places) => count_marked(segment, places, counter),
        Left::Nothing => 0,
    }
}

impl<'a> Part<'a> {
    /// Returns the live records of the documents that match the query and all dimensions of the drill except the lifted
    /// one. It looks up the terms of the query and of the drill in the segment. Errors: out of memory.
    pub fn new(
        alloc: Global,
        segment: &'a Segment,
        query: &Query,
        drill: &Drill,
        lifted: Option<&str>,
    ) -> Result<Part<'a>, NoMemory>
        requires { (docs : List Doc) × HasTermsOf segment.now docs }
        ensures { IfOk result (λ p. IsPartOf (passes_all (query_view query.now) drill.now
            (text_in lifted.entry)) segment.now p) }
    {
        let nodes = nodes_of(alloc, segment, query, drill, lifted)?;
        Part::of_nodes(alloc, segment, nodes, lists_of(query, drill))
    }

    /// Returns the live records of the documents that all nodes have. `lists` is about how many lists the nodes consist
    /// of. Errors: out of memory.
    pub(crate) fn of_nodes(
        alloc: Global,
        segment: &'a Segment,
        nodes: Vec<PlanNode<'a>>,
        lists: u64,
    ) -> Result<Part<'a>, NoMemory>
        requires { (docs : List Doc) × (test : Doc → Bool) × AreAllOf docs test nodes.items
            × HasTermsOf segment.now docs }
        ensures { IfOk result (λ p. (test : Doc → Bool) → ((docs : List Doc) → HasTermsOf segment.now docs
            → AreAllOf docs test nodes.entry.items)
            → IsPartOf test segment.now p) }
    {
        if nodes.is_empty() || are_many(&nodes, lists, segment.docs()) {
            let common = in_common(alloc, nodes, segment.docs(), segment.dead())?;
            return Ok(Part::marked(segment, common));
        }
        let node = joined(alloc, nodes)?;
        let node = live_node(alloc, segment, node)?;
        let left = Left::At(PlanPlaces::new(node));
        Ok(Part { segment, left })
    }

    /// Returns the live records of the near misses of a dimension, found by walking. Errors: out of memory.
    pub(crate) fn near(
        alloc: Global,
        segment: &'a Segment,
        query: &Query,
        drill: &Drill,
        dim: &str,
    ) -> Result<Part<'a>, NoMemory>
        requires { (docs : List Doc) × HasTermsOf segment.now docs }
        ensures { IfOk result (λ p. IsPartOf (is_near (query_view query.now) drill.now dim.now) segment.now p) }
    {
        let nodes = nodes_of(alloc, segment, query, drill, Some(dim))?;
        let own = paths_node(alloc, segment, drill, dim)?;
        let node = without_one(alloc, segment.docs(), nodes, own)?;
        let node = live_node(alloc, segment, node)?;
        let left = Left::At(PlanPlaces::new(node));
        Ok(Part { segment, left })
    }

    /// Returns the records at the places of a set. It allocates nothing.
    pub(crate) fn marked(segment: &'a Segment, set: Bits) -> Part<'a>
        requires { IsSetWithin segment.now set }
        ensures segment { result.segment ≡ segment.now }
        ensures left { result.left ≡ set.places }
    {
        let left = Left::Marked(set.into_places());
        Part { segment, left }
    }

    /// Takes the next record that is left, and returns its place. It allocates nothing.
    pub fn take(&mut self) -> Option<u32>
        ensures next { IsNext result self.old.left self.new.left }
        ensures segment { self.new.segment ≡ self.old.segment }
        ensures within { IfSome result (λ place. place < length self.old.segment.records) }
    {
        match &mut self.left {
            Left::At(places) => places.next(),
            Left::Marked(places) => places.next(),
            Left::Nothing => None,
        }
    }

    /// Takes the set of the records that are left, where they are kept as a set. Then none is left. It allocates
    /// nothing.
    pub(crate) fn take_set(&mut self) -> Option<Bits>
        ensures some { IfSome result (λ set. (set.places ≡ self.old.left) × IsSetWithin self.old.segment set) }
        ensures none { result ≡ None → self.new.left ≡ self.old.left }
        ensures segment { self.new.segment ≡ self.old.segment }
    {
        match mem::replace(&mut self.left, Left::Nothing) {
            Left::Marked(places) => Some(places.into_rest()),
            left => {
                self.left = left;
                None
            }
        }
    }

    /// Returns how many records the segment has, live or not.
    pub(crate) fn docs(&self) -> u32
        ensures { result ≡ length self.now.segment.records }
    {
        self.segment.docs()
    }

    /// Counts the record at a place.
    pub(crate) fn count_one(&self, place: u32, counter: &mut Counter<'_>)
        requires countable { AreCountable counter.old.config counter.old.labels self.now.segment }
        requires within { place < length self.now.segment.records }
        requires room { counter.old.added < 1000000 }
        ensures { IsGrown counter.old counter.new (lists_at self.now.segment (place ∷ [])) }
    {
        count_record(self.segment, place, counter);
    }

    /// Counts all records that are left, and returns how many they are.
    pub(crate) fn count(&mut self, counter: &mut Counter<'_>) -> u64
        requires countable { AreCountable counter.old.config counter.old.labels self.old.segment }
        requires room { counter.old.added + length self.old.left ≤ 1000000 }
        ensures grown { IsGrown counter.old counter.new (lists_at self.old.segment self.old.left) }
        ensures number { result ≡ length self.old.left }
    {
        let left = mem::replace(&mut self.left, Left::Nothing);
        count_left(self.segment, left, counter)
    }

    /// Returns how many live records of the segment are before the one at a place.
    pub(crate) fn rank(&self, place: u32) -> u32
        requires { place < length self.now.segment.records }
        ensures { result ≡ live_before self.now.segment.dead place }
    {
        self.segment.rank(place)
    }

    /// Returns how many records of the segment are live.
    pub(crate) fn live(&self) -> u32
        ensures { result ≡ live_in self.now.segment }
    {
        self.segment.live()
    }
}
