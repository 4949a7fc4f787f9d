//! The parts of one segment: the hits, and for each drilled dimension its near misses, the documents that only it
//! excludes. Dead records are in none.
ghost use Rattle.std.specs.Prelude.{◌≡◌, ◌==◌, ◌+◌, ◌/◌, ◌&&◌, ◌∷◌, ◌++◌, [], Bool, ℕ, List, None, IfOk, OnOk, length};
ghost use Rattle.std.specs.Prelude.{map, slice_index_or};
ghost use Rattle.std.specs.List.{AllByRecursion, AllZip, list_any};
ghost use Rattle.std.specs.Str.{bytes_eq};
ghost use Rattle.facet_model.specs.CountedPaths.{places};
ghost use Rattle.facet_model.specs.Documents.{Doc};
ghost use Rattle.facet_model.specs.Hits.{passes};
ghost use Rattle.facet_model.specs.QueryViews.{query_view};
ghost use Rattle.place_bits.specs.Misses.{HaveWords, IsNear, fails};
ghost use Rattle.query_eval.specs.Segments.{HasTermsOf, passes_tests};
ghost use Rattle.facet_codec.specs.Laws.{IsBelow};
ghost use Rattle.seg_postings.specs.Rising.{IsRising, is_in};
ghost use Rattle.seg_postings.specs.Sets.{without};
ghost use Rattle.seg_drill.specs.Counting.{IsSetWithin};
ghost use Rattle.seg_drill.specs.Passing.{AreAllOf, passes_all};
ghost use Rattle.sideways.specs.Counted.{AreNodesFor, fails_alone, is_drilled};
ghost use Rattle.sideways.specs.Kept.{AreDistinct, HasNear, HasPart, IsGivenSet, IsGivenSets, dim_in};

use crate::common::{in_common, marked_each};
use crate::costs::{are_near_many, lists_of};
use crate::part::Part;
use crate::pass::{LiftedPass, Pass};
use facet_model::{Drill, Query};
use facet_names::NoMemory;
use place_bits::{Bits, near_misses};
use plan_places::PlanNode;
use seg_drill::{base_nodes, push_paths};
use seg_file::Segment;
use std::alloc::Global;

/// The hits of a segment, and for each drilled dimension the places of its near misses. All are live records.
#[derive(Drop)]
pub(crate) struct NearSets {
    pub(crate) hits: Bits,
    pub(crate) near: Vec<Bits>,
}

// Returns a node for the dimension of each pass: the documents that match it.
fn dim_nodes<'a>(
    alloc: Global,
    segment: &'a Segment,
    drill: &Drill,
    lifted: &[LiftedPass<'_>],
) -> Result<Vec<PlanNode<'a>>, NoMemory>
    ensures { IfOk result (λ v. (docs : List Doc) → HasTermsOf segment.now docs
        → AreNodesFor docs (map (λ l doc. passes doc drill.now l.dim.now) lifted.now) v.items) }
{
    let mut nodes = Vec::with_capacity(alloc, lifted.len())?;
    for one in lifted {
        push_paths(alloc, segment, drill, one.dim, &mut nodes)?;
    }
    Ok(nodes)
}

// Reduces the base to the hits, and each dimension to the places that only it excludes.
fn leave_near(alloc: Global, docs: u32, base: &mut Bits, dims: &mut [Bits]) -> Result<(), NoMemory>
    requires words { base.old.words ≡ (docs + 63) / 64 }
    requires dims { HaveWords base.old.words dims.old }
    ensures words { OnOk result (base.new.words ≡ base.old.words) }
    ensures hits { OnOk result ((n : ℕ) → is_in n base.new.places
        ≡ (is_in n base.old.places && fails dims.old n == 0)) }
    ensures rising { OnOk result (IsRising base.new.places) }
    ensures near { OnOk result (AllZip (IsNear base.old.places dims.old) dims.old dims.new) }
{
    let mut ones = Bits::none(alloc, docs)?;
    let mut twos = Bits::none(alloc, docs)?;
    near_misses(base, dims, &mut ones, &mut twos);
    Ok(())
}

// Returns the places of all nodes, and the near misses of each dimension, a word for 64 documents at a time, without
// the dead.
fn near_sets(
    alloc: Global,
    docs: u32,
    dead: &[u32],
    base: Vec<PlanNode<'_>>,
    dims: Vec<PlanNode<'_>>,
) -> Result<NearSets, NoMemory>
    requires within { (among : List Doc) × (test : Doc → Bool) × (tests : List (Doc → Bool))
        × AreAllOf among test base.items
        × AreNodesFor among tests dims.items × (docs ≡ length among) }
    requires rise { IsRising dead.now }
    requires below { AllByRecursion (IsBelow docs) dead.now }
    ensures hits_words { IfOk result (λ s. s.hits.words ≡ (docs + 63) / 64) }
    ensures near_words { IfOk result (λ s. HaveWords ((docs + 63) / 64) s.near.items) }
    ensures hits { IfOk result (λ s. (among : List Doc) (test : Doc → Bool) (tests : List (Doc → Bool))
        → docs ≡ length among
        → AreAllOf among test base.entry.items → AreNodesFor among tests dims.entry.items
        → s.hits.places ≡ without (places (λ doc. test doc && passes_tests tests doc) among) dead.now) }
    ensures near { IfOk result (λ s. (among : List Doc) (test : Doc → Bool) (tests : List (Doc → Bool))
        → docs ≡ length among
        → AreAllOf among test base.entry.items → AreNodesFor among tests dims.entry.items
        → AllZip (λ t set. set.places ≡ without (places (λ doc. test doc
        && fails_alone tests t doc) among) dead.now) tests s.near.items) }
{
    let mut hits = in_common(alloc, base, docs, dead)?;
    let mut near = marked_each(alloc, dims, docs)?;
    leave_near(alloc, docs, &mut hits, &mut near)?;
    Ok(NearSets { hits, near })
}

// Adds to each pass the set of its dimension.
fn add_sets<'a>(
    segment: &'a Segment,
    sets: Vec<Bits>,
    lifted: &mut Vec<LiftedPass<'a>>,
) -> Result<(), NoMemory>
    requires within { AllByRecursion (IsSetWithin segment.now) sets.items }
    requires same { length sets.items ≡ length lifted.old.items }
    ensures { OnOk result (IsGivenSets segment.now sets.items (length sets.items) lifted.old.items lifted.new.items) }
{
    let mut k = 0;
    for set in sets {
        lifted[k].pass.add(Part::marked(segment, set))?;
        k += 1;
    }
    Ok(())
}

// Adds the parts of a segment whose places are found by walking.
fn add_walks<'a>(
    alloc: Global,
    segment: &'a Segment,
    query: &Query,
    drill: &Drill,
    lifted: &mut Vec<LiftedPass<'a>>,
) -> Result<(), NoMemory>
    requires { (docs : List Doc) × HasTermsOf segment.now docs }
    ensures { OnOk result (AllZip
        (HasNear (query_view query.now) drill.now segment.now) lifted.old.items lifted.new.items) }
{
    for one in lifted.iter_mut() {
        let part = Part::near(alloc, segment, query, drill, one.dim)?;
        one.pass.add(part)?;
    }
    Ok(())
}

/// Adds the part of a segment to each pass. If bits are cheaper, the query and each dimension are marked once for all
/// passes. Errors: out of memory.
pub(crate) fn add_segment<'a>(
    alloc: Global,
    segment: &'a Segment,
    query: &Query,
    drill: &Drill,
    hits: &mut Pass<'a>,
    lifted: &mut Vec<LiftedPass<'a>>,
) -> Result<(), NoMemory>
    requires has { (docs : List Doc) × HasTermsOf segment.now docs }
    requires covers { (sideways : Bool) × ((dim : List ℕ) → list_any (λ l. bytes_eq l.dim.now dim) lifted.old.items
        ≡ (sideways && is_drilled drill.now dim)) }
    requires distinct { AreDistinct (map dim_in lifted.old.items) }
    ensures hits { OnOk result
        (HasPart (passes_all (query_view query.now) drill.now None) segment.now hits.old hits.new) }
    ensures lifted { OnOk result
        (AllZip (HasNear (query_view query.now) drill.now segment.now) lifted.old.items lifted.new.items) }
{
    if lifted.is_empty() {
        let part = Part::new(alloc, segment, query, drill, None)?;
        hits.add(part)?;
        return Ok(());
    }
    let mut base = base_nodes(alloc, segment, query)?;
    let mut dims = dim_nodes(alloc, segment, drill, lifted)?;
    let lists = lists_of(query, drill);
    if are_near_many(&base, &dims, lists, segment.docs()) {
        let sets = near_sets(alloc, segment.docs(), segment.dead(), base, dims)?;
        hits.add(Part::marked(segment, sets.hits))?;
        return add_sets(segment, sets.near, lifted);
    }
    base.append(&mut dims)?;
    let part = Part::of_nodes(alloc, segment, base, lists)?;
    hits.add(part)?;
    add_walks(alloc, segment, query, drill, lifted)
}
