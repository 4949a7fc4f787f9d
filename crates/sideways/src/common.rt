//! The places that several nodes have in common.
ghost use Rattle.std.specs.Prelude.{◌≡◌, ◌+◌, ◌/◌, ℕ, Bool, List, IfOk, length, true};
ghost use Rattle.std.specs.List.{AllByRecursion, AllZip};
ghost use Rattle.facet_model.specs.CountedPaths.{places};
ghost use Rattle.facet_model.specs.Documents.{Doc};
ghost use Rattle.facet_codec.specs.Laws.{IsBelow};
ghost use Rattle.seg_postings.specs.Rising.{IsRising};
ghost use Rattle.seg_postings.specs.Sets.{without};
ghost use Rattle.seg_drill.specs.Passing.{AreAllOf};
ghost use Rattle.sideways.specs.Counted.{IsAmong, IsMarkedBy};

use facet_names::NoMemory;
use place_bits::Bits;
use plan_places::PlanNode;
use std::alloc::Global;

/// Returns the places of each node as bits: one bit per record and node. Errors: out of memory.
pub(crate) fn marked_each(
    alloc: Global,
    nodes: Vec<PlanNode<'_>>,
    docs: u32,
) -> Result<Vec<Bits>, NoMemory>
    requires { AllByRecursion (IsAmong docs) nodes.items }
    ensures { IfOk result (λ v. AllZip (IsMarkedBy docs) nodes.entry.items v.items) }
{
    let mut sets = Vec::with_capacity(alloc, nodes.len())?;
    for node in nodes {
        let mut marked = Bits::none(alloc, docs)?;
        node.mark(&mut marked);
        sets.push(marked)?;
    }
    Ok(sets)
}

// Returns the places of a set except the dead ones.
fn without_dead(alloc: Global, set: Bits, docs: u32, dead: &[u32]) -> Result<Bits, NoMemory>
    requires words { set.words ≡ (docs + 63) / 64 }
    requires set { IsRising set.places }
    requires rise { IsRising dead.now }
    requires below { AllByRecursion (IsBelow docs) dead.now }
    ensures words { IfOk result (λ b. b.words ≡ set.words) }
    ensures places { IfOk result (λ b. b.places ≡ without set.places dead.now) }
{
    if dead.is_empty() {
        return Ok(set);
    }
    let mut left = set;
    let mut marked = Bits::none(alloc, docs)?;
    PlanNode::listed(dead).mark(&mut marked);
    left.leave(&marked);
    Ok(left)
}

/// Returns the places that all nodes have and that are not dead, as bits; without a node, all places that are not dead.
/// It takes one bit per record, and one more while it works.
///
/// Errors: out of memory.
pub(crate) fn in_common(
    alloc: Global,
    nodes: Vec<PlanNode<'_>>,
    docs: u32,
    dead: &[u32],
) -> Result<Bits, NoMemory>
    requires within { (among : List Doc) × (test : Doc → Bool) × AreAllOf among test nodes.items
        × (docs ≡ length among) }
    requires rise { IsRising dead.now }
    requires below { AllByRecursion (IsBelow docs) dead.now }
    ensures words { IfOk result (λ b. b.words ≡ (docs + 63) / 64) }
    ensures places { IfOk result (λ b. (among : List Doc) (test : Doc → Bool) → docs ≡ length among
        → AreAllOf among test nodes.entry.items
        → b.places ≡ without (places test among) dead.now) }
{
    let mut nodes = nodes;
    let mut common = Bits::none(alloc, docs)?;
    common.fill(docs);
    while let Some(node) = nodes.pop() {
        let mut marked = Bits::none(alloc, docs)?;
        node.mark(&mut marked);
        common.keep(&marked);
    }
    without_dead(alloc, common, docs, dead)
}
