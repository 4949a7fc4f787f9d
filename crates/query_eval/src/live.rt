//! The places of records that are live.
ghost use Rattle.std.specs.Prelude.{◌≡◌, IfOk};
ghost use Rattle.seg_postings.specs.Sets.{without};

use facet_names::NoMemory;
use plan_places::PlanNode;
use seg_file::Segment;
use std::alloc::Global;

/// Returns the places of a node whose records are live. If all records are live, it returns the node itself and
/// allocates nothing. Errors: out of memory.
pub fn live_node<'a>(
    alloc: Global,
    segment: &'a Segment,
    node: PlanNode<'a>,
) -> Result<PlanNode<'a>, NoMemory>
    ensures { IfOk result (λ r. r.left ≡ without node.entry.left segment.now.dead) }
{
    let dead = segment.dead();
    if dead.is_empty() {
        return Ok(node);
    }
    let mut excluded = Vec::new(alloc);
    excluded.push(PlanNode::listed(dead))?;
    PlanNode::without(alloc, node, excluded)
}
