//! The set operations of boolean queries, over places of documents.
ghost use Rattle.std.specs.Prelude.{◌≡◌, ◌<◌, ◌&&◌, not, List, Bool, IfOk, length};
ghost use Rattle.std.specs.List.{list_any, list_all};
ghost use Rattle.facet_model.specs.Documents.{Doc};
ghost use Rattle.facet_model.specs.CountedPaths.{places};
ghost use Rattle.query_eval.specs.Segments.{AreTests};

use facet_names::NoMemory;
use plan_places::PlanNode;
use std::alloc::Global;

/// Returns the documents of at least one node. It allocates nothing.
pub fn any_node(nodes: Vec<PlanNode<'_>>) -> PlanNode<'_>
    ensures { (docs : List Doc) (tests : List (Doc → Bool)) → AreTests docs tests nodes.entry.items
        → result.left ≡ places (λ doc. list_any (λ test. test doc) tests) docs }
{
    let mut nodes = nodes;
    if nodes.len() == 1 {
        return nodes.remove(0);
    }
    PlanNode::any(nodes)
}

/// Returns the documents of at least one of `nodes` and of none of `excluded`. Errors: out of memory.
pub fn any_without<'a>(
    alloc: Global,
    nodes: Vec<PlanNode<'a>>,
    excluded: Vec<PlanNode<'a>>,
) -> Result<PlanNode<'a>, NoMemory>
    ensures { IfOk result (λ r. (docs : List Doc) (tests others : List (Doc → Bool))
        → AreTests docs tests nodes.entry.items
        → AreTests docs others excluded.entry.items
        → r.left ≡ places (λ doc. list_any (λ test. test doc) tests && not (list_any (λ test. test doc) others)) docs) }
{
    if excluded.is_empty() {
        return Ok(any_node(nodes));
    }
    PlanNode::without(alloc, any_node(nodes), excluded)
}

/// Returns the documents of each of `nodes` and of none of `excluded`. Errors: out of memory.
pub fn all_without<'a>(
    alloc: Global,
    nodes: Vec<PlanNode<'a>>,
    excluded: Vec<PlanNode<'a>>,
) -> Result<PlanNode<'a>, NoMemory>
    requires { 0 < length nodes.items }
    ensures { IfOk result (λ r. (docs : List Doc) (tests others : List (Doc → Bool))
        → AreTests docs tests nodes.entry.items
        → AreTests docs others excluded.entry.items
        → r.left ≡ places (λ doc. list_all (λ test. test doc) tests && not (list_any (λ test. test doc) others)) docs) }
{
    let mut nodes = nodes;
    if nodes.len() == 1 && excluded.is_empty() {
        return Ok(nodes.remove(0));
    }
    PlanNode::all(alloc, nodes, excluded)
}
