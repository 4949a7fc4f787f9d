//! What the documents of a pass have to match.
ghost use Rattle.std.specs.Prelude.{◌≡◌, ◌<◌, ◌&&◌, not, Bool, List, IfOk, OnOk, length};
ghost use Rattle.std.specs.List.{list_any};
ghost use Rattle.std.specs.Str.{bytes_eq};
ghost use Rattle.facet_model.specs.CountedPaths.{places};
ghost use Rattle.facet_model.specs.Documents.{Doc, dim_of};
ghost use Rattle.facet_model.specs.Queries.{matches};
ghost use Rattle.facet_model.specs.QueryViews.{query_view};
ghost use Rattle.query_eval.specs.Segments.{HasTermsOf};
ghost use Rattle.seg_drill.specs.Passing.{AreAllOf, HasPaths, is_first, is_lifted, passes_all};
ghost use Rattle.facet_names.specs.Texts.{text_in};

use facet_model::{Drill, Query};
use facet_names::{NoMemory, Path};
use plan_places::PlanNode;
use query_eval::{paths_node, query_node};
use seg_file::Segment;
use std::alloc::Global;

// Returns whether a path is of the dimension.
fn has_dimension(paths: &[Path], dim: &str) -> bool
    ensures { result ≡ list_any (λ path. bytes_eq (dim_of path) dim.now) paths.now }
{
    paths.iter().any(|path| path.dim() == dim)
}

fn is_lifted(lifted: Option<&str>, dim: &str) -> bool
    ensures { result ≡ is_lifted (text_in lifted.entry) dim.now }
{
    match lifted {
        Some(other) => dim == other,
        None => false,
    }
}

/// Returns whether the path at a place is the first one of its dimension, and the dimension is not lifted. It compares
/// the dimensions of the paths before it.
pub fn is_first(drill: &[Path], at: usize, lifted: Option<&str>) -> bool
    requires { at < length drill.now }
    ensures { result ≡ is_first drill.now at (text_in lifted.entry) }
{
    let dim = drill[at].dim();
    !has_dimension(&drill[..at], dim) && !is_lifted(lifted, dim)
}

/// Returns one node, the documents that match the query; or no node if the query matches all. Errors: out of memory.
pub fn base_nodes<'a>(
    alloc: Global,
    segment: &'a Segment,
    query: &Query,
) -> Result<Vec<PlanNode<'a>>, NoMemory>
    ensures { IfOk result (λ v. (docs : List Doc) → HasTermsOf segment.now docs
        → AreAllOf docs (matches (query_view query.now)) v.items) }
{
    let mut nodes = Vec::new(alloc);
    if let Query::All = query {
        return Ok(nodes);
    }
    let node = query_node(alloc, segment, query)?;
    nodes.push(node)?;
    Ok(nodes)
}

/// Adds a node: the documents that match a dimension of the drill. Errors: out of memory.
pub fn push_paths<'a>(
    alloc: Global,
    segment: &'a Segment,
    drill: &Drill,
    dim: &str,
    nodes: &mut Vec<PlanNode<'a>>,
) -> Result<(), NoMemory>
    ensures { OnOk result (HasPaths segment.now drill.now dim.now nodes.old.items nodes.new.items) }
{
    let node = paths_node(alloc, segment, drill, dim)?;
    nodes.push(node)?;
    Ok(())
}

/// Returns one node for the query and one for each dimension of the drill except the lifted one. A search matches the
/// documents that all nodes have. Without a node it matches all documents. Errors: out of memory.
pub fn nodes_of<'a>(
    alloc: Global,
    segment: &'a Segment,
    query: &Query,
    drill: &Drill,
    lifted: Option<&str>,
) -> Result<Vec<PlanNode<'a>>, NoMemory>
    ensures { IfOk result (λ v. (docs : List Doc) → HasTermsOf segment.now docs
        → AreAllOf docs (passes_all (query_view query.now) drill.now (text_in lifted.entry)) v.items) }
{
    let mut nodes = base_nodes(alloc, segment, query)?;
    let paths = drill.paths();
    for (at, path) in paths.iter().enumerate() {
        if is_first(paths, at, lifted) {
            push_paths(alloc, segment, drill, path.dim(), &mut nodes)?;
        }
    }
    Ok(nodes)
}

/// Returns the documents that all nodes have. There is at least one node. Errors: out of memory.
pub fn joined<'a>(alloc: Global, nodes: Vec<PlanNode<'a>>) -> Result<PlanNode<'a>, NoMemory>
    requires { 0 < length nodes.items }
    ensures { IfOk result (λ r. (docs : List Doc) (test : Doc → Bool) → AreAllOf docs test nodes.entry.items
        → r.left ≡ places test docs) }
{
    let mut nodes = nodes;
    if nodes.len() == 1 {
        return Ok(nodes.remove(0));
    }
    PlanNode::all(alloc, nodes, Vec::new(alloc))
}

/// Returns the documents that all nodes have and `own` has not. Errors: out of memory.
pub fn without_one<'a>(
    alloc: Global,
    docs: u32,
    nodes: Vec<PlanNode<'a>>,
    own: PlanNode<'a>,
) -> Result<PlanNode<'a>, NoMemory>
    ensures { IfOk result (λ r. (among : List Doc) (test other : Doc → Bool) → docs ≡ length among
        → AreAllOf among test nodes.entry.items
        → own.entry.left ≡ places other among → r.left ≡ places (λ doc. test doc && not (other doc)) among) }
{
    let mut nodes = nodes;
    if nodes.is_empty() {
        nodes.push(PlanNode::below(docs))?;
    }
    let mut excluded = Vec::new(alloc);
    excluded.push(own)?;
    PlanNode::all(alloc, nodes, excluded)
}
