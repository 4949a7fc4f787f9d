//! The places of a drill-down.
ghost use Rattle.std.specs.Prelude.{◌≡◌, ◌<◌, ℕ, List, IfOk, length, nat_lt};
ghost use Rattle.facet_model.specs.Documents.{Doc, has, count};
ghost use Rattle.facet_model.specs.CountedPaths.{places};
ghost use Rattle.facet_model.specs.Hits.{passes};
ghost use Rattle.facet_model.specs.Stored.{alive};
ghost use Rattle.facet_model.specs.Terms.{path_term};
ghost use Rattle.query_eval.specs.Segments.{HasTermsOf};

use crate::live::live_node;
use crate::sets::any_node;
use crate::terms::term_node;
use facet_model::Drill;
use facet_names::NoMemory;
use plan_places::{PlanNode, PlanPlaces};
use seg_file::Segment;
use seg_postings::Places;
use std::alloc::Global;

/// Returns the documents of a segment that have at least one of the drill paths of a dimension, as one dimension of
/// Lucene's `DrillDownQuery`. Without a path of the dimension there are none.
///
/// Costs: one look-up for each path of the dimension. It allocates memory for each of these paths, and none for
/// documents. Errors: out of memory.
pub fn paths_node<'a>(
    alloc: Global,
    segment: &'a Segment,
    drill: &Drill,
    dim: &str,
) -> Result<PlanNode<'a>, NoMemory>
    ensures { IfOk result (λ node. (docs : List Doc) → HasTermsOf segment.now docs
        → node.left ≡ places (λ doc. passes doc drill.now dim.now) docs) }
{
    let mut nodes = Vec::new(alloc);
    let paths = drill.paths();
    for (at, path) in paths.iter().enumerate() {
        if path.dim() == dim {
            let node = term_node(segment, drill.term(at));
            nodes.push(node)?;
        }
    }
    Ok(any_node(nodes))
}

/// Returns whether a live document has the path of a drill-down term. It looks the term up once, and visits its places
/// up to the first live one. Errors: out of memory.
pub fn has_path(alloc: Global, segment: &Segment, term: &str) -> Result<bool, NoMemory>
    ensures { IfOk result (λ b. (docs : List Doc) (path : List (List ℕ)) → HasTermsOf segment.now docs
        → 0 < length path → term.now ≡ path_term path
        → b ≡ nat_lt 0 (count (alive segment.now.dead docs) path)) }
{
    let node = term_node(segment, term);
    let node = live_node(alloc, segment, node)?;
    let mut places = PlanPlaces::new(node);
    Ok(places.next().is_some())
}
