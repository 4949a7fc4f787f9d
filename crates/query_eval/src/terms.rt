//! The places of one term.
ghost use Rattle.std.specs.Prelude.{◌≡◌, [], List, unwrap_or};
ghost use Rattle.facet_model.specs.Documents.{Doc};
ghost use Rattle.facet_model.specs.CountedPaths.{places};
ghost use Rattle.seg_terms.specs.Laws.{has_term};
ghost use Rattle.query_eval.specs.Segments.{HasTermsOf};

use plan_places::PlanNode;
use seg_file::Segment;
use seg_postings::Postings;

/// Returns the places that a look-up found, or none. It allocates nothing.
pub fn found_node<'a>(found: Option<Postings<'a>>) -> PlanNode<'a>
    ensures { result.left ≡ unwrap_or found.entry [] }
{
    match found {
        Some(postings) => PlanNode::list(&postings),
        None => PlanNode::below(0),
    }
}

/// Returns the documents that have a term. It looks the term up once, and allocates nothing.
pub fn term_node<'a>(segment: &'a Segment, term: &str) -> PlanNode<'a>
    ensures { (docs : List Doc) → HasTermsOf segment.now docs → result.left ≡ places (has_term term.now) docs }
{
    found_node(segment.postings(term))
}
