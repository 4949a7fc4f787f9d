//! The places of a query.
ghost use Rattle.std.specs.Prelude.{◌≡◌, List, IfOk, length, map};
ghost use Rattle.facet_model.specs.Documents.{Doc};
ghost use Rattle.facet_model.specs.CountedPaths.{places};
ghost use Rattle.facet_model.specs.Queries.{matches, term};
ghost use Rattle.facet_model.specs.QueryViews.{query_view};
ghost use Rattle.query_eval.specs.Segments.{HasTermsOf, AreTests};

use crate::sets::{all_without, any_without};
use crate::terms::found_node;
use facet_model::{Query, Word};
use facet_names::NoMemory;
use plan_places::PlanNode;
use seg_file::Segment;
use std::alloc::Global;

// Returns the documents that have a word.
fn word_node<'a>(segment: &'a Segment, word: &Word) -> PlanNode<'a>
    ensures { (docs : List Doc) → HasTermsOf segment.now docs → result.left ≡ places (matches (term word.now)) docs }
{
    found_node(segment.word_postings(word.text()))
}

/// Returns the documents of a segment that match a query. It looks up each word once, and allocates memory for each
/// part of the query, none for documents. Errors: out of memory.
#[cycle(query_nodes)]
pub fn query_node<'a>(
    alloc: Global,
    segment: &'a Segment,
    query: &Query,
) -> Result<PlanNode<'a>, NoMemory>
    ensures { IfOk result (λ node. (docs : List Doc) → HasTermsOf segment.now docs
        → node.left ≡ places (matches (query_view query.now)) docs) }
{
    match query {
        Query::All => Ok(PlanNode::below(segment.docs())),
        Query::Term(word) => Ok(word_node(segment, word)),
        Query::Bool {
            must,
            should,
            must_not,
        } => {
            let excluded = each_node(alloc, segment, must_not)?;
            if must.is_empty() {
                let any = each_node(alloc, segment, should)?;
                any_without(alloc, any, excluded)
            } else {
                let all = each_node(alloc, segment, must)?;
                all_without(alloc, all, excluded)
            }
        }
    }
}

// Returns the documents of each query.
#[cycle(query_nodes)]
fn each_node<'a>(
    alloc: Global,
    segment: &'a Segment,
    queries: &[Query],
) -> Result<Vec<PlanNode<'a>>, NoMemory>
    ensures tests { IfOk result (λ v. (docs : List Doc) → HasTermsOf segment.now docs
        → AreTests docs (map (λ q. matches (query_view q)) queries.now) v.items) }
    ensures number { IfOk result (λ v. length v.items ≡ length queries.now) }
{
    let mut nodes = Vec::with_capacity(alloc, queries.len())?;
    for query in queries {
        let node = query_node(alloc, segment, query)?;
        nodes.push(node)?;
    }
    Ok(nodes)
}
