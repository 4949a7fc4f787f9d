ghost use Rattle.std.specs.Prelude.{◌≡◌, ◌++◌, ◌∷◌, [], IfOk, OnOk, OnErr, codes};
ghost use Rattle.serde_json.specs.Data.{boolean};
ghost use Rattle.serde_json.specs.View.{view};
ghost use Rattle.facet_replies.specs.ReplyLines.{fields, whole_data};
ghost use Rattle.facet_replies.specs.Summaries.{summary_data, summary_line};
ghost use Rattle.facet_replies.specs.SummaryViews.{summary_view};

use crate::answers::answers_value;
use crate::writing::to_line;
use facet_model::FacetAnswer;
use facet_names::NoMemory;
use serde_json::{Value, json};
use std::alloc::{AllocError, Global};

/// The summary of the replies to a script of generated documents.
#[derive(Debug, Drop)]
pub struct Summary {
    /// How many adds returned a place.
    pub added: u64,
    /// No commit was rejected.
    pub committed: bool,
    /// How many documents the pair has that was searched.
    pub documents: u32,
    /// How many of them matched.
    pub hit_count: u64,
    /// How many labels the pair has, with the root.
    pub labels: u32,
    /// The answers to the asks of the search, in order.
    pub results: Vec<FacetAnswer>,
}

fn summary_fields(alloc: Global, summary: &Summary, results: Value) -> Result<Value, AllocError>
    ensures { IfOk result (λ v. view v
        ≡ fields ((codes "added", whole_data summary.now.added) ∷ (codes "committed", boolean summary.now.committed)
        ∷ (codes "documents", whole_data summary.now.documents) ∷ (codes "hit_count", whole_data summary.now.hit_count)
        ∷ (codes "labels", whole_data summary.now.labels) ∷ (codes "results", view results) ∷ [])) }
{
    json!(in alloc; {
        "added": summary.added,
        "committed": summary.committed,
        "documents": summary.documents,
        "hit_count": summary.hit_count,
        "labels": summary.labels,
        "results": results
    })
}

#[tactic(auto, unfolding(crate::specs::Summaries::summary_data))]
fn summary_value(alloc: Global, summary: &Summary) -> Result<Value, NoMemory>
    ensures { IfOk result (λ v. view v ≡ summary_data (summary_view summary.now)) }
{
    let results = answers_value(alloc, &summary.results)?;
    let value = summary_fields(alloc, summary, results)?;
    Ok(value)
}

/// Appends the line of a summary, as a line of JSON in the form of a reply.
///
/// Errors: out of memory. Then nothing is appended.
#[tactic(auto, unfolding(crate::specs::Summaries::summary_line))]
pub fn write_summary(alloc: Global, out: &mut Vec<u8>, summary: &Summary) -> Result<(), NoMemory>
    ensures ok { OnOk result (out.new.items ≡ out.old.items ++ summary_line (summary_view summary.now)) }
    ensures err { OnErr result (out.new.items ≡ out.old.items) }
{
    let value = summary_value(alloc, summary)?;
    let text = to_line(alloc, &value)?;
    out.extend_from_slice(text.as_bytes())?;
    Ok(())
}
