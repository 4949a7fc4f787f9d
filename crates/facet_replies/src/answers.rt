ghost use Rattle.std.specs.Prelude.{◌≡◌, ◌∷◌, [], IfOk, map, codes};
ghost use Rattle.serde_json.specs.Data.{number};
ghost use Rattle.serde_json.specs.Find.{of_integer};
ghost use Rattle.serde_json.specs.View.{view};
ghost use Rattle.facet_model.specs.Listing.{counted_child};
ghost use Rattle.facet_model.specs.ResultViews.{result_view, answer_view};
ghost use Rattle.facet_replies.specs.ReplyLines.{fields, whole_data, list_data, path_data, child_data, listed_data};
ghost use Rattle.facet_replies.specs.ReplyLines.{value_data, dims_data, answer_data};

use crate::values::{ToValue, list_value};
use facet_model::{Child, FacetAnswer, FacetResult};
use facet_names::{NoMemory, Path};
use serde_json::{Value, json};
use std::alloc::{AllocError, Global};

fn child_value(alloc: Global, child: &Child) -> Result<Value, NoMemory>
    ensures { IfOk result (λ v. view v ≡ child_data (counted_child child.now)) }
{
    Ok(json!(in alloc; [child.part.text(), child.count])?)
}

impl ToValue for Child {
    ghost use Rattle.facet_model.specs.Listing.{PartCount, counted_child};
    ghost use Rattle.facet_replies.specs.ReplyLines.{child_data};

    ghost Plain = { PartCount };

    ghost plain = { counted_child };

    ghost json = { child_data };

    fn to_value(&self, alloc: Global) -> Result<Value, NoMemory> {
        child_value(alloc, self)
    }
}

fn path_value(alloc: Global, path: &Path) -> Result<Value, NoMemory>
    ensures { IfOk result (λ v. view v ≡ path_data path.now) }
{
    let mut list = Vec::new(alloc);
    for at in 0..path.len() {
        list.push(Value::try_from_str(alloc, path.part(at))?)?;
    }
    Ok(Value::Array(list))
}

impl ToValue for Path {
    ghost use Rattle.std.specs.Prelude.{ℕ, List};
    ghost use Rattle.facet_replies.specs.ReplyLines.{path_data};

    ghost Plain = { List (List ℕ) };

    ghost plain = { λ p. p };

    ghost json = { path_data };

    fn to_value(&self, alloc: Global) -> Result<Value, NoMemory> {
        path_value(alloc, self)
    }
}

fn counts_fields(
    alloc: Global,
    child_count: u32,
    children: Value,
    path: Value,
    value: i64,
) -> Result<Value, AllocError>
    ensures { IfOk result (λ v. view v
        ≡ fields ((codes "child_count", whole_data child_count) ∷ (codes "children", view children)
        ∷ (codes "path", view path) ∷ (codes "value", number (of_integer value)) ∷ [])) }
{
    json!(in alloc; {"child_count": child_count, "children": children, "path": path, "value": value})
}

#[tactic(auto, unfolding(crate::specs::ReplyLines::listed_data))]
fn counts_value(alloc: Global, counts: &FacetResult) -> Result<Value, NoMemory>
    ensures { IfOk result (λ v. view v ≡ listed_data (result_view counts.now)) }
{
    let children = list_value(alloc, &counts.children)?;
    let path = path_value(alloc, &counts.path)?;
    let value = counts_fields(alloc, counts.child_count, children, path, counts.value)?;
    Ok(value)
}

impl ToValue for FacetResult {
    ghost use Rattle.facet_model.specs.Results.{Listed};
    ghost use Rattle.facet_model.specs.ResultViews.{result_view};
    ghost use Rattle.facet_replies.specs.ReplyLines.{listed_data};

    ghost Plain = { Listed };

    ghost plain = { result_view };

    ghost json = { listed_data };

    fn to_value(&self, alloc: Global) -> Result<Value, NoMemory> {
        counts_value(alloc, self)
    }
}

fn specific_fields(alloc: Global, path: Value, value: i64) -> Result<Value, AllocError>
    ensures { IfOk result (λ v. view v
        ≡ fields ((codes "path", view path) ∷ (codes "value", number (of_integer value)) ∷ [])) }
{
    json!(in alloc; {"path": path, "value": value})
}

#[tactic(auto, unfolding(crate::specs::ReplyLines::value_data))]
fn specific_value(alloc: Global, path: &Path, value: i64) -> Result<Value, NoMemory>
    ensures { IfOk result (λ v. view v ≡ value_data path.now value) }
{
    let path = path_value(alloc, path)?;
    let fields = specific_fields(alloc, path, value)?;
    Ok(fields)
}

fn dims_fields(alloc: Global, dims: Value) -> Result<Value, AllocError>
    ensures { IfOk result (λ v. view v ≡ fields ((codes "dims", view dims) ∷ [])) }
{
    json!(in alloc; {"dims": dims})
}

#[tactic(auto, unfolding(crate::specs::ReplyLines::dims_data))]
fn dims_value(alloc: Global, results: &[FacetResult]) -> Result<Value, NoMemory>
    ensures { IfOk result (λ v. view v ≡ dims_data (map result_view results.now)) }
{
    let dims = list_value(alloc, results)?;
    let fields = dims_fields(alloc, dims)?;
    Ok(fields)
}

fn answer_value(alloc: Global, answer: &FacetAnswer) -> Result<Value, NoMemory>
    ensures { IfOk result (λ v. view v ≡ answer_data (answer_view answer.now)) }
{
    match answer {
        FacetAnswer::Top(Some(counts)) => counts_value(alloc, counts),
        FacetAnswer::Top(None) => Ok(Value::Null),
        FacetAnswer::Specific { path, value } => specific_value(alloc, path, *value),
        FacetAnswer::AllDims(results) => dims_value(alloc, results),
    }
}

impl ToValue for FacetAnswer {
    ghost use Rattle.facet_model.specs.Results.{Answer};
    ghost use Rattle.facet_model.specs.ResultViews.{answer_view};
    ghost use Rattle.facet_replies.specs.ReplyLines.{answer_data};

    ghost Plain = { Answer };

    ghost plain = { answer_view };

    ghost json = { answer_data };

    fn to_value(&self, alloc: Global) -> Result<Value, NoMemory> {
        answer_value(alloc, self)
    }
}

/// Returns an array of paths, in order.
///
/// Errors: out of memory.
pub fn paths_value(alloc: Global, paths: &[Path]) -> Result<Value, NoMemory>
    ensures { IfOk result (λ v. view v ≡ list_data path_data paths.now) }
{
    list_value(alloc, paths)
}

/// Returns an array of the answers to the asks of a search, in order.
///
/// Errors: out of memory.
pub fn answers_value(alloc: Global, answers: &[FacetAnswer]) -> Result<Value, NoMemory>
    ensures { IfOk result (λ v. view v ≡ list_data answer_data (map answer_view answers.now)) }
{
    list_value(alloc, answers)
}
