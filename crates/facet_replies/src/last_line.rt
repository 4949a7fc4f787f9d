ghost use Rattle.std.specs.Prelude.{◌≡◌, ◌<◌, ◌≤◌, ◌++◌, ◌∷◌, [], IfOk, OnOk, OnErr, Some, codes, drop, length};
ghost use Rattle.std.specs.Prelude.{slice_get, unwrap_or};
ghost use Rattle.serde_json.specs.Data.{string};
ghost use Rattle.serde_json.specs.View.{view};
ghost use Rattle.facet_names.specs.Labels.{above, place};
ghost use Rattle.facet_replies.specs.LastLine.{label_data, last_data, last_line, two_data};
ghost use Rattle.facet_replies.specs.ReplyLines.{fields, list_data, whole_data};

use crate::values::list_value;
use crate::writing::to_line;
use facet_names::{NoMemory, Path};
use serde_json::{Value, json};
use std::alloc::{AllocError, Global};
use taxo_list::Taxonomy;

// Returns the ordinal of a path's parent, or 0, the ordinal of the root, if there is none.
fn parent_ordinal(alloc: Global, labels: &Taxonomy, path: &Path) -> Result<u32, NoMemory>
    requires root { slice_get labels.now 0 ≡ Some [] }
    ensures { IfOk result (λ ord. ord ≡ unwrap_or (place labels.now (above path.now)) 0) }
{
    match path.parent(alloc)? {
        Some(parent) => Ok(labels.find(&parent).unwrap_or(0)),
        None => Ok(0),
    }
}

fn entry_value(alloc: Global, parent: u32, last: &str) -> Result<Value, AllocError>
    ensures { IfOk result (λ v. view v ≡ two_data (whole_data parent) (string last.now)) }
{
    json!(in alloc; [parent, last])
}

fn label_value(alloc: Global, labels: &Taxonomy, path: &Path) -> Result<Value, NoMemory>
    requires root { slice_get labels.now 0 ≡ Some [] }
    ensures { IfOk result (λ v. view v ≡ label_data labels.now path.now) }
{
    let parent = parent_ordinal(alloc, labels, path)?;
    let last = path.part(path.len() - 1);
    let entry = entry_value(alloc, parent, last)?;
    Ok(entry)
}

// Returns the array of these labels, in their order.
fn labels_value(alloc: Global, labels: &Taxonomy, added: &[Path]) -> Result<Value, NoMemory>
    requires root { slice_get labels.now 0 ≡ Some [] }
    ensures { IfOk result (λ v. view v ≡ list_data (label_data labels.now) added.now) }
{
    let mut list = Vec::new(alloc);
    for path in added {
        let value = label_value(alloc, labels, path)?;
        list.push(value)?;
    }
    Ok(Value::Array(list))
}

fn added_value(alloc: Global, labels: &Taxonomy, opened: u32) -> Result<Value, NoMemory>
    requires some { 0 < opened }
    requires within { opened ≤ length labels.now }
    ensures { IfOk result (λ v. view v ≡ list_data (label_data labels.now) (drop opened labels.now)) }
{
    let (_, added) = labels.paths().split_at(opened as usize - 1);
    labels_value(alloc, labels, added)
}

fn last_fields(
    alloc: Global,
    added: Value,
    documents: u64,
    opened: u32,
    order: Value,
) -> Result<Value, AllocError>
    ensures { IfOk result (λ v. view v
        ≡ fields ((codes "labels", view added) ∷ (codes "opened", two_data (whole_data documents) (whole_data opened))
        ∷ (codes "order", view order) ∷ [])) }
{
    json!(in alloc; {"labels": added, "opened": [documents, opened], "order": order})
}

#[tactic(auto, unfolding(crate::specs::LastLine::last_data))]
fn last_value(
    alloc: Global,
    documents: u64,
    opened: u32,
    labels: &Taxonomy,
    sessions: &[u32],
) -> Result<Value, NoMemory>
    requires some { 0 < opened }
    requires within { opened ≤ length labels.now }
    ensures { IfOk result (λ v. view v ≡ last_data documents opened labels.now sessions.now) }
{
    let added = added_value(alloc, labels, opened)?;
    let order = list_value(alloc, sessions)?;
    let fields = last_fields(alloc, added, documents, opened, order)?;
    Ok(fields)
}

/// Appends the last line of an output: for each label after the opened ones its parent and its last component; how many
/// documents and labels were opened; and the sessions of the operations. `documents` is the number of opened documents,
/// and `opened` that of opened labels with the root. It looks up one parent per label, and allocates the whole line.
///
/// Errors: out of memory. Then nothing is appended.
#[tactic(auto, unfolding(crate::specs::LastLine::last_line))]
pub fn write_last_line(
    alloc: Global,
    out: &mut Vec<u8>,
    documents: u64,
    opened: u32,
    labels: &Taxonomy,
    sessions: &[u32],
) -> Result<(), NoMemory>
    requires some { 0 < opened }
    requires within { opened ≤ length labels.now }
    ensures ok { OnOk result (out.new.items ≡ out.old.items ++ last_line documents opened labels.now sessions.now) }
    ensures err { OnErr result (out.new.items ≡ out.old.items) }
{
    let value = last_value(alloc, documents, opened, labels, sessions)?;
    let text = to_line(alloc, &value)?;
    out.extend_from_slice(text.as_bytes())?;
    Ok(())
}
