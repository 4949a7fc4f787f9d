ghost use Rattle.std.specs.Prelude.{◌≡◌, ◌∷◌, [], OnOk, codes};
ghost use Rattle.serde_json.specs.Data.{string, put as with_member};
ghost use Rattle.serde_json.specs.View.{members_view};
ghost use Rattle.facet_model.specs.Accepts.{not_hierarchical};
ghost use Rattle.facet_replies.specs.ReplyLines.{with_fields, whole_data, broken_fields, refusal_fields};
ghost use Rattle.facet_replies.specs.ReplyViews.{refusal_view};

use crate::reply::Refusal;
use serde_json::{Map, Value, put};
use std::alloc::{AllocError, Global};

/// Stores a text under a key.
///
/// Errors: out of memory.
pub fn put_text(
    alloc: Global,
    fields: &mut Map<String, Value>,
    key: &str,
    text: &str,
) -> Result<(), AllocError>
    ensures { OnOk result (members_view fields.new.entries
        ≡ with_member key.now (string text.now) (members_view fields.old.entries)) }
{
    put(fields, alloc, key, Value::try_from_str(alloc, text)?)
}

// Stores the reason, and what it counts under this key.
fn put_reason(
    alloc: Global,
    fields: &mut Map<String, Value>,
    reason: &str,
    key: &str,
    number: u64,
) -> Result<(), AllocError>
    ensures { OnOk result (members_view fields.new.entries ≡ with_fields (members_view fields.old.entries)
        ((codes "refused", string reason.now) ∷ (key.now, whole_data number) ∷ [])) }
{
    put_text(alloc, fields, "refused", reason)?;
    put(fields, alloc, key, Value::from(number))
}

fn put_not_hierarchical(
    alloc: Global,
    fields: &mut Map<String, Value>,
    facet: u64,
    len: u64,
) -> Result<(), AllocError>
    ensures { OnOk result (members_view fields.new.entries
        ≡ with_fields (members_view fields.old.entries) (broken_fields (not_hierarchical facet len))) }
{
    put_reason(alloc, fields, "not_hierarchical", "facet", facet)?;
    put(fields, alloc, "len", Value::from(len))
}

/// Stores the reason of a rejection, and what it counts. The line and the session of the reply are stored elsewhere.
///
/// Errors: out of memory.
pub fn put_refusal(
    alloc: Global,
    fields: &mut Map<String, Value>,
    refusal: Refusal,
) -> Result<(), AllocError>
    ensures { OnOk result (members_view fields.new.entries
        ≡ with_fields (members_view fields.old.entries) (refusal_fields (refusal_view refusal))) }
{
    match refusal {
        Refusal::NoComponent { facet } => {
            put_reason(alloc, fields, "no_component", "facet", facet)
        }
        Refusal::NotHierarchical { facet, len } => {
            put_not_hierarchical(alloc, fields, facet, len)
        }
        Refusal::NotMultiValued { facet } => {
            put_reason(alloc, fields, "not_multi_valued", "facet", facet)
        }
        Refusal::LabelsFull { size } => put_reason(alloc, fields, "labels_full", "size", size),
        Refusal::DocsFull { count } => put_reason(alloc, fields, "docs_full", "count", count),
        Refusal::NotHeld => put_text(alloc, fields, "refused", "not_held"),
        Refusal::HeldAlready => put_text(alloc, fields, "refused", "held_already"),
        Refusal::TopZero { ask } => put_reason(alloc, fields, "top_zero", "ask", ask),
        Refusal::DimValueNotKept { ask } => {
            put_reason(alloc, fields, "dim_value_not_kept", "ask", ask)
        }
        Refusal::NoSuchDocument { count } => {
            put_reason(alloc, fields, "no_such_document", "count", count)
        }
        Refusal::Disk { count } => put_reason(alloc, fields, "disk", "count", count),
        Refusal::Closed { count } => put_reason(alloc, fields, "closed", "count", count),
        Refusal::NumbersSpent { number } => {
            put_reason(alloc, fields, "numbers_spent", "number", number)
        }
        Refusal::NoMemory => put_text(alloc, fields, "refused", "no_memory"),
    }
}
