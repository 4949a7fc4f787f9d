//! The names under which pairs are held.
ghost use Rattle.std.specs.Prelude.{◌≡◌, IfOk, codes};
ghost use Rattle.serde_json.specs.View.{view};
ghost use Rattle.facet_words.specs.CommandLines.{held_name, name_of, on_of};
ghost use Rattle.facet_words.specs.Shapes.{key};

use crate::shape::{keys_among, text_in};
use facet_model::Word;
use facet_names::NoMemory;
use serde_json::Value;
use std::alloc::Global;

fn held_name_in(alloc: Global, value: &Value) -> Result<Option<Word>, NoMemory>
    ensures { IfOk result (λ o. o ≡ held_name (view value.now)) }
{
    let Some(text) = text_in(value, 1, 64) else {
        return Ok(None);
    };
    Word::new(alloc, text)
}

fn name_at(alloc: Global, value: &Value) -> Result<Option<Word>, NoMemory>
    ensures { IfOk result (λ o. o ≡ key (codes "name") held_name (view value.now)) }
{
    match value.get("name") {
        Some(found) => held_name_in(alloc, found),
        None => Ok(None),
    }
}

/// Returns the name of a hold or a release, or `None` if it has another form or the object has further keys.
///
/// Errors: out of memory.
#[tactic(auto, unfolding(crate::specs::CommandLines::name_of))]
pub fn name_in(alloc: Global, value: &Value) -> Result<Option<Word>, NoMemory>
    ensures { IfOk result (λ o. o ≡ name_of (view value.now)) }
{
    let Some(name) = name_at(alloc, value)? else {
        return Ok(None);
    };
    if keys_among(value, &["cmd", "s", "name"]) {
        Ok(Some(name))
    } else {
        Ok(None)
    }
}

/// Returns the name under `on`: `Some(None)` if there is no such key, and `None` if it has another form.
///
/// Errors: out of memory.
pub fn on_at(alloc: Global, value: &Value) -> Result<Option<Option<Word>>, NoMemory>
    ensures { IfOk result (λ o. o ≡ on_of (view value.now)) }
{
    let Some(found) = value.get("on") else {
        return Ok(Some(None));
    };
    match held_name_in(alloc, found)? {
        Some(name) => Ok(Some(Some(name))),
        None => Ok(None),
    }
}
