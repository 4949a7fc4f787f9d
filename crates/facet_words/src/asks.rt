ghost use Rattle.std.specs.Prelude.{◌≡◌, IfOk, option_map};
ghost use Rattle.serde_json.specs.View.{view};
ghost use Rattle.facet_model.specs.AskViews.{ask_view};
ghost use Rattle.facet_words.specs.CommandLines.{top_ask, value_ask, dims_ask, ask_of};

use crate::shape::{Shaped, index_in, keys_among, read_at};
use facet_model::Ask;
use facet_names::{NoMemory, Path};
use serde_json::Value;
use std::alloc::Global;

#[tactic(auto, unfolding(crate::specs::CommandLines::top_ask))]
fn top_in(alloc: Global, value: &Value) -> Result<Option<Ask>, NoMemory>
    ensures { IfOk result (λ o. option_map ask_view o ≡ top_ask (view value.now)) }
{
    let Some(path) = read_at::<Path>(alloc, value, "top")? else {
        return Ok(None);
    };
    let Some(n) = value.get("n").and_then(index_in) else {
        return Ok(None);
    };
    if keys_among(value, &["top", "n"]) {
        Ok(Some(Ask::Top { path, n }))
    } else {
        Ok(None)
    }
}

#[tactic(auto, unfolding(crate::specs::CommandLines::value_ask))]
fn specific_in(alloc: Global, value: &Value) -> Result<Option<Ask>, NoMemory>
    ensures { IfOk result (λ o. option_map ask_view o ≡ value_ask (view value.now)) }
{
    let Some(path) = read_at::<Path>(alloc, value, "specific")? else {
        return Ok(None);
    };
    if keys_among(value, &["specific"]) {
        Ok(Some(Ask::Specific { path }))
    } else {
        Ok(None)
    }
}

#[tactic(auto, unfolding(crate::specs::CommandLines::dims_ask))]
fn all_dims_in(value: &Value) -> Option<Ask>
    ensures { option_map ask_view result ≡ dims_ask (view value.now) }
{
    let n = value.get("all").and_then(index_in)?;
    if keys_among(value, &["all"]) {
        Some(Ask::AllDims { n })
    } else {
        None
    }
}

#[tactic(auto, unfolding(crate::specs::CommandLines::ask_of))]
fn ask_in(alloc: Global, value: &Value) -> Result<Option<Ask>, NoMemory>
    ensures { IfOk result (λ o. option_map ask_view o ≡ ask_of (view value.now)) }
{
    if let Some(ask) = top_in(alloc, value)? {
        return Ok(Some(ask));
    }
    if let Some(ask) = specific_in(alloc, value)? {
        return Ok(Some(ask));
    }
    Ok(all_dims_in(value))
}

impl Shaped for Ask {
    ghost use Rattle.facet_model.specs.AskViews.{ask_view};
    ghost use Rattle.facet_model.specs.Asks.{Asked};
    ghost use Rattle.facet_words.specs.CommandLines.{ask_of};

    ghost Plain = { Asked };

    ghost plain = { ask_view };

    ghost shape = { ask_of };

    fn read(alloc: Global, value: &Value) -> Result<Option<Ask>, NoMemory> {
        ask_in(alloc, value)
    }
}
