ghost use Rattle.std.specs.Prelude.{◌≡◌, ◌≢◌, [], Ok, Err, IfOk, IfErr, IsTrue, length, option_and_then, option_map};
ghost use Rattle.std.specs.Prelude.{map, string_bytes, codes};
ghost use Rattle.serde_json.specs.View.{view};
ghost use Rattle.facet_words.specs.CommandViews.{settings_view};
ghost use Rattle.facet_words.specs.ConfigLines.{dimension_of, config_from, settings_of};
ghost use Rattle.facet_words.specs.Scripts.{config_of, config_at};
ghost use Rattle.facet_words.specs.Shapes.{is_within, key_or, list_of};
ghost use Rattle.facet_words.specs.declared.fault.ScriptFault.TheVariants.{NoMemory as Memory};

use crate::fault::ScriptFault;
use crate::lines::line_value;
use crate::settings::Settings;
use crate::shape::{Shaped, flag_at, keys_among, list_of_in, text_in, whole_or};
use facet_config::{DeclareFault, FacetsConfig};
use facet_model::DimFlags;
use facet_names::NoMemory;
use serde_json::Value;
use std::alloc::Global;
use std::hash::RandomState;

// A dimension that the config line declares.
#[derive(Drop)]
struct Dimension {
    name: String,
    flags: DimFlags,
    ghost named: { IsTrue (is_within 1 1024 (length (string_bytes name))) },
}

impl Shaped for Dimension {
    ghost use Rattle.std.specs.Prelude.{ℕ, List, string_bytes};
    ghost use Rattle.facet_model.specs.declared.flags.DimFlags.{DimFlags};
    ghost use Rattle.facet_words.specs.ConfigLines.{dimension_of};

    ghost Plain = { List ℕ × DimFlags };

    ghost plain = { λ d. (string_bytes d.name, d.flags) };

    ghost shape = { dimension_of };

    fn read(alloc: Global, value: &Value) -> Result<Option<Dimension>, NoMemory> {
        dimension_in(alloc, value)
    }
}

#[tactic(auto, unfolding(crate::specs::ConfigLines::dimension_of))]
fn dimension_in(alloc: Global, value: &Value) -> Result<Option<Dimension>, NoMemory>
    ensures { IfOk result (λ o. option_map (λ d. (string_bytes d.name, d.flags)) o ≡ dimension_of (view value.now)) }
{
    let Some(name) = value.get("dim").and_then(|found| text_in(found, 1, 1024)) else {
        return Ok(None);
    };
    let Some(hierarchical) = flag_at(value, "hierarchical") else {
        return Ok(None);
    };
    let Some(multi_valued) = flag_at(value, "multi_valued") else {
        return Ok(None);
    };
    let Some(require_dim_count) = flag_at(value, "require_dim_count") else {
        return Ok(None);
    };
    if keys_among(
        value,
        &["dim", "hierarchical", "multi_valued", "require_dim_count"],
    ) {
        let name = String::from_str(alloc, name)?;
        let flags = DimFlags {
            hierarchical,
            multi_valued,
            require_dim_count,
        };
        Ok(Some(Dimension { name, flags }))
    } else {
        Ok(None)
    }
}

fn dimensions_in(alloc: Global, value: &Value) -> Result<Option<Vec<Dimension>>, NoMemory>
    ensures { IfOk result (λ o. option_map (λ v. map (λ d. (string_bytes d.name, d.flags)) v.items) o
        ≡ key_or (codes "dims") [] (list_of dimension_of) (view value.now)) }
{
    match value.get("dims") {
        Some(list) => list_of_in(alloc, list),
        None => Ok(Some(Vec::new(alloc))),
    }
}

// The config with these declarations, or None if two have one name.
fn declared(
    alloc: Global,
    keys: RandomState,
    dims: &[Dimension],
) -> Result<Option<FacetsConfig>, NoMemory>
    ensures { IfOk result (λ o. o ≡ config_from (map (λ d. (string_bytes d.name, d.flags)) dims.now)) }
{
    let mut config = FacetsConfig::new(alloc, keys);
    for dim in dims {
        match config.declare(dim.name.as_str(), dim.flags) {
            Ok(()) => {}
            Err(DeclareFault::Twice) => return Ok(None),
            // The name's length was tested.
            Err(DeclareFault::BadName { .. }) => unreachable!(),
            Err(DeclareFault::NoMemory) => return Err(NoMemory),
        }
    }
    Ok(Some(config))
}

// The config with the dimensions under the key, or None if two have one name.
fn config_at(
    alloc: Global,
    keys: RandomState,
    value: &Value,
) -> Result<Option<FacetsConfig>, NoMemory>
    ensures { IfOk result (λ o. o
        ≡ option_and_then config_from (key_or (codes "dims") [] (list_of dimension_of) (view value.now))) }
{
    match dimensions_in(alloc, value)? {
        Some(dims) => declared(alloc, keys, &dims),
        None => Ok(None),
    }
}

fn settings_in(
    alloc: Global,
    keys: RandomState,
    value: &Value,
) -> Result<Option<Settings>, NoMemory>
    ensures { IfOk result (λ o. option_map settings_view o ≡ settings_of (view value.now)) }
{
    if !keys_among(
        value,
        &[
            "cmd",
            "dims",
            "max_docs",
            "max_labels",
            "stripes",
            "cache",
            "auto_merge",
        ],
    ) {
        return Ok(None);
    }
    let Some(max_docs) = whole_or(value, "max_docs", 1_000_000, 1, 1_000_000) else {
        return Ok(None);
    };
    let Some(max_labels) = whole_or(value, "max_labels", 1_000_000, 1, 1_000_000) else {
        return Ok(None);
    };
    let Some(stripes) = whole_or(value, "stripes", 16, 1, 64) else {
        return Ok(None);
    };
    let Some(cache) = whole_or(value, "cache", 4_096, 1, 65_536) else {
        return Ok(None);
    };
    let Some(auto_merge) = flag_at(value, "auto_merge") else {
        return Ok(None);
    };
    let Some(config) = config_at(alloc, keys, value)? else {
        return Ok(None);
    };
    Ok(Some(Settings {
        config,
        max_docs: max_docs as u32,
        max_labels: max_labels as u32,
        stripes: stripes as u32,
        cache: cache as u32,
        auto_merge,
    }))
}

#[tactic(auto, unfolding(crate::specs::Scripts::config_of))]
fn config_in(alloc: Global, keys: RandomState, value: &Value) -> Result<Settings, ScriptFault>
    ensures ok { IfOk result (λ s. config_of (view value.now) ≡ Ok (settings_view s)) }
    ensures err { IfErr result (λ e. e ≢ Memory → config_of (view value.now) ≡ Err e) }
{
    match value.get("cmd").and_then(Value::as_str) {
        Some("config") => match settings_in(alloc, keys, value)? {
            Some(settings) => Ok(settings),
            None => Err(ScriptFault::BadShape { line: 1 }),
        },
        Some(_) => Err(ScriptFault::NoConfigFirst),
        None => Err(ScriptFault::NoConfigFirst),
    }
}

/// Reads the settings of the first line, or the fault of that line. `keys` are hash keys for the declared dimensions;
/// no result depends on them.
#[tactic(auto, unfolding(crate::specs::Scripts::config_at))]
pub fn read_settings(alloc: Global, keys: RandomState, line: &[u8]) -> Result<Settings, ScriptFault>
    ensures ok { IfOk result (λ s. config_at line.now ≡ Ok (settings_view s)) }
    ensures err { IfErr result (λ e. e ≢ Memory → config_at line.now ≡ Err e) }
{
    match line_value(alloc, line)? {
        Some(value) => config_in(alloc, keys, &value),
        None => Err(ScriptFault::NotJson { line: 1 }),
    }
}
