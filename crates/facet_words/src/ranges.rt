ghost use Rattle.std.specs.Prelude.{◌≡◌, IfOk, codes, option_map};
ghost use Rattle.serde_json.specs.View.{view};
ghost use Rattle.facet_words.specs.CommandLines.{range_of};
ghost use Rattle.facet_words.specs.Shapes.{key, list_within};

use crate::shape::{Shaped, flag_at, keys_among, list_in, signed_at, text_in};
use facet_names::NoMemory;
use number_facets::Range;
use serde_json::Value;
use std::alloc::Global;

#[tactic(auto, unfolding(crate::specs::CommandLines::range_of))]
fn range_in(alloc: Global, value: &Value) -> Result<Option<Range>, NoMemory>
    ensures { IfOk result (λ o. o ≡ range_of (view value.now)) }
{
    let Some(name) = value.get("name").and_then(|found| text_in(found, 1, 64)) else {
        return Ok(None);
    };
    let Some(min) = signed_at(value, "min") else {
        return Ok(None);
    };
    let Some(max) = signed_at(value, "max") else {
        return Ok(None);
    };
    let Some(min_open) = flag_at(value, "min_open") else {
        return Ok(None);
    };
    let Some(max_open) = flag_at(value, "max_open") else {
        return Ok(None);
    };
    if keys_among(value, &["name", "min", "max", "min_open", "max_open"]) {
        let range = Range::new(alloc, name, min, max, min_open, max_open)?;
        Ok(Some(range))
    } else {
        Ok(None)
    }
}

impl Shaped for Range {
    ghost use Rattle.number_facets.specs.Values as values;
    ghost use Rattle.facet_words.specs.CommandLines.{range_of};

    ghost Plain = { values.Range };

    ghost plain = { λ r. r };

    ghost shape = { range_of };

    fn read(alloc: Global, value: &Value) -> Result<Option<Range>, NoMemory> {
        range_in(alloc, value)
    }
}

/// Reads the 1 to 64 ranges under the key `ranges`, or returns `None` if there is no such key or the value is not a
/// list of so many ranges.
///
/// Errors: out of memory.
pub fn ranges_at(alloc: Global, value: &Value) -> Result<Option<Vec<Range>>, NoMemory>
    ensures { IfOk result (λ o. option_map (λ v. v.items) o
        ≡ key (codes "ranges") (list_within 1 64 range_of) (view value.now)) }
{
    match value.get("ranges") {
        Some(found) => list_in(alloc, found, 1, 64),
        None => Ok(None),
    }
}
