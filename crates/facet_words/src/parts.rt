//! The parts of commands.
ghost use Rattle.std.specs.Prelude.{◌≡◌, ◌≤◌, [], IfOk, IsTrue, option_map, length, map, codes};
ghost use Rattle.serde_json.specs.View.{view};
ghost use Rattle.facet_model.specs.Queries.{all};
ghost use Rattle.facet_model.specs.QueryViews.{query_view};
ghost use Rattle.facet_words.specs.CommandViews.{counted_view, search_view};
ghost use Rattle.facet_words.specs.CommandLines.{added_of, counted_with, heading_of, most_hits as most, place_with};
ghost use Rattle.facet_words.specs.CommandLines.{plain_of, search_with};
ghost use Rattle.facet_words.specs.Queries.{query_of};
ghost use Rattle.facet_words.specs.SearchParts.{search_settings, settled_search};
ghost use Rattle.facet_words.specs.Shapes.{key, key_or, is_within, list_within, path, text_within};

use crate::shape::{Shaped, flag_at, index_in, keys_among, list_or, text_in, whole_or};
use facet_model::{Ask, DocShape, Document, Drill, Query, Word};
use facet_names::{NoMemory, Path};
use serde_json::Value;
use std::alloc::Global;

/// A search, whatever documents it sees.
#[derive(Debug, Drop)]
pub struct SearchLine {
    /// Which documents match.
    pub query: Query,
    /// The paths that the search is drilled down to.
    pub drill: Drill,
    /// Whether a drilled dimension is counted as if it were not drilled.
    pub sideways: bool,
    /// The counts that it asks for.
    pub asks: Vec<Ask>,
    /// Whether hits are listed from the last document on.
    pub newest: bool,
    /// Whether each listed hit is shown with its text and labels.
    pub show: bool,
    /// The first hit to list, counted from 0.
    pub from: u32,
    /// How many hits to list, at most.
    pub hits: u32,
}

/// The parts of a search that take no memory.
#[derive(Clone, Copy)]
pub(crate) struct SearchSettings {
    /// Whether a drilled dimension is counted as if it were not drilled.
    pub sideways: bool,
    /// Whether hits are listed from the last document on.
    pub newest: bool,
    /// Whether each listed hit is shown with its text and labels.
    pub show: bool,
    /// The first hit to list, counted from 0.
    pub from: u32,
    /// How many hits to list, at most.
    pub hits: u32,
}

/// A dimension with numbers, and the documents over which they are counted or added up.
#[derive(Debug, Drop)]
pub struct CountedLine {
    /// Which documents match.
    pub query: Query,
    /// The paths that the documents are drilled down to.
    pub drill: Drill,
    /// The dimension, a text of 1 to 1,024 bytes.
    pub dim: Word,
}

pub(crate) fn new_document(
    alloc: Global,
    id: &str,
    text: &str,
    facets: Vec<Path>,
) -> Result<Document, NoMemory>
    requires id { IsTrue (is_within 1 256 (length id.now)) }
    requires text { length text.now ≤ 65536 }
    requires facets { length facets.items ≤ 256 }
    ensures { IfOk result (λ doc. doc ≡ record { id = id.now; text = text.now; labels = facets.items }) }
{
    match Document::new(alloc, id, text, facets) {
        Ok(doc) => Ok(doc),
        Err(DocShape::NoMemory) => Err(NoMemory),
        // Its shape was tested.
        Err(
            DocShape::BadId { .. } | DocShape::TextTooLong { .. } | DocShape::TooManyFacets { .. },
        ) => unreachable!(),
    }
}

/// Reads the document of an add, or returns `None` if the object does not have the form of one.
///
/// Errors: out of memory.
#[tactic(auto, unfolding(crate::specs::CommandLines::added_of))]
pub fn added_in(alloc: Global, value: &Value) -> Result<Option<Document>, NoMemory>
    ensures { IfOk result (λ o. o ≡ added_of (view value.now)) }
{
    let Some(id) = value.get("id").and_then(|found| text_in(found, 1, 256)) else {
        return Ok(None);
    };
    let Some(text) = value
        .get("text")
        .map_or(Some(""), |found| text_in(found, 0, 65_536))
    else {
        return Ok(None);
    };
    let Some(facets) = list_or::<Path>(alloc, value, "facets", 256)? else {
        return Ok(None);
    };
    if keys_among(value, &["cmd", "s", "id", "text", "facets"]) {
        let doc = new_document(alloc, id, text, facets)?;
        Ok(Some(doc))
    } else {
        Ok(None)
    }
}

fn query_at(alloc: Global, value: &Value) -> Result<Option<Query>, NoMemory>
    ensures { IfOk result (λ o. option_map query_view o ≡ key_or (codes "query") all query_of (view value.now)) }
{
    match value.get("query") {
        Some(found) => Query::read(alloc, found),
        None => Ok(Some(Query::All)),
    }
}

fn drill_at(alloc: Global, value: &Value) -> Result<Option<Drill>, NoMemory>
    ensures { IfOk result (λ o. o ≡ key_or (codes "drill") [] (list_within 0 256 path) (view value.now)) }
{
    match list_or::<Path>(alloc, value, "drill", 256)? {
        Some(paths) => Ok(Some(Drill::new(alloc, paths)?)),
        None => Ok(None),
    }
}

fn most_hits(show: bool) -> u64
    ensures most { result ≡ most show }
    ensures enough { 10 ≤ result }
    ensures few { result ≤ 1000000 }
{
    if show { 1_000 } else { 1_000_000 }
}

#[tactic(auto, unfolding(crate::specs::SearchParts::search_settings))]
fn settings_in(value: &Value) -> Option<SearchSettings>
    ensures { result ≡ search_settings (view value.now) }
{
    let sideways = flag_at(value, "sideways")?;
    let newest = flag_at(value, "newest")?;
    let show = flag_at(value, "show")?;
    let from = whole_or(value, "from", 0, 0, 1_000_000)?;
    let hits = whole_or(value, "hits", 10, 0, most_hits(show))?;
    Some(SearchSettings {
        sideways,
        newest,
        show,
        from: from as u32,
        hits: hits as u32,
    })
}

// A search by its parts that take memory, given those that do not.
#[tactic(auto, unfolding(crate::specs::SearchParts::settled_search))]
fn parts_in(
    alloc: Global,
    value: &Value,
    settings: SearchSettings,
) -> Result<Option<SearchLine>, NoMemory>
    ensures { IfOk result (λ o. option_map search_view o ≡ settled_search settings (view value.now)) }
{
    let Some(query) = query_at(alloc, value)? else {
        return Ok(None);
    };
    let Some(drill) = drill_at(alloc, value)? else {
        return Ok(None);
    };
    let Some(asks) = list_or::<Ask>(alloc, value, "ask", 64)? else {
        return Ok(None);
    };
    Ok(Some(SearchLine {
        query,
        drill,
        sideways: settings.sideways,
        asks,
        newest: settings.newest,
        show: settings.show,
        from: settings.from,
        hits: settings.hits,
    }))
}

/// Reads a search, or returns `None` if the object does not have the form of one or has keys that are not in `keys`.
///
/// Errors: out of memory.
pub fn searched_in(
    alloc: Global,
    value: &Value,
    keys: &[&str],
) -> Result<Option<SearchLine>, NoMemory>
    ensures { IfOk result (λ o. option_map search_view o ≡ search_with (map (λ k. k.now) keys.now) (view value.now)) }
{
    if !keys_among(value, keys) {
        return Ok(None);
    }
    match settings_in(value) {
        Some(settings) => parts_in(alloc, value, settings),
        None => Ok(None),
    }
}

fn dim_in(alloc: Global, value: &Value) -> Result<Option<Word>, NoMemory>
    ensures { IfOk result (λ o. o ≡ text_within 1 1024 (view value.now)) }
{
    let Some(text) = text_in(value, 1, 1024) else {
        return Ok(None);
    };
    Word::new(alloc, text)
}

fn dim_at(alloc: Global, value: &Value) -> Result<Option<Word>, NoMemory>
    ensures { IfOk result (λ o. o ≡ key (codes "dim") (text_within 1 1024) (view value.now)) }
{
    match value.get("dim") {
        Some(found) => dim_in(alloc, found),
        None => Ok(None),
    }
}

/// Reads the dimension of `ranges` or `sums` and the documents over which they count, or returns `None` if the object
/// does not have the form of these or has keys that are not in `keys`.
///
/// Errors: out of memory.
#[tactic(auto, unfolding(crate::specs::CommandLines::counted_with))]
pub fn counted_in(
    alloc: Global,
    value: &Value,
    keys: &[&str],
) -> Result<Option<CountedLine>, NoMemory>
    ensures { IfOk result (λ o. option_map counted_view o ≡ counted_with (map (λ k. k.now) keys.now) (view value.now)) }
{
    let Some(query) = query_at(alloc, value)? else {
        return Ok(None);
    };
    let Some(drill) = drill_at(alloc, value)? else {
        return Ok(None);
    };
    let Some(dim) = dim_at(alloc, value)? else {
        return Ok(None);
    };
    if keys_among(value, keys) {
        Ok(Some(CountedLine { query, drill, dim }))
    } else {
        Ok(None)
    }
}

/// Returns the place that a `document` asks for, or `None` if it is not a number of 32 bits or the object has keys that
/// are not in `keys`.
#[tactic(auto, unfolding(crate::specs::CommandLines::place_with))]
pub fn place_in(value: &Value, keys: &[&str]) -> Option<u32>
    ensures { result ≡ place_with (map (λ k. k.now) keys.now) (view value.now) }
{
    let at = value.get("at").and_then(index_in)?;
    if keys_among(value, keys) {
        Some(at)
    } else {
        None
    }
}

/// Returns a command that has no further keys, or `None` if the object has some.
#[tactic(auto, unfolding(crate::specs::CommandLines::plain_of))]
pub fn plain_in<C: Drop>(value: &Value, command: C) -> Option<C>
    ensures { result ≡ plain_of command (view value.now) }
{
    if keys_among(value, &["cmd", "s"]) {
        Some(command)
    } else {
        None
    }
}

/// Returns the number of the session, whether it is valid or not, and the name of the command; or `None` if one of them
/// is missing or has another type.
#[tactic(auto, unfolding(crate::specs::CommandLines::heading_of))]
pub fn heading_in<'a>(value: &'a Value) -> Option<(u64, &'a str)>
    ensures { option_map (λ h. (h.0, h.1.now)) result ≡ heading_of (view value.now) }
{
    let session = value.get("s").and_then(Value::as_u64)?;
    let name = value.get("cmd").and_then(Value::as_str)?;
    Some((session, name))
}
