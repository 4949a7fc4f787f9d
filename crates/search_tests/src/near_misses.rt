//! Generated searches over stored segments, a quarter of them over segments with records that are no longer live: one
//! pass for all dimensions returns what a pass for each does.
ghost use Rattle.std.specs.Prelude.{◌≡◌, ◌<◌, ◌≤◌, List, length, map};
ghost use Rattle.std.specs.Arc.{arc_value};
ghost use Rattle.facet_model.specs.Documents.{Doc};
ghost use Rattle.facet_model.specs.Stored.{Decodes};

use crate::draws::Draws;
use crate::making::{Labels, all_stored, entry};
use crate::records::records;
use crate::thinned::thinned;
use facet_config::FacetsConfig;
use facet_model::{DimFlags, Drill, Query, Word};
use facet_names::Path;
use seg_file::{Entry, Segment};
use sideways::laws::plain;
use sideways::{DrillPlan, SearchAsk, SidewaysAnswer};
use std::alloc::Global;
use std::sync::Arc;
use std::test::Fail;
use taxo_list::{Labelled, TaxoView, Taxonomy};
use test_keys::fixed_keys;

const VALUES: [&str; 4] = ["0", "1", "2", "3"];

// Draws one of the first `many` values.
fn value(draws: &mut Draws, many: u8) -> &'static str
    requires { 0 < many }
{
    VALUES[(draws.digit() % many) as usize % 4]
}

// Most documents have a label in `a`, which is hierarchical, up to two in `b`, and one in `c`.
fn labels(alloc: Global, draws: &mut Draws, list: &mut Taxonomy) -> Result<Labels, Fail> {
    let mut labels = Labels::new(alloc);
    let (first, below) = (value(draws, 3), value(draws, 3));
    labels.add(alloc, list, &["a", first, below])?;
    if draws.one_in_two() {
        let (first, second) = (draws.digit() % 2, 2 + draws.digit() % 2);
        labels.add(alloc, list, &["b", VALUES[first as usize]])?;
        labels.add(alloc, list, &["b", VALUES[second as usize]])?;
    }
    if draws.one_in_two() {
        let value = value(draws, 3);
        labels.add(alloc, list, &["c", value])?;
    }
    Ok(labels)
}

// Draws the document of a number. It has up to two words.
fn document(alloc: Global, draws: &mut Draws, list: &mut Taxonomy, at: u32) -> Result<Entry, Fail> {
    let (word, other) = (draws.digit() % 3, draws.digit() % 3);
    let labels = labels(alloc, draws, list)?;
    let id = format!(in alloc; "d{at}")?;
    let text = format!(in alloc; "w{word} w{other}")?;
    entry(alloc, &id, &text, labels)
}

fn documents(
    alloc: Global,
    draws: &mut Draws,
    list: &mut Taxonomy,
    from: u32,
    end: u32,
) -> Result<Vec<Entry>, Fail> {
    let mut entries = Vec::new(alloc);
    for at in from..end {
        entries.push(document(alloc, draws, list, at)?)?;
    }
    Ok(entries)
}

// Draws 156 documents in three segments, of 12, 12 and 132: the last is large enough that its frequent ordinals are
// counted by bits.
fn batches(alloc: Global, draws: &mut Draws, list: &mut Taxonomy) -> Result<Vec<Vec<Entry>>, Fail> {
    let mut batches = Vec::new(alloc);
    for (from, end) in [(0u32, 12u32), (12, 24), (24, 156)] {
        batches.push(documents(alloc, draws, list, from, end)?)?;
    }
    Ok(batches)
}

fn config(alloc: Global) -> Result<FacetsConfig, Fail> {
    let mut config = FacetsConfig::new(alloc, fixed_keys()?);
    let mut flags = DimFlags {
        hierarchical: true,
        multi_valued: false,
        require_dim_count: false,
    };
    config.declare("a", flags)?;
    flags.hierarchical = false;
    flags.multi_valued = true;
    config.declare("b", flags)?;
    Ok(config)
}

fn word(alloc: Global, draws: &mut Draws) -> Result<Query, Fail> {
    let number = draws.digit() % 3;
    let text = format!(in alloc; "w{number}")?;
    let word = Word::new(alloc, text.as_str())?.ok_or("no word")?;
    Ok(Query::Term(word))
}

// Draws all documents, those with a word, those with one word and not another, or those with one of two words and not a
// third.
fn query(alloc: Global, draws: &mut Draws) -> Result<Query, Fail> {
    match draws.digit() % 4 {
        0 => Ok(Query::All),
        1 => word(alloc, draws),
        2 => Ok(Query::Bool {
            must: vec![in alloc; word(alloc, draws)?]?,
            should: Vec::new(alloc),
            must_not: vec![in alloc; word(alloc, draws)?]?,
        }),
        _ => Ok(Query::Bool {
            must: Vec::new(alloc),
            should: vec![in alloc; word(alloc, draws)?, word(alloc, draws)?]?,
            must_not: vec![in alloc; word(alloc, draws)?]?,
        }),
    }
}

// Draws up to two paths in each of the dimensions.
fn drill(alloc: Global, draws: &mut Draws) -> Result<Drill, Fail> {
    let mut paths = Vec::new(alloc);
    for dim in ["a", "b", "c"] {
        for _ in 0..draws.digit() % 3 {
            let value = VALUES[draws.digit() as usize % 4];
            paths.push(Path::of(alloc, &[dim, value])?)?;
        }
    }
    if paths.len() > 256 {
        return Err("at most six paths".into());
    }
    Ok(Drill::new(alloc, paths)?)
}

fn ask(alloc: Global, draws: &mut Draws) -> Result<SearchAsk, Fail> {
    Ok(SearchAsk {
        query: query(alloc, draws)?,
        drill: drill(alloc, draws)?,
        asks: Vec::new(alloc),
        newest: false,
        show: false,
        from: draws.digit() as u32,
        hits: draws.digit() as u32 * 2,
        sideways: draws.one_in_two(),
    })
}

// Returns whether two answers over `labels` labels have the same hits, and the same count at each label of each
// dimension.
fn are_alike(one: &SidewaysAnswer<'_>, other: &SidewaysAnswer<'_>, labels: u32) -> bool
    requires { (labels ≡ length one.now.labels) × (labels ≡ length other.now.labels) }
{
    if one.hit_count() != other.hit_count() || one.hits() != other.hits() {
        return false;
    }
    for dim in ["a", "b", "c"] {
        for ord in 1..labels {
            if one.counts(dim).at(ord) != other.counts(dim).at(ord) {
                return false;
            }
        }
    }
    true
}

// Returns whether a search has the same answer either way.
fn is_alike(
    alloc: Global,
    view: &TaxoView,
    config: &FacetsConfig,
    segments: &[Arc<Segment>],
    ask: &SearchAsk,
) -> Result<bool, Fail>
    requires { (docs : List Doc) × Decodes view.now config.now (map arc_value segments.now) docs
        × (length docs ≤ 1000000) }
{
    let Ok(plan) = DrillPlan::new(alloc, view, config, segments, ask) else {
        return Err("a plan".into());
    };
    let Ok(other) = plain(alloc, view, config, segments, ask) else {
        return Err("passes".into());
    };
    Ok(are_alike(&plan.run(), &other, view.size()))
}

// Returns whether 25 generated searches have the same answers.
fn are_answered_alike(
    alloc: Global,
    draws: &mut Draws,
    view: &TaxoView,
    config: &FacetsConfig,
    segments: &[Arc<Segment>],
) -> Result<bool, Fail>
    requires { (docs : List Doc) × Decodes view.now config.now (map arc_value segments.now) docs
        × (length docs ≤ 1000000) }
{
    for _ in 0..25 {
        let ask = ask(alloc, draws)?;
        if !is_alike(alloc, view, config, segments, &ask)? {
            return Ok(false);
        }
    }
    Ok(true)
}

// Returns whether searches over the segments have the same answers. With `thin` about half of their records are no
// longer live.
fn is_thinned_answered_alike(
    alloc: Global,
    draws: &mut Draws,
    thin: bool,
    labels: &Taxonomy,
    config: &FacetsConfig,
    segments: &[Arc<Segment>],
) -> Result<bool, Fail>
    requires { (docs : List Doc) × Decodes labels.now config.now (map arc_value segments.now) docs }
{
    let segments = thinned(alloc, draws, segments, thin)?;
    let view = labels.view()?;
    match records(&segments) {
        Some(156) => are_answered_alike(alloc, draws, &view, config, &segments),
        _ => Ok(false),
    }
}

// Returns whether searches over a generated store have the same answers.
fn is_store_answered_alike(alloc: Global, draws: &mut Draws, thin: bool) -> Result<bool, Fail> {
    let config = config(alloc)?;
    let mut list = Taxonomy::new(alloc, fixed_keys()?)?;
    let batches = batches(alloc, draws, &mut list)?;
    let segments = all_stored(alloc, &config, &list, &batches)?;
    is_thinned_answered_alike(alloc, draws, thin, &list, &config, &segments)
}

/// Returns whether 200 generated searches over eight stores have the same answers.
pub fn are_alike_in_stores(alloc: Global) -> Result<bool, Fail> {
    let mut draws = Draws { state: 20 };
    for store in 0..8u32 {
        if !is_store_answered_alike(alloc, &mut draws, store % 4 == 3)? {
            return Ok(false);
        }
    }
    Ok(true)
}
