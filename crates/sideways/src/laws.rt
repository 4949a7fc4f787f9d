//! A search as it is defined, in the simplest way. It has the contract of [`DrillPlan`](crate::DrillPlan), which is
//! faster; tests compare the two.
ghost use Rattle.std.specs.Prelude.{◌≡◌, ◌≤◌, ◌&&◌, ℕ, List, Some, None, IfOk, IfErr, length, map};
ghost use Rattle.std.specs.List.{AllByRecursion, list_any};
ghost use Rattle.std.specs.Str.{bytes_eq};
ghost use Rattle.facet_model.specs.AskViews.{ask_view};
ghost use Rattle.facet_model.specs.Documents.{Doc};
ghost use Rattle.facet_model.specs.QueryViews.{query_view};
ghost use Rattle.facet_model.specs.Stored.{Decodes};
ghost use Rattle.facet_names.specs.Labels.{IsLabelList};
ghost use Rattle.query_eval.specs.Segments.{HasTermsOf};
ghost use Rattle.seg_drill.specs.Passing.{passes_all};
ghost use Rattle.sideways.specs.Counted.{is_drilled};
ghost use Rattle.facet_names.specs.Texts.{text_in};
ghost use Rattle.sideways.specs.Kept.{AreCountsOf, IsPassOf};
ghost use Rattle.sideways.specs.Refusals.{first_refused};
ghost use Rattle.sideways.specs.Searches.{question_of, records_of, search_of};
ghost use Rattle.sideways.specs.declared.ask.AskRefused.{AskRefused};
ghost use Rattle.sideways.specs.declared.ask.AskRefused.TheVariants.{NoMemory as Memory};

use crate::answer::SidewaysAnswer;
use crate::ask::{AskRefused, SearchAsk, first_refusal};
use crate::part::Part;
use crate::pass::{Found, Hits, LiftedCounts, Pass};
use crate::plan::limit_of;
use facet_config::FacetsConfig;
use facet_counts::Counts;
use facet_names::NoMemory;
use seg_drill::is_first;
use seg_file::Segment;
use std::alloc::Global;
use std::sync::Arc;
use taxo_list::TaxoView;

// Returns the pass over the documents that match the query and all dimensions of the drill except the lifted one.
fn pass_over<'a>(
    alloc: Global,
    view: &'a TaxoView,
    config: &'a FacetsConfig,
    segments: &'a [Arc<Segment>],
    ask: &SearchAsk,
    lifted: Option<&str>,
) -> Result<Pass<'a>, NoMemory>
    requires { AllByRecursion (λ s. (docs : List Doc) × HasTermsOf s docs) (records_of segments.now) }
    ensures pass { IfOk result (λ p. IsPassOf (question_of view.now config.now segments.now ask.now)
        (passes_all (query_view ask.now.query) ask.now.drill (text_in lifted.entry)) (records_of segments.now) p) }
    ensures list { IfOk result (λ p. IsLabelList p.counter.labels) }
{
    let mut pass = Pass::new(alloc, view, config, segments.len())?;
    for segment in segments {
        let part = Part::new(alloc, segment, &ask.query, &ask.drill, lifted)?;
        pass.add(part)?;
    }
    Ok(pass)
}

// Returns the counts of a drilled dimension, over the documents that match the query and all other drilled dimensions.
fn counts_over<'a>(
    alloc: Global,
    view: &'a TaxoView,
    config: &'a FacetsConfig,
    segments: &'a [Arc<Segment>],
    ask: &SearchAsk,
    dim: &str,
) -> Result<Counts<'a>, NoMemory>
    requires { (docs : List Doc) × Decodes view.now config.now (records_of segments.now) docs
        × (length docs ≤ 1000000) }
    ensures { IfOk result (λ k. AreCountsOf (question_of view.now config.now segments.now ask.now) (Some dim.now) k) }
{
    let pass = pass_over(alloc, view, config, segments, ask, Some(dim))?;
    let Hits { counter, .. } = pass.count_hits(0, Vec::new(alloc));
    Ok(counter.roll_up())
}

// Returns the counts of each drilled dimension.
fn each_count<'a>(
    alloc: Global,
    view: &'a TaxoView,
    config: &'a FacetsConfig,
    segments: &'a [Arc<Segment>],
    ask: &'a SearchAsk,
) -> Result<Vec<LiftedCounts<'a>>, NoMemory>
    requires { (docs : List Doc) × Decodes view.now config.now (records_of segments.now) docs
        × (length docs ≤ 1000000) }
    ensures each { IfOk result (λ v. AllByRecursion (λ l. AreCountsOf
        (question_of view.now config.now segments.now ask.now) (Some l.dim.now) l.counts)
        v.items) }
    ensures covers { IfOk result (λ v. (dim : List ℕ) → list_any (λ l. bytes_eq l.dim.now dim) v.items
        ≡ (ask.now.sideways && is_drilled ask.now.drill dim)) }
{
    let mut counted = Vec::new(alloc);
    if !ask.sideways {
        return Ok(counted);
    }
    let drill = ask.drill.paths();
    for (at, path) in drill.iter().enumerate() {
        if is_first(drill, at, None) {
            let dim = path.dim();
            let counts = counts_over(alloc, view, config, segments, ask, dim)?;
            counted.push(LiftedCounts { dim, counts })?;
        }
    }
    Ok(counted)
}

/// Searches as the definition does: one filtered pass for the hits, and, if the search is sideways, one more for each
/// drilled dimension, which counts all documents that match the other dimensions. The answer is that of
/// [`DrillPlan`](crate::DrillPlan). It takes up to as many times longer as there are drilled dimensions.
///
/// Errors: the first ask that is rejected, before anything is allocated; out of memory.
pub fn plain<'a>(
    alloc: Global,
    view: &'a TaxoView,
    config: &'a FacetsConfig,
    segments: &'a [Arc<Segment>],
    ask: &'a SearchAsk,
) -> Result<SidewaysAnswer<'a>, AskRefused>
    requires { (docs : List Doc) × Decodes view.now config.now (records_of segments.now) docs
        × (length docs ≤ 1000000) }
    ensures answer { IfOk result (λ a. a ≡ search_of view.now config.now segments.now ask.now) }
    ensures refused { (r : AskRefused) → first_refused config.now (map ask_view ask.now.asks.items) ≡ Some r
        → result ≡ Err r }
    ensures memory { first_refused config.now (map ask_view ask.now.asks.items) ≡ None
        → IfErr result (λ e. e ≡ Memory) }
{
    if let Some(refused) = first_refusal(config, &ask.asks) {
        return Err(refused);
    }
    match plain_answer(alloc, view, config, segments, ask) {
        Ok(answer) => Ok(answer),
        Err(_) => Err(AskRefused::NoMemory),
    }
}

// Returns the answer to a search whose asks are all accepted.
fn plain_answer<'a>(
    alloc: Global,
    view: &'a TaxoView,
    config: &'a FacetsConfig,
    segments: &'a [Arc<Segment>],
    ask: &'a SearchAsk,
) -> Result<SidewaysAnswer<'a>, NoMemory>
    requires docs { (docs : List Doc) × Decodes view.now config.now (records_of segments.now) docs
        × (length docs ≤ 1000000) }
    requires fit { first_refused config.now (map ask_view ask.now.asks.items) ≡ None }
    ensures { IfOk result (λ a. a ≡ search_of view.now config.now segments.now ask.now) }
{
    let limit = limit_of(ask);
    let places = Vec::with_capacity(alloc, limit as usize)?;
    let pass = pass_over(alloc, view, config, segments, ask, None)?;
    let lifted = each_count(alloc, view, config, segments, ask)?;
    let Hits {
        counter,
        number,
        places,
    } = pass.count_hits(limit, places);
    let found = Found {
        counts: counter.roll_up(),
        number,
        places,
    };
    Ok(SidewaysAnswer {
        view,
        config,
        segments,
        ask,
        found,
        lifted,
    })
}
