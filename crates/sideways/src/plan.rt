ghost use Rattle.std.specs.Prelude.{◌≡◌, ◌≤◌, ◌+◌, ◌&&◌, ℕ, [], List, Some, None, IfOk, IfErr, OnOk, length, map, min};
ghost use Rattle.std.specs.Vec.{vec_capacity};
ghost use Rattle.std.specs.List.{AllByRecursion, AllZip, list_any};
ghost use Rattle.std.specs.Str.{bytes_eq};
ghost use Rattle.facet_model.specs.AskViews.{ask_view};
ghost use Rattle.facet_model.specs.Documents.{Doc, dim_of};
ghost use Rattle.facet_model.specs.QueryViews.{query_view};
ghost use Rattle.facet_model.specs.Stored.{Decodes};
ghost use Rattle.query_eval.specs.Segments.{HasTermsOf};
ghost use Rattle.seg_drill.specs.Passing.{passes_all};
ghost use Rattle.sideways.specs.Counted.{HasRoomFor, IsReady, is_drilled};
ghost use Rattle.sideways.specs.Kept.{AreCountsOf, AreDistinct, AreHitsIn, HasNears, HasParts, IsLiftedOf, dim_in};
ghost use Rattle.sideways.specs.Questions.{Question};
ghost use Rattle.sideways.specs.Refusals.{first_refused};
ghost use Rattle.sideways.specs.Searches.{question_of, records_of, search_of, wanted};
ghost use Rattle.sideways.specs.declared.ask.AskRefused.{AskRefused};
ghost use Rattle.sideways.specs.declared.ask.AskRefused.TheVariants.{NoMemory as Memory};

use crate::answer::SidewaysAnswer;
use crate::ask::{AskRefused, SearchAsk, first_refusal};
use crate::near::add_segment;
use crate::pass::{Found, Hits, LiftedCounts, LiftedPass, Pass, push_within};
use facet_config::FacetsConfig;
use facet_counts::Counter;
use facet_names::NoMemory;
use seg_drill::is_first;
use seg_file::Segment;
use std::alloc::Global;
use std::marker::Model;
use std::sync::Arc;
use taxo_list::{Labelled, TaxoView};

/// A search that is ready to run, with all memory that counting needs: one pass for the hits and, if the search is
/// sideways, one more for each drilled dimension.
///
/// Memory: for each pass, 4 bytes per label of the view. For each pass and segment, a plan; or, if the conditions match
/// many documents, a set of one bit per record. While the sets of a segment are made, one bit per record twice more.
/// For each hit that is passed or listed, 4 bytes, unless hits are listed from the last document on.
#[derive(Drop)]
pub struct DrillPlan<'a> {
    view: &'a TaxoView,
    config: &'a FacetsConfig,
    segments: &'a [Arc<Segment>],
    ask: &'a SearchAsk,
    hits: Pass<'a>,
    lifted: Vec<LiftedPass<'a>>,
    // capacity for what the passes find
    places: Vec<u32>,
    counted: Vec<LiftedCounts<'a>>,
}

impl<'a> Model for DrillPlan<'a> {
    ghost use Rattle.sideways.specs.Kept.{HasRoom, IsPlan};
    ghost use Rattle.sideways.specs.Searches.{Search, question_of, search_of, wanted};
    ghost use Rattle.sideways.specs.contracts.ask.SearchAsk as e;
    ghost use Rattle.std.specs.Coded.{codes};

    ghost Value = { Search };

    ghost coded = { Prim.hlevel (codes, e.the_row.coded) };

    ghost view = { λ p. search_of p.view.now p.config.now p.segments.now p.ask.now };

    ghost invariant = { λ p. IsPlan (question_of p.view.now p.config.now p.segments.now p.ask.now) p.hits p.lifted.items
        × HasRoom (wanted p.ask.now) p.lifted.items p.places p.counted };
}

/// Returns how many hits are passed and listed, at most: no more than 1,000,000, the greatest number of documents.
pub(crate) fn reach_of(ask: &SearchAsk) -> u32
    ensures { result ≡ min (ask.now.from + ask.now.hits) 1000000 }
{
    ask.from.saturating_add(ask.hits).min(1_000_000)
}

/// Returns how many places of hits are kept with the counts: those that are passed and listed, or none if hits are
/// listed from the last document on.
pub(crate) fn limit_of(ask: &SearchAsk) -> u32
    ensures { result ≡ min (wanted ask.now) 1000000 }
{
    if ask.newest { 0 } else { reach_of(ask) }
}

// Returns a pass without a part for each dimension of the drill.
fn lifted_passes<'a>(
    alloc: Global,
    view: &'a TaxoView,
    config: &'a FacetsConfig,
    segments: &'a [Arc<Segment>],
    ask: &'a SearchAsk,
) -> Result<Vec<LiftedPass<'a>>, NoMemory>
    ensures each { IfOk result (λ v. AllByRecursion (λ l. IsLiftedOf
        (question_of view.now config.now segments.now ask.now) [] l) v.items) }
    ensures covers { IfOk result (λ v. (dim : List ℕ) → list_any (λ l. bytes_eq l.dim.now dim) v.items
        ≡ (ask.now.sideways && list_any (λ path. bytes_eq (dim_of path) dim) ask.now.drill)) }
    ensures distinct { IfOk result (λ v. AreDistinct (map dim_in v.items)) }
{
    let mut lifted = Vec::new(alloc);
    if !ask.sideways {
        return Ok(lifted);
    }
    let drill = ask.drill.paths();
    for (at, path) in drill.iter().enumerate() {
        if is_first(drill, at, None) {
            let dim = path.dim();
            let pass = Pass::new(alloc, view, config, segments.len())?;
            lifted.push(LiftedPass { dim, pass })?;
        }
    }
    Ok(lifted)
}

// Adds the parts of each segment to the passes.
fn add_segments<'a>(
    alloc: Global,
    segments: &'a [Arc<Segment>],
    ask: &SearchAsk,
    hits: &mut Pass<'a>,
    lifted: &mut Vec<LiftedPass<'a>>,
) -> Result<(), NoMemory>
    requires has { AllByRecursion (λ s. (docs : List Doc) × HasTermsOf s docs) (records_of segments.now) }
    requires covers { (dim : List ℕ) → list_any (λ l. bytes_eq l.dim.now dim) lifted.old.items
        ≡ (ask.now.sideways && is_drilled ask.now.drill dim) }
    requires distinct { AreDistinct (map dim_in lifted.old.items) }
    ensures hits { OnOk result (HasParts (passes_all (query_view ask.now.query) ask.now.drill None)
        (records_of segments.now) hits.old hits.new) }
    ensures lifted { OnOk result (AllZip (HasNears (query_view ask.now.query) ask.now.drill
        (records_of segments.now)) lifted.old.items lifted.new.items) }
{
    for segment in segments {
        add_segment(alloc, segment, &ask.query, &ask.drill, hits, lifted)?;
    }
    Ok(())
}

// Runs the passes of the dimensions. Each dimension is counted over its near misses and the hits.
fn count_lifted<'a>(
    lifted: Vec<LiftedPass<'a>>,
    counted: Vec<LiftedCounts<'a>>,
    hits: &Counter<'_>,
) -> Vec<LiftedCounts<'a>>
    requires none { counted.items ≡ [] }
    requires capacity { length lifted.items ≤ vec_capacity counted }
    requires ready { AllByRecursion (λ l. IsReady l.pass.parts.items l.pass.counter) lifted.items }
    requires room { AllByRecursion (λ l. HasRoomFor l.pass.parts.items l.pass.counter hits.now) lifted.items }
    ensures each { (q : Question) → AreHitsIn q hits.now
        → AllByRecursion (λ l. IsLiftedOf q q.segments l) lifted.entry.items
        → AllByRecursion (λ l. AreCountsOf q (Some l.dim.now) l.counts) result.items }
    ensures covers { (dim : List ℕ) → list_any (λ l. bytes_eq l.dim.now dim) result.items
        ≡ list_any (λ l. bytes_eq l.dim.now dim) lifted.entry.items }
{
    let mut lifted = lifted;
    let mut counted = counted;
    while let Some(one) = lifted.pop() {
        let LiftedPass { dim, pass } = one;
        let counts = pass.count(hits);
        push_within(&mut counted, LiftedCounts { dim, counts });
    }
    counted
}

impl<'a> DrillPlan<'a> {
    /// Prepares a search: looks up its terms and paths in each segment, and allocates all that [`run`](DrillPlan::run)
    /// needs.
    ///
    /// Errors: the first ask that is rejected, before anything is allocated; out of memory.
    pub fn new(
        alloc: Global,
        view: &'a TaxoView,
        config: &'a FacetsConfig,
        segments: &'a [Arc<Segment>],
        ask: &'a SearchAsk,
    ) -> Result<DrillPlan<'a>, AskRefused>
        requires { (docs : List Doc) × Decodes view.now config.now (records_of segments.now) docs
            × (length docs ≤ 1000000) }
        ensures plan { IfOk result (λ p. p ≡ search_of view.now config.now segments.now ask.now) }
        ensures refused { (r : AskRefused) → first_refused config.now (map ask_view ask.now.asks.items) ≡ Some r
            → result ≡ Err r }
        ensures memory { first_refused config.now (map ask_view ask.now.asks.items) ≡ None
            → IfErr result (λ e. e ≡ Memory) }
    {
        if let Some(refused) = first_refusal(config, &ask.asks) {
            return Err(refused);
        }
        match DrillPlan::fit(alloc, view, config, segments, ask) {
            Ok(plan) => Ok(plan),
            Err(_) => Err(AskRefused::NoMemory),
        }
    }

    // Returns the plan of a search whose asks are all accepted.
    fn fit(
        alloc: Global,
        view: &'a TaxoView,
        config: &'a FacetsConfig,
        segments: &'a [Arc<Segment>],
        ask: &'a SearchAsk,
    ) -> Result<DrillPlan<'a>, NoMemory>
        requires docs { (docs : List Doc) × Decodes view.now config.now (records_of segments.now) docs
            × (length docs ≤ 1000000) }
        requires fit { first_refused config.now (map ask_view ask.now.asks.items) ≡ None }
        ensures { IfOk result (λ p. p ≡ search_of view.now config.now segments.now ask.now) }
    {
        let mut hits = Pass::new(alloc, view, config, segments.len())?;
        let mut lifted = lifted_passes(alloc, view, config, segments, ask)?;
        add_segments(alloc, segments, ask, &mut hits, &mut lifted)?;
        let places = Vec::with_capacity(alloc, limit_of(ask) as usize)?;
        let counted = Vec::with_capacity(alloc, lifted.len())?;
        Ok(DrillPlan {
            view,
            config,
            segments,
            ask,
            hits,
            lifted,
            places,
            counted,
        })
    }

    /// Runs the passes, each from the first segment to the last, and returns what they found. It allocates nothing and
    /// cannot fail.
    ///
    /// Costs: within a segment, many documents are counted with the columns of the segment, a word for 64 documents.
    /// Few are counted one by one: a hit once for all dimensions, a near miss once for its dimension.
    pub fn run(self) -> SidewaysAnswer<'a>
        ensures { result ≡ self.entry }
    {
        let DrillPlan {
            view,
            config,
            segments,
            ask,
            hits,
            lifted,
            places,
            counted,
        } = self;
        let Hits {
            counter,
            number,
            places,
        } = hits.count_hits(limit_of(ask), places);
        let lifted = count_lifted(lifted, counted, &counter);
        let found = Found {
            counts: counter.roll_up(),
            number,
            places,
        };
        SidewaysAnswer {
            view,
            config,
            segments,
            ask,
            found,
            lifted,
        }
    }
}
