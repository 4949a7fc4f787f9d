ghost use Rattle.std.specs.Prelude.{◌≡◌, ◌≢◌, ◌<◌, List, None, Some, Err, All, IfOk, if◌then◌else◌, length, map};
ghost use Rattle.std.specs.Prelude.{option_map};
ghost use Rattle.std.specs.Arc.{arc_value};
ghost use Rattle.std.specs.List.{AllZip};
ghost use Rattle.facet_names.specs.Labels.{IsLabelList};
ghost use Rattle.facet_model.specs.Documents.{Doc};
ghost use Rattle.facet_model.specs.ResultViews.{answer_view};
ghost use Rattle.facet_model.specs.Results.{IsAnswer};
ghost use Rattle.facet_replies.specs.ReplyViews.{content_view, hit_view};
ghost use Rattle.facet_words.specs.Answers.{content_of, first_hits, hit_of};
ghost use Rattle.seg_documents.specs.Decoding.{doc_in, docs_in, record_at};
ghost use Rattle.seg_grammar.specs.Lookups.{record_of};
ghost use Rattle.sideways.specs.Questions.{HasDocs, docs_of};
ghost use Rattle.sideways.specs.Searches.{question};
ghost use Rattle.sideways.specs.declared.ask.AskRefused.TheVariants.{NoMemory as Memory};
ghost use Rattle.facet_output.specs.Replies.{found as found_reply, refused as refused_reply};
ghost use Rattle.facet_output.specs.Replying.{IsFound};
ghost use Rattle.pair_manager.specs.Kept.{IsPair};
ghost use Rattle.pair_search.specs.Replies.{found_view, search_reply};
ghost use Rattle.pair_search.specs.Searches.{IsFoundIn, IsShowable, refusal_as, search_view};
ghost use Rattle.pair_search.specs.declared.searching.SearchFault.TheVariants.{NoMemory as NoRoom};

use crate::showing::find;
use facet_config::FacetsConfig;
use facet_model::{FacetAnswer, Word, dup_paths};
use facet_names::NoMemory;
use facet_replies::{Content, HitLine};
use pair_manager::Pair;
use seg_decoding::{document_of, ordinals_of};
use seg_file::Segment;
use sideways::{AskRefused, DrillPlan, SearchAsk, SidewaysAnswer};
use std::alloc::Global;
use std::sync::Arc;
use taxo_list::TaxoView;

/// The result of a search.
#[derive(Debug, Drop)]
pub struct SearchAnswer {
    /// How many operations the documents come from.
    pub operations: u64,
    /// How many documents the search found.
    pub hit_count: u64,
    /// Those of them that the search lists, in the order in which it lists them.
    pub hits: Vec<HitLine>,
    /// The answer to each ask, in order.
    pub answers: Vec<FacetAnswer>,
}

/// Why a search is rejected.
#[derive(Drop, Clone, Copy, Debug, PartialEq, Eq)]
pub enum SearchFault {
    /// The session holds no pair under the name.
    NotHeld,
    /// The ask at this place, from 0, asks for the top 0 children.
    TopZero { ask: u64 },
    /// The ask at this place, from 0, asks for the value of a whole dimension, and the config does not keep it.
    DimValueNotKept { ask: u64 },
    /// Out of memory.
    NoMemory,
}

fn fault_of(refused: AskRefused) -> SearchFault
    ensures reply { search_reply (Err result) ≡ refused_reply (refusal_as refused) }
    ensures memory { refused ≡ Memory → result ≡ NoRoom }
{
    match refused {
        AskRefused::TopZero { ask } => SearchFault::TopZero { ask },
        AskRefused::DimValueNotKept { ask } => SearchFault::DimValueNotKept { ask },
        AskRefused::NoMemory => SearchFault::NoMemory,
    }
}

// Returns the answers to the first `asks` asks, in order.
fn answers(
    alloc: Global,
    answer: &SidewaysAnswer<'_>,
    asks: usize,
) -> Result<Vec<FacetAnswer>, NoMemory>
    requires { asks ≡ length answer.now.ask.asks.items }
    ensures { IfOk result (λ v. (docs : List Doc) → HasDocs (question answer.now) docs
        → AllZip (IsAnswer answer.now.config docs (docs_of (question answer.now) docs)) (question answer.now).asks
        (map answer_view v.items)) }
{
    let mut found = Vec::with_capacity(alloc, asks)?;
    for at in 0..asks {
        let one = answer.answer(alloc, at)?;
        found.push(one)?;
    }
    Ok(found)
}

// Copies the text and the labels of a segment's document at a place, if they are to be shown.
fn content_at(
    alloc: Global,
    view: &TaxoView,
    segment: &Segment,
    place: u32,
    show: bool,
) -> Result<Option<Content>, NoMemory>
    requires place { place < length segment.now.records }
    requires leaves { All (λ ord. (0 < ord) × (ord < length view.now)) (record_of segment.now place).leaves }
    ensures { IfOk result (λ c. option_map content_view c
        ≡ (if show then Some (content_of (doc_in view.now (record_of segment.now place))) else None)) }
{
    if !show {
        return Ok(None);
    }
    let ordinals = ordinals_of(alloc, segment.leaves(place))?;
    let doc = document_of(alloc, view, segment, place, &ordinals)?;
    let text = String::from_str(alloc, doc.text())?;
    let labels = dup_paths(alloc, doc.facets())?;
    Ok(Some(Content { text, labels }))
}

// Returns the hit at a place, with its document's content if it is to be shown.
fn hit_line(
    alloc: Global,
    view: &TaxoView,
    segments: &[Arc<Segment>],
    show: bool,
    at: u32,
) -> Result<HitLine, NoMemory>
    requires { IsShowable view.now (map arc_value segments.now) at }
    ensures { IfOk result (λ h. hit_view h
        ≡ hit_of show (at, doc_in view.now (record_at (map arc_value segments.now) at))) }
{
    match find(segments, at as usize) {
        Some((segment, place)) => {
            let id = Word::new(alloc, segment.id(place))?.unwrap();
            let content = content_at(alloc, view, segment, place, show)?;
            Ok(HitLine { at, id, content })
        }
        None => unreachable!(),
    }
}

// Returns the hits at these places, each with its document's content if it is to be shown.
fn hit_lines(
    alloc: Global,
    view: &TaxoView,
    segments: &[Arc<Segment>],
    show: bool,
    places: &[u32],
) -> Result<Vec<HitLine>, NoMemory>
    requires { All (IsShowable view.now (map arc_value segments.now)) places.now }
    ensures { IfOk result (λ v. map hit_view v.items
        ≡ map (λ at. hit_of show (at, doc_in view.now (record_at (map arc_value segments.now) at))) places.now) }
{
    let mut lines = Vec::with_capacity(alloc, places.len())?;
    for place in places {
        let line = hit_line(alloc, view, segments, show, *place)?;
        lines.push(line)?;
    }
    Ok(lines)
}

// Returns the hits that the ask lists.
fn listed(
    alloc: Global,
    view: &TaxoView,
    segments: &[Arc<Segment>],
    ask: &SearchAsk,
    answer: &SidewaysAnswer<'_>,
) -> Result<Vec<HitLine>, NoMemory>
    requires ask { answer.now.ask ≡ ask.now }
    requires segments { answer.now.segments ≡ map arc_value segments.now }
    requires labels { answer.now.labels ≡ view.now }
    requires list { IsLabelList view.now }
    requires docs { HasDocs (question answer.now) (docs_in answer.now.labels answer.now.segments) }
    ensures { IfOk result (λ v. map hit_view v.items
        ≡ first_hits (docs_in answer.now.labels answer.now.segments) (search_view answer.now.ask)) }
{
    if ask.newest {
        let places = answer.last_hits(alloc)?;
        return hit_lines(alloc, view, segments, ask.show, &places);
    }
    hit_lines(alloc, view, segments, ask.show, answer.hits())
}

// Returns what a search found in segments whose documents come from `operations` operations.
fn found(
    alloc: Global,
    view: &TaxoView,
    segments: &[Arc<Segment>],
    operations: u64,
    ask: &SearchAsk,
    answer: &SidewaysAnswer<'_>,
) -> Result<SearchAnswer, NoMemory>
    requires ask { answer.now.ask ≡ ask.now }
    requires segments { answer.now.segments ≡ map arc_value segments.now }
    requires labels { answer.now.labels ≡ view.now }
    requires list { IsLabelList view.now }
    requires docs { HasDocs (question answer.now) (docs_in answer.now.labels answer.now.segments) }
    ensures { IfOk result (λ a. IsFound answer.now.config (search_view answer.now.ask) None operations
        (docs_in answer.now.labels answer.now.segments) (found_reply (found_view a))) }
{
    let answers = answers(alloc, answer, ask.asks.len())?;
    let hits = listed(alloc, view, segments, ask, answer)?;
    Ok(SearchAnswer {
        operations,
        hit_count: answer.hit_count(),
        hits,
        answers,
    })
}

// Searches the documents of a pair that has these segments.
fn search_in(
    alloc: Global,
    pair: &Pair,
    segments: &[Arc<Segment>],
    config: &FacetsConfig,
    ask: &SearchAsk,
) -> Result<SearchAnswer, SearchFault>
    requires config { config.now ≡ pair.now.config }
    requires segments { map arc_value segments.now ≡ pair.now.segments }
    requires is { IsPair pair.now }
    ensures found { result ≢ Err NoRoom → IsFoundIn pair.now (search_view ask.now) (search_reply result) }
{
    let plan = match DrillPlan::new(alloc, pair.view(), config, segments, ask) {
        Ok(plan) => plan,
        Err(refused) => return Err(fault_of(refused)),
    };
    let answer = plan.run();
    match found(
        alloc,
        pair.view(),
        segments,
        pair.operations(),
        ask,
        &answer,
    ) {
        Ok(found) => Ok(found),
        Err(NoMemory) => Err(SearchFault::NoMemory),
    }
}

/// Searches the documents of a pair. It takes no lock.
///
/// Costs: those of `sideways::DrillPlan`; if hits are listed from the last document on, those of
/// `SidewaysAnswer::last_hits`; for each listed hit a visit of the segments before it and a copy of its id, and if it is
/// shown, of the document and of its text and labels; and eight bytes per segment if there are 256 segments or more.
///
/// Errors: the first ask that is rejected, before anything is allocated for the search; out of memory.
pub fn search_pair(
    alloc: Global,
    pair: &Pair,
    config: &FacetsConfig,
    ask: &SearchAsk,
) -> Result<SearchAnswer, SearchFault>
    requires config { config.now ≡ pair.now.config }
    ensures found { result ≢ Err NoRoom → IsFoundIn pair.now (search_view ask.now) (search_reply result) }
{
    let segments = pair.segments();
    if let Some(few) = segments.as_slice() {
        return search_in(alloc, pair, few, config, ask);
    }
    match segments.to_vec() {
        Ok(all) => search_in(alloc, pair, &all, config, ask),
        Err(_) => Err(SearchFault::NoMemory),
    }
}
