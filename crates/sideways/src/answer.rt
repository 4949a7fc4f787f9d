ghost use Rattle.std.specs.Prelude.{◌≡◌, ◌<◌, List, Some, None, true, IfOk, length, map, option_map, slice_get, take};
ghost use Rattle.std.specs.Prelude.{drop, false, nat_lt, reverse};
ghost use Rattle.facet_counts.specs.Dims.{AreDims};
ghost use Rattle.facet_counts.specs.Tallies.{AreCounts};
ghost use Rattle.facet_model.specs.Asks.{Asked, all_dims, ask_fault, one_value};
ghost use Rattle.facet_model.specs.CountedPaths.{places};
ghost use Rattle.facet_model.specs.Documents.{Doc, count, dim_of};
ghost use Rattle.facet_model.specs.Hits.{hits, is_hit};
ghost use Rattle.facet_model.specs.ResultViews.{answer_view, result_view};
ghost use Rattle.facet_model.specs.Results.{IsAnswer, IsTop};
ghost use Rattle.facet_names.specs.Labels.{IsLabelList};
ghost use Rattle.sideways.specs.Questions.{HasDocs, counted_of, docs_of};
ghost use Rattle.sideways.specs.Searches.{question};

use crate::ask::SearchAsk;
use crate::newest::{last_of, without_first};
use crate::pass::{Found, LiftedCounts};
use crate::plan::reach_of;
use facet_config::FacetsConfig;
use facet_counts::{Counts, child_of, note_dim, order_dims, sibling_of};
use facet_model::{Ask, FacetAnswer, FacetResult, path_term};
use facet_names::{NoMemory, Path};
use query_eval::has_path;
use seg_file::Segment;
use std::alloc::Global;
use std::marker::Model;
use std::sync::Arc;
use taxo_list::{Labelled, TaxoView};

/// The result of a search: the hits, and the counts of every dimension. It corresponds to Lucene's
/// `DrillSidewaysResult`.
/// It borrows the labels, the config, the segments and the ask, and keeps 4 bytes per label for each set of counts.
#[derive(Drop)]
pub struct SidewaysAnswer<'a> {
    pub(crate) view: &'a TaxoView,
    pub(crate) config: &'a FacetsConfig,
    pub(crate) segments: &'a [Arc<Segment>],
    pub(crate) ask: &'a SearchAsk,
    pub(crate) found: Found<'a>,
    pub(crate) lifted: Vec<LiftedCounts<'a>>,
}

impl<'a> Model for SidewaysAnswer<'a> {
    ghost use Rattle.sideways.specs.Kept.{IsAnswered};
    ghost use Rattle.sideways.specs.Searches.{Search, question_of, search_of};
    ghost use Rattle.sideways.specs.contracts.ask.SearchAsk as e;
    ghost use Rattle.std.specs.Coded.{codes};

    ghost Value = { Search };

    ghost coded = { Prim.hlevel (codes, e.the_row.coded) };

    ghost view = { λ a. search_of a.view.now a.config.now a.segments.now a.ask.now };

    ghost invariant = { λ a. IsAnswered
        (question_of a.view.now a.config.now a.segments.now a.ask.now) a.found a.lifted.items };
}

// Returns the results of all dimensions, the dimension that was added last first.
fn each_dim(
    answer: &SidewaysAnswer<'_>,
    view: &TaxoView,
    alloc: Global,
    n: u32,
) -> Result<Vec<FacetResult>, NoMemory>
    requires some { 0 < n }
    requires labels { view.now ≡ answer.now.labels }
    requires list { IsLabelList view.now }
    ensures { IfOk result (λ v. (docs : List Doc) → HasDocs (question answer.now) docs
        → AreDims (λ dim. true) answer.now.config (docs_of (question answer.now) docs) n (map result_view v.items)) }
{
    let mut results = Vec::new(alloc);
    let mut next = child_of(view, 0);
    while let Some(ord) = next {
        let top = answer.top_of(alloc, view.path_of(ord), n)?;
        note_dim(&mut results, top)?;
        next = sibling_of(view, ord);
    }
    Ok(results)
}

impl<'a> SidewaysAnswer<'a> {
    /// Returns the number of hits, which are live documents. It takes constant time and allocates nothing.
    pub fn hit_count(&self) -> u64
        ensures { (docs : List Doc) → HasDocs (question self.now) docs
            → result ≡ length (hits docs (question self.now).query (question self.now).drill) }
    {
        self.found.number
    }

    /// Returns the places of the hits that the ask lists, in order: after `from` hits, at most as many as it wants;
    /// none if it lists them from the last document on. Places number the live documents of all segments from 0. It
    /// takes constant time.
    pub fn hits(&self) -> &[u32]
        ensures { (docs : List Doc) → HasDocs (question self.now) docs → self.now.ask.newest ≡ false
            → result.now ≡ take self.now.ask.hits (drop self.now.ask.from (places
            (is_hit (question self.now).query (question self.now).drill) docs)) }
    {
        let places = self.found.places.as_slice();
        let passed = (self.ask.from as usize).min(places.len());
        &places[passed..]
    }

    /// Returns the places of the hits that the ask lists if it lists them from the last document on: after the last
    /// `from` hits, at most as many as it wants, the last one first. Places number the live documents of all segments
    /// from 0.
    ///
    /// Costs: it looks the query and the drill up again in the last segments, one after the other, until there are
    /// `from + hits` hits, and visits the hits of these segments. It visits no other segment.
    ///
    /// Memory: that of a [`Part`](crate::Part) for each of these segments in turn, and 4 bytes for each hit that is
    /// passed or listed, twice while a segment is visited. It allocates nothing if no hit is wanted.
    ///
    /// Errors: out of memory.
    pub fn last_hits(&self, alloc: Global) -> Result<Vec<u32>, NoMemory>
        ensures { IfOk result (λ v. (docs : List Doc) → HasDocs (question self.now) docs
            → v.items ≡ take self.now.ask.hits (drop self.now.ask.from (reverse (places
            (is_hit (question self.now).query (question self.now).drill) docs)))) }
    {
        if self.ask.hits == 0 {
            return Ok(Vec::new(alloc));
        }
        let limit = reach_of(self.ask) as usize;
        let last = last_of(
            alloc,
            self.segments,
            &self.ask.query,
            &self.ask.drill,
            limit,
        )?;
        Ok(without_first(last, self.ask.from))
    }

    /// Returns the counts of a dimension. If the search is sideways and the dimension is drilled, they cover the
    /// documents that match the query and all other drilled dimensions. Otherwise they cover the hits.
    ///
    /// It compares the names of the drilled dimensions one after the other, and allocates nothing.
    pub fn counts(&self, dim: &str) -> &Counts<'a>
        ensures counts { (docs : List Doc) → HasDocs (question self.now) docs
            → AreCounts result.now (counted_of (question self.now) (docs_of (question self.now) docs dim.now)) }
        ensures labels { result.now.labels ≡ self.now.labels }
        ensures config { result.now.config ≡ self.now.config }
        ensures list { IsLabelList self.now.labels }
    {
        for one in &self.lifted {
            if one.dim == dim {
                return &one.counts;
            }
        }
        &self.found.counts
    }

    // Returns whether a live document of the snapshot has the path.
    fn exists(&self, alloc: Global, path: &Path) -> Result<bool, NoMemory>
        ensures { IfOk result (λ b. (docs : List Doc) → HasDocs (question self.now) docs
            → b ≡ nat_lt 0 (count docs path.now)) }
    {
        let term = path_term(alloc, path)?;
        for segment in self.segments {
            if has_path(alloc, segment, term.as_str())? {
                return Ok(true);
            }
        }
        Ok(false)
    }

    fn value_of(&self, alloc: Global, path: &Path) -> Result<FacetAnswer, NoMemory>
        requires { ask_fault self.now.config (one_value path.now) ≡ None }
        ensures { IfOk result (λ a. (docs : List Doc) → HasDocs (question self.now) docs
            → IsAnswer self.now.config docs (docs_of (question self.now) docs) (one_value path.now) (answer_view a)) }
    {
        let exists = self.exists(alloc, path)?;
        let value = self.counts(path.dim()).specific(path, exists);
        let path = path.dup(alloc)?;
        Ok(FacetAnswer::Specific { path, value })
    }

    fn top_of(&self, alloc: Global, path: &Path, n: u32) -> Result<Option<FacetResult>, NoMemory>
        requires { 0 < n }
        ensures { IfOk result (λ r. (docs : List Doc) → HasDocs (question self.now) docs
            → IsTop self.now.config (docs_of (question self.now) docs (dim_of path.now)) path.now n
            (option_map result_view r)) }
    {
        self.counts(path.dim()).top(alloc, path, n)
    }

    fn all_dims(&self, alloc: Global, n: u32) -> Result<FacetAnswer, NoMemory>
        requires { 0 < n }
        ensures { IfOk result (λ a. (docs : List Doc) → HasDocs (question self.now) docs
            → IsAnswer self.now.config docs (docs_of (question self.now) docs) (all_dims n) (answer_view a)) }
    {
        let mut results = each_dim(self, self.view, alloc, n)?;
        order_dims(&mut results);
        Ok(FacetAnswer::AllDims(results))
    }

    /// Returns the answer to the ask at a place, from 0, by the counts of its dimension. A place past the last ask is
    /// excluded by the contract.
    ///
    /// Costs: `Top` walks over the children of its path, and `AllDims` over those of each dimension; both allocate what
    /// they list. `Specific` looks its path up in each segment.
    ///
    /// Errors: out of memory.
    pub fn answer(&self, alloc: Global, ask: usize) -> Result<FacetAnswer, NoMemory>
        requires { ask < length (question self.now).asks }
        ensures { IfOk result (λ a. (docs : List Doc) (asked : Asked) → HasDocs (question self.now) docs
            → slice_get (question self.now).asks ask ≡ Some asked
            → IsAnswer self.now.config docs (docs_of (question self.now) docs) asked (answer_view a)) }
    {
        match &self.ask.asks[ask] {
            Ask::Top { path, n } => {
                let top = self.top_of(alloc, path, *n)?;
                Ok(FacetAnswer::Top(top))
            }
            Ask::Specific { path } => self.value_of(alloc, path),
            Ask::AllDims { n } => self.all_dims(alloc, *n),
        }
    }
}
