ghost use Rattle.std.specs.Prelude.{◌≡◌, ◌≤◌, ◌&&◌, not, List, ℕ, Some, IfOk, slice_get};
ghost use Rattle.facet_model.specs.Documents.{Doc};
ghost use Rattle.facet_model.specs.CountedPaths.{places};
ghost use Rattle.facet_model.specs.Queries.{QueryTree, matches};
ghost use Rattle.facet_model.specs.QueryViews.{query_view};
ghost use Rattle.facet_model.specs.Stored.{is_dead};
ghost use Rattle.seg_postings.specs.Rising.{IsRising, IsNext, is_in, from_place};
ghost use Rattle.seg_postings.specs.Sets.{without};
ghost use Rattle.query_eval.specs.Segments.{HasTermsOf};

use crate::live::live_node;
use crate::query::query_node;
use facet_model::Query;
use facet_names::NoMemory;
use plan_places::{PlanNode, PlanPlaces};
use seg_file::Segment;
use seg_postings::Places;
use std::alloc::Global;
use std::marker::Model;

/// The live documents of one segment that match a query, place by place, as Lucene's `Scorer`.
///
/// It allocates when it is made, for each part of the query, and never after that. Each list of places is visited once,
/// from left to right.
#[derive(Drop)]
pub struct Plan<'a> {
    places: PlanPlaces<'a>,
}

impl<'a> Model for Plan<'a> {
    ghost use Rattle.std.specs.Prelude.{List, ℕ};

    ghost Value = { List ℕ };

    ghost view = { λ p. p.places };
}

impl<'a> Plan<'a> {
    /// Prepares the places of all live documents that match. It looks up each word of the query once. Errors: out of
    /// memory.
    pub fn new(alloc: Global, segment: &'a Segment, query: &Query) -> Result<Plan<'a>, NoMemory>
        ensures { IfOk result (λ p. (docs : List Doc) → HasTermsOf segment.now docs
            → p ≡ without (places (matches (query_view query.now)) docs) segment.now.dead) }
    {
        let node = query_node(alloc, segment, query)?;
        let node = live_node(alloc, segment, node)?;
        Ok(Plan {
            places: PlanPlaces::new(node),
        })
    }

    /// Returns the next place, or `None` at the end. It allocates nothing.
    pub fn next(&mut self) -> Option<u32>
        ensures rising { IsRising self.old }
        ensures next { IsNext result self.old self.new }
    {
        self.places.next()
    }

    /// Returns whether the record at a place is live and its document matches. Places have to be asked in rising order:
    /// none after this one was asked before, and `next` has returned none from this one on. The places before it are
    /// passed; this one is not.
    pub fn matches(&mut self, doc: u32) -> bool
        ensures has { result ≡ is_in doc self.old }
        ensures left { self.new ≡ from_place doc self.old }
        ensures matches { (query : QueryTree) (docs : List Doc) (dead : List ℕ) (first : ℕ) (at : Doc)
            → self.old ≡ from_place first (without (places (matches query) docs) dead)
            → first ≤ doc → slice_get docs doc ≡ Some at → result ≡ (matches query at && not (is_dead dead doc)) }
    {
        self.places.has(doc)
    }
}
