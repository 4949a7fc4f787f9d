//! How many hits of a search have a number in each range.
ghost use Rattle.std.specs.Prelude.{◌≡◌, ◌+◌, ◌<◌, ◌≤◌, ◌++◌, ℕ, List, All, length, map, IfOk};
ghost use Rattle.std.specs.List.{AllZip};
ghost use Rattle.facet_model.specs.Documents.{Doc};
ghost use Rattle.facet_model.specs.Flags.{Config};
ghost use Rattle.facet_model.specs.Hits.{hits};
ghost use Rattle.facet_model.specs.QueryViews.{query_view};
ghost use Rattle.facet_model.specs.Stored.{Decodes};
ghost use Rattle.number_facets.specs.Values.{range_count, valued};
ghost use Rattle.sideways.specs.Counted.{PartLeft};
ghost use Rattle.sideways.specs.Searches.{records_of};
ghost use Rattle.value_facets.specs.Hits.{leaves_at, leaves_of};
ghost use Rattle.value_facets.specs.Marking.{counters_of};
ghost use Rattle.value_facets.specs.Tallying.{HasCounted};

use crate::cuts::bounds_of;
use crate::hits::parts_of;
use crate::marks::Marks;
use crate::tally::Tally;
use facet_model::{Drill, Query};
use facet_names::NoMemory;
use number_facets::{Range, RangeCounts};
use seg_file::Segment;
use sideways::Part;
use std::alloc::Global;
use std::marker::Model;
use std::sync::Arc;
use taxo_list::TaxoView;

/// Counts, of the documents that match a query and pass a drill-down, those with a number in each range. It
/// corresponds to Lucene's `LongRangeFacetCounts` over a `DrillDownQuery`.
///
/// The numbers of a document in a dimension are those of its labels of two components, the dimension and the text of a
/// number, as [`read_number`](number_facets::read_number) reads it. A document counts once in a range, however many of
/// its numbers are in it. Ranges may overlap, be equal, have equal names, or be empty.
///
/// Memory: 4 bytes per label of the view; for each segment the plan of the search, or a set of one bit per record; for
/// n ranges 36 bytes for each of up to 2n + 1 cuts, and 4 for each range that has the cut.
#[derive(Drop)]
pub struct RangeCounter<'a> {
    view: &'a TaxoView,
    segments: &'a [Arc<Segment>],
    query: &'a Query,
    drill: &'a Drill,
    dim: &'a str,
    ranges: &'a [Range],
    parts: Vec<Part<'a>>,
    marks: Marks,
    tally: Tally,
}

impl<'a> Model for RangeCounter<'a> {
    ghost use Rattle.facet_model.specs.QueryViews.{query_view};
    ghost use Rattle.sideways.specs.Searches.{records_of};
    ghost use Rattle.std.specs.Coded.{codes};
    ghost use Rattle.value_facets.specs.QueryCodes.{query_code};
    ghost use Rattle.value_facets.specs.Ranging.{IsRangeCounter, RangeQuestion};

    ghost Value = { RangeQuestion };

    ghost coded = { Prim.hlevel (codes, query_code) };

    ghost view = { λ c. record {
      labels = c.view.now;
      segments = records_of c.segments.now;
      query = query_view c.query.now;
      drill = c.drill.now;
      dim = c.dim.now;
      ranges = c.ranges.now;
    } };

    ghost invariant = { λ c. IsRangeCounter (record {
      labels = c.view.now;
      segments = records_of c.segments.now;
      query = query_view c.query.now;
      drill = c.drill.now;
      dim = c.dim.now;
      ranges = c.ranges.now;
    }) c.parts.items c.marks c.tally };
}

// Counts the records of a segment that are left.
fn count_part(segment: &Segment, part: &mut Part<'_>, marks: &Marks, tally: &mut Tally)
    requires same { part.old.segment ≡ segment.now }
    requires within { (ord : ℕ) → All (λ k. k < length tally.old.counts) (counters_of marks.now ord) }
    requires few { tally.old.hits + length part.old.left ≤ 1000000 }
    ensures hits { tally.new.hits ≡ tally.old.hits + length part.old.left }
    ensures as_many { length tally.new.counts ≡ length tally.old.counts }
    ensures counted { (lists : List (List ℕ)) → HasCounted marks.now lists tally.old
        → HasCounted marks.now (lists ++ leaves_at segment.now part.old.left) tally.new }
{
    while let Some(place) = part.take() {
        tally.count(marks, &segment.leaves(place));
    }
}

// Counts those of all segments.
fn count_parts(segments: &[Arc<Segment>], parts: &mut [Part<'_>], marks: &Marks, tally: &mut Tally)
    requires same { AllZip (λ s (p : PartLeft). p.segment ≡ s) (records_of segments.now) parts.old }
    requires within { (ord : ℕ) → All (λ k. k < length tally.old.counts) (counters_of marks.now ord) }
    requires few { tally.old.hits + length (leaves_of parts.old) ≤ 1000000 }
    ensures as_many { length tally.new.counts ≡ length tally.old.counts }
    ensures counted { (lists : List (List ℕ)) → HasCounted marks.now lists tally.old
        → HasCounted marks.now (lists ++ leaves_of parts.old) tally.new }
{
    for i in 0..parts.len() {
        count_part(&segments[i], &mut parts[i], marks, tally);
    }
}

impl<'a> RangeCounter<'a> {
    /// Prepares a count: looks up the terms and paths in each segment, reads the numbers of the dimension's labels, and
    /// allocates all that [`run`](RangeCounter::run) needs. Of the labels of the view it visits those right below the
    /// dimension. For each label of the view it sets 4 bytes to zero. For n ranges it tests up to 2n + 1 cuts against
    /// each range.
    ///
    /// Errors: out of memory, also for 2^30 ranges or more.
    pub fn new(
        alloc: Global,
        view: &'a TaxoView,
        segments: &'a [Arc<Segment>],
        query: &'a Query,
        drill: &'a Drill,
        dim: &'a str,
        ranges: &'a [Range],
    ) -> Result<RangeCounter<'a>, NoMemory>
        requires docs { (config : Config) × (docs : List Doc) × Decodes view.now config (records_of segments.now) docs
            × (length docs ≤ 1000000) }
        ensures counter { IfOk result (λ c. c ≡ record {
          labels = view.now;
          segments = records_of segments.now;
          query = query_view query.now;
          drill = drill.now;
          dim = dim.now;
          ranges = ranges.now;
        }) }
    {
        let parts = parts_of(alloc, segments, query, drill)?;
        let bounds = bounds_of(alloc, ranges)?;
        let marks = Marks::new(alloc, view, dim, &bounds)?;
        let tally = Tally::new(alloc, ranges.len() + 1, marks.rows())?;
        Ok(RangeCounter {
            view,
            segments,
            query,
            drill,
            dim,
            ranges,
            parts,
            marks,
            tally,
        })
    }

    /// Counts the documents. It visits each hit once, and each label of a hit: one look-up in a table. A hit whose
    /// numbers have the same last cut up to them takes one step more, and any other one for each range that a label's
    /// number is in. In the end it takes one step for each cut and each range that has it. It allocates nothing and
    /// cannot fail.
    pub fn run(self) -> RangeCounts
        ensures { (config : Config) (docs : List Doc) → Decodes self.entry.labels config self.entry.segments docs
            → result ≡ record {
              counts = map (range_count (hits docs self.entry.query self.entry.drill) self.entry.dim) self.entry.ranges;
              valued = valued (hits docs self.entry.query self.entry.drill) self.entry.dim;
            } }
    {
        let RangeCounter {
            segments,
            mut parts,
            marks,
            mut tally,
            ..
        } = self;
        count_parts(segments, &mut parts, &marks, &mut tally);
        tally.into_counts(&marks)
    }
}
