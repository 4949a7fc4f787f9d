ghost use Rattle.std.specs.Prelude.{◌≡◌, ◌≢◌, ℕ, Err, IfOk, length, map};
ghost use Rattle.std.specs.Arc.{arc_value};
ghost use Rattle.facet_model.specs.QueryViews.{query_view};
ghost use Rattle.facet_replies.specs.ReplyViews.{range_view};
ghost use Rattle.number_facets.specs.Values.{Range as PlainRange};
ghost use Rattle.pair_manager.specs.Kept.{IsPair};
ghost use Rattle.pair_search.specs.Numbers.{IsRangedIn};
ghost use Rattle.pair_search.specs.Replies.{ranges_reply};
ghost use Rattle.pair_search.specs.declared.ranging.RangesFault.TheVariants.{NoMemory as NoRoom};

use facet_model::{Drill, Query};
use facet_names::NoMemory;
use facet_replies::RangeLine;
use number_facets::Range;
use pair_manager::Pair;
use seg_file::Segment;
use std::alloc::Global;
use std::sync::Arc;
use value_facets::RangeCounter;

/// How many documents have a number in each range.
#[derive(Debug, Drop)]
pub struct RangesAnswer {
    /// How many operations the documents of the pair come from.
    pub operations: u64,
    /// A copy of each range's name, with the number of documents that have a number in it, in the order of the ranges.
    pub counts: Vec<RangeLine>,
    /// How many of the documents have a number in the dimension, in a range or not.
    pub valued: u32,
}

/// Why no ranges are counted.
#[derive(Drop, Clone, Copy, Debug, PartialEq, Eq)]
pub enum RangesFault {
    /// The session holds no pair under the name.
    NotHeld,
    /// Out of memory.
    NoMemory,
}

// Returns each range's name with its count.
fn named(alloc: Global, ranges: &[Range], counts: &[u32]) -> Result<Vec<RangeLine>, NoMemory>
    requires { length counts.now ≡ length ranges.now }
    ensures { IfOk result (λ v. (count : PlainRange → ℕ) → counts.now ≡ map count ranges.now
        → map range_view v.items ≡ map (λ r. (r.name, count r)) ranges.now) }
{
    let mut lines = Vec::with_capacity(alloc, ranges.len())?;
    for at in 0..ranges.len() {
        let name = String::from_str(alloc, ranges[at].name())?;
        lines.push(RangeLine {
            name,
            count: counts[at],
        })?;
    }
    Ok(lines)
}

// Counts the ranges over the documents of a pair that has these segments.
fn ranges_in(
    alloc: Global,
    pair: &Pair,
    segments: &[Arc<Segment>],
    query: &Query,
    drill: &Drill,
    dim: &str,
    ranges: &[Range],
) -> Result<RangesAnswer, RangesFault>
    requires segments { map arc_value segments.now ≡ pair.now.segments }
    requires is { IsPair pair.now }
    ensures { result ≢ Err NoRoom
        → IsRangedIn pair.now (record { query = query_view query.now; drill = drill.now; dim = dim.now }) ranges.now
        (ranges_reply result) }
{
    let counter = match RangeCounter::new(alloc, pair.view(), segments, query, drill, dim, ranges) {
        Ok(counter) => counter,
        Err(NoMemory) => return Err(RangesFault::NoMemory),
    };
    let counts = counter.run();
    match named(alloc, ranges, counts.counts()) {
        Ok(lines) => Ok(RangesAnswer {
            operations: pair.operations(),
            counts: lines,
            valued: counts.valued(),
        }),
        Err(NoMemory) => Err(RangesFault::NoMemory),
    }
}

/// Counts in how many documents of a pair that match the query and pass the drill-down the dimension has a number in
/// each of these ranges. It takes no lock.
///
/// Costs: those of `value_facets::RangeCounter`, a copy of each range's name, and eight bytes per segment if there are
/// 256 segments or more.
///
/// Errors: out of memory.
pub fn ranges_pair(
    alloc: Global,
    pair: &Pair,
    query: &Query,
    drill: &Drill,
    dim: &str,
    ranges: &[Range],
) -> Result<RangesAnswer, RangesFault>
    ensures { result ≢ Err NoRoom
        → IsRangedIn pair.now (record { query = query_view query.now; drill = drill.now; dim = dim.now }) ranges.now
        (ranges_reply result) }
{
    let segments = pair.segments();
    if let Some(few) = segments.as_slice() {
        return ranges_in(alloc, pair, few, query, drill, dim, ranges);
    }
    match segments.to_vec() {
        Ok(all) => ranges_in(alloc, pair, &all, query, drill, dim, ranges),
        Err(_) => Err(RangesFault::NoMemory),
    }
}
