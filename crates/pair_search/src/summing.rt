ghost use Rattle.std.specs.Prelude.{◌≡◌, ◌≢◌, Err, map};
ghost use Rattle.std.specs.Arc.{arc_value};
ghost use Rattle.facet_model.specs.QueryViews.{query_view};
ghost use Rattle.pair_manager.specs.Kept.{IsPair};
ghost use Rattle.pair_search.specs.Numbers.{IsSummedIn};
ghost use Rattle.pair_search.specs.Replies.{sums_reply};
ghost use Rattle.pair_search.specs.declared.summing.SumsFault.TheVariants.{NoMemory as NoRoom};

use facet_model::{Drill, Query};
use number_facets::Sum;
use pair_manager::Pair;
use seg_file::Segment;
use std::alloc::Global;
use std::sync::Arc;
use value_facets::{SumFault, sums};

/// The sums of numbers.
#[derive(Debug, Drop)]
pub struct SumsAnswer {
    /// How many operations the documents of the pair come from.
    pub operations: u64,
    /// The first components with their sums, by falling sums, ties by their rising bytes.
    pub sums: Vec<Sum>,
}

/// Why no sums are returned.
#[derive(Drop, Clone, Copy, Debug, PartialEq, Eq)]
pub enum SumsFault {
    /// The session holds no pair under the name.
    NotHeld,
    /// No component is asked for.
    TopZero,
    /// Out of memory.
    NoMemory,
}

// Adds up the numbers of the documents of a pair that has these segments.
fn sums_in(
    alloc: Global,
    pair: &Pair,
    segments: &[Arc<Segment>],
    query: &Query,
    drill: &Drill,
    dim: &str,
    n: u32,
) -> Result<SumsAnswer, SumsFault>
    requires segments { map arc_value segments.now ≡ pair.now.segments }
    requires is { IsPair pair.now }
    ensures { result ≢ Err NoRoom
        → IsSummedIn pair.now (record { query = query_view query.now; drill = drill.now; dim = dim.now }) n
        (sums_reply result) }
{
    match sums(alloc, pair.view(), segments, query, drill, dim, n) {
        Ok(sums) => Ok(SumsAnswer {
            operations: pair.operations(),
            sums,
        }),
        Err(SumFault::TopZero) => Err(SumsFault::TopZero),
        Err(SumFault::NoMemory) => Err(SumsFault::NoMemory),
    }
}

/// Adds up the numbers below the components of a dimension, over the documents of a pair that match the query and pass
/// the drill-down, and returns the first `n` components. It takes no lock.
///
/// Costs: those of `value_facets::sums`, and eight bytes per segment if there are 256 segments or more.
///
/// Errors: `TopZero`, if `n` is 0; out of memory.
pub fn sums_pair(
    alloc: Global,
    pair: &Pair,
    query: &Query,
    drill: &Drill,
    dim: &str,
    n: u32,
) -> Result<SumsAnswer, SumsFault>
    ensures { result ≢ Err NoRoom
        → IsSummedIn pair.now (record { query = query_view query.now; drill = drill.now; dim = dim.now }) n
        (sums_reply result) }
{
    let segments = pair.segments();
    if let Some(few) = segments.as_slice() {
        return sums_in(alloc, pair, few, query, drill, dim, n);
    }
    match segments.to_vec() {
        Ok(all) => sums_in(alloc, pair, &all, query, drill, dim, n),
        Err(_) => Err(SumsFault::NoMemory),
    }
}
