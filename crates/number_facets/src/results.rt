//! The results of counting ranges and of adding numbers up.
ghost use Rattle.std.proofs.Common.{rules};
ghost use Rattle.std.specs.Cmp.{partial_order_from_own_ties};
ghost use Rattle.std.specs.Cmp.Rules.{comparing};
ghost use Rattle.std.specs.Cmp.Lexicographic.{slice_cmp};
ghost use Rattle.std.specs.Ordering.{nat_cmp, int_cmp, on, flip_args, then_cmp, as_partial_cmp};
ghost use Rattle.std.specs.Prelude.{◌≡◌};

use facet_model::Word;
use std::cmp::Ordering;
use std::marker::Model;

/// How many documents have a value in each range, in the order of the ranges, and how many have a value at all.
#[derive(Debug, Drop)]
pub struct RangeCounts {
    counts: Vec<u32>,
    valued: u32,
}

impl Model for RangeCounts {
    ghost use Rattle.number_facets.specs.Results as results;

    ghost Value = { results.RangeCounts };

    ghost view = { λ c. record { counts = c.counts.items; valued = c.valued } };
}

impl RangeCounts {
    /// Makes the result of these counts, one for each range, and of the number of documents with a value.
    pub fn new(counts: Vec<u32>, valued: u32) -> RangeCounts
        ensures { result ≡ record { counts = counts.items; valued = valued } }
    {
        RangeCounts { counts, valued }
    }

    /// Returns the number of documents with a value in each range, in the order of the ranges.
    pub fn counts(&self) -> &[u32]
        ensures { result.now ≡ self.now.counts }
    {
        &self.counts
    }

    /// Returns the number of documents with a value, in a range or not.
    pub fn valued(&self) -> u32
        ensures { result ≡ self.now.valued }
    {
        self.valued
    }
}

/// A component and the sum of the numbers that documents have below it. Sums are ordered by falling values, ties by the
/// rising bytes of the components.
#[derive(Debug, PartialEq, Eq, Drop)]
pub struct Sum {
    /// The component.
    pub part: Word,
    /// The sum.
    pub value: i64,
}

impl Ord for Sum {
    ghost cmp = { then_cmp (flip_args (on (λ c. c.value) int_cmp)) (on (λ c. c.part) (slice_cmp nat_cmp)) };

    ghost total = { Prim.search (comparing, rules) };

    ghost matches_partial_cmp = { Prim.search (comparing, rules) };

    ghost matches_eq = { Prim.search (comparing, rules) };

    fn cmp(&self, other: &Sum) -> Ordering {
        other
            .value
            .cmp(&self.value)
            .then(self.part.cmp(&other.part))
    }
}

impl PartialOrd for Sum {
    ghost partial_cmp = { as_partial_cmp (then_cmp (flip_args (on (λ c. c.value) int_cmp))
        (on (λ c. c.part) (slice_cmp nat_cmp))) };

    ghost laws = { partial_order_from_own_ties (Prim.search (comparing, rules)) (Prim.search (comparing, rules)) };

    fn partial_cmp(&self, other: &Sum) -> Option<Ordering> {
        Some(self.cmp(other))
    }
}
