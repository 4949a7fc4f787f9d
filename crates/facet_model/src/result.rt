ghost use Rattle.std.proofs.Common.{rules};
ghost use Rattle.std.specs.Cmp.{partial_order_from_own_ties};
ghost use Rattle.std.specs.Cmp.Rules.{comparing};
ghost use Rattle.std.specs.Cmp.Lexicographic.{slice_cmp};
ghost use Rattle.std.specs.Ordering.{nat_cmp, on, flip_args, then_cmp, as_partial_cmp};

use crate::word::Word;
use facet_names::Path;
use std::cmp::Ordering;

/// A component and the number of documents under it. Children are ordered by falling counts, ties by the rising bytes
/// of the components. Lucene breaks ties by the ordinals.
#[derive(Debug, PartialEq, Eq, Drop)]
pub struct Child {
    /// The component.
    pub part: Word,
    /// The number of documents.
    pub count: u32,
}

impl Ord for Child {
    ghost cmp = { then_cmp (flip_args (on (λ c. c.count) nat_cmp)) (on (λ c. c.part) (slice_cmp nat_cmp)) };

    ghost total = { Prim.search (comparing, rules) };

    ghost matches_partial_cmp = { Prim.search (comparing, rules) };

    ghost matches_eq = { Prim.search (comparing, rules) };

    fn cmp(&self, other: &Child) -> Ordering {
        other
            .count
            .cmp(&self.count)
            .then(self.part.cmp(&other.part))
    }
}

impl PartialOrd for Child {
    ghost partial_cmp = { as_partial_cmp (then_cmp (flip_args (on (λ c. c.count) nat_cmp))
        (on (λ c. c.part) (slice_cmp nat_cmp))) };

    ghost laws = { partial_order_from_own_ties (Prim.search (comparing, rules)) (Prim.search (comparing, rules)) };

    fn partial_cmp(&self, other: &Child) -> Option<Ordering> {
        Some(self.cmp(other))
    }
}

/// The counts below a path, as Lucene's `FacetResult`.
#[derive(Debug, Drop)]
pub struct FacetResult {
    /// The path.
    pub path: Path,
    /// If the dimension is not multi-valued, the sum of the counts of all children, also those that are not listed. If
    /// it is, the number of documents that have the path if that is counted, and -1 otherwise.
    pub value: i64,
    /// The children with the greatest counts, at most as many as were asked for.
    pub children: Vec<Child>,
    /// The number of all children with a document.
    pub child_count: u32,
}

/// The answer to one ask.
#[derive(Debug, Drop)]
pub enum FacetAnswer {
    /// The result of the path. `None` if no child has a document.
    Top(Option<FacetResult>),
    /// The number of documents that have the path, or -1 if no document of the whole snapshot has it.
    Specific { path: Path, value: i64 },
    /// The results of the dimensions that have one, by falling values, ties by the rising bytes of the dimensions.
    AllDims(Vec<FacetResult>),
}
