ghost use Rattle.number_facets.specs.Laws.{SumsFit};

/// A sum of numbers fits an `i64`: of at most 1,000,000 documents with at most 256 labels each. The call does nothing;
/// its contract is the law.
pub fn sums_fit()
    ensures { SumsFit }
{}
