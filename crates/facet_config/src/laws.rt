ghost use Rattle.facet_config.specs.Differences.{OneDifference};

/// States that two configs have at most one first difference: the one that [`differs`](crate::FacetsConfig::differs)
/// returns.
pub fn one_difference()
    ensures { OneDifference }
{}
