ghost use Rattle.taxo_cache.specs.Seen.{OrdinalsStay};

/// States that a path that has an ordinal in a prefix of the labels keeps it in all later labels.
pub fn ordinals_stay()
    ensures { OrdinalsStay }
{}
