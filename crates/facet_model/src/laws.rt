ghost use Rattle.facet_model.specs.Laws.{EqualTexts, OneListing, OneTop};

/// States that two listings of the same counts are equal: the order of a listing leaves no tie.
pub fn one_listing()
    ensures { OneListing }
{}

/// States that two results of one path over the same documents are equal.
pub fn one_top()
    ensures { OneTop }
{}

/// States that two configs with equal texts are equal, so the texts of a config determine it.
pub fn one_config()
    ensures { EqualTexts }
{}
