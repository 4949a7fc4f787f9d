ghost use Rattle.facet_counts.specs.Laws.{MayBeCounted, NoneElsewhere, NoResultElsewhere, OneAllDims};

/// States that the ordinals that are counted for a document satisfy the condition of
/// [`Counter::add_doc`](crate::Counter::add_doc), if the config accepts the document and the view has its labels and
/// their prefixes.
pub fn may_be_counted()
    ensures { MayBeCounted }
{}

/// States that no document has a path that is not in the view.
pub fn none_elsewhere()
    ensures { NoneElsewhere }
{}

/// States that a path that is not in the view has no result.
pub fn no_result_elsewhere()
    ensures { NoResultElsewhere }
{}

/// States that two answers about all dimensions over the same documents are equal: the order leaves no tie.
pub fn one_all_dims()
    ensures { OneAllDims }
{}
