ghost use Rattle.seg_merge.specs.Laws.{BuiltHaveTerms, DecodedHaveTerms, HasTheDocuments, StandsInTheirPlace};

/// Segments that were built of entries, and segments that decode, meet the condition of merging: each has the terms of
/// its documents.
pub fn have_terms()
    ensures built { BuiltHaveTerms }
    ensures decoded { DecodedHaveTerms }
{}

/// A merged segment decodes to the documents of the segments that it was merged of, and may take their place among
/// others.
pub fn same_documents()
    ensures documents { HasTheDocuments }
    ensures place { StandsInTheirPlace }
{}
