ghost use Rattle.seg_terms.specs.Laws.{TermsRise, TermsAreFound};

/// States that the terms of documents rise by their bytes.
pub fn terms_rise()
    ensures { TermsRise }
{}

/// States that the terms of documents are exactly those that a document has, each with the places of all documents that
/// have it.
pub fn terms_are_found()
    ensures { TermsAreFound }
{}
