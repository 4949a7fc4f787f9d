ghost use Rattle.facet_names.specs.Terms.{OneTermText, TermTextIsShort};

/// States that a text is the term text of at most one path.
pub fn one_term_text()
    ensures { OneTermText }
{}

/// States that a term text has at most 65,567 bytes: 32 components of 1,024 bytes, all of them escaped, and 31
/// separators.
pub fn term_text_is_short()
    ensures { TermTextIsShort }
{}
