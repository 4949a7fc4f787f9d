//! Look-up keys for the terms of a segment.
ghost use Rattle.std.specs.Prelude.{◌≡◌};
ghost use Rattle.std.specs.Ordering.{nat_cmp};
ghost use Rattle.std.specs.Cmp.Lexicographic.{slice_cmp};
ghost use Rattle.seg_file.specs.Search.{text_of};

use std::cmp::Ordering;

/// A term to look up.
#[derive(Drop)]
pub(crate) enum Key<'k> {
    /// The term of this text.
    Text(&'k str),
    /// The term of this word: a `w` and the word.
    Word(&'k str),
}

impl<'k> Key<'k> {
    /// Compares a text with the term. It allocates nothing.
    pub(crate) fn order(&self, text: &str) -> Ordering
        ensures { result ≡ slice_cmp nat_cmp text.now (text_of self.now) }
    {
        match self {
            Key::Text(term) => text.cmp(term),
            Key::Word(word) => match text.strip_prefix("w") {
                Some(rest) => rest.cmp(word),
                // It is empty or begins with another byte.
                None => text.cmp("w"),
            },
        }
    }
}
