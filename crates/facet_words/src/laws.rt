ghost use Rattle.facet_words.specs.Answers.{PlainPages};
ghost use Rattle.facet_words.specs.Queries.{LevelsAreCounted, MatchesEachWord};

/// States that a query is read if and only if it has no more levels than are allowed. The call does nothing.
pub fn levels_are_counted()
    ensures { LevelsAreCounted }
{}

/// States that a search which passes no hit lists the first ones. The call does nothing.
pub fn plain_pages()
    ensures { PlainPages }
{}

/// States that the query of a text matches exactly the documents that have every word of it. The call does nothing.
#[tactic(auto, using(crate::proofs::EachWord::each_word))]
pub fn words_match()
    ensures { MatchesEachWord }
{}
