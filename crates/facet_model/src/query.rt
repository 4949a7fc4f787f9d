ghost use Rattle.std.specs.Prelude.{◌≡◌, IfOk, map};
ghost use Rattle.facet_model.specs.QueryViews.{query_view};

use crate::word::Word;
use facet_names::NoMemory;
use std::alloc::Global;

/// What a document has to match, as Lucene's `MatchAllDocsQuery`, `TermQuery` and `BooleanQuery`.
#[derive(Debug, Drop)]
pub enum Query {
    /// Matches every document.
    All,
    /// Matches if the word is one of the words of the document's text, compared byte by byte.
    Term(Word),
    /// Matches if each query of `must` does, none of `must_not` does and, if `must` is empty, one of `should` does. So
    /// a query with only `must_not`, or without any, matches no document.
    Bool {
        must: Vec<Query>,
        should: Vec<Query>,
        must_not: Vec<Query>,
    },
}

impl Query {
    /// Copies the query. Errors: out of memory.
    #[cycle(query_copies)]
    pub fn dup(&self, alloc: Global) -> Result<Query, NoMemory>
        ensures { IfOk result (λ q. query_view q ≡ query_view self.now) }
    {
        match self {
            Query::All => Ok(Query::All),
            Query::Term(word) => Ok(Query::Term(word.dup(alloc)?)),
            Query::Bool {
                must,
                should,
                must_not,
            } => Ok(Query::Bool {
                must: copies(alloc, must)?,
                should: copies(alloc, should)?,
                must_not: copies(alloc, must_not)?,
            }),
        }
    }
}

// Copies queries.
#[cycle(query_copies)]
fn copies(alloc: Global, queries: &[Query]) -> Result<Vec<Query>, NoMemory>
    ensures { IfOk result (λ v. map query_view v.items ≡ map query_view queries.now) }
{
    let mut copies = Vec::with_capacity(alloc, queries.len())?;
    for query in queries {
        copies.push(query.dup(alloc)?)?;
    }
    Ok(copies)
}
