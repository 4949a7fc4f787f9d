use facet_names::Path;

/// What a search asks to be counted.
#[derive(Debug, Drop)]
pub enum Ask {
    /// The `n` children of a path that the most documents have, as Lucene's `Facets.getTopChildren`.
    Top { path: Path, n: u32 },
    /// The number of documents that have a path, as Lucene's `Facets.getSpecificValue`.
    Specific { path: Path },
    /// The `n` children of each dimension that the most documents have, as Lucene's `Facets.getAllDims`.
    AllDims { n: u32 },
}
