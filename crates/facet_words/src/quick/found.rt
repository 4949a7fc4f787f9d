use facet_names::Path;

/// What was found so far in a line that adds a document.
#[derive(Drop)]
pub struct Found<'a> {
    /// The number of the session.
    pub session: Option<u64>,
    /// Whether the command is `add`.
    pub adds: bool,
    /// The id of the document.
    pub id: Option<&'a str>,
    /// The text of the document.
    pub text: Option<&'a str>,
    /// The labels of the document.
    pub facets: Option<Vec<Path>>,
}
