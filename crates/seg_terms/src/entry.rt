ghost use Rattle.std.specs.Prelude.{◌≡◌, ◌≤◌, length};

use facet_model::{Counted, Document};

/// A document with the ordinals that a segment stores for it.
#[derive(Debug, Drop)]
pub struct Entry {
    /// The document.
    pub doc: Document,
    /// The ordinal of each facet's label, in the order of the facets.
    pub leaves: Vec<u32>,
    /// The ordinals that are counted for the document, at most 8,192.
    pub counted: Counted,
    ghost as_many: { length leaves.items ≡ length doc.labels },
    ghost few: { length counted ≤ 8192 },
}
