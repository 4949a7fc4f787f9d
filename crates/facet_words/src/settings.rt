ghost use Rattle.std.specs.Prelude.{◌≤◌};

use facet_config::FacetsConfig;

/// The settings of the first line of a script.
#[derive(Drop)]
pub struct Settings {
    /// The flags of the dimensions.
    pub config: FacetsConfig,
    /// The greatest number of documents: 1 to 1,000,000.
    pub max_docs: u32,
    /// The greatest number of labels, with the root: 1 to 1,000,000.
    pub max_labels: u32,
    /// The number of parts of the label cache: 1 to 64.
    pub stripes: u32,
    /// The number of labels that each part holds: 1 to 65,536.
    pub cache: u32,
    /// Whether a refresh and a commit first merge segments if there are too many. No reply depends on it.
    pub auto_merge: bool,
    ghost some_docs: { 1 ≤ max_docs },
    ghost few_docs: { max_docs ≤ 1000000 },
    ghost some_labels: { 1 ≤ max_labels },
    ghost few_labels: { max_labels ≤ 1000000 },
    ghost some_stripes: { 1 ≤ stripes },
    ghost few_stripes: { stripes ≤ 64 },
    ghost some_cache: { 1 ≤ cache },
    ghost few_cache: { cache ≤ 65536 },
}
