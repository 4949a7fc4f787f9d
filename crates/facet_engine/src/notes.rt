ghost use Rattle.chronicle.specs.History.{entries};
ghost use Rattle.taxo_cache.specs.Seen.{SeesLabels};
ghost use Rattle.pair_manager.specs.Kept.{IsNote};
ghost use Rattle.pair_manager.specs.Published.{ArePublications};

use chronicle::Token;
use facet_names::Path;
use index_state::Operation;
use pair_manager::{CommitPoint, Publication};

/// Notes of what a pass has seen, one per chronicle. A note cannot add an entry. It can be passed on, and is valid
/// after the locks were taken for good.
#[derive(Drop)]
pub struct Notes {
    /// The labels that were seen, without the root.
    pub labels: Token<Path>,
    /// The operations that were seen.
    pub operations: Token<Operation>,
    /// The pairs that were seen, from the one of opening on.
    pub pairs: Token<Publication>,
    /// The commits that were seen, from the point of opening on.
    pub commits: Token<CommitPoint>,
    ghost labels_note: { IsNote labels },
    ghost operations_note: { IsNote operations },
    ghost pairs_note: { IsNote pairs },
    ghost commits_note: { IsNote commits },
    ghost list: { SeesLabels labels },
    ghost right: { ArePublications labels.seen operations.seen (entries pairs.seen) },
}
