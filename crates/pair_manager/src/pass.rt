ghost use Rattle.std.specs.Prelude.{◌≡◌, ◌∷◌, []};
ghost use Rattle.chronicle.specs.History.{entries};
ghost use Rattle.chronicle.specs.Shown.{MayTake};
ghost use Rattle.taxo_cache.specs.Seen.{SeesLabels};
ghost use Rattle.pair_manager.specs.Published.{ArePublications};

use crate::point::CommitPoint;
use crate::publication::Publication;
use chronicle::Token;
use facet_names::Path;
use index_state::Operation;

/// A token of each of four chronicles, for one caller. The operations name the labels in their frame, the pairs and the
/// commits name both, and all three have one config. The publications that it has seen are right in the labels and the
/// operations that it has seen.
#[derive(Drop)]
pub struct Pass {
    /// The token of the labels.
    pub labels: Token<Path>,
    /// The token of the operations.
    pub operations: Token<Operation>,
    /// The token of the published pairs.
    pub pairs: Token<Publication>,
    /// The token of the commits.
    pub commits: Token<CommitPoint>,
    ghost labels_rest: { MayTake labels },
    ghost operations_rest: { MayTake operations },
    ghost pairs_rest: { MayTake pairs },
    ghost commits_rest: { MayTake commits },
    ghost list: { SeesLabels labels },
    ghost right: { ArePublications labels.seen operations.seen (entries pairs.seen) },
    ghost index_tied: { operations.frame.identities ≡ labels.identity ∷ [] },
    ghost pairs_tied: { pairs.frame.identities ≡ operations.identity ∷ labels.identity ∷ [] },
    ghost commits_tied: { commits.frame.identities ≡ operations.identity ∷ labels.identity ∷ [] },
    ghost one_config: { (pairs.frame.texts ≡ operations.frame.texts) × (commits.frame.texts ≡ operations.frame.texts) },
}
