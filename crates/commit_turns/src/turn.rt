ghost use Rattle.std.specs.Prelude.{◌≡◌, true, false};
ghost use Rattle.taxo_cache.specs.Seen.{SeesLabels};

use crate::start::Start;
use chronicle::{Standing, Token};
use commit_store::Committer;
use facet_disk::Disk;
use facet_names::Path;
use index_state::Operation;
use pair_manager::CommitPoint;
use std::marker::PhantomData;
use std::snapshot::Snapshot;

/// The value of the commits chronicle: the committer, the last point, and notes of the operations and the labels that
/// cover everything that any commit has begun to write.
#[derive(Drop)]
pub struct CommitTurn<D: Disk, N: Start> {
    /// The committer.
    pub committer: Committer<D>,
    /// The last point of the chronicle.
    pub last: CommitPoint,
    /// A note of the operations, which covers everything that any commit has begun to write.
    pub operations: Token<Operation>,
    /// A note of the labels, which covers everything that any commit has begun to write.
    pub labels: Token<Path>,
    /// The disk when opening began. It exists in proofs only.
    pub start: Snapshot<D>,
    /// What was known of its files when opening began. It exists in proofs only.
    pub begun: Snapshot<Committer<D>>,
    /// The name, which chooses the disk of the beginning for proofs.
    pub of: PhantomData<N>,
    ghost notes: { (operations.is_note ≡ true) × (operations.holds_turn ≡ false) × (labels.is_note ≡ true)
        × (labels.holds_turn ≡ false) },
    ghost list: { SeesLabels labels },
}

impl<D: Disk, N: Start> Standing for CommitTurn<D, N> {
    ghost use Rattle.std.specs.Prelude.{◌∷◌, []};
    ghost use Rattle.commit_turns.specs.Turns.{StandsFor, frame_of};

    type Entry = CommitPoint;

    ghost stands = { StandsFor };

    ghost opening = { λ v. v.last ∷ [] };

    ghost frame = { frame_of };
}
