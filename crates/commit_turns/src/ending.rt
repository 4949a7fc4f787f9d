ghost use Rattle.std.specs.Prelude.{◌≡◌, ◌≤◌, ◌∷◌, [], ℕ, Some, length, All};
ghost use Rattle.chronicle.specs.History.{entries};
ghost use Rattle.chronicle.specs.Shown.{SeesOn, EndsWith, MayTake};
ghost use Rattle.facet_disk.specs.Calls.{Rose};
ghost use Rattle.facet_disk.specs.Images.{Told};
ghost use Rattle.facet_model.specs.ConfigTexts.{config_texts};
ghost use Rattle.facet_model.specs.Flags.{Config};
ghost use Rattle.taxo_cache.specs.Seen.{labels_of};
ghost use Rattle.commit_turns.specs.DiskStates.{state_of};
ghost use Rattle.commit_turns.specs.Ending.{Lasts, FailsWith};
ghost use Rattle.commit_turns.specs.Frames.{HasNumbers};
ghost use Rattle.commit_turns.specs.Points.{count_after, last_of};
ghost use Rattle.commit_turns.specs.Seen.{ComesBack};

use crate::start::Start;
use crate::turn::CommitTurn;
use chronicle::{Chronicle, Standing, Token};
use facet_disk::Disk;
use facet_names::Path;
use index_state::Operation;
use pair_manager::CommitPoint;
use std::sync::Wait;

/// Takes the lock of the commits for good, and returns the disk. The tokens of the labels and of the operations have
/// then seen everything that any commit has begun to write. It waits for a commit in progress.
pub fn end_commits<
    D: Disk,
    N: Start,
    L: Standing<Entry = Path>,
    I: Standing<Entry = Operation>,
    R: Wait,
>(
    rt: &R,
    commits: &Chronicle<CommitTurn<D, N>>,
    labels: &Chronicle<L>,
    operations: &Chronicle<I>,
    seen_labels: &mut Token<Path>,
    seen_operations: &mut Token<Operation>,
    token: &mut Token<CommitPoint>,
) -> D
    requires own { (seen_labels.old.identity ≡ labels.now) × (seen_operations.old.identity ≡ operations.now)
        × (token.old.identity ≡ commits.now) }
    requires idle { MayTake seen_labels.old × MayTake seen_operations.old × MayTake token.old }
    requires tied { token.old.frame.identities ≡ seen_operations.old.identity ∷ seen_labels.old.identity ∷ [] }

    // The disk counts at least the faults of each commit that failed on it, whose count rose since opening began, and
    // no fewer than then: just what the last commit learned, where that failed on it, and otherwise what it counted
    // then.
    ensures counts { All (λ p. (count : ℕ) → p.failed ≡ Some count → count ≤ D.faults result) (entries token.new.seen) }
    ensures rose { (first moment faults failures : ℕ) → HasNumbers first moment faults failures token.old.frame
        → All (λ p. (count : ℕ) → p.failed ≡ Some count → Rose faults count) (entries token.new.seen) }
    ensures later { (first moment faults failures : ℕ) → HasNumbers first moment faults failures token.old.frame
        → faults ≤ D.faults result }
    ensures exact { (first moment faults failures : ℕ) → HasNumbers first moment faults failures token.old.frame
        → D.faults result ≡ count_after faults (last_of (entries token.new.seen)).failed }

    // Where the disk reported its files when opening began, it still does, and its device failed exactly where a commit
    // failed on it.
    ensures tells { N.told → (s : Told) × (D.told result ≡ Some s) }
    ensures failed { (first moment faults failures : ℕ) → N.told
        → HasNumbers first moment faults failures token.old.frame
        → FailsWith D.Disk failures (last_of (entries token.new.seen)).failed result }

    // Where it was settled too, what was committed lasts.
    ensures lasts { (config : Config) (first moment faults failures : ℕ) → N.settled
        → config_texts config ≡ token.old.frame.texts
        → HasNumbers first moment faults failures token.old.frame
        → Lasts D.Disk config moment (labels_of seen_labels.new.seen) (entries seen_operations.new.seen)
        (entries token.new.seen) result }

    // Where no commit has entered a point after the opened one, the disk is as it was when opening began.
    ensures quiet { length (entries token.new.seen) ≤ 1 → N.quiet (state_of D.Disk result) }

    // The tokens are the same, and see on.
    ensures labels { ComesBack seen_labels.old seen_labels.new }
    ensures operations { ComesBack seen_operations.old seen_operations.new }
    ensures commits { EndsWith token.old token.new × SeesOn token.old token.new }
{
    let CommitTurn {
        committer,
        last: _,
        operations: noted_operations,
        labels: noted_labels,
        start: _,
        begun: _,
        of: _,
    } = commits.end(rt, token);
    labels.meet(seen_labels, noted_labels);
    operations.meet(seen_operations, noted_operations);
    committer.into_disk()
}
