ghost use Rattle.std.specs.Prelude.{◌≡◌, ◌≤◌, ◌<◌, ◌^◌, ◌*◌, ◌+◌, ◌∷◌, [], ◌↔◌, ℕ, Some, Err, IfErr, IfOk};
ghost use Rattle.std.specs.Prelude.{length, map};
ghost use Rattle.std.specs.Arc.{arc_value};
ghost use mathlib.Core.List.{IsPrefix};
ghost use Rattle.chronicle.specs.Shown.{MayTake, SameToken};
ghost use Rattle.facet_disk.specs.Calls.{Rose};
ghost use Rattle.facet_model.specs.ConfigTexts.{config_texts};
ghost use Rattle.facet_model.specs.Flags.{Config};
ghost use Rattle.facet_model.specs.Stored.{Decodes};
ghost use Rattle.facet_names.specs.Labels.{IsLabelList};
ghost use Rattle.seg_documents.specs.Decoding.{records_in};
ghost use Rattle.seg_documents.specs.Storing.{AreStored};
ghost use Rattle.commit_plan.specs.declared.fault.CommitFault.TheVariants.{Disk as OfDisk, Closed, NumbersSpent};
ghost use Rattle.taxo_cache.specs.Seen.{labels_of, SeesLabels};
ghost use Rattle.commit_turns.specs.Answers.{Enters};
ghost use Rattle.commit_turns.specs.Frames.{HasNumbers};
ghost use Rattle.commit_turns.specs.Points.{entered, made, failed_after};
ghost use Rattle.commit_turns.specs.Seen.{docs_of, ComesBack};
ghost use Rattle.commit_turns.specs.Turns.{StandsOn, frame_of};
ghost use Rattle.pair_manager.specs.Passes.{IsOf};

use crate::start::Start;
use crate::turn::CommitTurn;
use chronicle::{Chronicle, Token};
use commit_store::CommitFault;
use facet_disk::Disk;
use facet_names::{NoMemory, Path};
use index_state::{IndexView, Operation};
use pair_manager::{Manager, Pass};
use seg_file::Segment;
use std::sync::{Arc, Wait};
use taxo_cache::Name;
use taxo_list::{Labelled, TaxoView};

// What a commit takes: all labels and all operations so far, no less than was noted.
#[derive(Drop)]
struct Taken {
    view: TaxoView,
    segments: Vec<Arc<Segment>>,
    operations: u64,
    ghost list: { IsLabelList view },
    ghost few: { length (records_in (map arc_value segments.items)) ≤ 1000000 },
}

// Tells the tokens what was noted, and takes the index first and the labels second.
fn take_snapshots<N: Name, R: Wait>(
    rt: &R,
    noted_labels: &mut Token<Path>,
    noted_operations: &mut Token<Operation>,
    manager: &Manager<N>,
    seen_labels: &mut Token<Path>,
    seen_operations: &mut Token<Operation>,
) -> Result<Taken, NoMemory>
    requires labels { (seen_labels.old.identity ≡ manager.now.writer.labels) × MayTake seen_labels.old }
    requires operations { (seen_operations.old.identity ≡ manager.now.operations) × MayTake seen_operations.old }
    requires noted { (noted_labels.old.identity ≡ manager.now.writer.labels)
        × (noted_operations.old.identity ≡ manager.now.operations) }
    requires list { SeesLabels seen_labels.old × SeesLabels noted_labels.old }
    requires tied { seen_operations.old.frame.identities ≡ manager.now.writer.labels ∷ [] }
    ensures noted { (noted_labels.new ≡ noted_labels.old) × (noted_operations.new ≡ noted_operations.old) }
    ensures list { SeesLabels seen_labels.new }
    ensures labels { ComesBack seen_labels.old seen_labels.new }
    ensures operations { ComesBack seen_operations.old seen_operations.new }
    ensures goes_on { IsPrefix noted_labels.old.seen seen_labels.new.seen
        × IsPrefix noted_operations.old.seen seen_operations.new.seen }
    ensures view { IfOk result (λ t. t.view ≡ labels_of seen_labels.new.seen) }
    ensures own { IfOk result (λ t. AreStored (map arc_value t.segments.items)) }
    ensures count { IfOk result (λ t. t.operations ≡ length seen_operations.new.seen) }
    ensures decodes { IfOk result (λ t. (config : Config) → config_texts config ≡ seen_operations.old.frame.texts
        → Decodes t.view config (map arc_value t.segments.items) (docs_of seen_operations.new.seen)) }
{
    let noted = manager.writer().note(noted_labels);
    manager.writer().meet(seen_labels, noted);
    let noted = manager.operations().note(noted_operations);
    manager.operations().meet(seen_operations, noted);
    let IndexView {
        segments: shared,
        operations,
        labels: covered,
        ..
    } = manager.take_index(rt, seen_operations)?;
    manager.writer().meet(seen_labels, covered);
    let view = manager.writer().snapshot(rt, seen_labels)?;
    let segments = shared.to_vec()?;
    Ok(Taken {
        view,
        segments,
        operations,
    })
}

// Commits all labels and all operations so far, where no commit has failed on the disk.
fn commit_in_turn<D: Disk, N: Name + Start, R: Wait>(
    rt: &R,
    state: &mut CommitTurn<D, N>,
    manager: &Manager<N>,
    seen_labels: &mut Token<Path>,
    seen_operations: &mut Token<Operation>,
) -> Result<u64, CommitFault>
    requires labels { (seen_labels.old.identity ≡ manager.now.writer.labels) × MayTake seen_labels.old }
    requires operations { (seen_operations.old.identity ≡ manager.now.operations) × MayTake seen_operations.old }
    requires noted { (state.old.labels.identity ≡ manager.now.writer.labels)
        × (state.old.operations.identity ≡ manager.now.operations) }
    requires list { SeesLabels seen_labels.old }
    requires tied { seen_operations.old.frame.identities ≡ manager.now.writer.labels ∷ [] }
    requires config { config_texts state.old.committer.config ≡ seen_operations.old.frame.texts }
    ensures list { SeesLabels seen_labels.new }
    ensures labels { ComesBack seen_labels.old seen_labels.new }
    ensures operations { ComesBack seen_operations.old seen_operations.new }
    ensures stands { StandsOn state.old state.new
        (entered state.old.last (length (labels_of seen_labels.new.seen)) result) }
    ensures frame { frame_of state.new ≡ frame_of state.old }
    ensures ok { IfOk result (λ n. (n ≡ length seen_operations.new.seen)
        × (state.new.last ≡ made n (length (labels_of seen_labels.new.seen)))) }
    ensures disk { IfErr result (λ e. (count : ℕ) → e ≡ OfDisk count
        → (state.new.last ≡ failed_after state.old.last count) × Rose (D.faults state.old.committer.disk) count) }
    ensures closed { (count : ℕ) → (state.old.committer.closed ≡ Some count) ↔ (result ≡ Err (Closed count)) }
    ensures spent { IfErr result (λ e. (number : ℕ) → e ≡ NumbersSpent number
        → (2 ^ 63 ≤ number) × (number < state.old.committer.state.next + 1000003)) }
{
    if let Some(count) = state.committer.closed() {
        return Err(CommitFault::Closed { count });
    }
    let taken = take_snapshots(
        rt,
        &mut state.labels,
        &mut state.operations,
        manager,
        seen_labels,
        seen_operations,
    )?;
    state.labels = manager.writer().note(seen_labels);
    state.operations = manager.operations().note(seen_operations);
    state.commit_noted(&taken.view, &taken.segments, taken.operations)
}

/// Makes all operations and labels that there are durable, and returns the number of operations.
///
/// Locks: that of the commits, for the whole call. In it, that of the operations and then that of the labels; each is
/// released before the disk is called, so no session's adds wait for the disk.
///
/// Errors: those of [`Committer::commit`], as are memory and disk calls.
///
/// [`Committer::commit`]: commit_store::Committer::commit
pub fn commit<D: Disk, N: Name + Start, R: Wait>(
    rt: &R,
    commits: &Chronicle<CommitTurn<D, N>>,
    manager: &Manager<N>,
    pass: &mut Pass,
) -> Result<u64, CommitFault>
    requires own { IsOf manager.now pass.old × (pass.old.commits.identity ≡ commits.now) }

    // It enters one point where it is acknowledged or fails on the disk, and none otherwise.
    ensures enters { Enters (length (labels_of pass.new.labels.seen)) pass.old.commits pass.new.commits result }

    // The operations that it covers are all that the pass has then seen.
    ensures operations { IfOk result (λ n. n ≡ length pass.new.operations.seen) }

    // The disk's count rose since opening began. No number is reported below the limit, nor above what so many commits
    // may have taken.
    ensures disk { IfErr result (λ e. (count : ℕ) → e ≡ OfDisk count
        → (first moment faults failures : ℕ) → HasNumbers first moment faults failures pass.old.commits.frame
        → Rose faults count) }
    ensures limit { IfErr result (λ e. (number : ℕ) → e ≡ NumbersSpent number → 2 ^ 63 ≤ number) }
    ensures spent { IfErr result (λ e. (number : ℕ) → e ≡ NumbersSpent number
        → (first moment faults failures : ℕ) → HasNumbers first moment faults failures pass.old.commits.frame
        → number < first + 1000003 * length pass.new.commits.seen) }

    // The tokens are the same, and see on.
    ensures labels { ComesBack pass.old.labels pass.new.labels }
    ensures seen { ComesBack pass.old.operations pass.new.operations }
    ensures commits { SameToken pass.old.commits pass.new.commits }
    ensures pairs { pass.new.pairs ≡ pass.old.pairs }
{
    let mut turn = commits.take(rt, &mut pass.commits);
    match commit_in_turn(
        rt,
        &mut turn,
        manager,
        &mut pass.labels,
        &mut pass.operations,
    ) {
        Ok(n) => {
            commits.enter(&mut pass.commits, turn.last);
            commits.give(&mut pass.commits, turn);
            Ok(n)
        }
        Err(CommitFault::Disk { count }) => {
            commits.enter(&mut pass.commits, turn.last);
            commits.give(&mut pass.commits, turn);
            Err(CommitFault::Disk { count })
        }
        Err(CommitFault::Closed { count }) => {
            commits.give(&mut pass.commits, turn);
            Err(CommitFault::Closed { count })
        }
        Err(CommitFault::NoMemory) => {
            commits.give(&mut pass.commits, turn);
            Err(CommitFault::NoMemory)
        }
        Err(CommitFault::NumbersSpent { number }) => {
            commits.give(&mut pass.commits, turn);
            Err(CommitFault::NumbersSpent { number })
        }
    }
}
