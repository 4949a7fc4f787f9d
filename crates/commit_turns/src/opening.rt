ghost use Rattle.std.specs.Prelude.{◌≡◌, ◌≢◌, ◌≤◌, ◌∷◌, [], ℕ, Some, Err, IfOk, IfErr, length, map};
ghost use Rattle.std.specs.Arc.{arc_value};
ghost use Rattle.chronicle.specs.History.{numbered};
ghost use Rattle.chronicle.specs.Shown.{MayTake};
ghost use Rattle.facet_disk.specs.Images.{Told};
ghost use Rattle.facet_disk.specs.Calls.{Rose};
ghost use Rattle.seg_documents.specs.Decoding.{docs_in};
ghost use Rattle.store_opening.specs.declared.fault.OpenFault.TheVariants.{Disk as FaultOfDisk, NoMemory as NoRoom};
ghost use Rattle.store_opening.specs.Faults.{IsSound};
ghost use Rattle.store_opening.specs.Files.{files, greatest_number};
ghost use Rattle.store_opening.specs.Newest.{next_after};
ghost use Rattle.store_opening.specs.Quiet.{IsQuiet};
ghost use Rattle.taxo_cache.specs.Seen.{labels_of, SeesLabels};
ghost use Rattle.commit_turns.specs.DiskStates.{state_of};
ghost use Rattle.commit_turns.specs.Frames.{begun_frame};
ghost use Rattle.commit_turns.specs.Opening.{IsOpened, IsOpenedAs, WasSettled};
ghost use Rattle.commit_turns.specs.Points.{made};
ghost use Rattle.commit_turns.specs.Seen.{docs_of};

use crate::start::Start;
use crate::turn::CommitTurn;
use chronicle::{Chronicle, Standing, Token};
use commit_store::{Committer, NotOpened, Opened};
use facet_config::FacetsConfig;
use facet_disk::Disk;
use facet_names::Path;
use index_state::Operation;
use pair_manager::CommitPoint;
use seg_file::Segment;
use std::alloc::Global;
use std::hash::RandomState;
use std::marker::PhantomData;
use std::snapshot::Snapshot;
use std::sync::Arc;
use taxo_list::Taxonomy;

/// A disk with an opened store: its labels and segments, the committer that continues from them, and the disk as it was
/// when opening began.
#[derive(Drop)]
pub struct Begun<D: Disk> {
    /// The committer that continues from the store.
    pub committer: Committer<D>,
    /// The labels of the store.
    pub labels: Taxonomy,
    /// The segments of the store, in order.
    pub segments: Vec<Arc<Segment>>,
    /// The disk as it was when opening began. It exists in proofs only.
    pub start: Snapshot<D>,
}

/// Opens the store of a disk. It writes nothing. Costs and errors are those of [`Committer::open`].
pub fn begin<D: Disk>(
    alloc: Global,
    keys: RandomState,
    disk: D,
    config: FacetsConfig,
) -> Result<Begun<D>, NotOpened<D>>
    // Commits go on from it.
    ensures start { IfOk result (λ b. (b.start.value ≡ disk) × (b.committer.config ≡ config)) }
    ensures opened { IfOk result (λ b. IsOpened D.Disk disk b.committer b.labels (map arc_value b.segments.items)) }
    ensures few { IfOk result (λ b. length (docs_in b.labels (map arc_value b.segments.items)) ≤ 1000000) }
    ensures next { IfOk result (λ b. (s : Told) → D.told disk ≡ Some s
        → b.committer.state.next ≡ next_after (greatest_number s.files)) }

    // Or the first fault of the files that the disk reads is returned.
    ensures err { IfErr result (λ n. n.fault ≢ NoRoom → n.fault ≢ FaultOfDisk
        → (s : Told) → D.told disk ≡ Some s → files config s.files ≡ Err n.fault) }
    ensures fault { IfErr result (λ n. n.fault ≡ FaultOfDisk → Rose (D.faults disk) (D.faults n.disk)) }
    ensures failed { IfErr result
        (λ n. n.fault ≡ FaultOfDisk → (s : Told) → D.told disk ≡ Some s → Rose (D.failures disk) (D.failures n.disk)) }
    ensures still { IfErr result (λ n. n.fault ≢ FaultOfDisk → D.faults n.disk ≡ D.faults disk) }
    ensures sound { IfErr result (λ n. IsSound n.fault) }
    ensures quiet { IfErr result (λ n. IsQuiet D.Disk disk n.disk) }
{
    let start = Snapshot::of(&disk);
    let Opened {
        committer,
        labels,
        segments,
    } = Committer::open(alloc, keys, disk, config)?;
    Ok(Begun {
        committer,
        labels,
        segments,
        start,
    })
}

/// Opens the commits chronicle over a committer. The token of the labels has seen its labels, and the operations that
/// the other token has seen leave its documents. The opening point has the numbers of both.
///
/// Errors: out of memory. The error is the disk.
pub fn open_commits<D: Disk, N: Start, L: Standing<Entry = Path>, I: Standing<Entry = Operation>>(
    alloc: Global,
    committer: Committer<D>,
    start: Snapshot<D>,
    labels: &Chronicle<L>,
    operations: &Chronicle<I>,
    seen_labels: &mut Token<Path>,
    seen_operations: &mut Token<Operation>,
    opened: CommitPoint,
) -> Result<(Chronicle<CommitTurn<D, N>>, Token<CommitPoint>), D>
    requires own { (seen_labels.old.identity ≡ labels.now) × (seen_operations.old.identity ≡ operations.now) }
    requires list { SeesLabels seen_labels.old }
    requires opened { IsOpenedAs D.Disk start.value committer (labels_of seen_labels.old.seen)
        (docs_of seen_operations.old.seen) }
    requires told { N.told → (s : Told) × (D.told start.value ≡ Some s) }
    requires settled { N.settled → WasSettled D.Disk committer.config start.value }
    requires quiet { N.quiet (state_of D.Disk committer.disk) }
    requires point { opened ≡ made (length seen_operations.old.seen) (length (labels_of seen_labels.old.seen)) }
    ensures tokens { (seen_labels.new ≡ seen_labels.old) × (seen_operations.new ≡ seen_operations.old) }
    ensures own { IfOk result (λ r. (r.1.identity ≡ r.0)
        × (r.1.frame ≡ begun_frame D.Disk start.value committer operations.now labels.now)) }
    ensures first { IfOk result (λ r. MayTake r.1 × (r.1.number ≡ 0) × (r.1.made ≡ 0)) }
    ensures seen { IfOk result (λ r. r.1.seen ≡ numbered 0 (opened ∷ [])) }
    ensures err { IfErr result (λ d. d ≡ committer.disk) }
{
    let begun = Snapshot::of(&committer);
    let turn = CommitTurn {
        committer,
        last: opened,
        operations: operations.note(seen_operations),
        labels: labels.note(seen_labels),
        start,
        begun,
        of: PhantomData,
    };
    match Chronicle::open(alloc, turn) {
        Ok(commits) => Ok(commits),
        Err(turn) => Err(into_disk(turn)),
    }
}

// The disk of the value.
fn into_disk<D: Disk, N: Start>(turn: CommitTurn<D, N>) -> D
    ensures { result ≡ turn.committer.disk }
{
    let CommitTurn {
        committer,
        last: _,
        operations: _,
        labels: _,
        start: _,
        begun: _,
        of: _,
    } = turn;
    committer.into_disk()
}
