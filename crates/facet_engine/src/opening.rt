ghost use Rattle.std.specs.Prelude.{◌≡◌, ◌≢◌, ◌≤◌, ◌∷◌, [], Some, Err, IfOk, IfErr, length, map};
ghost use Rattle.std.specs.Arc.{arc_value};
ghost use Rattle.chronicle.specs.History.{entries, numbered};
ghost use Rattle.chronicle.specs.Shown.{MayTake};
ghost use Rattle.facet_disk.specs.Calls.{Rose};
ghost use Rattle.facet_disk.specs.Images.{Told};
ghost use Rattle.facet_model.specs.Histories.{opened};
ghost use Rattle.facet_output.specs.Output.{opened_pair};
ghost use Rattle.facet_output.specs.Seen.{opened_seen};
ghost use Rattle.facet_words.specs.CommandViews.{settings_view};
ghost use Rattle.store_opening.specs.declared.fault.OpenFault.TheVariants.{Disk as FaultOfDisk, NoMemory as NoRoom};
ghost use Rattle.store_opening.specs.Faults.{IsSound};
ghost use Rattle.store_opening.specs.Files.{files, greatest_number};
ghost use Rattle.store_opening.specs.Newest.{next_after};
ghost use Rattle.store_opening.specs.Quiet.{IsQuiet};
ghost use Rattle.store_opening.specs.Settled.{IsSettled};
ghost use Rattle.commit_turns.specs.DiskStates.{state_of};
ghost use Rattle.commit_turns.specs.Frames.{HasNumbers, begun_frame};
ghost use Rattle.index_state.specs.Frames.{index_frame};
ghost use Rattle.index_state.specs.Index.{docs_under, DecodeUnder};
ghost use Rattle.pair_manager.specs.Passes.{IsFirst};
ghost use Rattle.pair_manager.specs.Published.{ArePublications, pair_frame, seen_of as all_seen};
ghost use Rattle.taxo_cache.specs.Seen.{labels_of, SeesLabels};
ghost use Rattle.commit_turns.specs.Opening.{WasSettled, IsOpenedAs};
ghost use Rattle.commit_turns.specs.Points.{made};
ghost use Rattle.commit_turns.specs.Seen.{docs_of};
ghost use Rattle.seg_documents.specs.Decoding.{records_in};
ghost use Rattle.seg_documents.specs.Storing.{AreStored};
ghost use Rattle.facet_engine.specs.Opening.{IsReady, opened_of};
ghost use Rattle.facet_engine.specs.Sessions.{HaveOneNumber, NamesSession};
ghost use Rattle.facet_engine.specs.Steps.{seen_of};
ghost use Rattle.facet_engine.specs.Systems.{BelongsTo, HasSettings};
ghost use Rattle.facet_engine.specs.Exchange.{HaveMade};

use crate::system::System;
use chronicle::{Chronicle, Token};
use commit_store::{Committer, NotOpened};
use commit_turns::{Begun, CommitTurn, Start, begin, open_commits};
use facet_config::FacetsConfig;
use facet_disk::Disk;
use facet_names::{NoMemory, Path};
use facet_words::Settings;
use index_state::{Operation, count_documents};
use pair_manager::{CommitPoint, Manager, Pass, Publication};
use seg_file::Segment;
use std::alloc::Global;
use std::hash::RandomState;
use std::snapshot::Snapshot;
use std::sync::Arc;
use store_opening::OpenFault;
use taxo_cache::Name;
use taxo_list::{Labelled, TaxoView};
use taxo_writer::{LabelList, TaxoWriter};

/// A disk with an opened store, and the chronicle of its labels. A [`System`] is made of it.
#[derive(Drop)]
pub struct Store<D: Disk> {
    pub(crate) keys: RandomState,
    pub labels: Chronicle<LabelList>,
    pub start: Snapshot<D>,
    pub(crate) committer: Committer<D>,
    pub(crate) first: Token<Path>,
    pub(crate) view: TaxoView,
    pub(crate) segments: Vec<Arc<Segment>>,
}

impl<D: Disk> Store<D> {
    /// Opens the store of a disk. It writes nothing. It reads the newest commit of each directory and the segments that
    /// it names, each file once, and copies the labels; see `commit_store::Committer::open` for the costs. `keys` are
    /// hash keys; no result depends on them.
    ///
    /// Errors: the first fault of the files, a failing call of the disk, or out of memory. Each comes with the disk.
    pub fn open(
        alloc: Global,
        keys: RandomState,
        disk: D,
        config: FacetsConfig,
    ) -> Result<Store<D>, NotOpened<D>>
        // A system goes on from it.
        ensures start { IfOk result (λ s. s.start.value ≡ disk) }
        ensures ready { IfOk result (IsReady D.Disk config) }
        ensures next { IfOk result (λ s. (t : Told) → D.told disk ≡ Some t
            → s.committer.state.next ≡ next_after (greatest_number t.files)) }

        // Or the first fault of the files that the disk reads is returned.
        ensures err { IfErr result (λ n. n.fault ≢ NoRoom → n.fault ≢ FaultOfDisk
            → (t : Told) → D.told disk ≡ Some t → files config t.files ≡ Err n.fault) }
        ensures fault { IfErr result (λ n. n.fault ≡ FaultOfDisk → Rose (D.faults disk) (D.faults n.disk)) }
        ensures failed { IfErr result (λ n. n.fault ≡ FaultOfDisk → (t : Told) → D.told disk ≡ Some t
            → Rose (D.failures disk) (D.failures n.disk)) }
        ensures still { IfErr result (λ n. n.fault ≢ FaultOfDisk → D.faults n.disk ≡ D.faults disk) }
        ensures sound { IfErr result (λ n. IsSound n.fault) }
        ensures quiet { IfErr result (λ n. IsQuiet D.Disk disk n.disk) }
    {
        let Begun {
            committer,
            labels,
            segments,
            start,
        } = begin(alloc, keys, disk, config)?;
        let Ok(view) = labels.view() else {
            return Err(without_memory(committer.into_disk()));
        };
        match Chronicle::open(alloc, LabelList::new(labels)) {
            Ok((labels, first)) => Ok(Store {
                keys,
                labels,
                start,
                committer,
                first,
                view,
                segments,
            }),
            Err(_) => Err(without_memory(committer.into_disk())),
        }
    }
}

impl<D: Disk> Store<D> {
    /// Returns how many documents were opened, and how many labels with the root. It visits the segments, and allocates
    /// nothing.
    pub fn opened(&self) -> (u64, u32)
        requires few { length (opened_of self.now).docs ≤ 1000000 }
        requires viewed { self.now.view ≡ (opened_of self.now).labels }
        ensures { result ≡ opened_pair (opened_of self.now) }
    {
        (count_documents(&self.segments) as u64, self.view.size())
    }

    /// Returns the disk.
    pub fn into_disk(self) -> D
        ensures { result ≡ self.committer.disk }
    {
        self.committer.into_disk()
    }
}

// Returns the disk, with the fault that there is no memory.
fn without_memory<D: Disk>(disk: D) -> NotOpened<D>
    ensures { (result.fault ≡ NoRoom) × (result.disk ≡ disk) }
{
    NotOpened {
        fault: OpenFault::NoMemory,
        disk,
    }
}

// The manager over these labels, documents and settings, with the config that it shares, and the first tokens of the
// operations and the pairs.
fn open_manager<N: Name>(
    alloc: Global,
    keys: RandomState,
    labels: Chronicle<LabelList>,
    first: &mut Token<Path>,
    view: TaxoView,
    segments: Vec<Arc<Segment>>,
    settings: Settings,
) -> Result<
    (
        Manager<N>,
        Arc<FacetsConfig>,
        Token<Operation>,
        Token<Publication>,
    ),
    NoMemory,
>
    requires name { labels ≡ N.labels }
    requires own { first.old.identity ≡ labels }
    requires list { SeesLabels first.old }
    requires view { view ≡ labels_of first.old.seen }
    requires decodes { DecodeUnder first.old settings.config (map arc_value segments.items) }
    requires read { AreStored (map arc_value segments.items) }
    requires few { length (docs_under first.old (map arc_value segments.items)) ≤ 1000000 }
    ensures first { first.new ≡ first.old }
    ensures writer { IfOk result (λ r. r.0.writer ≡ record { labels = labels; limit = settings.max_labels }) }
    ensures config { IfOk result (λ r. arc_value r.1 ≡ settings.config) }
    ensures operations { IfOk result (λ r. IsFirst r.2 r.0.operations
        (opened (docs_under first.old (map arc_value segments.items)))) }
    ensures pairs { IfOk result (λ r. IsFirst r.3 r.0.pairs (all_seen r.2 first.old ∷ [])) }
    ensures right { IfOk result (λ r. ArePublications first.old.seen r.2.seen (entries r.3.seen)) }
    ensures index_frame { IfOk result (λ r. r.2.frame ≡ index_frame settings.config settings.max_docs labels) }
    ensures pair_frame { IfOk result (λ r. r.3.frame ≡ pair_frame settings.config r.0.operations labels) }
{
    let Settings {
        config,
        max_docs,
        max_labels,
        stripes,
        cache,
        ..
    } = settings;
    let config = Arc::new(alloc, config)?;
    let shared = Arc::try_clone(&config)?;
    let writer = TaxoWriter::open(alloc, keys, labels, first, stripes, cache, max_labels)?;
    let (manager, operations, pairs) = Manager::open(
        alloc, keys, writer, first, view, segments, shared, max_docs,
    )?;
    Ok((manager, config, operations, pairs))
}

// Returns the commit point of what was opened.
fn opening_point(labels: &TaxoView, segments: &[Arc<Segment>]) -> CommitPoint
    requires { length (records_in (map arc_value segments.now)) ≤ 1000000 }
    ensures { result ≡ made (length (records_in (map arc_value segments.now))) (length labels.now) }
{
    CommitPoint {
        operations: count_documents(segments) as u64,
        labels: labels.size(),
        failed: None,
    }
}

// Opens the chronicle of the commits to what a manager publishes, with the point of what was opened.
//
// Errors: out of memory, with the disk.
fn begin_commits<D: Disk, N: Name + Start>(
    alloc: Global,
    committer: Committer<D>,
    start: Snapshot<D>,
    manager: &Manager<N>,
    labels: &mut Token<Path>,
    operations: &mut Token<Operation>,
    point: CommitPoint,
) -> Result<(Chronicle<CommitTurn<D, N>>, Token<CommitPoint>), NotOpened<D>>
    requires own { (labels.old.identity ≡ manager.now.writer.labels)
        × (operations.old.identity ≡ manager.now.operations) }
    requires list { SeesLabels labels.old }
    requires opened { IsOpenedAs D.Disk start.value committer (labels_of labels.old.seen)
        (docs_of operations.old.seen) }
    requires told { N.told → (t : Told) × (D.told start.value ≡ Some t) }
    requires settled { N.settled → WasSettled D.Disk committer.config start.value }
    requires quiet { N.quiet (state_of D.Disk committer.disk) }
    requires point { point ≡ made (length operations.old.seen) (length (labels_of labels.old.seen)) }
    ensures tokens { (labels.new ≡ labels.old) × (operations.new ≡ operations.old) }
    ensures own { IfOk result (λ r. (r.1.identity ≡ r.0)
        × (r.1.frame ≡ begun_frame D.Disk start.value committer manager.now.operations manager.now.writer.labels)) }
    ensures first { IfOk result (λ r. MayTake r.1 × (r.1.number ≡ 0) × (r.1.made ≡ 0)) }
    ensures seen { IfOk result (λ r. r.1.seen ≡ numbered 0 (point ∷ [])) }
    ensures err { IfErr result (λ n. (n.fault ≡ NoRoom) × (n.disk ≡ committer.disk)) }
{
    let opened = open_commits(
        alloc,
        committer,
        start,
        manager.writer().labels(),
        manager.operations(),
        labels,
        operations,
        point,
    );
    match opened {
        Ok(opened) => Ok(opened),
        Err(disk) => Err(without_memory(disk)),
    }
}

impl<D: Disk, N: Name + Start> System<D, N> {
    /// Makes a system of a store, with its first pass, and publishes the pair of what was opened. `N` has to name the
    /// labels of the store. It allocates the cache of labels, and four bytes per document.
    ///
    /// Errors: out of memory, with the disk.
    pub fn open(
        alloc: Global,
        store: Store<D>,
        settings: Settings,
    ) -> Result<(System<D, N>, Pass), NotOpened<D>>
        requires ready { IsReady D.Disk settings.config store }
        requires name { store.labels ≡ N.labels }
        requires told { (N.told → (t : Told) × (D.told store.start.value ≡ Some t))
            × ((t : Told) → D.told store.start.value ≡ Some t → N.told) }
        requires settled { (N.settled → WasSettled D.Disk settings.config store.start.value)
            × ((t : Told) → D.told store.start.value ≡ Some t → IsSettled D.Disk settings.config t store.start.value
            → N.settled) }
        requires quiet { N.quiet (state_of D.Disk store.committer.disk)
            × ((d : D) → N.quiet (state_of D.Disk d) → IsQuiet D.Disk store.start.value d) }

        // The pass has seen what was opened.
        ensures own { IfOk result (λ r. BelongsTo r.0 r.1) }
        ensures first { IfOk result (λ r. HaveOneNumber 0 r.1 × HaveMade 0 r.1) }
        ensures named { IfOk result (λ r. NamesSession 0 r.1) }
        ensures settings { IfOk result (λ r. HasSettings r.0 r.1 (settings_view settings)) }
        ensures seen { IfOk result (λ r. seen_of r.1 ≡ opened_seen (opened_of store)) }

        ensures opened { IfOk result (λ r. r.0.opened
            ≡ (length (opened_of store).docs, length (opened_of store).labels)) }

        // Its commits count from the disk as it was at the start.
        ensures numbers { IfOk result (λ r. HasNumbers store.committer.state.next (D.moment store.start.value)
            (D.faults store.start.value)
            (D.failures store.start.value) r.1.commits.frame) }

        // Or there was no memory, and the disk is as the store had it.
        ensures fault { IfErr result (λ n. (n.fault ≡ NoRoom) × (n.disk ≡ store.committer.disk)) }
    {
        let Store {
            keys,
            labels,
            start,
            committer,
            mut first,
            view,
            segments,
        } = store;
        let point = opening_point(&view, &segments);
        let auto_merge = settings.auto_merge;
        let (manager, config, mut operations, pairs) = match open_manager(
            alloc, keys, labels, &mut first, view, segments, settings,
        ) {
            Ok(opened) => opened,
            Err(NoMemory) => return Err(without_memory(committer.into_disk())),
        };
        let (commits, token) = begin_commits(
            alloc,
            committer,
            start,
            &manager,
            &mut first,
            &mut operations,
            point,
        )?;
        let system = System {
            alloc,
            config,
            manager,
            commits,
            opened: (point.operations, point.labels),
            auto_merge,
        };
        let pass = Pass {
            labels: first,
            operations,
            pairs,
            commits: token,
        };
        Ok((system, pass))
    }
}
