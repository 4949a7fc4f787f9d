ghost use Rattle.std.specs.Prelude.{◌≡◌, ◌≢◌, ◌≤◌, ◌+◌, ◌^◌, ◌↔◌, [], ℕ, Some, None, Err, length, map, OnOk, IfOk};
ghost use Rattle.std.specs.Prelude.{IfErr};
ghost use Rattle.std.specs.Arc.{arc_value};
ghost use Rattle.facet_disk.specs.Images.{Told};
ghost use Rattle.facet_disk.specs.Calls.{Rose};
ghost use Rattle.facet_model.specs.Stored.{Decodes};
ghost use Rattle.facet_names.specs.Labels.{IsLabelList};
ghost use Rattle.commit_calls.specs.Held.{Below};
ghost use Rattle.seg_documents.specs.Decoding.{docs_in, records_in};
ghost use Rattle.seg_documents.specs.Storing.{AreStored};
ghost use Rattle.commit_plan.specs.declared.fault.CommitFault.TheVariants.{Disk as OfDisk, Closed, NumbersSpent};
ghost use Rattle.store_opening.specs.declared.fault.OpenFault.TheVariants.{Disk as FaultOfDisk, NoMemory as NoRoom};
ghost use Rattle.store_opening.specs.Faults.{IsSound};
ghost use Rattle.store_opening.specs.Files.{files, greatest_number};
ghost use Rattle.store_opening.specs.Newest.{AreListed, next_after};
ghost use Rattle.store_opening.specs.Quiet.{IsQuiet};
ghost use Rattle.store_opening.specs.Settled.{IsSettled};
ghost use Rattle.commit_plan.specs.Committed.{segments_in};
ghost use Rattle.commit_store.specs.Committing.{HasFiles};
ghost use Rattle.commit_plan.specs.Drafts.{committed_after};
ghost use Rattle.commit_store.specs.Promised.{IsHere, OfBoth, PassesThree, LeavesThree, Acknowledges, Settles};
ghost use Rattle.commit_store.specs.Promised.{TellsCommit, AreAmong, HasNamed, StaysListed, CutsShort, ClosesAt};
ghost use Rattle.commit_store.specs.Promised.{FailsDevice, last_of, IsSpentAt, IsRefusedAt};

use crate::opening::{NotOpened, Opened};
use commit_calls::execute_plan;
use commit_plan::{CommitFault, CommitState, plan_commit, state_of};
use facet_config::FacetsConfig;
use facet_disk::Disk;
use seg_file::Segment;
use std::alloc::Global;
use std::hash::RandomState;
use std::marker::Model;
use std::sync::Arc;
use store_opening::{OpenFault, Read, read_store};
use taxo_list::TaxoView;

/// A disk that commits are written to, with what is known of its newest commits. After a commit ended with a failed
/// disk call it accepts no more commits.
#[derive(Drop)]
pub struct Committer<D: Disk> {
    disk: D,
    config: FacetsConfig,
    state: CommitState,
    // the disk's count of faults when a commit failed
    closed: Option<u64>,
    alloc: Global,
}

impl<D: Disk> Model for Committer<D> {
    ghost use Rattle.std.specs.Prelude.{◌≤◌, ◌^◌};
    ghost use Rattle.commit_store.specs.Committers.{CommitterView};

    ghost Value = { CommitterView D };

    ghost view = { λ c. record { closed = c.closed; config = c.config; state = c.state; disk = c.disk } };

    ghost invariant = { λ c. c.state.next ≤ 2 ^ 63 };
}

impl<D: Disk> Committer<D> {
    /// Opens a disk: reads the store that it holds, and writes nothing. For the costs see `store_opening::read_store`.
    /// `keys` are hash keys; no result depends on them.
    ///
    /// Errors: the first fault of the files, `Disk` if a call of the disk failed, or out of memory. Each comes with the
    /// disk.
    pub fn open(
        alloc: Global,
        keys: RandomState,
        mut disk: D,
        config: FacetsConfig,
    ) -> Result<Opened<D>, NotOpened<D>>
        // The labels and the segments are those of the files that the disk reads, or the error is the first fault of
        // these files.
        ensures ok { IfOk result (λ o. (s : Told) → D.told disk ≡ Some s
            → HasFiles config o.labels (map arc_value o.segments.items) s.files) }
        ensures err { IfErr result (λ n. n.fault ≢ NoRoom → n.fault ≢ FaultOfDisk → (s : Told) → D.told disk ≡ Some s
            → files config s.files ≡ Err n.fault) }
        ensures fault { IfErr result (λ n. n.fault ≡ FaultOfDisk → Rose (D.faults disk) (D.faults n.disk)) }
        ensures failed { IfErr result (λ n. n.fault ≡ FaultOfDisk → (s : Told) → D.told disk ≡ Some s
            → Rose (D.failures disk) (D.failures n.disk)) }
        ensures sound { IfErr result (λ n. IsSound n.fault) }

        // Nothing on the disk changed.
        ensures quiet { IfOk result (λ o. IsQuiet D.Disk disk o.committer.disk) }
        ensures not_opened { IfErr result (λ n. IsQuiet D.Disk disk n.disk) }
        ensures still { IfOk result (λ o. D.faults o.committer.disk ≡ D.faults disk) }
        ensures still_not_opened { IfErr result (λ n. n.fault ≢ FaultOfDisk → D.faults n.disk ≡ D.faults disk) }
        ensures unfailed { IfOk result (λ o. D.failures o.committer.disk ≡ D.failures disk) }

        // The committer knows these labels and segments as those of the newest commits.
        ensures kept { IfOk result (λ o. (segments_in o.committer.state.kept ≡ map arc_value o.segments.items)
            × (o.committer.state.labels ≡ length o.labels)) }

        // Whatever the disk returns, the labels are a label list, and the segments have their documents, at most
        // 1,000,000.
        ensures list { IfOk result (λ o. IsLabelList o.labels) }
        ensures decodes { IfOk result (λ o. Decodes o.labels config (map arc_value o.segments.items)
            (docs_in o.labels (map arc_value o.segments.items))) }
        ensures few { IfOk result (λ o. length (docs_in o.labels (map arc_value o.segments.items)) ≤ 1000000) }
        ensures own { IfOk result (λ o. AreStored (map arc_value o.segments.items)) }
        ensures some { IfOk result (λ o. docs_in o.labels (map arc_value o.segments.items) ≡ []
            → map arc_value o.segments.items ≡ []) }

        // Commits continue from it.
        ensures unclosed { IfOk result (λ o. (o.committer.closed ≡ None) × (o.committer.config ≡ config)) }
        ensures next { IfOk result (λ o. (s : Told) → D.told disk ≡ Some s
            → o.committer.state.next ≡ next_after (greatest_number s.files)) }
        ensures fresh { IfOk result (λ o. (s : Told) → D.told disk ≡ Some s → Below o.committer.state.next s.files) }
        ensures listed { IfOk result (λ o. (s : Told) → D.told disk ≡ Some s
            → AreListed s.files o.committer.state.listed) }
        ensures named { IfOk result (λ o. (s : Told) → D.told disk ≡ Some s → HasNamed s.files o.committer.state) }
        ensures committed { IfOk result (λ o. (s : Told) → D.told disk ≡ Some s → IsSettled D.Disk config s disk
            → IsHere D.Disk config o.committer o.labels (map arc_value o.segments.items)) }
    {
        let read = read_store(alloc, keys, &mut disk, &config);
        disk.rest();
        let read = match read {
            Ok(read) => read,
            Err(fault) => return Err(NotOpened { fault, disk }),
        };
        let Read {
            newest,
            labels,
            segments,
        } = read;
        let Ok(state) = state_of(alloc, newest, &config, &labels, &segments) else {
            return Err(NotOpened {
                fault: OpenFault::NoMemory,
                disk,
            });
        };
        let committer = Committer {
            disk,
            config,
            state,
            closed: None,
            alloc,
        };
        Ok(Opened {
            committer,
            labels,
            segments,
        })
    }

    /// Commits labels and segments. After `Ok` the commit is durable.
    ///
    /// - It writes and syncs a file for the new labels, one for each new segment, and a pending commit file for each of
    ///   the two directories.
    /// - Then it renames the commit file of the taxonomy, and after that the one of the index, and syncs the names of
    ///   each directory.
    /// - Last it removes each file that is neither a newest commit nor named by one: the taxonomy's files first; in a
    ///   directory segments before pending files before commit files; by rising numbers.
    ///
    /// A directory without news gets no commit file. The index has no news if the segments are the committed ones, each
    /// with the same live records. A segment that has fewer live records now keeps its file, and the commit file says
    /// which of its records are live. Strays are removed in each case.
    ///
    /// It allocates all memory before its first disk call: the bytes of the new files, and the names of all files.
    ///
    /// Errors: `Closed` after an earlier commit failed on the disk; `Disk` if a disk call failed; `NumbersSpent` if a
    /// file would need a number of 2^63 or more; out of memory. `NumbersSpent`, `Closed` and out of memory come before
    /// the first disk call. After `Disk`, a crash leaves one of the states that a crash during the commit may leave.
    pub fn commit(&mut self, view: &TaxoView, segments: &[Arc<Segment>]) -> Result<(), CommitFault>
        requires few { length (records_in (map arc_value segments.now)) ≤ 1000000 }
        requires own { AreStored (map arc_value segments.now) }
        requires decodes { Decodes view.now self.old.config (map arc_value segments.now)
            (docs_in view.now (map arc_value segments.now)) }

        // At each moment, every image has the files of the pair before, of the old segments under the new labels, or of
        // the pair after.
        ensures any_moment { self.old.closed ≡ None
            → PassesThree D.Disk self.old self.new view.now (map arc_value segments.now) }

        // So has every image when the call ends, whatever it returns.
        ensures now { self.old.closed ≡ None
            → LeavesThree D.Disk self.old self.new view.now (map arc_value segments.now) }

        // After `Ok` every image has the files of the pair after.
        ensures acknowledged { OnOk result (Acknowledges D.Disk self.old self.new view.now
            (map arc_value segments.now)) }

        // Then the disk is settled, which the next opening may require.
        ensures settled { OnOk result (Settles D.Disk self.old self.new view.now (map arc_value segments.now)) }

        // After `Ok` the disk reads as before, with the files of the commit made, its pending files renamed and its
        // strays removed.
        ensures told { OnOk result (TellsCommit D.Disk self.old self.new view.now (map arc_value segments.now)) }
        ensures state { OnOk result (self.new.state
            ≡ committed_after self.old.config self.old.state view.now (map arc_value segments.now)) }

        // If only listed files were there before, only the newest commit files and the segments that they name are
        // left. Each of these is there if each of those before was.
        ensures cleaned { OnOk result (OfBoth D.Disk self.old.disk self.new.disk (λ s u.
            AreAmong s.files self.old.state.listed → AreAmong u.files self.new.state.listed)) }
        ensures listed { OnOk result (StaysListed D.Disk self.old self.new) }
        ensures named { OnOk result (OfBoth D.Disk self.old.disk self.new.disk (λ s u. HasNamed s.files self.old.state
            → HasNamed u.files self.new.state)) }

        // If a fault ends it, the strays removed so far are the first ones, and none was removed before all else was
        // done.
        ensures cut_short { IfErr result (λ e. (count : ℕ) → e ≡ OfDisk count
            → CutsShort D.Disk self.old self.new view.now (map arc_value segments.now)) }

        ensures fresh { OnOk result (OfBoth D.Disk self.old.disk self.new.disk
            (λ s u. Below self.old.state.next s.files → Below self.new.state.next u.files)) }

        // If it fails, what is known of the newest commits stays.
        ensures known { IfErr result (λ _. self.new.state ≡ self.old.state) }
        ensures refused { IfErr result (λ e. ((count : ℕ) → e ≢ OfDisk count) → self.new ≡ self.old) }
        ensures disk { IfErr result (λ e. (count : ℕ) → e ≡ OfDisk count → ClosesAt D.Disk self.old self.new count) }

        // If what is known is true of the files on the disk, every call is allowed, so an error means an I/O error.
        ensures failed { IfErr result (λ e. (count : ℕ) → e ≡ OfDisk count → FailsDevice D.Disk self.old self.new) }
        ensures unfailed { OnOk result (D.failures self.new.disk ≡ D.failures self.old.disk) }

        ensures closed { (count : ℕ) → (self.old.closed ≡ Some count) ↔ (result ≡ Err (Closed count)) }
        ensures spent { IfErr result (λ e. (number : ℕ) → e ≡ NumbersSpent number
            → IsSpentAt self.old.state.next (last_of self.old view.now (map arc_value segments.now)) number) }
        ensures unspent { self.old.closed ≡ None
            → IsRefusedAt (last_of self.old view.now (map arc_value segments.now)) result }
        ensures tells { (s : Told) → D.told self.old.disk ≡ Some s → (u : Told) × (D.told self.new.disk ≡ Some u) }
        ensures open { OnOk result ((self.old.closed ≡ None) × (self.new.closed ≡ None)) }
        ensures later { D.faults self.old.disk ≤ D.faults self.new.disk }
        ensures still { OnOk result (D.faults self.new.disk ≡ D.faults self.old.disk) }
        ensures room { self.new.state.next ≤ 2 ^ 63 }
        ensures takes { (self.old.state.next ≤ self.new.state.next)
            × (self.new.state.next ≤ self.old.state.next + 1000003) }
        ensures config { self.new.config ≡ self.old.config }
    {
        if let Some(count) = self.closed {
            return Err(CommitFault::Closed { count });
        }
        let planned = plan_commit(self.alloc, &self.config, &self.state, view, segments)?;
        let executed = execute_plan(&mut self.disk, &planned.plan);
        self.disk.rest();
        if executed.is_err() {
            let count = self.disk.fault_count();
            self.closed = Some(count);
            return Err(CommitFault::Disk { count });
        }
        self.state = planned.after;
        Ok(())
    }

    /// Returns the disk's count of faults when a commit failed, or `None` if none failed. After such a commit every
    /// commit returns `Closed`.
    pub fn closed(&self) -> Option<u64>
        ensures { result ≡ self.now.closed }
    {
        self.closed
    }

    /// Returns the disk.
    pub fn into_disk(self) -> D
        ensures { result ≡ self.disk }
    {
        self.disk
    }
}
