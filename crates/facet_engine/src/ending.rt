ghost use Rattle.std.specs.Prelude.{◌≡◌, ◌≤◌, ℕ, Some, All, length, map};
ghost use Rattle.chronicle.specs.History.{entries};
ghost use Rattle.facet_disk.specs.Calls.{Rose};
ghost use Rattle.facet_disk.specs.Images.{Told};
ghost use Rattle.facet_model.specs.ConfigTexts.{config_texts};
ghost use Rattle.facet_model.specs.Flags.{Config};
ghost use Rattle.facet_names.specs.Labels.{IsLabelList};
ghost use Rattle.facet_output.specs.Seen.{IsTold, labels_of};
ghost use Rattle.commit_turns.specs.DiskStates.{state_of};
ghost use Rattle.commit_turns.specs.Ending.{Lasts, FailsWith};
ghost use Rattle.commit_turns.specs.Frames.{HasNumbers};
ghost use Rattle.commit_turns.specs.Points.{count_after, last_of};
ghost use Rattle.facet_engine.specs.Ending.{AreUpTo, ArePublished, NamesOwn};
ghost use Rattle.facet_engine.specs.Notes.{noted, AreOf};
ghost use Rattle.facet_engine.specs.Sessions.{HaveOneNumber, NamesSession};
ghost use Rattle.facet_engine.specs.Steps.{seen_of};
ghost use Rattle.facet_engine.specs.Systems.{BelongsTo};
ghost use Rattle.facet_engine.specs.Exchange.{HaveMade};

use crate::notes::Notes;
use crate::system::System;
use commit_turns::{Start, end_commits};
use facet_disk::Disk;
use pair_manager::Pass;
use std::sync::Wait;
use taxo_cache::Name;
use taxo_list::Taxonomy;

/// What sessions have entered: the labels, and for each operation the number of its session, in order.
#[derive(Drop)]
pub struct Trace {
    /// All labels, with the root.
    pub labels: Taxonomy,
    /// The number of the session of each operation; 0 for those that were opened.
    pub sessions: Vec<u32>,
}

/// What remains of a system: its trace, its disk, and notes of all labels, operations and commits that were ever
/// entered.
#[derive(Drop)]
pub struct EndedSystem<D: Disk> {
    /// The labels, and the session of each operation.
    pub trace: Trace,
    /// The disk, which can be opened again.
    pub disk: D,
    /// Notes of all labels, operations, pairs and commits.
    pub notes: Notes,
}

impl<D: Disk, N: Name + Start> System<D, N> {
    /// Ends the system and returns its disk. It allocates nothing and writes nothing: what was not committed is lost.
    ///
    /// Locks: those of the commits, the operations and the labels, in this order and for good. A later call that needs
    /// one of them waits for ever, so end the sessions first.
    pub fn end<R: Wait>(&self, rt: &R, first: Pass) -> EndedSystem<D>
        requires own { BelongsTo self.now first }
        requires numbers { HaveOneNumber 0 first }

        // The trace has all labels and operations that the notes show.
        ensures labels { result.trace.labels ≡ labels_of (noted result.notes) }
        ensures sessions { result.trace.sessions.items ≡ map (λ e. e.1.session) result.notes.operations.seen }
        ensures list { IsLabelList (labels_of (noted result.notes)) }
        ensures published { ArePublished (noted result.notes) }

        // They show all that the pass had seen, and what sessions have entered since, none under a number that was not
        // given.
        ensures own { AreOf self.now result.notes }
        ensures told { IsTold 0 (seen_of first) (noted result.notes) }
        ensures numbers { (made : ℕ) → HaveMade made first → AreUpTo made (noted result.notes) }
        ensures named { NamesSession 0 first → NamesOwn 0 result.notes }

        // The disk counts at least the faults of each commit that failed on it, whose count rose since opening began,
        // and no fewer than then: just what the last commit learned, where that failed on it, and otherwise what it
        // counted then.
        ensures counts { All (λ p. (count : ℕ) → p.failed ≡ Some count → count ≤ D.faults result.disk)
            (entries result.notes.commits.seen) }
        ensures rose { (next moment faults failures : ℕ) → HasNumbers next moment faults failures first.commits.frame
            → All (λ p. (count : ℕ) → p.failed ≡ Some count → Rose faults count) (entries result.notes.commits.seen) }
        ensures later { (next moment faults failures : ℕ) → HasNumbers next moment faults failures first.commits.frame
            → faults ≤ D.faults result.disk }
        ensures exact { (next moment faults failures : ℕ) → HasNumbers next moment faults failures first.commits.frame
            → D.faults result.disk ≡ count_after faults (last_of (entries result.notes.commits.seen)).failed }

        // Where the disk reported its files when opening began, it still does, and its device failed exactly where a
        // commit failed on it.
        ensures tells { N.told → (s : Told) × (D.told result.disk ≡ Some s) }
        ensures failed { (next moment faults failures : ℕ) → N.told
            → HasNumbers next moment faults failures first.commits.frame
            → FailsWith D.Disk failures (last_of (entries result.notes.commits.seen)).failed result.disk }

        // Where it was settled too, what was committed lasts.
        ensures lasts { (config : Config) (next moment faults failures : ℕ) → N.settled
            → config_texts config ≡ first.commits.frame.texts
            → HasNumbers next moment faults failures first.commits.frame
            → Lasts D.Disk config moment (labels_of (noted result.notes)) (entries result.notes.operations.seen)
            (entries result.notes.commits.seen) result.disk }

        // Where there is no point of a commit but the opened one, nothing was written.
        ensures quiet { length (entries result.notes.commits.seen) ≤ 1 → N.quiet (state_of D.Disk result.disk) }
    {
        let Pass {
            mut labels,
            mut operations,
            mut pairs,
            mut commits,
        } = first;
        let writer = self.manager.writer();
        let disk = end_commits(
            rt,
            &self.commits,
            writer.labels(),
            self.manager.operations(),
            &mut labels,
            &mut operations,
            &mut commits,
        );
        let index = self.manager.operations().end(rt, &mut operations);
        let list = writer.end(rt, &mut labels);
        let notes = self.note_each(&mut labels, &mut operations, &mut pairs, &mut commits);
        EndedSystem {
            trace: Trace {
                labels: list,
                sessions: index.into_sessions(),
            },
            disk,
            notes,
        }
    }
}
