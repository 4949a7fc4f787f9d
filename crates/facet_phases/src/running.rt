ghost use Rattle.std.specs.Prelude.{◌≡◌, ◌≤◌, ℕ, [], Some, length, All};
ghost use Rattle.chronicle.specs.History.{entries};
ghost use Rattle.facet_disk.specs.Calls.{Rose};
ghost use Rattle.facet_disk.specs.Images.{Told};
ghost use Rattle.facet_model.specs.ConfigTexts.{config_texts};
ghost use Rattle.facet_model.specs.Flags.{Config};
ghost use Rattle.facet_names.specs.Labels.{IsLabelList};
ghost use Rattle.facet_output.specs.Outputs.{sessions_in};
ghost use Rattle.facet_output.specs.Seen.{history_of, labels_of};
ghost use Rattle.commit_turns.specs.DiskStates.{state_of};
ghost use Rattle.commit_turns.specs.Ending.{Lasts, FailsWith};
ghost use Rattle.commit_turns.specs.Frames.{HasNumbers};
ghost use Rattle.commit_turns.specs.Points.{count_after, last_of};
ghost use Rattle.facet_engine.specs.Notes.{noted};
ghost use Rattle.facet_engine.specs.Systems.{BelongsTo};
ghost use Rattle.facet_phases.specs.Running.{AreReady, HaveSameFrames, IsFirst};
ghost use Rattle.facet_phases.specs.Runs.{RunsSoFar, RunsToEnd};
ghost use Rattle.facet_phases.specs.Taking.{at};

use crate::collector::{Collector, Output};
use crate::exchange::spread_all;
use crate::fault::PhaseFault;
use crate::gate::Gate;
use crate::lane::Lane;
use crate::making::make_lanes;
use crate::outcome::RanToEnd;
use crate::phase::run_phases;
use crate::phases::Phases;
use commit_turns::Start;
use facet_disk::Disk;
use facet_engine::System;
use facet_names::NoMemory;
use pair_manager::Pass;
use std::alloc::Global;
use std::sync::Wait;
use std::thread::Threads;
use taxo_cache::Name;

// Makes the sessions, and carries out the phases. Without memory for the sessions no phase begins.
fn run_sessions<
    D: Disk,
    N: Name + Start + Send + Sync,
    R: Threads + Wait + Sync,
    G: Gate + Sync,
    P: Phases<O>,
    O: Output<C>,
    C: Collector,
>(
    rt: &R,
    alloc: Global,
    system: &System<D, N>,
    gate: &G,
    first: &mut Pass,
    lanes: &mut Vec<Lane<C>>,
    sessions: u32,
    phases: &mut P,
    out: &mut O,
) -> Result<(), PhaseFault>
    requires own { BelongsTo system.now first.old }
    requires first { IsFirst 0 first.old }
    requires none { lanes.old.items ≡ [] }
    requires many { sessions ≤ 64 }
    requires sessions { P.sessions phases.old ≤ sessions }
    ensures ready { AreReady system.now first.new lanes.new.items }
    ensures frames { HaveSameFrames first.old first.new }
    ensures ran { RunsSoFar P.Phases O.Output system.now (at phases.old out.old) (at phases.new out.new)
        first.old first.new result }
{
    match make_lanes(alloc, system, first, sessions) {
        Ok(made) => {
            *lanes = made;
            run_phases(rt, alloc, system, gate, first, lanes, phases, out)
        }
        Err(NoMemory) => Err(PhaseFault::NoMemory),
    }
}

/// Carries out phases with the sessions 1 to `sessions`, each on its own thread, hands over what is kept of each phase
/// before it asks for the next, and then ends the system. It ends the system in each case. The result says whether all
/// phases were given, carried out and handed over; otherwise the first one that was not is the last.
///
/// It blocks while the next phase is read, until all sessions have ended, and for the locks that `System::end` takes. It
/// keeps the replies of one phase in memory, and frees the commands of a phase as they are answered.
pub fn run_to_end<
    D: Disk,
    N: Name + Start + Send + Sync,
    R: Threads + Wait + Sync,
    G: Gate + Sync,
    P: Phases<O>,
    O: Output<C>,
    C: Collector,
>(
    rt: &R,
    alloc: Global,
    system: &System<D, N>,
    gate: &G,
    first: Pass,
    sessions: u32,
    phases: &mut P,
    out: &mut O,
) -> RanToEnd<D>
    requires own { BelongsTo system.now first }
    requires first { IsFirst 0 first }
    requires many { sessions ≤ 64 }
    requires sessions { P.sessions phases.old ≤ sessions }

    // What was given and carried out is known at the end, and what was kept of it was handed over. Where that failed, it
    // did so for the last phase that was carried out.
    ensures ran { RunsToEnd P.Phases O.Output system.now (at phases.old out.old) (at phases.new out.new)
        first (noted result.ended.notes) result.result }

    // The trace has all labels and operations that the notes show.
    ensures labels { result.ended.trace.labels ≡ labels_of (noted result.ended.notes) }
    ensures sessions { result.ended.trace.sessions.items ≡ sessions_in (history_of (noted result.ended.notes)) }
    ensures list { IsLabelList (labels_of (noted result.ended.notes)) }

    // The disk counts at least the faults of each commit that failed on it, whose count rose since opening began, and
    // no fewer than then: just what the last commit learned, where that failed on it, and otherwise what it counted
    // then.
    ensures counts { All (λ p. (count : ℕ) → p.failed ≡ Some count → count ≤ D.faults result.ended.disk)
        (entries result.ended.notes.commits.seen) }
    ensures rose { (next moment faults failures : ℕ) → HasNumbers next moment faults failures first.commits.frame
        → All (λ p. (count : ℕ) → p.failed ≡ Some count → Rose faults count) (entries result.ended.notes.commits.seen) }
    ensures later { (next moment faults failures : ℕ) → HasNumbers next moment faults failures first.commits.frame
        → faults ≤ D.faults result.ended.disk }
    ensures exact { (next moment faults failures : ℕ) → HasNumbers next moment faults failures first.commits.frame
        → D.faults result.ended.disk ≡ count_after faults (last_of (entries result.ended.notes.commits.seen)).failed }

    // Where the disk reported its files when opening began, it still does, and its device failed exactly where a commit
    // failed on it.
    ensures tells { N.told → (s : Told) × (D.told result.ended.disk ≡ Some s) }
    ensures failed { (next moment faults failures : ℕ) → N.told
        → HasNumbers next moment faults failures first.commits.frame
        → FailsWith D.Disk failures (last_of (entries result.ended.notes.commits.seen)).failed result.ended.disk }

    // Where it was settled too, what was committed lasts.
    ensures lasts { (config : Config) (next moment faults failures : ℕ) → N.settled
        → config_texts config ≡ first.commits.frame.texts
        → HasNumbers next moment faults failures first.commits.frame
        → Lasts D.Disk config moment (labels_of (noted result.ended.notes)) (history_of (noted result.ended.notes))
        (entries result.ended.notes.commits.seen) result.ended.disk }

    // Where there is no point of a commit but the opened one, nothing was written.
    ensures quiet { length (entries result.ended.notes.commits.seen) ≤ 1 → N.quiet (state_of D.Disk result.ended.disk) }
{
    let mut first = first;
    let mut lanes: Vec<Lane<C>> = Vec::new(alloc);
    let result = run_sessions(
        rt, alloc, system, gate, &mut first, &mut lanes, sessions, phases, out,
    );
    let mut ended = system.end(rt, first);
    spread_all(system, &mut lanes, &mut ended.notes);
    RanToEnd { result, ended }
}
