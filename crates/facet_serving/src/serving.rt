ghost use Rattle.std.specs.Prelude.{◌≡◌, ◌≤◌, ◌⊎◌, Some, IfErr, IfOk, OnErr};
ghost use Rattle.commit_turns.specs.DiskStates.{state_of};
ghost use Rattle.commit_turns.specs.Opening.{WasSettled};
ghost use Rattle.facet_disk.specs.Calls.{Rose};
ghost use Rattle.facet_disk.specs.Images.{Told};
ghost use Rattle.facet_engine.specs.Opening.{IsReady, opened_of};
ghost use Rattle.facet_output.specs.Output.{opened_pair};
ghost use Rattle.facet_phases.specs.Ending.{BreaksBehind};
ghost use Rattle.facet_phases.specs.Taking.{at};
ghost use Rattle.facet_words.specs.CommandViews.{script_view, settings_view};
ghost use Rattle.facet_words.specs.ScriptOrder.{AreInOrder};
ghost use Rattle.store_opening.specs.Quiet.{IsQuiet};
ghost use Rattle.store_opening.specs.Settled.{IsSettled};
ghost use Rattle.facet_serving.specs.Serving.{GoesOnBehind, IsCarried, IsCarriedOut, Serves, StaysShut};

use crate::closing::close;
use crate::reporting::{report_open_fault, report_status};
use crate::session_numbers::greatest_session;
use crate::status::{Ended, Status};
use commit_store::NotOpened;
use commit_turns::Start;
use facet_disk::Disk;
use facet_engine::{Store, System};
use facet_io::Sink;
use facet_phases::{Collector, Gate, Lines, ListedPhases, Output, Phases, RanToEnd, run_to_end};
use facet_words::{Script, Settings};
use std::alloc::Global;
use std::hash::RandomState;
use std::marker::Brand;
use std::sync::Wait;
use std::thread::Threads;
use taxo_cache::Name;

/// What sessions came to, and how many documents and labels there were when they began.
#[derive(Drop)]
pub struct Carried<D: Disk> {
    /// How the phases ended, and what remains of the system.
    pub ran: RanToEnd<D>,
    /// The numbers of documents and of labels when the sessions began. The labels include the root.
    pub opened: (u64, u32),
}

// Carries out phases on a store, whose labels the name names. Without memory for the system it gives the disk back.
fn run_with_name<
    N: Name + Start + Send + Sync,
    R: Threads + Wait + Sync,
    P: Phases<O>,
    O: Output<C>,
    D: Disk,
    G: Gate + Sync,
    C: Collector,
>(
    rt: &R,
    alloc: Global,
    store: Store<D>,
    settings: Settings,
    sessions: u32,
    phases: &mut P,
    out: &mut O,
    gate: &G,
) -> Result<Carried<D>, D>
    requires ready { IsReady D.Disk settings.config store }
    requires many { sessions ≤ 64 }
    requires sessions { P.sessions phases.old ≤ sessions }
    requires next { GoesOnBehind D.Disk store }
    requires name { store.labels ≡ N.labels }
    requires told { (N.told → (t : Told) × (D.told store.start.value ≡ Some t))
        × ((t : Told) → D.told store.start.value ≡ Some t → N.told) }
    requires settled { (N.settled → WasSettled D.Disk settings.config store.start.value)
        × ((t : Told) → D.told store.start.value ≡ Some t → IsSettled D.Disk settings.config t store.start.value
        → N.settled) }
    requires quiet { N.quiet (state_of D.Disk store.committer.disk)
        × ((d : D) → N.quiet (state_of D.Disk d) → IsQuiet D.Disk store.start.value d) }
    ensures carried { IfOk result
        (λ c. IsCarriedOut D.Disk (settings_view settings) store.start.value P.Phases O.Output
        (at phases.old out.old) (at phases.new out.new) c.opened c.ran) }
    ensures opened { IfOk result (λ c. c.opened ≡ opened_pair (opened_of store)) }
    ensures quiet { IfErr result (λ disk. IsQuiet D.Disk store.start.value disk) }
    ensures still { OnErr result ((phases.new ≡ phases.old) × (out.new ≡ out.old)) }
{
    match System::<D, N>::open(alloc, store, settings) {
        Ok((system, first)) => {
            let ran = run_to_end::<D, N, R, G, P, O, C>(
                rt, alloc, &system, gate, first, sessions, phases, out,
            );
            let opened = system.opened();
            Ok(Carried { ran, opened })
        }
        Err(NotOpened { fault: _, disk }) => Err(disk),
    }
}

/// Carries out phases on a store with the sessions 1 to `sessions`, and hands over what is kept of the replies after
/// each phase. How the phases ended is in the result.
///
/// Errors: out of memory for the system. The error is the disk. Then no phase was asked for.
pub fn run_on_store<
    R: Threads + Wait + Sync,
    P: Phases<O>,
    O: Output<C>,
    D: Disk,
    G: Gate + Sync,
    C: Collector,
>(
    rt: &R,
    alloc: Global,
    store: Store<D>,
    settings: Settings,
    sessions: u32,
    phases: &mut P,
    out: &mut O,
    gate: &G,
) -> Result<Carried<D>, D>
    requires ready { IsReady D.Disk settings.config store }
    requires many { sessions ≤ 64 }
    requires sessions { P.sessions phases.old ≤ sessions }
    requires next { GoesOnBehind D.Disk store }
    ensures carried { IfOk result
        (λ c. IsCarriedOut D.Disk (settings_view settings) store.start.value P.Phases O.Output
        (at phases.old out.old) (at phases.new out.new) c.opened c.ran) }
    ensures opened { IfOk result (λ c. c.opened ≡ opened_pair (opened_of store)) }
    ensures quiet { IfErr result (λ disk. IsQuiet D.Disk store.start.value disk) }
    ensures still { OnErr result ((phases.new ≡ phases.old) × (out.new ≡ out.old)) }
{
    run_with_name::<Brand, R, P, O, D, G, C>(
        rt, alloc, store, settings, sessions, phases, out, gate,
    )
}

/// Carries out a script on a store, and hands over what is kept of the replies after each phase.
///
/// Errors: out of memory for the system. The error is the disk.
pub(crate) fn run_listed<
    R: Threads + Wait + Sync,
    O: Output<C>,
    D: Disk,
    G: Gate + Sync,
    C: Collector,
>(
    rt: &R,
    alloc: Global,
    store: Store<D>,
    script: Script,
    out: &mut O,
    gate: &G,
) -> Result<Carried<D>, D>
    requires ready { IsReady D.Disk script.settings.config store }
    requires order { AreInOrder (script_view script).phases }
    requires next { GoesOnBehind D.Disk store }
    ensures carried { IfOk result
        (λ c. IsCarried D.Disk (script_view script) store.start.value (O.flushes out.old out.new)
        (BreaksBehind O.flushes O.breaks out.old out.new) c.opened c.ran) }
    ensures quiet { IfErr result (λ disk. IsQuiet D.Disk store.start.value disk) }
    ensures still { OnErr result (out.new ≡ out.old) }
{
    let Script { settings, phases } = script;
    let sessions = greatest_session(&phases);
    let mut listed = ListedPhases::new(phases, sessions);
    run_on_store::<R, ListedPhases, O, D, G, C>(
        rt,
        alloc,
        store,
        settings,
        sessions,
        &mut listed,
        out,
        gate,
    )
}

// Carries out a script on a store, and writes the replies after each phase.
fn serve<R: Threads + Wait + Sync, K: Sink, D: Disk, G: Gate + Sync>(
    rt: &R,
    alloc: Global,
    store: Store<D>,
    script: Script,
    sink: &mut K,
    gate: &G,
) -> Ended<D>
    requires ready { IsReady D.Disk script.settings.config store }
    requires order { AreInOrder (script_view script).phases }
    requires next { GoesOnBehind D.Disk store }
    ensures { Serves D.Disk (script_view script) store.start.value result.disk K.Sink sink.old sink.new
        result.trace result.status
        ⊎ ((result.status ≡ Status.NoMemory)
        × StaysShut D.Disk (script_view script) store.start.value result.disk K.Sink sink.old sink.new result.trace
        result.status) }
{
    match run_listed::<R, K, D, G, Lines>(rt, alloc, store, script, sink, gate) {
        Ok(carried) => close(alloc, sink, carried.opened, carried.ran),
        Err(disk) => report_status(sink, Status::NoMemory, disk),
    }
}

/// Carries out a script on the store of a disk: runs the sessions concurrently, phase after phase, and writes the
/// replies after each phase. The status of the result says how it ended.
pub fn run_script<R: Threads + Wait + Sync, K: Sink, D: Disk, G: Gate + Sync>(
    rt: &R,
    alloc: Global,
    keys: RandomState,
    sink: &mut K,
    disk: D,
    gate: &G,
    script: Script,
) -> Ended<D>
    requires { AreInOrder (script_view script).phases }
    ensures served { Serves D.Disk
        (script_view script) disk result.disk K.Sink sink.old sink.new result.trace result.status
        ⊎ StaysShut D.Disk (script_view script) disk result.disk K.Sink sink.old sink.new result.trace result.status }
    ensures failed { result.status ≡ Status.DiskFault → (t : Told) → D.told disk ≡ Some t
        → Rose (D.failures disk) (D.failures result.disk) }
{
    let Ok(config) = script.settings.config.dup() else {
        return report_status(sink, Status::NoMemory, disk);
    };
    match Store::open(alloc, keys, disk, config) {
        Ok(store) => serve(rt, alloc, store, script, sink, gate),
        Err(NotOpened { fault, disk }) => report_open_fault(alloc, sink, fault, disk),
    }
}
