ghost use Rattle.std.specs.Prelude.{◌≡◌, ◌≤◌, ◌⊎◌, Some, IfOk};
ghost use Rattle.facet_disk.specs.Calls.{Rose};
ghost use Rattle.facet_disk.specs.Images.{Told};
ghost use Rattle.facet_engine.specs.Opening.{IsReady};
ghost use Rattle.facet_words.specs.CommandViews.{script_view};
ghost use Rattle.facet_words.specs.ScriptOrder.{AreInOrder};
ghost use Rattle.generator.specs.Generated.{generated};
ghost use Rattle.facet_serving.specs.Generating.{ClosesSummed, Generates, IsLineOf, WritesSummary};
ghost use Rattle.facet_serving.specs.Serving.{GoesOnBehind, StaysShut};

use crate::closing::write;
use crate::reporting::{report_open_fault, report_status, write_status};
use crate::serving::run_listed;
use crate::status::{Ended, Status};
use crate::tallying::Counted;
use commit_store::NotOpened;
use facet_disk::Disk;
use facet_engine::{EndedSystem, Store};
use facet_io::Sink;
use facet_names::NoMemory;
use facet_phases::{Gate, PhaseFault, RanToEnd};
use facet_replies::write_summary;
use facet_words::Script;
use generator::{Tally, script_for};
use std::alloc::Global;
use std::hash::RandomState;
use std::sync::Wait;
use std::thread::Threads;

// The line of the summary. NoMemory where memory was wanting for a command, or for the line.
fn summary_line(alloc: Global, total: Tally) -> Result<Vec<u8>, NoMemory>
    ensures { IfOk result (λ line. IsLineOf total line.items) }
{
    let Some(summary) = total.summary(alloc) else {
        return Err(NoMemory);
    };
    let mut line = Vec::new(alloc);
    write_summary(alloc, &mut line, &summary)?;
    Ok(line)
}

// Writes the line of the summary, or without memory the line of that.
fn write_summed<K: Sink>(alloc: Global, sink: &mut K, total: Tally) -> Status
    ensures { WritesSummary total K.Sink sink.old sink.new result }
{
    match summary_line(alloc, total) {
        Ok(line) => write(sink, &line),
        Err(NoMemory) => write_status(sink, Status::NoMemory),
    }
}

// Writes what comes after phases that ended so.
fn close_summed<K: Sink>(
    alloc: Global,
    sink: &mut K,
    total: Tally,
    phases: Result<(), PhaseFault>,
) -> Status
    ensures { ClosesSummed total K.Sink sink.old sink.new result phases }
{
    match phases {
        Ok(()) => write_summed(alloc, sink, total),
        Err(PhaseFault::Write | PhaseFault::NoMemory) => write_status(sink, Status::NoMemory),
        Err(PhaseFault::Read) => write_status(sink, Status::ReadFault),
    }
}

// Ends a run whose phases ended so, with the line of the summary where all were carried out, and without memory with
// the line of that.
fn sum_up<K: Sink, D: Disk>(alloc: Global, sink: &mut K, total: Tally, ran: RanToEnd<D>) -> Ended<D>
    ensures trace { result.trace ≡ Some ran.ended.trace }
    ensures disk { result.disk ≡ ran.ended.disk }
    ensures closes { ClosesSummed total K.Sink sink.old sink.new result.status ran.result }
{
    let RanToEnd { result, ended } = ran;
    let EndedSystem {
        trace,
        disk,
        notes: _,
    } = ended;
    let status = close_summed(alloc, sink, total, result);
    Ended {
        status,
        disk,
        trace: Some(trace),
    }
}

// Carries out a script of generated documents on a store, and writes the summary of its replies.
fn serve_generated<R: Threads + Wait + Sync, K: Sink, D: Disk, G: Gate + Sync>(
    rt: &R,
    alloc: Global,
    store: Store<D>,
    script: Script,
    sink: &mut K,
    gate: &G,
) -> Ended<D>
    requires ready { IsReady D.Disk script.settings.config store }
    requires order { AreInOrder (script_view script).phases }
    requires next { GoesOnBehind D.Disk store }
    ensures { Generates D.Disk (script_view script) store.start.value result.disk K.Sink sink.old sink.new
        result.trace result.status
        ⊎ ((result.status ≡ Status.NoMemory)
        × StaysShut D.Disk (script_view script) store.start.value result.disk K.Sink sink.old sink.new result.trace
        result.status) }
{
    let mut total = Tally::new();
    match run_listed::<R, Tally, D, G, Counted>(rt, alloc, store, script, &mut total, gate) {
        Ok(carried) => sum_up(alloc, sink, total, carried.ran),
        Err(disk) => report_status(sink, Status::NoMemory, disk),
    }
}

// Carries out a script of generated documents on the store of a disk.
fn run_generated_script<R: Threads + Wait + Sync, K: Sink, D: Disk, G: Gate + Sync>(
    rt: &R,
    alloc: Global,
    keys: RandomState,
    sink: &mut K,
    disk: D,
    gate: &G,
    script: Script,
) -> Ended<D>
    requires { AreInOrder (script_view script).phases }
    ensures served { Generates D.Disk
        (script_view script) disk result.disk K.Sink sink.old sink.new result.trace result.status
        ⊎ StaysShut D.Disk (script_view script) disk result.disk K.Sink sink.old sink.new result.trace result.status }
    ensures failed { result.status ≡ Status.DiskFault → (t : Told) → D.told disk ≡ Some t
        → Rose (D.failures disk) (D.failures result.disk) }
{
    let Ok(config) = script.settings.config.dup() else {
        return report_status(sink, Status::NoMemory, disk);
    };
    match Store::open(alloc, keys, disk, config) {
        Ok(store) => serve_generated(rt, alloc, store, script, sink, gate),
        Err(NotOpened { fault, disk }) => report_open_fault(alloc, sink, fault, disk),
    }
}

/// Generates documents on the store of a disk with concurrent sessions, and writes one line, the summary of the
/// replies. It keeps all documents in memory.
///
/// If a command runs out of memory, the line of `NoMemory` is written in place of the summary.
pub fn run_generated<R: Threads + Wait + Sync, K: Sink, D: Disk, G: Gate + Sync>(
    rt: &R,
    alloc: Global,
    keys: RandomState,
    sink: &mut K,
    disk: D,
    gate: &G,
    documents: u32,
    sessions: u32,
) -> Ended<D>
    requires some { 1 ≤ sessions }
    requires few { sessions ≤ 64 }
    ensures served { Generates D.Disk
        (generated documents sessions) disk result.disk K.Sink sink.old sink.new result.trace result.status
        ⊎ StaysShut D.Disk (generated documents sessions) disk result.disk K.Sink sink.old sink.new result.trace
        result.status }
    ensures failed { result.status ≡ Status.DiskFault → (t : Told) → D.told disk ≡ Some t
        → Rose (D.failures disk) (D.failures result.disk) }
{
    match script_for(alloc, keys, documents, sessions) {
        Ok(script) => run_generated_script(rt, alloc, keys, sink, disk, gate, script),
        Err(NoMemory) => report_status(sink, Status::NoMemory, disk),
    }
}
