ghost use Rattle.std.specs.Prelude.{◌≡◌, ◌≢◌, ◌≤◌, ◌<◌, ◌⊎◌, ◌∷◌, ℕ, Bool, List, [], Some, None, true, false, IfOk, Err, length, take};
ghost use Rattle.facet_engine.specs.Opening.{IsReady, opened_of};
ghost use Rattle.facet_model.specs.Flags.{Config};
ghost use Rattle.facet_output.specs.Output.{opened_pair};
ghost use Rattle.facet_serving.specs.Serving.{GoesOnBehind};
ghost use Rattle.facet_serving.specs.Statuses.{IsOpenLine, fault_status, status_line};
ghost use Rattle.facet_words.specs.CommandViews.{settings_view};
ghost use Rattle.facet_words.specs.FaultLines.{fault_line};
ghost use Rattle.facet_words.specs.Scripts.{config_at};
ghost use Rattle.facet_words.specs.declared.fault.ScriptFault.TheVariants.{NoMemory as Memory};
ghost use Rattle.live_io.specs.Unread.{IsUnread, TakesLine, Unread, first_feed};
ghost use Rattle.live_serving.specs.declared.first_line.FirstLine.{FirstLine};
ghost use Rattle.live_lines.specs.FaultLines.{opened_line};
ghost use Rattle.live_serving.specs.Closing.{PutsLine};
ghost use Rattle.live_serving.specs.FirstLine.{FailsFirst, HasFirst};
ghost use Rattle.live_serving.specs.Leaving.{BeginsAt, HasConfig};
ghost use Rattle.live_serving.specs.Runs.{RunsLive};

use crate::ended::LiveEnded;
use crate::ending::{put_line, serve_lines, tell};
use crate::first_line::{FirstFault, FirstLine, read_first};
use crate::line_phases::LinePhases;
use commit_store::NotOpened;
use facet_disk::Disk;
use facet_engine::Store;
use facet_io::Failed;
use facet_names::NoMemory;
use facet_phases::Gate;
use facet_serving::{Status, open_fault_line};
use facet_words::{ScriptFault, Settings, read_settings, write_fault};
use live_io::{Duplex, LineReader};
use live_lines::{Grouping, write_opened};
use std::alloc::Global;
use std::hash::RandomState;
use std::sync::Wait;
use std::thread::Threads;
use store_opening::OpenFault;

// Ends a process before its sessions begin, with a line. The status stays if a write fails.
fn leave<X: Duplex, D: Disk>(io: X, disk: D, status: Status, line: &[u8]) -> LiveEnded<X, D>
    ensures status { result.status ≡ status }
    ensures disk { result.disk ≡ disk }
    ensures trace { result.trace ≡ None }
    ensures puts { PutsLine X.Duplex io result.io line.now }
{
    let mut io = io;
    tell(&mut io, line);
    LiveEnded {
        status,
        io,
        disk,
        trace: None,
    }
}

// Ends a process before its sessions begin, with the line of the status.
fn leave_with<X: Duplex, D: Disk>(io: X, disk: D, status: Status) -> LiveEnded<X, D>
    ensures status { result.status ≡ status }
    ensures disk { result.disk ≡ disk }
    ensures trace { result.trace ≡ None }
    ensures puts { PutsLine X.Duplex io result.io (status_line status) }
{
    leave(io, disk, status, status.line())
}

// Ends a process whose first line has a fault, with the line of it, or without memory with the line of that.
fn leave_at_line<X: Duplex, D: Disk>(
    alloc: Global,
    io: X,
    disk: D,
    fault: ScriptFault,
) -> LiveEnded<X, D>
    ensures told { ((result.status ≡ Status.BadScript) × PutsLine X.Duplex io result.io (fault_line fault))
        ⊎ ((result.status ≡ Status.NoMemory) × PutsLine X.Duplex io result.io (status_line Status.NoMemory)) }
    ensures disk { result.disk ≡ disk }
    ensures trace { result.trace ≡ None }
{
    let mut line = Vec::new(alloc);
    match write_fault(alloc, &mut line, fault) {
        Ok(()) => leave(io, disk, Status::BadScript, &line),
        Err(NoMemory) => leave_with(io, disk, Status::NoMemory),
    }
}

// Ends a process whose store was not opened, with the line of the fault, or without memory with the line of that.
fn leave_at_store<X: Duplex, D: Disk>(
    alloc: Global,
    io: X,
    disk: D,
    fault: OpenFault,
) -> LiveEnded<X, D>
    ensures told { ((result.status ≡ fault_status fault)
        × ((line : List ℕ) × IsOpenLine fault line × PutsLine X.Duplex io result.io line))
        ⊎ ((result.status ≡ Status.NoMemory) × PutsLine X.Duplex io result.io (status_line Status.NoMemory)) }
    ensures disk { result.disk ≡ disk }
    ensures trace { result.trace ≡ None }
{
    match open_fault_line(alloc, &fault, &disk) {
        Ok(line) => leave(io, disk, Status::of(&fault), &line),
        Err(NoMemory) => leave_with(io, disk, Status::NoMemory),
    }
}

// Ends a process that has no first line.
fn leave_at_first<X: Duplex, D: Disk>(
    alloc: Global,
    io: X,
    disk: D,
    fault: FirstFault,
) -> LiveEnded<X, D>
    ensures { (only_reads : Bool) (from : X) (u : Unread) → FailsFirst X.Duplex from io u fault
        → RunsLive X.Duplex D.Disk only_reads from result.io disk result.disk result.trace result.status }
{
    match fault {
        FirstFault::Read => leave_with(io, disk, Status::ReadFault),
        FirstFault::TooLong => leave_with(io, disk, Status::TooLong),
        FirstFault::NoLine => leave_at_line(alloc, io, disk, ScriptFault::NoConfigFirst),
        FirstFault::NoMemory => leave_with(io, disk, Status::NoMemory),
    }
}

// Returns the line that says how many documents and labels were opened. Errors: out of memory.
fn line_of_opened<D: Disk>(alloc: Global, store: &Store<D>) -> Result<Vec<u8>, NoMemory>
    requires { (config : Config) × IsReady D.Disk config store.now }
    ensures { IfOk result (λ v. v.items ≡ opened_line (opened_pair (opened_of store.now))) }
{
    let (documents, labels) = store.opened();
    let mut line = Vec::new(alloc);
    write_opened(alloc, &mut line, documents, u64::from(labels))?;
    Ok(line)
}

// Puts the line of a store that was opened, and serves.
fn serve_opened<R: Threads + Wait + Sync, X: Duplex, D: Disk, G: Gate + Sync>(
    rt: &R,
    alloc: Global,
    io: X,
    store: Store<D>,
    settings: Settings,
    phases: LinePhases,
    gate: &G,
) -> LiveEnded<X, D>
    requires ready { IsReady D.Disk settings.config store }
    requires next { GoesOnBehind D.Disk store }
    ensures { (from : X) (first : List ℕ) → HasConfig X.Duplex from io phases first (settings_view settings)
        → RunsLive X.Duplex D.Disk phases.only_reads from result.io store.start.value result.disk result.trace
        result.status }
{
    let mut io = io;
    let Ok(line) = line_of_opened(alloc, &store) else {
        let disk = store.into_disk();
        return leave_with(io, disk, Status::NoMemory);
    };
    match put_line(&mut io, &line) {
        Ok(()) => serve_lines(rt, alloc, io, store, settings, phases, gate),
        Err(Failed) => LiveEnded {
            status: Status::WriteFault,
            io,
            disk: store.into_disk(),
            trace: None,
        },
    }
}

// Opens the store of a disk, and serves.
fn serve_settings<R: Threads + Wait + Sync, X: Duplex, D: Disk, G: Gate + Sync>(
    rt: &R,
    alloc: Global,
    keys: RandomState,
    io: X,
    disk: D,
    settings: Settings,
    phases: LinePhases,
    gate: &G,
) -> LiveEnded<X, D>
    ensures { (from : X) (first : List ℕ) → HasConfig X.Duplex from io phases first (settings_view settings)
        → RunsLive X.Duplex D.Disk phases.only_reads from result.io disk result.disk result.trace result.status }
{
    let Ok(config) = settings.config.dup() else {
        return leave_with(io, disk, Status::NoMemory);
    };
    match Store::open(alloc, keys, disk, config) {
        Ok(store) => serve_opened(rt, alloc, io, store, settings, phases, gate),
        Err(NotOpened { fault, disk }) => leave_at_store(alloc, io, disk, fault),
    }
}

// Takes the first line if it is whole.
fn pass_first(reader: LineReader, first: FirstLine) -> LineReader
    requires { first.is_ended ≡ false → first_feed reader.bytes ≡ Some first.len }
    ensures { first.is_ended ≡ false → (limit : ℕ) (consumed got : List ℕ) → IsUnread limit consumed reader got
        → TakesLine limit consumed reader first.len result got }
{
    let mut reader = reader;
    if first.is_ended {
        return reader;
    }
    reader.pass(first.len);
    reader
}

// Takes the first line, and returns the phases of those behind it.
fn begin(alloc: Global, only_reads: bool, reader: LineReader, first: FirstLine) -> LinePhases
    requires { first.is_ended ≡ false → first_feed reader.bytes ≡ Some first.len }
    ensures { BeginsAt only_reads reader first result }
{
    let reader = pass_first(reader, first);
    let grouping = Grouping::new(alloc);
    LinePhases {
        reader,
        grouping,
        only_reads,
        is_ended: first.is_ended,
    }
}

// Ends a process whose first line has no settings.
fn leave_at_settings<X: Duplex, D: Disk>(
    alloc: Global,
    io: X,
    disk: D,
    fault: ScriptFault,
) -> LiveEnded<X, D>
    ensures { (only_reads : Bool) (from : X) (u : Unread) (line : FirstLine) → HasFirst X.Duplex from io u line
        → (fault ≢ Memory → config_at (take line.len u.bytes) ≡ Err fault)
        → RunsLive X.Duplex D.Disk only_reads from result.io disk result.disk result.trace result.status }
{
    match fault {
        ScriptFault::NoMemory => leave_with(io, disk, Status::NoMemory),
        _ => leave_at_line(alloc, io, disk, fault),
    }
}

// Reads the settings in the first line, and serves.
fn serve_first<R: Threads + Wait + Sync, X: Duplex, D: Disk, G: Gate + Sync>(
    rt: &R,
    alloc: Global,
    keys: RandomState,
    io: X,
    disk: D,
    gate: &G,
    only_reads: bool,
    reader: LineReader,
    first: FirstLine,
) -> LiveEnded<X, D>
    requires whole { first.is_ended ≡ false → first_feed reader.bytes ≡ Some first.len }
    requires within { first.len ≤ length reader.bytes }
    ensures { (from : X) → HasFirst X.Duplex from io reader first
        → RunsLive X.Duplex D.Disk only_reads from result.io disk result.disk result.trace result.status }
{
    match read_settings(alloc, keys, reader.line(first.len)) {
        Ok(settings) => {
            let phases = begin(alloc, only_reads, reader, first);
            serve_settings(rt, alloc, keys, io, disk, settings, phases, gate)
        }
        Err(fault) => leave_at_settings(alloc, io, disk, fault),
    }
}

/// Serves the client of an input and output on the store of a disk. It reads the settings in the first line, opens the
/// store and says so, and then carries out each line as a phase of its own, or the lines of a group as one phase, and
/// answers it before it reads more. If it only reads, a commit is a faulty line.
///
/// It blocks while it reads and writes, and where the sessions of a phase wait. Besides the documents it keeps one line
/// or group and the replies to it in memory.
///
/// The result is the status, the input and output, the disk, and, if sessions began, a trace of what they added.
pub fn serve_live<R: Threads + Wait + Sync, X: Duplex, D: Disk, G: Gate + Sync>(
    rt: &R,
    alloc: Global,
    keys: RandomState,
    io: X,
    disk: D,
    gate: &G,
    only_reads: bool,
) -> LiveEnded<X, D>
    ensures { RunsLive X.Duplex D.Disk only_reads io result.io disk result.disk result.trace result.status }
{
    if only_reads {
        disk.only_read();
    }
    let mut io = io;
    let mut reader = LineReader::new(alloc);
    match read_first(&mut reader, &mut io) {
        Ok(first) => serve_first(rt, alloc, keys, io, disk, gate, only_reads, reader, first),
        Err(fault) => leave_at_first(alloc, io, disk, fault),
    }
}
