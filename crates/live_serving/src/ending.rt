ghost use Rattle.std.specs.Prelude.{◌≡◌, ◌≤◌, ◌<◌, ℕ, List, Some, Ok, OnOk, OnErr, IfOk, length, drop};
ghost use Rattle.facet_engine.specs.Opening.{IsReady, opened_of};
ghost use Rattle.facet_output.specs.Output.{opened_pair};
ghost use Rattle.facet_replies.specs.LastLine.{last_line};
ghost use Rattle.facet_serving.specs.Serving.{GoesOnBehind};
ghost use Rattle.facet_words.specs.CommandViews.{settings_view};
ghost use Rattle.facet_words.specs.Scripts.{config_at};
ghost use Rattle.live_serving.specs.Runs.{RunsLive};
ghost use Rattle.live_serving.specs.Starting.{Starts};
ghost use Rattle.live_serving.specs.Answering.{Puts, PutsSome};
ghost use Rattle.live_serving.specs.Closing.{Closes, PutsLine};

use crate::answering::Answering;
use crate::ended::LiveEnded;
use crate::line_phases::LinePhases;
use facet_disk::Disk;
use facet_engine::{EndedSystem, Store};
use facet_io::Failed;
use facet_names::NoMemory;
use facet_phases::{Gate, Lines, PhaseFault, RanToEnd};
use facet_serving::{Status, end_line, run_on_store};
use facet_words::Settings;
use live_io::{Duplex, put_all};
use std::alloc::Global;
use std::sync::Wait;
use std::thread::Threads;

/// Puts a line. Errors: a write failed.
pub(crate) fn put_line<X: Duplex>(io: &mut X, line: &[u8]) -> Result<(), Failed>
    ensures ok { OnOk result (Puts X.Duplex io.old io.new line.now) }
    ensures failed { OnErr result (PutsSome X.Duplex io.old io.new line.now) }
{
    put_all(io, line)
}

/// Puts a line, or where a write fails a beginning of it.
pub(crate) fn tell<X: Duplex>(io: &mut X, line: &[u8])
    ensures { PutsLine X.Duplex io.old io.new line.now }
{
    let _ = put_line(io, line);
}

// Puts the last line, or without memory the line of that.
fn put_last<X: Duplex>(io: &mut X, line: Result<Vec<u8>, NoMemory>) -> Status
    ensures { (bytes : List ℕ) → IfOk line (λ l. l.items ≡ bytes)
        → Closes X.Duplex io.old io.new bytes (Ok tt) result }
{
    match line {
        Ok(line) => match put_line(io, &line) {
            Ok(()) => Status::Done,
            Err(Failed) => Status::WriteFault,
        },
        Err(NoMemory) => {
            tell(io, Status::NoMemory.line());
            Status::NoMemory
        }
    }
}

/// Ends a process behind its phases: with the last line if all were carried out, with the line of `NoMemory` if memory
/// ran out, or with the line of `ReadFault` if no further phase could be read.
pub(crate) fn close<X: Duplex, D: Disk>(
    alloc: Global,
    io: X,
    opened: (u64, u32),
    ran: RanToEnd<D>,
) -> LiveEnded<X, D>
    requires documents { opened.0 ≤ length ran.ended.trace.sessions.items }
    requires labels { (0 < opened.1) × (opened.1 ≤ length ran.ended.trace.labels) }
    ensures trace { result.trace ≡ Some ran.ended.trace }
    ensures disk { result.disk ≡ ran.ended.disk }
    ensures closes { Closes X.Duplex io result.io (last_line opened.0 opened.1 ran.ended.trace.labels
        (drop opened.0 ran.ended.trace.sessions.items)) ran.result result.status }
{
    let mut io = io;
    let RanToEnd { result, ended } = ran;
    let EndedSystem {
        trace,
        disk,
        notes: _,
    } = ended;
    let status = match result {
        Ok(()) => put_last(&mut io, end_line(alloc, opened, &trace)),
        Err(PhaseFault::Write) => Status::WriteFault,
        Err(PhaseFault::NoMemory) => {
            tell(&mut io, Status::NoMemory.line());
            Status::NoMemory
        }
        Err(PhaseFault::Read) => {
            tell(&mut io, Status::ReadFault.line());
            Status::ReadFault
        }
    };
    LiveEnded {
        status,
        io,
        disk,
        trace: Some(trace),
    }
}

/// Carries out the phases of lines on a store, behind the line that says what was opened, and ends the process.
pub(crate) fn serve_lines<R: Threads + Wait + Sync, X: Duplex, D: Disk, G: Gate + Sync>(
    rt: &R,
    alloc: Global,
    io: X,
    store: Store<D>,
    settings: Settings,
    phases: LinePhases,
    gate: &G,
) -> LiveEnded<X, D>
    requires ready { IsReady D.Disk settings.config store }
    requires next { GoesOnBehind D.Disk store }
    ensures { (from before : X) (first : List ℕ)
        → Starts X.Duplex from before io phases (opened_pair (opened_of store)) first
        → config_at first ≡ Ok (settings_view settings) → length first ≤ 67108864
        → RunsLive X.Duplex D.Disk phases.only_reads from result.io store.start.value result.disk result.trace
        result.status }
{
    let mut phases = phases;
    let mut out = Answering { io };
    match run_on_store::<R, LinePhases, Answering<X>, D, G, Lines>(
        rt,
        alloc,
        store,
        settings,
        64,
        &mut phases,
        &mut out,
        gate,
    ) {
        Ok(carried) => {
            let Answering { io } = out;
            close(alloc, io, carried.opened, carried.ran)
        }
        Err(disk) => {
            let Answering { mut io } = out;
            tell(&mut io, Status::NoMemory.line());
            LiveEnded {
                status: Status::NoMemory,
                io,
                disk,
                trace: None,
            }
        }
    }
}
