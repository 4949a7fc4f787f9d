ghost use Rattle.std.specs.Prelude.{◌≡◌, ◌≤◌, ◌<◌, Some, length, drop, IfOk};
ghost use Rattle.facet_replies.specs.LastLine.{last_line};
ghost use Rattle.facet_serving.specs.Closing.{Closes, IsWritten};

use crate::reporting::write_status;
use crate::status::{Ended, Status};
use facet_disk::Disk;
use facet_engine::{EndedSystem, Trace};
use facet_io::{Sink, write_all};
use facet_names::NoMemory;
use facet_phases::{PhaseFault, RanToEnd};
use facet_replies::write_last_line;
use std::alloc::Global;

/// Returns the last line: what comes after the opened labels and documents, of which there are so many.
///
/// Errors: out of memory.
pub fn end_line(alloc: Global, opened: (u64, u32), trace: &Trace) -> Result<Vec<u8>, NoMemory>
    requires documents { opened.0 ≤ length trace.now.sessions.items }
    requires labels { (0 < opened.1) × (opened.1 ≤ length trace.now.labels) }
    ensures { IfOk result (λ line. line.items
        ≡ last_line opened.0 opened.1 trace.now.labels (drop opened.0 trace.now.sessions.items)) }
{
    let mut line = Vec::new(alloc);
    let added = &trace.sessions[opened.0 as usize..];
    write_last_line(alloc, &mut line, opened.0, opened.1, &trace.labels, added)?;
    Ok(line)
}

/// Writes a line. Returns `WriteFault` if a write failed, else `Done`.
pub(crate) fn write<K: Sink>(sink: &mut K, line: &[u8]) -> Status
    ensures { IsWritten line.now K.Sink sink.old sink.new result }
{
    match write_all(sink, line) {
        Ok(()) => Status::Done,
        Err(_) => Status::WriteFault,
    }
}

/// Ends an invocation after its phases: writes the last line if all were carried out, the line of `NoMemory` if memory
/// ran out, or the line of `ReadFault` if the phases could not be read any further.
pub(crate) fn close<K: Sink, D: Disk>(
    alloc: Global,
    sink: &mut K,
    opened: (u64, u32),
    ran: RanToEnd<D>,
) -> Ended<D>
    requires documents { opened.0 ≤ length ran.ended.trace.sessions.items }
    requires labels { (0 < opened.1) × (opened.1 ≤ length ran.ended.trace.labels) }
    ensures trace { result.trace ≡ Some ran.ended.trace }
    ensures disk { result.disk ≡ ran.ended.disk }
    ensures closes { Closes (last_line opened.0 opened.1 ran.ended.trace.labels
        (drop opened.0 ran.ended.trace.sessions.items))
        ran.result K.Sink sink.old sink.new result.status }
{
    let RanToEnd { result, ended } = ran;
    let EndedSystem {
        trace,
        disk,
        notes: _,
    } = ended;
    let status = match result {
        Ok(()) => match end_line(alloc, opened, &trace) {
            Ok(line) => write(sink, &line),
            Err(NoMemory) => write_status(sink, Status::NoMemory),
        },
        Err(PhaseFault::Write) => Status::WriteFault,
        Err(PhaseFault::NoMemory) => write_status(sink, Status::NoMemory),
        Err(PhaseFault::Read) => write_status(sink, Status::ReadFault),
    };
    Ended {
        status,
        disk,
        trace: Some(trace),
    }
}
