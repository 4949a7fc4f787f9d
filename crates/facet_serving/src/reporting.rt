ghost use Rattle.std.specs.Prelude.{◌≡◌, ◌⊎◌, None, IfOk, map};
ghost use Rattle.facet_words.specs.FaultLines.{fault_line};
ghost use Rattle.facet_replies.specs.NamedFaults.{detail_field, named_fault_line};
ghost use Rattle.store_opening.specs.declared.fault.OpenFault.TheVariants as faults;
ghost use Rattle.facet_serving.specs.Writing.{WritesLine, WritesOpenLine};
ghost use Rattle.facet_serving.specs.Statuses.{IsOpenLine, fault_status, open_line, status_line};

use crate::status::{Ended, Status};
use facet_disk::{Disk, FileName};
use facet_io::{Sink, write_all};
use facet_names::NoMemory;
use facet_replies::{Detail, write_named_fault};
use facet_words::{ScriptFault, write_fault};
use std::alloc::Global;
use store_opening::OpenFault;

// The line that says that another process has the store.
const IN_USE: &[u8] = b"{\"fault\":\"in_use\"}\n";

// A run that ends before its sessions begin.
fn ended<D: Disk>(status: Status, disk: D) -> Ended<D>
    ensures { result ≡ record { status = status; disk = disk; trace = None } }
{
    Ended {
        status,
        disk,
        trace: None,
    }
}

/// Writes the line of a status, and returns the status, also if the line cannot be written.
pub fn write_status<K: Sink>(sink: &mut K, status: Status) -> Status
    ensures status { result ≡ status }
    ensures line { WritesLine K.Sink sink.old sink.new (status_line status) }
{
    let _ = write_all(sink, status.line());
    status
}

/// Ends an invocation before its sessions begin: writes the line of the status. The status stays if the line cannot be
/// written.
pub fn report_status<K: Sink, D: Disk>(sink: &mut K, status: Status, disk: D) -> Ended<D>
    ensures status { result.status ≡ status }
    ensures line { WritesLine K.Sink sink.old sink.new (status_line status) }
    ensures disk { result.disk ≡ disk }
    ensures trace { result.trace ≡ None }
{
    ended(write_status(sink, status), disk)
}

/// Ends an invocation at the first fault of a script: writes the line of the fault. The status is `BadScript`, also if
/// the line cannot be written, or `NoMemory` if there is no memory for the line.
pub fn report_script_fault<K: Sink, D: Disk>(
    alloc: Global,
    sink: &mut K,
    fault: ScriptFault,
    disk: D,
) -> Ended<D>
    ensures told { result.status ≡ Status.BadScript → WritesLine K.Sink sink.old sink.new (fault_line fault) }
    ensures memory { (result.status ≡ Status.BadScript)
        ⊎ ((result.status ≡ Status.NoMemory) × WritesLine K.Sink sink.old sink.new (status_line Status.NoMemory)) }
    ensures disk { result.disk ≡ disk }
    ensures trace { result.trace ≡ None }
{
    let mut line = Vec::new(alloc);
    match write_fault(alloc, &mut line, fault) {
        Ok(()) => {
            let _ = write_all(sink, &line);
            ended(Status::BadScript, disk)
        }
        Err(NoMemory) => report_status(sink, Status::NoMemory, disk),
    }
}

// The line of a fault of a store's files.
fn store_line(alloc: Global, fault: &str, details: &[(&str, Detail)]) -> Result<Vec<u8>, NoMemory>
    ensures { IfOk result (λ line. line.items ≡ named_fault_line fault.now (map detail_field details.now)) }
{
    let mut line = Vec::new(alloc);
    write_named_fault(alloc, &mut line, fault, details)?;
    Ok(line)
}

// The line of a file whose digest is another than the one that was kept.
fn damaged_line(
    alloc: Global,
    name: FileName,
    kept: [u8; 32],
    found: [u8; 32],
) -> Result<Vec<u8>, NoMemory>
    ensures { IfOk result (λ line. line.items ≡ open_line (faults.Damaged name kept found)) }
{
    let file = format!(in alloc; "{name}")?;
    store_line(
        alloc,
        "damaged",
        &[
            ("file", Detail::Text(&file)),
            ("kept", Detail::Digest(kept)),
            ("found", Detail::Digest(found)),
        ],
    )
}

// The line that says why a store was not opened.
fn open_line(alloc: Global, fault: &OpenFault) -> Result<Vec<u8>, NoMemory>
    ensures { IfOk result (λ line. line.items ≡ open_line fault.now) }
{
    match fault {
        OpenFault::Disk => Ok(Vec::from_slice(alloc, Status::DiskFault.line())?),
        OpenFault::NoMemory => Ok(Vec::from_slice(alloc, Status::NoMemory.line())?),
        OpenFault::Missing { name } => {
            let file = format!(in alloc; "{name}")?;
            store_line(alloc, "missing", &[("file", Detail::Text(&file))])
        }
        OpenFault::Damaged { name, kept, found } => damaged_line(alloc, *name, *kept, *found),
        OpenFault::Malformed { name, at } => {
            let file = format!(in alloc; "{name}")?;
            let details = [("file", Detail::Text(&file)), ("at", Detail::Number(*at))];
            store_line(alloc, "malformed", &details)
        }
        OpenFault::Uncovered { needs, has } => {
            let details = [
                ("needs", Detail::Number(*needs)),
                ("has", Detail::Number(*has)),
            ];
            store_line(alloc, "uncovered", &details)
        }
        OpenFault::NumbersSpent { number } => {
            store_line(
                alloc,
                "numbers_spent",
                &[("number", Detail::Number(*number))],
            )
        }
        OpenFault::OtherConfig { dim } => {
            store_line(alloc, "other_config", &[("dim", Detail::Text(dim.text()))])
        }
    }
}

/// Returns the line that says why a store was not opened: if the disk failed since another process has the store, the
/// line `in_use`.
///
/// Errors: out of memory.
pub fn open_fault_line<D: Disk>(
    alloc: Global,
    fault: &OpenFault,
    disk: &D,
) -> Result<Vec<u8>, NoMemory>
    ensures { IfOk result (λ line. IsOpenLine fault.now line.items) }
{
    if matches!(fault, OpenFault::Disk) && disk.is_in_use() {
        return Ok(Vec::from_slice(alloc, IN_USE)?);
    }
    open_line(alloc, fault)
}

/// Ends an invocation whose store was not opened: writes the line of the fault, or that another process has the store.
/// The status is that of the fault, also if the line cannot be written, or `NoMemory` if there is no memory for the line.
pub fn report_open_fault<K: Sink, D: Disk>(
    alloc: Global,
    sink: &mut K,
    fault: OpenFault,
    disk: D,
) -> Ended<D>
    ensures told { ((result.status ≡ fault_status fault) × WritesOpenLine K.Sink sink.old sink.new fault)
        ⊎ ((result.status ≡ Status.NoMemory) × WritesLine K.Sink sink.old sink.new (status_line Status.NoMemory)) }
    ensures disk { result.disk ≡ disk }
    ensures trace { result.trace ≡ None }
{
    match open_fault_line(alloc, &fault, &disk) {
        Ok(line) => {
            let _ = write_all(sink, &line);
            ended(Status::of(&fault), disk)
        }
        Err(NoMemory) => report_status(sink, Status::NoMemory, disk),
    }
}
