ghost use Rattle.live_serving.specs.Runs.{RunsLive};

use facet_disk::Disk;
use facet_phases::Gate;
use live_io::Duplex;
use live_serving::{LiveEnded, serve_live};
use std::hash::RandomState;
use std::sync::Wait;
use std::thread::Threads;

/// Reads lines and answers each before it reads more. The first line is the config line; the store of the disk is then
/// opened, and a line says how many documents and labels it has. Each further line is carried out when it has come, as a
/// phase of its own. The lines between `{"cmd":"group"}` and `{"cmd":"phase"}` are one phase, whose sessions run
/// concurrently. A faulty line is answered in its place, and the next one is read. At the end of input the last line is
/// written.
///
/// - `rt`, `keys`, `disk` and `gate` are as for [`run`](crate::run). `io` is both input and output.
/// - `only_reads` says that no line is a commit: a commit is then a faulty line, and the disk is only read.
/// - Before each read call all that was due for the lines that were whole is written and flushed.
/// - It keeps the documents, the longest line and the longest group in memory. The memory does not grow with the number
/// of lines.
/// - It waits for the sessions of each group, where the gate waits, and where reads and writes wait.
/// - Acknowledged commits are durable however the process ends.
///
/// The result is the status, `io`, the disk, and, if sessions began, a trace of what they added. A failure is a status.
pub fn live<R: AllocGlobal + Threads + Wait + Sync, X: Duplex, D: Disk, G: Gate + Sync>(
    rt: &R,
    keys: RandomState,
    io: X,
    disk: D,
    gate: &G,
    only_reads: bool,
) -> LiveEnded<X, D>
    ensures { RunsLive X.Duplex D.Disk only_reads io result.io disk result.disk result.trace result.status }
{
    serve_live(rt, rt.alloc(), keys, io, disk, gate, only_reads)
}
