use crate::holding::HoldsOne;
use crate::setup::{Setup, empty_disk};
use facet_disk::MemoryDisk;
use facet_io::{MemorySink, MemorySource};
use facet_shell::{Status, live, read_live, run};
use live_io::MemoryDuplex;
use std::alloc::{AllocGlobal, Global};
use std::mem;
use std::sync::Wait;
use std::thread::Threads;

/// How an invocation ended.
#[derive(Drop)]
pub struct Ran {
    /// The exit status.
    pub status: Status,
    /// What was written.
    pub sink: MemorySink,
    /// Whether the held session went on although no other was answered.
    pub gave_up: bool,
}

// Takes the script and its failing reads, which the next invocation starts without.
fn take_source(alloc: Global, setup: &mut Setup) -> MemorySource {
    let script = mem::replace(&mut setup.script, Vec::new(alloc));
    let reads = mem::replace(&mut setup.reads, Vec::new(alloc));
    MemorySource::new(script, setup.piece.max(1), reads)
}

fn take_sink(alloc: Global, setup: &mut Setup) -> MemorySink {
    let writes = mem::replace(&mut setup.writes, Vec::new(alloc));
    MemorySink::new(alloc, writes)
}

/// Runs the script over the disk, which afterwards is as the program left it.
pub fn run_script<R: AllocGlobal + Threads + Wait + Sync>(rt: &R, setup: &mut Setup) -> Ran {
    let alloc = rt.alloc();
    let mut source = take_source(alloc, setup);
    let mut sink = take_sink(alloc, setup);
    let disk: MemoryDisk = mem::replace(&mut setup.disk, empty_disk(alloc));
    let gate = HoldsOne::new(setup.held);
    let ended = run(
        rt,
        setup.keys,
        &setup.words,
        &mut source,
        &mut sink,
        disk,
        &gate,
    );
    setup.disk = ended.disk;
    Ran {
        status: ended.status,
        sink,
        gave_up: gate.gave_up(),
    }
}

/// How a live process ended.
#[derive(Drop)]
pub struct Lived {
    /// The exit status.
    pub status: Status,
    /// What was read, written and flushed.
    pub io: MemoryDuplex,
}

// Takes the lines of a client, and the failing reads, writes and flushes.
fn take_io(alloc: Global, setup: &mut Setup) -> MemoryDuplex {
    let lines = mem::replace(&mut setup.script, Vec::new(alloc));
    let reads = mem::replace(&mut setup.reads, Vec::new(alloc));
    let writes = mem::replace(&mut setup.writes, Vec::new(alloc));
    MemoryDuplex::new(alloc, lines, setup.piece.max(1), reads, writes)
}

/// Answers the lines over the disk, which afterwards is as the program left it.
pub fn answer_lines<R: AllocGlobal + Threads + Wait + Sync>(rt: &R, setup: &mut Setup) -> Lived {
    let alloc = rt.alloc();
    let io = take_io(alloc, setup);
    let disk: MemoryDisk = mem::replace(&mut setup.disk, empty_disk(alloc));
    let gate = HoldsOne::new(setup.held);
    let only_reads = match read_live(alloc, &setup.words) {
        Ok(Some(line)) => line.reads,
        _ => false,
    };
    let ended = live(rt, setup.keys, io, disk, &gate, only_reads);
    setup.disk = ended.disk;
    Lived {
        status: ended.status,
        io: ended.io,
    }
}
