//! The steps:
//!
//! - `{..}` adds the line to the script of the next invocation.
//! - `words A ..` sets the command-line arguments of all later invocations.
//! - `piece N` sets how many bytes a read of the script returns at most.
//! - `reads N ..` and `writes N ..` let these reads of the script and writes of replies fail in the next invocation.
//! - `hold S` holds session S in all later invocations until another session was answered; 0 holds none.
//! - `calls N ..` takes an empty disk, on which these calls fail.
//! - `run` runs the program, and writes the replies and the status.
//! - `live` answers the lines as a live process, of which `writes` counts the flushes too. It writes the replies, the
//!   status, and how many bytes had been written and flushed before each read.
//! - `keep` keeps the disk, and takes an empty one.
//! - `stop N FILES NAMES` takes the disk that a crash of the kept one after N calls may leave. Files that were not
//!   synced are `gone`, `whole` or `zeroed`. Renames and removals that were not synced are `done` or `undone`.
//! - `list DIR`, `read FILE`, `put FILE TEXT`, `sync FILE`, `rename FILE FILE`, `names DIR` and `remove FILE` call the
//!   disk, and write the result.
//! - `count` writes how many calls the disk had, and how many of them failed.
//! - `say TEXT` writes the text.
//! - An empty line does nothing.
use crate::calls::call;
use crate::preparing::prepare;
use crate::runs::{answer_lines, run_script};
use crate::setup::Setup;
use live_io::DuplexEvent;
use std::alloc::AllocGlobal;
use std::sync::Wait;
use std::thread::Threads;

fn run<R: AllocGlobal + Threads + Wait + Sync + Print>(
    rt: &R,
    setup: &mut Setup,
) -> anyhow::Result<()> {
    let ran = run_script(rt, setup);
    let text = str::from_utf8(ran.sink.bytes())?;
    let held = if ran.gave_up { ", gave up" } else { "" };
    println!(rt; "{text}status {}{held}", ran.status.code())?;
    Ok(())
}

// Writes how many bytes had been written and flushed before each read.
fn tell_reads<R: Print>(rt: &R, events: &[DuplexEvent]) -> anyhow::Result<()> {
    let mut written = 0;
    let mut flushed = 0;
    print!(rt; "flushed before each read:")?;
    for event in events {
        match event {
            DuplexEvent::Put(bytes) => written = bytes.len().saturating_add(written),
            DuplexEvent::Flushed => flushed = written,
            DuplexEvent::Got(_) => print!(rt; " {flushed}")?,
        }
    }
    Ok(println!(rt)?)
}

fn answer<R: AllocGlobal + Threads + Wait + Sync + Print>(
    rt: &R,
    setup: &mut Setup,
) -> anyhow::Result<()> {
    let lived = answer_lines(rt, setup);
    let text = str::from_utf8(lived.io.bytes())?;
    println!(rt; "{text}status {}", lived.status.code())?;
    tell_reads(rt, lived.io.events())
}

/// Carries out a step.
pub fn step<R: AllocGlobal + Threads + Wait + Sync + Print>(
    rt: &R,
    setup: &mut Setup,
    line: &str,
) -> anyhow::Result<()> {
    if line.starts_with('{') {
        return setup.add_line(line);
    }
    let (verb, rest) = line.split_once(' ').unwrap_or((line, ""));
    if verb == "run" {
        return run(rt, setup);
    }
    if verb == "live" {
        return answer(rt, setup);
    }
    if verb == "say" {
        return Ok(println!(rt; "{rest}")?);
    }
    if verb.is_empty() || prepare(rt.alloc(), setup, verb, rest)? {
        return Ok(());
    }
    let text = call(rt.alloc(), &mut setup.disk, verb, rest)?;
    Ok(println!(rt; "{text}")?)
}
