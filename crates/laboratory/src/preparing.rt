//! Steps that change what the next invocation starts with.
use crate::parsing::{number, numbers, stop_of, words};
use crate::setup::{Setup, empty_disk};
use anyhow::Context;
use facet_disk::MemoryDisk;
use std::alloc::Global;
use std::mem;

// Carries out steps of numbers.
fn set_numbers(alloc: Global, setup: &mut Setup, verb: &str, rest: &str) -> anyhow::Result<bool> {
    match verb {
        "reads" => setup.reads = numbers(alloc, rest)?,
        "writes" => setup.writes = numbers(alloc, rest)?,
        "calls" => setup.disk = MemoryDisk::new(alloc, numbers(alloc, rest)?),
        "piece" => setup.piece = number(rest)? as usize,
        "hold" => setup.held = (number(rest)? % 100) as u32,
        _ => return Ok(false),
    }
    Ok(true)
}

// Replaces the disk with what a crash of the kept one may leave.
fn stop(alloc: Global, setup: &mut Setup, rest: &str) -> anyhow::Result<()> {
    let (calls, pick) = stop_of(rest).context("a stop")?;
    let left = setup.kept.stopped(alloc, calls, pick);
    setup.disk = left.ok().context("no memory")?;
    Ok(())
}

/// Carries out such a step, or returns false if it is another.
pub fn prepare(alloc: Global, setup: &mut Setup, verb: &str, rest: &str) -> anyhow::Result<bool> {
    match verb {
        "words" => setup.words = words(alloc, rest)?,
        "keep" => setup.kept = mem::replace(&mut setup.disk, empty_disk(alloc)),
        "stop" => stop(alloc, setup, rest)?,
        _ => return set_numbers(alloc, setup, verb, rest),
    }
    Ok(true)
}
