//! `laboratory`: runs the program over a source, a sink and a disk in memory, whose reads, writes and calls fail on
//! request, and stops it after any call.
//!
//! It reads a list of steps from standard input, one per line, carries them out in order, and writes their results to
//! standard output. `steps` lists them. A line that is not a step ends it with a status other than 0.
#![tactic(auto)]

mod calls;
mod holding;
mod parsing;
mod preparing;
mod runs;
mod setup;
mod steps;

use anyhow::Context;
use facet_io::{StdSource, read_to_end};
use setup::Setup;
use std::hash::RandomState;
use steps::step;

// the greatest number of bytes of a list of steps
const MOST: usize = 67_108_864;

fn read_steps(rt: &HostRuntime) -> anyhow::Result<String> {
    let mut source = StdSource::new(rt.reader());
    let bytes = read_to_end(rt.alloc(), &mut source, MOST)
        .ok()
        .context("the steps are not read")?;
    String::from_utf8(bytes).ok().context("the steps are UTF-8")
}

fn main(rt: HostRuntime) -> anyhow::Result<()> {
    let steps = read_steps(&rt)?;
    let keys = RandomState::new(&rt)?;
    let mut setup = Setup::new(rt.alloc(), keys);
    for line in steps.lines() {
        step(&rt, &mut setup, line)?;
    }
    Ok(())
}
