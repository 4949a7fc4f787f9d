//! `facets`: carries out a script of a faceted search index on the store of a directory, its sessions concurrently, and
//! writes the replies to standard output. It reads the script from standard input. With `--generate` it makes one, and
//! writes a line that sums up the replies. With `--live` it answers each line before it reads more.
#![tactic(auto)]

use facet_disk::StdDisk;
use facet_io::{StdSink, StdSource};
use facet_names::NoMemory;
use facet_shell::{OpenGate, Status, live, place, read_live, run};
use live_io::StdDuplex;
use std::env;
use std::hash::RandomState;
use std::io::ErrorKind;
use std::process::ExitCode;

// The exit status if the operating system has no random numbers. Nothing else ends with it.
const NO_RANDOM: u8 = 14;

// Returns the command-line arguments after the program's name. If one is not UTF-8, it returns none of them.
fn words(rt: &HostRuntime) -> Result<Vec<String>, NoMemory> {
    let alloc = rt.alloc();
    let mut words = Vec::new(alloc);
    match env::args(rt) {
        Ok(all) => {
            for word in all.skip(1) {
                words.push(word)?;
            }
            Ok(words)
        }
        Err(e) => if e.kind() == ErrorKind::OutOfMemory {
            Err(NoMemory)
        } else {
            Ok(words)
        },
    }
}

// Returns the disk in a directory, or in the current one.
fn disk_in<'a>(
    rt: &'a HostRuntime,
    named: &Option<String>,
) -> Result<StdDisk<&'a HostRuntime>, NoMemory> {
    let dir = match named {
        Some(dir) if !dir.is_empty() => dir.as_str(),
        _ => ".",
    };
    match StdDisk::new(rt.alloc(), rt, dir) {
        Ok(disk) => Ok(disk),
        Err(_) => Err(NoMemory),
    }
}

// What the arguments ask for.
#[derive(Drop)]
struct Asked {
    // whether lines are answered, and if so, whether the store is only read
    lines: Option<bool>,
    // the directory, if the arguments name one
    dir: Option<String>,
}

fn asked_of(rt: &HostRuntime, words: &[String]) -> Result<Asked, NoMemory> {
    match read_live(rt.alloc(), words)? {
        Some(line) => Ok(Asked {
            lines: Some(line.reads),
            dir: Some(line.dir),
        }),
        None => Ok(Asked {
            lines: None,
            dir: place(rt.alloc(), words)?,
        }),
    }
}

fn main(rt: HostRuntime) -> ExitCode {
    let Ok(keys) = RandomState::new(&rt) else {
        return ExitCode::from(NO_RANDOM);
    };
    let Ok(words) = words(&rt) else {
        return ExitCode::from(Status::NoMemory.code());
    };
    let Ok(asked) = asked_of(&rt, &words) else {
        return ExitCode::from(Status::NoMemory.code());
    };
    let Ok(disk) = disk_in(&rt, &asked.dir) else {
        return ExitCode::from(Status::NoMemory.code());
    };
    let status = if let Some(only_reads) = asked.lines {
        let io = StdDuplex::new(rt.reader(), rt.stdout());
        live(&rt, keys, io, disk, &OpenGate, only_reads).status
    } else {
        let mut source = StdSource::new(rt.reader());
        let mut sink = StdSink::new(rt.stdout());
        run(&rt, keys, &words, &mut source, &mut sink, disk, &OpenGate).status
    };
    ExitCode::from(status.code())
}
