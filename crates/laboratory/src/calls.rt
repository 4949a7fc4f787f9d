//! Steps that are disk calls, and the lines of their results.
use crate::parsing::{dir_of, name_of};
use anyhow::anyhow;
use facet_disk::{Dir, Disk, DiskFault, FileName, MemoryDisk};
use std::alloc::Global;

fn fault_line(alloc: Global, fault: DiskFault) -> anyhow::Result<String> {
    match fault {
        DiskFault::Absent { name } => Ok(format!(in alloc; "no {name}")?),
        DiskFault::Present { name } => Ok(format!(in alloc; "has {name}")?),
        _ => Ok(String::from_str(alloc, "failed")?),
    }
}

fn done(alloc: Global, answer: Result<(), DiskFault>) -> anyhow::Result<String> {
    match answer {
        Ok(()) => Ok(String::from_str(alloc, "ok")?),
        Err(fault) => fault_line(alloc, fault),
    }
}

// Returns the names in order, separated by spaces.
fn joined(alloc: Global, names: &[FileName]) -> anyhow::Result<String> {
    let mut text = String::new(alloc);
    for (at, name) in names.iter().enumerate() {
        let space = if at == 0 { "" } else { " " };
        write!(text, "{space}{name}")?;
    }
    Ok(text)
}

fn list(alloc: Global, disk: &mut MemoryDisk, dir: Dir) -> anyhow::Result<String> {
    match disk.list(alloc, dir) {
        Ok(names) => {
            let mut names = names.into_vec();
            names.sort()?;
            joined(alloc, &names)
        }
        Err(fault) => fault_line(alloc, fault),
    }
}

// Returns the bytes of a file. Those that are not printable ASCII are written as `\x00`.
fn read(alloc: Global, disk: &mut MemoryDisk, name: FileName) -> anyhow::Result<String> {
    match disk.read(alloc, name) {
        Ok(bytes) => Ok(format!(in alloc; "{}", bytes.as_slice().escape_ascii())?),
        Err(fault) => fault_line(alloc, fault),
    }
}

// Returns how many calls there were, and how many of them failed.
fn counted(alloc: Global, disk: &MemoryDisk) -> anyhow::Result<String> {
    let (calls, faults) = (disk.call_count(), disk.fault_count());
    Ok(format!(in alloc; "{calls} calls, {faults} faults")?)
}

/// Makes the disk call of a step, and returns the line of its result.
pub fn call(
    alloc: Global,
    disk: &mut MemoryDisk,
    verb: &str,
    rest: &str,
) -> anyhow::Result<String> {
    let (first, second) = rest.split_once(' ').unwrap_or((rest, ""));
    match verb {
        "list" => list(alloc, disk, dir_of(first)?),
        "read" => read(alloc, disk, name_of(first)?),
        "put" => done(alloc, disk.put(name_of(first)?, second.as_bytes())),
        "sync" => done(alloc, disk.sync(name_of(first)?)),
        "rename" => done(alloc, disk.rename(name_of(first)?, name_of(second)?)),
        "names" => done(alloc, disk.sync_names(dir_of(first)?)),
        "remove" => done(alloc, disk.remove(name_of(first)?)),
        "count" => counted(alloc, disk),
        _ => Err(anyhow!("a step")),
    }
}
