use crate::steps::{
    COMMIT, Call, FAILED, HAS_COMMIT, HAS_PENDING, NO_COMMIT, NO_PENDING, NO_SEGMENT, OUTER,
    PENDING, SEGMENT, Step, make_all,
};
use facet_disk::{Dir, Disk, FileName, Kind, Names, NoMemory, StdDisk};
use std::alloc::Global;
use std::fs;
use std::rt::Files;
use std::test::Fail;

const FOLDER_CALLS: &[Call] = &[
    (Step::List(Dir::Taxonomy), Ok(0)),
    (Step::Read(PENDING), NO_PENDING),
    (Step::SyncNames(Dir::Taxonomy), FAILED),
    (Step::Put(PENDING, b"seven"), Ok(0)),
    (Step::Put(PENDING, b"eight"), HAS_PENDING),
    (Step::Sync(PENDING), Ok(0)),
    (Step::Sync(COMMIT), NO_COMMIT),
    (Step::Rename(COMMIT, SEGMENT), NO_COMMIT),
    (Step::Rename(PENDING, PENDING), HAS_PENDING),
    (Step::Rename(PENDING, COMMIT), Ok(0)),
    (Step::SyncNames(Dir::Taxonomy), Ok(0)),
    (Step::Remove(PENDING), NO_PENDING),
    // No rename replaces another file.
    (Step::Put(PENDING, b"another"), Ok(0)),
    (Step::Rename(PENDING, COMMIT), HAS_COMMIT),
    (Step::Read(PENDING), Ok(7)),
    (Step::Remove(PENDING), Ok(0)),
    (Step::Read(COMMIT), Ok(5)),
    (Step::List(Dir::Taxonomy), Ok(1)),
    (Step::Rename(COMMIT, OUTER), Ok(0)),
    (Step::List(Dir::Taxonomy), Ok(0)),
    (Step::List(Dir::Index), Ok(1)),
    (Step::Remove(OUTER), Ok(0)),
    (Step::List(Dir::Index), Ok(0)),
];

// What a disk returns while another one has locked its folder.
const REFUSED: &[Call] = &[
    (Step::List(Dir::Index), FAILED),
    (Step::Read(OUTER), FAILED),
    (Step::Put(SEGMENT, b"two"), FAILED),
    (Step::Sync(OUTER), FAILED),
    (Step::Rename(OUTER, SEGMENT), FAILED),
    (Step::SyncNames(Dir::Index), FAILED),
    (Step::Remove(OUTER), FAILED),
];

// What it returns after the other one was dropped.
const TAKEN: &[Call] = &[
    (Step::List(Dir::Index), Ok(1)),
    (Step::Read(OUTER), Ok(3)),
    (Step::Put(SEGMENT, b"two"), Ok(0)),
    (Step::Sync(SEGMENT), Ok(0)),
    (Step::Rename(SEGMENT, PENDING), Ok(0)),
    (Step::SyncNames(Dir::Taxonomy), Ok(0)),
    (Step::Remove(OUTER), Ok(0)),
];

// What a disk returns that is only read, while another one has locked its folder.
const READ: &[Call] = &[
    (Step::List(Dir::Taxonomy), Ok(0)),
    (Step::List(Dir::Index), Ok(1)),
    (Step::Read(OUTER), Ok(3)),
    (Step::Read(SEGMENT), NO_SEGMENT),
    (Step::Put(SEGMENT, b"two"), FAILED),
    (Step::Put(OUTER, b"two"), FAILED),
    (Step::Sync(OUTER), FAILED),
    (Step::Rename(OUTER, SEGMENT), FAILED),
    (Step::SyncNames(Dir::Index), FAILED),
    (Step::Remove(OUTER), FAILED),
    (Step::Read(OUTER), Ok(3)),
];

// Returns whether each of these calls of a disk has this result, with this many faults counted.
fn answers_all<D: Disk>(alloc: Global, disk: &mut D, calls: &[Call], faults: u64) -> bool {
    make_all(alloc, disk, calls) == calls.len() && disk.fault_count() == faults
}

// Returns whether each call of a disk fails while another one, which has put a file there, has locked its folder.
fn is_refused<D: Disk>(alloc: Global, mut first: D, second: &mut D) -> Result<bool, Fail> {
    first.put(OUTER, b"one")?;
    Ok(answers_all(alloc, second, REFUSED, 7))
}

// Returns whether that is so, and the disk has the folder after the other one was dropped.
fn waits_for<D: Disk>(alloc: Global, first: D, mut second: D) -> Result<bool, Fail> {
    Ok(is_refused(alloc, first, &mut second)? && make_all(alloc, &mut second, TAKEN) == TAKEN.len())
}

// Returns whether a disk reads, and fails each call that writes, while another one has locked its folder; and whether
// the other one writes after this one rests. If it did not rest, the other one would wait for ever.
fn reads_beside<D: Disk>(alloc: Global, mut first: D, mut second: D) -> Result<bool, Fail> {
    first.put(OUTER, b"one")?;
    first.rest();
    second.only_read();
    let has_read = answers_all(alloc, &mut second, READ, 7);
    second.rest();
    first.put(SEGMENT, b"two")?;
    first.rest();
    Ok(has_read && second.read(alloc, SEGMENT)?.len() == 3)
}

#[test]
fn a_folder_that_is_only_read(rt: HostRuntime) -> Result<(), Fail> {
    let alloc = rt.alloc();
    let first = StdDisk::new(alloc, &rt, "read")?;
    let second = StdDisk::new(alloc, &rt, "read")?;
    assert!(rt; reads_beside(alloc, first, second)?);
    Ok(())
}

// Tests a disk alone in its folder, and two in one, if there was memory to make them.
fn are_folders<D: Disk>(
    alloc: Global,
    alone: Result<D, NoMemory>,
    first: Result<D, NoMemory>,
    second: Result<D, NoMemory>,
) -> Result<bool, Fail> {
    let mut alone = alone?;
    Ok(answers_all(alloc, &mut alone, FOLDER_CALLS, 8) && waits_for(alloc, first?, second?)?)
}

#[test]
fn a_folder(rt: HostRuntime) -> Result<(), Fail> {
    let alloc = rt.alloc();
    let are_right = are_folders(
        alloc,
        StdDisk::new(alloc, &rt, "store"),
        StdDisk::new(alloc, &rt, "shared"),
        StdDisk::new(alloc, &rt, "shared"),
    );
    assert!(rt; are_right?);
    Ok(())
}

// Entries of a directory, and whether they are file names of a store.
const ENTRIES: &[(&str, bool)] = &[
    ("segment-0", true),
    ("pending-18446744073709551615", true),
    ("commit-7", true),
    ("commit-18446744073709551616", false),
    ("segment-07", false),
    ("segment-+7", false),
    ("segment--7", false),
    ("segment-", false),
    ("segment-7 ", false),
    ("segments-7", false),
    ("note", false),
];

// Returns whether the entry is read as a file name with this text, or as none.
fn is_read(alloc: Global, entry: &str, is_name: bool) -> Result<bool, Fail> {
    match FileName::from_entry(Dir::Index, entry) {
        Some(name) => {
            let text = name.to_string(alloc)?;
            Ok(is_name && text.as_str().strip_prefix("index/") == Some(entry))
        }
        None => Ok(!is_name),
    }
}

// Returns the names in the order of their directories, kinds and numbers.
fn sorted_names<D: Disk>(alloc: Global, disk: &mut D) -> Result<Names, Fail> {
    let mut names = disk.list(alloc, Dir::Index)?.into_vec();
    names.sort()?;
    Ok(Names::new(names))
}

// Makes each entry a file, and returns whether it is read as expected.
fn are_read<R: Files>(rt: &R, alloc: Global) -> Result<bool, Fail> {
    for (entry, is_name) in ENTRIES {
        fs::write(rt, format!(in alloc; "store/index/{entry}")?, "x")?;
        if !is_read(alloc, *entry, *is_name)? {
            return Ok(false);
        }
    }
    Ok(true)
}

// Returns whether the disk lists the names, and no other entry.
fn are_listed<D: Disk>(alloc: Global, disk: &mut D) -> Result<bool, Fail> {
    let names = sorted_names(alloc, disk)?;
    let first = FileName {
        dir: Dir::Index,
        kind: Kind::Segment,
        number: 0,
    };
    Ok(names.as_slice().len() == 4 && names.as_slice().first() == Some(&first))
}

// Tests entries next to a file that the disk puts, if there was memory to make the disk.
fn are_told_apart<R: Files, D: Disk>(
    rt: &R,
    alloc: Global,
    disk: Result<D, NoMemory>,
) -> Result<bool, Fail> {
    let mut disk = disk?;
    disk.put(OUTER, b"")?;
    Ok(are_read(rt, alloc)? && are_listed(alloc, &mut disk)?)
}

#[test]
fn entries(rt: HostRuntime) -> Result<(), Fail> {
    let alloc = rt.alloc();
    let are_right = are_told_apart(&rt, alloc, StdDisk::new(alloc, &rt, "store"));
    assert!(rt; are_right?);
    Ok(())
}
