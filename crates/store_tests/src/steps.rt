//! Disk calls, and their expected results.
use facet_disk::{Dir, Disk, DiskFault, FileName, Kind};
use std::alloc::Global;

/// The name of a segment of labels.
pub const SEGMENT: FileName = FileName {
    dir: Dir::Taxonomy,
    kind: Kind::Segment,
    number: 1,
};

/// The name of a pending commit file of labels.
pub const PENDING: FileName = FileName {
    dir: Dir::Taxonomy,
    kind: Kind::Pending,
    number: 2,
};

/// The name of a commit file of labels.
pub const COMMIT: FileName = FileName {
    dir: Dir::Taxonomy,
    kind: Kind::Commit,
    number: 2,
};

/// The name of a segment of documents.
pub const OUTER: FileName = FileName {
    dir: Dir::Index,
    kind: Kind::Segment,
    number: 3,
};

/// A disk call.
#[derive(Clone, Copy, Debug)]
pub enum Step {
    /// Lists the names of a directory.
    List(Dir),
    /// Reads a file.
    Read(FileName),
    /// Puts a file with these bytes.
    Put(FileName, &'static [u8]),
    /// Syncs a file.
    Sync(FileName),
    /// Renames the first file to the second name.
    Rename(FileName, FileName),
    /// Syncs the names of a directory.
    SyncNames(Dir),
    /// Removes a file.
    Remove(FileName),
}

// Makes a call, and returns how many names or bytes it returned.
fn make<D: Disk>(alloc: Global, disk: &mut D, step: Step) -> Result<usize, DiskFault> {
    match step {
        Step::List(dir) => match disk.list(alloc, dir) {
            Ok(names) => Ok(names.as_slice().len()),
            Err(fault) => Err(fault),
        },
        Step::Read(name) => match disk.read(alloc, name) {
            Ok(bytes) => Ok(bytes.len()),
            Err(fault) => Err(fault),
        },
        Step::Put(name, bytes) => done(disk.put(name, bytes)),
        Step::Sync(name) => done(disk.sync(name)),
        Step::Rename(from, to) => done(disk.rename(from, to)),
        Step::SyncNames(dir) => done(disk.sync_names(dir)),
        Step::Remove(name) => done(disk.remove(name)),
    }
}

fn done(answer: Result<(), DiskFault>) -> Result<usize, DiskFault> {
    match answer {
        Ok(()) => Ok(0),
        Err(fault) => Err(fault),
    }
}

/// The call fails with an I/O error.
pub const FAILED: Result<usize, DiskFault> = Err(DiskFault::Failed);

/// There is no pending commit file.
pub const NO_PENDING: Result<usize, DiskFault> = Err(DiskFault::Absent { name: PENDING });

/// There is no commit file.
pub const NO_COMMIT: Result<usize, DiskFault> = Err(DiskFault::Absent { name: COMMIT });

/// There is no segment of labels.
pub const NO_SEGMENT: Result<usize, DiskFault> = Err(DiskFault::Absent { name: SEGMENT });

/// There is a pending commit file already.
pub const HAS_PENDING: Result<usize, DiskFault> = Err(DiskFault::Present { name: PENDING });

/// There is a commit file already.
pub const HAS_COMMIT: Result<usize, DiskFault> = Err(DiskFault::Present { name: COMMIT });

/// A call, and its expected result.
pub type Call = (Step, Result<usize, DiskFault>);

/// Makes calls in order, up to the first with another result than expected, and returns how many had theirs.
pub fn make_all<D: Disk>(alloc: Global, disk: &mut D, calls: &[Call]) -> usize {
    let mut right = 0usize;
    for (step, want) in calls {
        if make(alloc, disk, *step) != *want {
            break;
        }
        right = right.saturating_add(1);
    }
    right
}
