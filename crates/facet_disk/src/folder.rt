ghost use Rattle.std.specs.IoError.{error_kind};
ghost use Rattle.std.specs.Prelude.{◌≡◌, ◌≢◌, ◌≤◌, ◌∷◌, [], None, IfOk, length};
ghost use Rattle.facet_disk.specs.declared.fault.DiskFault.TheVariants.{Failed, Absent, Present, NoMemory as Memory};
ghost use Rattle.facet_disk.specs.Crashes.{IsNumbered};
ghost use Rattle.facet_disk.specs.Calls.{Rose, IsOneOf};

use crate::clock::Clock;
use crate::disk::Disk;
use crate::fault::{DiskFault, NoMemory};
use crate::held_folder::HeldFolder;
use crate::name::{Dir, FileName};
use crate::names::Names;
use std::alloc::Global;
use std::fs::File;
use std::io;
use std::io::ErrorKind;
use std::rt::Files;

/// A folder of the operating system as a disk. Each directory is a folder in it. Contracts know nothing of its files.
///
/// - **Lock.** The first call locks the folder, and the lock is held until the disk is dropped. While another process
///   holds it, each call returns `Failed` and does nothing, and [`is_in_use`](Disk::is_in_use) returns true. The locks
///   make no file. They are advisory, and not every network file system supports them.
/// - **Readers.** After [`only_read`](Disk::only_read) the folder is not locked, and each call that writes returns
///   `Failed`. Instead, the first call waits while another process writes, and until [`rest`](Disk::rest) no other
///   process writes. The first call that writes, and the first one after each `rest`, waits in the same way for such
///   readers.
/// - **Path.** The path is resolved once, when the folder is locked. After that, files are reached through the locked
///   folder, even if the folder is renamed or a link in its path moves. Without `/proc` the resolved path is used
///   instead, and each call fails once that path leads to another folder.
/// - **Missing folder.** A folder that does not exist holds no file, and the first `put` makes it. Entries whose names
///   are not file names of a store are ignored.
/// - **Other entries.** An entry with the name of a file that is not a plain file (a folder, pipe, socket or device) is
///   listed, so its number is not used again. Reading or syncing it fails at once. `remove` leaves it in place and
///   returns `Ok`, as it does for a link. A link to a plain file reads as that file.
/// - **Durability.** `sync` syncs the file and its folder, and `sync_names` syncs the folder. The first `put` in a
///   directory also syncs the folder above and the one above that, even if it made neither: an interrupted process may
///   have made them and not synced them.
/// - **Memory.** A call that writes returns `Failed` if it runs out of memory, and counts the fault.
#[derive(Drop)]
pub struct StdDisk<R: Files<File = File> + Send + Drop> {
    folder: HeldFolder<R>,
    faults: u64,
    failures: u64,
    clock: Clock,
}

impl<R: Files<File = File> + Send + Drop> StdDisk<R> {
    /// Returns the disk in the folder `dir`. It makes no system call and copies the path. Errors: out of memory.
    pub fn new(alloc: Global, files: R, dir: &str) -> Result<StdDisk<R>, NoMemory>
        ensures { IfOk result (λ disk. (disk.faults ≡ 0) × (disk.failures ≡ 0)) }
    {
        let folder = HeldFolder::new(alloc, files, dir)?;
        Ok(StdDisk {
            folder,
            faults: 0,
            failures: 0,
            clock: Clock::new(),
        })
    }
}

fn count_fault(faults: &mut u64)
    ensures rose { Rose faults.old faults.new }
    ensures later { faults.old ≤ faults.new }
{
    *faults = faults.saturating_add(1);
}

// Counts the fault of a call on a file that has to exist, and returns it.
fn absent_fault(faults: &mut u64, failures: &mut u64, error: io::Error, name: FileName) -> DiskFault
    ensures rose { Rose faults.old faults.new }
    ensures later { faults.old ≤ faults.new }
    ensures kinds { IsOneOf (Failed ∷ Absent name ∷ []) result }
    ensures failed { result ≡ Failed → Rose failures.old failures.new }
    ensures due { result ≢ Failed → failures.new ≡ failures.old }
    ensures absent { error_kind error ≡ ErrorKind.NotFound → result ≡ Absent name }
    ensures other { error_kind error ≢ ErrorKind.NotFound → result ≡ Failed }
{
    count_fault(faults);
    if error.kind() == ErrorKind::NotFound {
        return DiskFault::Absent { name };
    }
    count_fault(failures);
    DiskFault::Failed
}

impl<R: Files<File = File> + Send + Drop> Disk for StdDisk<R> {
    ghost told = { λ _. None };

    ghost may_leave = { λ _. IsNumbered };

    ghost moment = { λ d. length d.clock };

    ghost left_since = { λ _ _. IsNumbered };

    ghost faults = { λ d. d.faults };

    ghost failures = { λ d. d.failures };

    ghost counts_now = { λ _ _ _ _ left. left };

    ghost only_now = { λ _ _ left. left };

    ghost numbered = { λ _ _ left. left };

    ghost own = { λ _ _ is. cc is };

    fn list(&mut self, alloc: Global, dir: Dir) -> Result<Names, DiskFault> {
        self.clock.tick(0);
        match self.folder.list(alloc, dir) {
            Ok(names) => Ok(names),
            Err(e) => {
                if e.kind() == ErrorKind::OutOfMemory {
                    return Err(DiskFault::NoMemory);
                }
                count_fault(&mut self.faults);
                count_fault(&mut self.failures);
                Err(DiskFault::Failed)
            }
        }
    }

    fn read(&mut self, alloc: Global, name: FileName) -> Result<Vec<u8>, DiskFault> {
        self.clock.tick(0);
        match self.folder.read(alloc, name) {
            Ok(bytes) => Ok(bytes),
            Err(e) => {
                if e.kind() == ErrorKind::OutOfMemory {
                    return Err(DiskFault::NoMemory);
                }
                Err(absent_fault(&mut self.faults, &mut self.failures, e, name))
            }
        }
    }

    fn put(&mut self, name: FileName, bytes: &[u8]) -> Result<(), DiskFault> {
        self.clock.tick(0);
        match self.folder.put(name, bytes) {
            Ok(()) => Ok(()),
            Err(e) => {
                count_fault(&mut self.faults);
                if e.kind() == ErrorKind::AlreadyExists {
                    return Err(DiskFault::Present { name });
                }
                count_fault(&mut self.failures);
                Err(DiskFault::Failed)
            }
        }
    }

    fn sync(&mut self, name: FileName) -> Result<(), DiskFault> {
        self.clock.tick(0);
        match self.folder.sync(name) {
            Ok(()) => Ok(()),
            Err(e) => Err(absent_fault(&mut self.faults, &mut self.failures, e, name)),
        }
    }

    fn rename(&mut self, from: FileName, to: FileName) -> Result<(), DiskFault> {
        self.clock.tick(0);
        match self.folder.rename(from, to) {
            Ok(()) => Ok(()),
            Err(e) => {
                if e.kind() == ErrorKind::AlreadyExists {
                    count_fault(&mut self.faults);
                    return Err(DiskFault::Present { name: to });
                }
                Err(absent_fault(&mut self.faults, &mut self.failures, e, from))
            }
        }
    }

    fn sync_names(&mut self, dir: Dir) -> Result<(), DiskFault> {
        self.clock.tick(0);
        match self.folder.sync_names(dir) {
            Ok(()) => Ok(()),
            Err(_) => {
                count_fault(&mut self.faults);
                count_fault(&mut self.failures);
                Err(DiskFault::Failed)
            }
        }
    }

    fn remove(&mut self, name: FileName) -> Result<(), DiskFault> {
        self.clock.tick(0);
        match self.folder.remove(name) {
            Ok(()) => Ok(()),
            Err(e) => Err(absent_fault(&mut self.faults, &mut self.failures, e, name)),
        }
    }

    fn only_read(&self) {
        self.folder.only_read();
    }

    fn rest(&self) {
        self.folder.rest();
    }

    fn is_in_use(&self) -> bool {
        self.folder.is_in_use()
    }

    fn fault_count(&self) -> u64 {
        self.faults
    }
}
