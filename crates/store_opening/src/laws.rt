//! Laws of what files represent, for proofs of other crates. Each call does nothing: its contract is the law.

ghost use Rattle.store_opening.specs.Laws.{StandsForHeld, HoldsFiles, SettledStands, StandsSettles, OneImageSettles};
ghost use Rattle.store_opening.specs.Laws.{QuietStays};
ghost use Rattle.store_opening.specs.Stopped.{StoppedSettles};

use facet_disk::{Disk, MemoryDisk};

/// States what the files of an image represent, given what its directories hold.
pub fn of_files()
    ensures stands { StandsForHeld }
    ensures held { HoldsFiles }
{}

/// States that a settled disk represents what it reads, whatever a crash leaves.
pub fn of_settled<D: Disk>(disk: &D)
    ensures { SettledStands D.Disk disk.now }
{
    let _ = disk;
}

/// States when a disk is settled.
pub fn of_settling<D: Disk>(disk: &D)
    ensures stands { StandsSettles D.Disk disk.now }
    ensures alone { OneImageSettles D.Disk disk.now }
{
    let _ = disk;
}

/// States that a disk in memory is settled after a crash, as `MemoryDisk::stopped` returns it.
pub fn of_stopped(disk: &MemoryDisk)
    ensures { StoppedSettles disk.now }
{
    let _ = disk;
}

/// States that a settled disk stays settled if nothing is changed.
pub fn of_quiet<D: Disk>(old: &D, new: &D)
    ensures { QuietStays D.Disk old.now new.now }
{
    let _ = old;
    let _ = new;
}
