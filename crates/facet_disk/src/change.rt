ghost use Rattle.std.specs.Prelude.{◌<◌, ◌^◌, IsTrue};
ghost use Rattle.facet_disk.specs.Targets.{are_numbered};

use crate::name::{Dir, FileName};

/// A file that a disk in memory held at first.
#[derive(Debug, Drop)]
pub(crate) struct Stored {
    pub name: FileName,
    pub bytes: Vec<u8>,
    ghost numbered: { name.number < 2 ^ 64 },
}

/// What a call of a disk in memory changed.
#[derive(Debug, Drop)]
pub(crate) enum Change {
    Put { name: FileName, bytes: Vec<u8> },
    Synced { name: FileName },
    Renamed { from: FileName, to: FileName },
    NamesSynced { dir: Dir },
    Removed { name: FileName },
}

/// A change with the number of its call. A call that changed nothing leaves a gap in the numbers.
#[derive(Debug, Drop)]
pub(crate) struct Noted {
    pub call: u64,
    pub change: Change,
    ghost numbered: { IsTrue (are_numbered change) },
}
