ghost use Rattle.std.specs.Prelude.{◌≡◌};
ghost use Rattle.store_opening.specs.Faults.{of_labels, of_segment};
ghost use Rattle.store_opening.specs.Files.{of_file};

use commit_file::FileFault;
use facet_disk::{DiskFault, FileName};
use facet_model::Word;
use facet_names::NoMemory;
use label_file::LabelsFault;
use seg_decoding::StoredFault;
use std::alloc::{AllocError, AllocFailed};

/// Why the files of a disk hold no store: the first fault, in the order of reading. Places count bytes from 0.
#[derive(Debug, Drop)]
pub enum OpenFault {
    /// A call of the disk failed.
    Disk,
    /// A commit names a segment, and the directory does not list it.
    Missing {
        /// The segment's file.
        name: FileName,
    },
    /// The SHA-256 digest of a file's bytes is not the one that was stored.
    Damaged {
        /// The file.
        name: FileName,
        /// The digest that was stored.
        kept: [u8; 32],
        /// The digest of the bytes as they are.
        found: [u8; 32],
    },
    /// A file breaks its format.
    Malformed {
        /// The file.
        name: FileName,
        /// Where the first part that breaks the format begins, in bytes.
        at: u64,
    },
    /// The documents need more labels than there are. Both numbers count the root.
    Uncovered {
        /// How many labels the documents need.
        needs: u64,
        /// How many labels the taxonomy has.
        has: u64,
    },
    /// A file has a number of 2^63 or more, so no further file can have a number.
    NumbersSpent {
        /// The number.
        number: u64,
    },
    /// The documents were stored under other flags than the config has. It is the first such dimension in the order of
    /// bytes.
    OtherConfig {
        /// The dimension.
        dim: Word,
    },
    /// Out of memory.
    NoMemory,
}

impl From<DiskFault> for OpenFault {
    ghost use Rattle.store_opening.specs.Faults.{of_disk};

    ghost from_gives = { λ e f. f ≡ of_disk e };

    fn from(fault: DiskFault) -> OpenFault {
        match fault {
            DiskFault::NoMemory => OpenFault::NoMemory,
            DiskFault::Failed | DiskFault::Absent { .. } | DiskFault::Present { .. } => {
                OpenFault::Disk
            }
        }
    }
}

impl From<NoMemory> for OpenFault {
    ghost use Rattle.store_opening.specs.declared.fault.OpenFault.TheVariants.{NoMemory as Memory};

    ghost from_gives = { λ _ f. f ≡ Memory };

    fn from(_error: NoMemory) -> OpenFault {
        OpenFault::NoMemory
    }
}

impl From<AllocError> for OpenFault {
    ghost use Rattle.store_opening.specs.declared.fault.OpenFault.TheVariants.{NoMemory as Memory};

    ghost from_gives = { λ _ f. f ≡ Memory };

    fn from(_error: AllocError) -> OpenFault {
        OpenFault::NoMemory
    }
}

impl<T: Drop> From<AllocFailed<T>> for OpenFault {
    ghost use Rattle.store_opening.specs.declared.fault.OpenFault.TheVariants.{NoMemory as Memory};

    ghost from_gives = { λ _ f. f ≡ Memory };

    fn from(_error: AllocFailed<T>) -> OpenFault {
        OpenFault::NoMemory
    }
}

/// Returns the fault of a commit file or of a digest as a fault of opening, with the name of the file.
pub(crate) fn of_file(name: FileName, fault: FileFault) -> OpenFault
    ensures { result ≡ of_file name fault }
{
    match fault {
        FileFault::Damaged { kept, found } => OpenFault::Damaged { name, kept, found },
        FileFault::Malformed { at } => OpenFault::Malformed { name, at },
        FileFault::NoMemory => OpenFault::NoMemory,
    }
}

/// Returns the fault of a segment of labels as a fault of opening, with its name.
pub(crate) fn of_labels(name: FileName, fault: LabelsFault) -> OpenFault
    ensures { result ≡ of_labels name fault }
{
    match fault {
        LabelsFault::Malformed { at } => OpenFault::Malformed { name, at },
        LabelsFault::NoMemory => OpenFault::NoMemory,
    }
}

/// Returns the fault of a segment of documents as a fault of opening, with its name.
pub(crate) fn of_segment(name: FileName, fault: StoredFault) -> OpenFault
    ensures { result ≡ of_segment name fault }
{
    match fault {
        StoredFault::Malformed { at } => OpenFault::Malformed { name, at },
        StoredFault::NoMemory => OpenFault::NoMemory,
    }
}
