ghost use Rattle.std.specs.Prelude.{◌≡◌};

use facet_codec::CodecFault;
use std::alloc::{AllocError, AllocFailed};

/// Why bytes are not a commit file, or not the segment that a commit names.
#[derive(Clone, Copy, Debug, PartialEq, Eq)]
pub enum FileFault {
    /// The digest that was stored, `kept`, is not the digest of the bytes, `found`.
    Damaged { kept: [u8; 32], found: [u8; 32] },
    /// The first part that breaks the format begins at this place, in bytes from 0.
    Malformed { at: u64 },
    /// Out of memory.
    NoMemory,
}

impl From<CodecFault> for FileFault {
    ghost use Rattle.facet_codec.specs.Faults.{fault_at};
    ghost use Rattle.commit_file.specs.declared.fault.FileFault.TheVariants.{Malformed};

    ghost from_gives = { λ e f. f ≡ Malformed (fault_at e) };

    fn from(fault: CodecFault) -> FileFault {
        FileFault::Malformed { at: fault.at() }
    }
}

impl From<AllocError> for FileFault {
    ghost use Rattle.commit_file.specs.declared.fault.FileFault.TheVariants.{NoMemory as Memory};

    ghost from_gives = { λ _ f. f ≡ Memory };

    fn from(_error: AllocError) -> FileFault {
        FileFault::NoMemory
    }
}

impl<T: Drop> From<AllocFailed<T>> for FileFault {
    ghost use Rattle.commit_file.specs.declared.fault.FileFault.TheVariants.{NoMemory as Memory};

    ghost from_gives = { λ _ f. f ≡ Memory };

    fn from(_error: AllocFailed<T>) -> FileFault {
        FileFault::NoMemory
    }
}
