ghost use Rattle.std.specs.Prelude.{◌≡◌};

use facet_codec::CodecFault;
use facet_names::NoMemory;
use seg_grammar::SegFault;
use std::alloc::{AllocError, AllocFailed};

/// Why bytes are not a segment of a store.
#[derive(Clone, Copy, Debug, PartialEq, Eq)]
pub enum StoredFault {
    /// The first fault is at this place, in bytes from 0.
    Malformed { at: u64 },
    /// Out of memory.
    NoMemory,
}

impl From<CodecFault> for StoredFault {
    ghost use Rattle.facet_codec.specs.Faults.{fault_at};
    ghost use Rattle.seg_decoding.specs.declared.fault.StoredFault.TheVariants.{Malformed};

    ghost from_gives = { λ e f. f ≡ Malformed (fault_at e) };

    fn from(fault: CodecFault) -> StoredFault {
        StoredFault::Malformed { at: fault.at() }
    }
}

impl From<SegFault> for StoredFault {
    ghost use Rattle.seg_decoding.specs.Answers.{told};

    ghost from_gives = { λ e f. f ≡ told e };

    fn from(fault: SegFault) -> StoredFault {
        match fault {
            SegFault::BadMagic => StoredFault::Malformed { at: 0 },
            SegFault::BadVersion { v: _ } => StoredFault::Malformed { at: 4 },
            SegFault::Codec { at } => StoredFault::Malformed { at },
            SegFault::Disorder { at } => StoredFault::Malformed { at },
            SegFault::NoMemory => StoredFault::NoMemory,
        }
    }
}

impl From<NoMemory> for StoredFault {
    ghost use Rattle.seg_decoding.specs.declared.fault.StoredFault.TheVariants.{NoMemory as Memory};

    ghost from_gives = { λ _ f. f ≡ Memory };

    fn from(_error: NoMemory) -> StoredFault {
        StoredFault::NoMemory
    }
}

impl From<AllocError> for StoredFault {
    ghost use Rattle.seg_decoding.specs.declared.fault.StoredFault.TheVariants.{NoMemory as Memory};

    ghost from_gives = { λ _ f. f ≡ Memory };

    fn from(_error: AllocError) -> StoredFault {
        StoredFault::NoMemory
    }
}

impl<T: Drop> From<AllocFailed<T>> for StoredFault {
    ghost use Rattle.seg_decoding.specs.declared.fault.StoredFault.TheVariants.{NoMemory as Memory};

    ghost from_gives = { λ _ f. f ≡ Memory };

    fn from(_error: AllocFailed<T>) -> StoredFault {
        StoredFault::NoMemory
    }
}
