ghost use Rattle.std.specs.Prelude.{◌≡◌};

use facet_codec::CodecFault;
use std::alloc::{AllocError, AllocFailed};

/// Why bytes are not a segment: the first fault in reading them from left to right. `at` is its place, in bytes from 0.
#[derive(Clone, Copy, Debug, PartialEq, Eq)]
pub enum SegFault {
    /// The bytes do not begin with `FSEG`.
    BadMagic,
    /// The version is `v`, not 1.
    BadVersion { v: u64 },
    /// A number or a text cannot be read, or a count is above its limit.
    Codec { at: u64 },
    /// A count is 0 that may not be, an id is empty, a number or a term does not rise, a place is not that of a
    /// document, or bytes follow the segment.
    Disorder { at: u64 },
    /// Out of memory.
    NoMemory,
}

impl From<CodecFault> for SegFault {
    ghost use Rattle.facet_codec.specs.Faults.{fault_at};
    ghost use Rattle.seg_grammar.specs.declared.fault.SegFault.TheVariants.{Codec};

    ghost from_gives = { λ e f. f ≡ Codec (fault_at e) };

    fn from(fault: CodecFault) -> SegFault {
        SegFault::Codec { at: fault.at() }
    }
}

impl From<AllocError> for SegFault {
    ghost use Rattle.seg_grammar.specs.declared.fault.SegFault.TheVariants.{NoMemory as Memory};

    ghost from_gives = { λ _ f. f ≡ Memory };

    fn from(_error: AllocError) -> SegFault {
        SegFault::NoMemory
    }
}

impl<T: Drop> From<AllocFailed<T>> for SegFault {
    ghost use Rattle.seg_grammar.specs.declared.fault.SegFault.TheVariants.{NoMemory as Memory};

    ghost from_gives = { λ _ f. f ≡ Memory };

    fn from(_error: AllocFailed<T>) -> SegFault {
        SegFault::NoMemory
    }
}
