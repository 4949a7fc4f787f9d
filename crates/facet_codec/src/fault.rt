ghost use Rattle.std.specs.Prelude.{◌≡◌};
ghost use Rattle.facet_codec.specs.Faults.{fault_at};

use std::alloc::{AllocError, AllocFailed};

/// Why a value could not be read. `at` is where the value begins, in bytes from 0.
#[derive(Clone, Copy, Debug, PartialEq, Eq)]
pub enum CodecFault {
    /// The bytes end before the value does.
    Short { at: u64 },
    /// A vInt of several bytes ends with 0, so the number has a shorter spelling.
    LongSpelling { at: u64 },
    /// The bytes of a text are not UTF-8.
    NotUtf8 { at: u64 },
    /// A vInt is not below 2^32, or a text is longer than allowed.
    OutOfRange { at: u64 },
}

impl CodecFault {
    /// Returns where the value begins that could not be read.
    pub fn at(self) -> u64
        ensures { result ≡ fault_at self }
    {
        match self {
            CodecFault::Short { at }
            | CodecFault::LongSpelling { at }
            | CodecFault::NotUtf8 { at }
            | CodecFault::OutOfRange { at } => at,
        }
    }
}

/// Out of memory: an allocation failed.
#[derive(Clone, Copy, Debug, PartialEq, Eq)]
pub struct NoMemory;

impl From<AllocError> for NoMemory {
    fn from(_error: AllocError) -> NoMemory {
        NoMemory
    }
}

impl<T: Drop> From<AllocFailed<T>> for NoMemory {
    fn from(_error: AllocFailed<T>) -> NoMemory {
        NoMemory
    }
}
