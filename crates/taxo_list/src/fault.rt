ghost use Rattle.std.specs.Prelude.{◌≡◌};

use facet_names::NoMemory;
use std::alloc::{AllocError, AllocFailed};

/// Why a label was not added.
#[derive(Clone, Copy, Debug, PartialEq, Eq)]
pub enum TaxoFault {
    /// The list has `size` entries, at least the limit.
    LabelsFull { size: u64 },
    /// Out of memory.
    NoMemory,
}

impl From<NoMemory> for TaxoFault {
    ghost use Rattle.taxo_list.specs.declared.fault.TaxoFault.TheVariants.{NoMemory as Memory};

    ghost from_gives = { λ _ e. e ≡ Memory };

    fn from(_error: NoMemory) -> TaxoFault {
        TaxoFault::NoMemory
    }
}

impl From<AllocError> for TaxoFault {
    ghost use Rattle.taxo_list.specs.declared.fault.TaxoFault.TheVariants.{NoMemory as Memory};

    ghost from_gives = { λ _ e. e ≡ Memory };

    fn from(_error: AllocError) -> TaxoFault {
        TaxoFault::NoMemory
    }
}

impl<T: Drop> From<AllocFailed<T>> for TaxoFault {
    ghost use Rattle.taxo_list.specs.declared.fault.TaxoFault.TheVariants.{NoMemory as Memory};

    ghost from_gives = { λ _ e. e ≡ Memory };

    fn from(_error: AllocFailed<T>) -> TaxoFault {
        TaxoFault::NoMemory
    }
}
