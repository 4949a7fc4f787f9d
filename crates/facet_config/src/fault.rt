use std::alloc::{AllocError, AllocFailed};

/// Why a dimension was not declared.
#[derive(Clone, Copy, Debug, PartialEq, Eq)]
pub enum DeclareFault {
    /// The name has `len` bytes: none, or more than 1,024.
    BadName { len: u64 },
    /// The dimension was declared before.
    Twice,
    /// Out of memory.
    NoMemory,
}

/// Why a config rejects a document: the first facet that breaks a rule. Facets count from 0.
#[derive(Clone, Copy, Debug, PartialEq, Eq)]
pub enum DocFault {
    /// The facet has no component after its dimension.
    NoComponent { facet: u64 },
    /// The dimension is not hierarchical, and `len` components follow it instead of one.
    NotHierarchical { facet: u64, len: u64 },
    /// The dimension is not multi-valued, and an earlier facet has it too.
    NotMultiValued { facet: u64 },
}

impl From<AllocError> for DeclareFault {
    ghost use Rattle.std.specs.Prelude.{◌≡◌};
    ghost use Rattle.facet_config.specs.declared.fault.DeclareFault.TheVariants.{NoMemory as Memory};

    ghost from_gives = { λ _ e. e ≡ Memory };

    fn from(_error: AllocError) -> DeclareFault {
        DeclareFault::NoMemory
    }
}

impl<T: Drop> From<AllocFailed<T>> for DeclareFault {
    ghost use Rattle.std.specs.Prelude.{◌≡◌};
    ghost use Rattle.facet_config.specs.declared.fault.DeclareFault.TheVariants.{NoMemory as Memory};

    ghost from_gives = { λ _ e. e ≡ Memory };

    fn from(_error: AllocFailed<T>) -> DeclareFault {
        DeclareFault::NoMemory
    }
}
