use facet_model::DocShape;
use facet_names::NoMemory;
use std::alloc::{AllocError, AllocFailed};

/// Why a segment is not known to be that of its documents.
pub enum Unlike {
    /// It differs, or the check ended early.
    Differs,
    /// Out of memory.
    NoMemory,
}

impl From<NoMemory> for Unlike {
    fn from(_error: NoMemory) -> Unlike {
        Unlike::NoMemory
    }
}

impl From<AllocError> for Unlike {
    fn from(_error: AllocError) -> Unlike {
        Unlike::NoMemory
    }
}

impl<T: Drop> From<AllocFailed<T>> for Unlike {
    fn from(_error: AllocFailed<T>) -> Unlike {
        Unlike::NoMemory
    }
}

impl From<DocShape> for Unlike {
    fn from(fault: DocShape) -> Unlike {
        match fault {
            DocShape::NoMemory => Unlike::NoMemory,
            _ => Unlike::Differs,
        }
    }
}
