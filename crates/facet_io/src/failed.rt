/// A read or a write failed. The source or sink has counted it as a fault.
#[derive(Clone, Copy, Debug, PartialEq, Eq)]
pub struct Failed;
