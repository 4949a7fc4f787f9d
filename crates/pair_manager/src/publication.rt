/// An entry of the pairs chronicle: how many operations and labels a published pair has, including the root.
#[derive(Drop, Clone, Copy, Debug, PartialEq, Eq)]
pub struct Publication {
    /// How many operations.
    pub operations: u64,
    /// How many labels, with the root.
    pub labels: u32,
}
