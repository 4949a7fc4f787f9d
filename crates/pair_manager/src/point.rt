/// An entry of the commits chronicle: a commit of so many operations and labels, including the root. A commit that
/// failed on the disk has the numbers of the one before it, and the disk's count of faults.
#[derive(Drop, Clone, Copy, Debug, PartialEq, Eq)]
pub struct CommitPoint {
    /// How many operations the commit made durable.
    pub operations: u64,
    /// How many labels it made durable, with the root.
    pub labels: u32,
    /// The disk's count of faults when the commit failed. `None` if it did not fail.
    pub failed: Option<u64>,
}
