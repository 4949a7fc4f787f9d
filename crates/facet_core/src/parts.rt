use facet_model::Change;

/// A number of operations, and the number of labels that covers them.
#[derive(Clone, Copy, Debug, PartialEq, Eq)]
pub struct Publication {
    /// How many operations.
    pub operations: u64,
    /// How many labels, with the root.
    pub labels: u64,
}

#[derive(Debug, Drop)]
pub(crate) struct Operation {
    pub(crate) session: u32,
    pub(crate) change: Change,
}

#[derive(Clone, Copy, Debug)]
pub(crate) struct Refresh {
    pub(crate) session: u32,
    pub(crate) operations: u64,
    pub(crate) labels: Option<u64>,
}

// The disk calls of a commit that change what is committed. They come after the calls that write and sync its files.

/// The commit file of the labels is renamed.
pub(crate) const RENAME_LABELS: u8 = 9;

/// That rename is made durable.
pub(crate) const SYNC_LABELS: u8 = 10;

/// The commit file of the operations is renamed.
pub(crate) const RENAME_OPERATIONS: u8 = 11;

/// That rename is made durable, and the commit is acknowledged. It is the last call.
pub(crate) const SYNC_OPERATIONS: u8 = 12;

/// A commit in progress. It takes the number of labels with its first disk call.
#[derive(Clone, Copy, Debug)]
pub(crate) struct Commit {
    pub(crate) operations: u64,
    pub(crate) labels: Option<u64>,
    pub(crate) calls: u8,
}
