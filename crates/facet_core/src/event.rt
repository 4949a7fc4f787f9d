use facet_model::Change;
use facet_names::Path;

/// What can happen to the core. Sessions are identified by their numbers. An event that is not possible changes
/// nothing.
#[derive(Debug, Drop)]
pub enum Event {
    /// A session adds a path to the label list. Possible if the list does not have it and has its parent.
    Label { session: u32, path: Path },
    /// A session makes a change. Possible if all labels of the change's document, where it has one, are in the list.
    Append { session: u32, change: Change },
    /// A session begins a refresh and takes the number of operations. Possible if no refresh is in progress.
    TakeIndex { session: u32 },
    /// The refresh of a session takes the number of labels. Possible once, after it took the operations.
    TakeLabels { session: u32 },
    /// The refresh of a session ends and publishes the pair. Possible if it took both numbers.
    Publish { session: u32 },
    /// The refresh of a session ends without a publication.
    DropRefresh { session: u32 },
    /// A session begins a commit of the operations so far. Possible if no commit is in progress and no disk call has
    /// failed since the last crash.
    BeginCommit { session: u32 },
    /// The commit in progress is abandoned. Possible before its first disk call.
    DropCommit,
    /// The next disk call of the commit in progress succeeds or fails. Calls 9 and 11 rename the commit files of the
    /// labels and of the operations; calls 10 and 12 make these renames durable.
    Device { done: bool },
    /// The process crashes, and the store reopens. `keep` is which of the states that a crash may leave, by number.
    Crash { keep: u32 },
}
