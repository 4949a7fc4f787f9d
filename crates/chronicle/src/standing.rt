ghost use Rattle.std.specs.Prelude.{List};
ghost use Rattle.chronicle.specs.Frame.{Frame};

/// A value that represents a list of entries, as an account's balance represents its postings.
///
/// An implementor writes no code: the three ghost members are what the proofs know of the value. The holder of the lock
/// may change the value freely. When it releases the lock, the value represents the entries as they then are.
pub trait Standing {
    /// What a turn adds to the history. It is taken by value and dropped: the history exists in proofs only.
    type Entry: Drop;

    // Whether the value represents the list.
    ghost stands: { Self → List Self.Entry → Type 0 };

    // The list with which the history of a chronicle begins that is opened with the value.
    ghost opening: { Self → List Self.Entry };

    // What never changes of the value. A value that keeps notes of other chronicles names their identities here.
    ghost frame: { Self → Frame };
}
