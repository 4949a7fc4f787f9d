ghost use Rattle.std.specs.Prelude.{◌≡◌};

use facet_names::NoMemory;

/// Why a commit failed. Earlier commits are intact.
#[derive(Clone, Copy, Debug, PartialEq, Eq)]
pub enum CommitFault {
    /// A disk call failed, and the disk has counted `count` faults by then. A crash leaves one of the states that a
    /// crash during the commit may leave.
    Disk { count: u64 },
    /// An earlier commit failed on the disk, when the disk had counted `count` faults. No disk call was made.
    Closed { count: u64 },
    /// Out of memory. No disk call was made.
    NoMemory,
    /// The last file would need the number `number`, which is 2^63 or more. No disk call was made.
    NumbersSpent { number: u64 },
}

impl From<NoMemory> for CommitFault {
    ghost use Rattle.commit_plan.specs.declared.fault.CommitFault.TheVariants.{NoMemory as Memory};

    ghost from_gives = { λ _ f. f ≡ Memory };

    fn from(_error: NoMemory) -> CommitFault {
        CommitFault::NoMemory
    }
}
