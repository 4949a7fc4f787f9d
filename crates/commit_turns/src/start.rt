ghost use Rattle.commit_turns.specs.DiskStates.{DiskState};

use std::marker::Brand;

/// Which disk an invocation begins with. It is chosen when a store becomes a system. It has no cost at run time.
pub trait Start {
    /// The disk said what its files hold when opening began.
    ghost told: { Type 0 };

    /// It was also settled.
    ghost settled: { Type 0 };

    /// A disk in such a state is as it was when opening began: nothing was written.
    ghost quiet: { DiskState → Type 0 };
}

impl Start for Brand {
    ghost told = { ⊥ };

    ghost settled = { ⊥ };

    ghost quiet = { λ state. ⊥ };
}
