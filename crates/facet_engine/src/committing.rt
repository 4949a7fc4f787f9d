ghost use Rattle.std.specs.Prelude.{◌≡◌, IfErr, ℕ};
ghost use Rattle.facet_disk.specs.Calls.{Rose};
ghost use Rattle.commit_plan.specs.declared.fault.CommitFault.TheVariants.{Disk as OfDisk};
ghost use Rattle.commit_turns.specs.Frames.{HasNumbers};
ghost use Rattle.facet_engine.specs.Systems.{BelongsTo};
ghost use Rattle.facet_engine.specs.Calls.{IsCall, SameSession, SpendsWithin};
ghost use Rattle.facet_engine.specs.Replies.{commit_reply};
ghost use Rattle.facet_engine.specs.Steps.{committed};

use crate::session::Session;
use crate::system::System;
use commit_store::CommitFault;
use commit_turns::{Start, commit};
use facet_disk::Disk;
use std::sync::Wait;
use taxo_cache::Name;

impl<D: Disk, N: Name + Start> System<D, N> {
    /// Makes all operations and labels that there are durable, and returns the number of operations. It publishes no
    /// pair.
    ///
    /// Locks: that of the commits, for the whole call. In it, that of the operations and then that of the labels; both
    /// are released before the disk is called, so changes and searches do not wait for the disk.
    /// With `auto_merge` it first merges segments if there are too many, before it takes these locks. If memory is
    /// short for that, it merges none.
    ///
    /// Errors: `Disk` if the disk failed, after which every commit fails with `Closed` until the store is reopened;
    /// `NumbersSpent` if a file number would be 2^63 or more; out of memory. Memory and disk calls are those of
    /// `commit_store::Committer::commit`.
    pub fn commit<R: Wait>(&self, rt: &R, session: &mut Session) -> Result<u64, CommitFault>
        requires own { BelongsTo self.now session.old.pass }
        ensures same { SameSession session.old session.new }
        ensures held { session.new.held ≡ session.old.held }
        ensures step { IsCall self.now session.old (committed session.old.pass session.new.pass result) }
        ensures spent { SpendsWithin session.old.pass session.new.pass (commit_reply result) }

        // A count of faults that is reported is above the one at which the store's opening began.
        ensures disk { IfErr result (λ e. (count : ℕ) → e ≡ OfDisk count
            → (next moment faults failures : ℕ) → HasNumbers next moment faults failures session.old.pass.commits.frame
            → Rose faults count) }
    {
        self.keep_few(rt, &mut session.pass);
        commit(rt, &self.commits, &self.manager, &mut session.pass)
    }
}
