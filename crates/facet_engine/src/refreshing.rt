ghost use Rattle.std.specs.Prelude.{◌≡◌};
ghost use Rattle.facet_engine.specs.Systems.{BelongsTo};
ghost use Rattle.facet_engine.specs.Calls.{IsCall, SameSession};
ghost use Rattle.facet_engine.specs.Steps.{refreshed};

use crate::session::Session;
use crate::system::System;
use commit_turns::Start;
use facet_disk::Disk;
use facet_names::NoMemory;
use std::sync::Wait;
use taxo_cache::Name;

impl<D: Disk, N: Name + Start> System<D, N> {
    /// Publishes a pair of all operations and labels that there are, and returns the number of its operations. These
    /// include all that the session had seen.
    ///
    /// Locks: that of the pairs; in it, that of the operations and then that of the labels. The documents that were
    /// added since the last refresh become a segment. Each new label is copied, and at most 4,095 others.
    /// With `auto_merge` it first merges segments if there are too many, before it takes these locks. If memory is
    /// short for that, it merges none.
    ///
    /// Errors: out of memory. Then no pair is published.
    pub fn refresh<R: Wait>(&self, rt: &R, session: &mut Session) -> Result<u64, NoMemory>
        requires own { BelongsTo self.now session.old.pass }
        ensures same { SameSession session.old session.new }
        ensures held { session.new.held ≡ session.old.held }
        ensures step { IsCall self.now session.old (refreshed session.old.pass session.new.pass result) }
    {
        self.keep_few(rt, &mut session.pass);
        self.manager.refresh(rt, &mut session.pass)
    }
}
