ghost use Rattle.std.specs.Prelude.{◌≡◌};
ghost use Rattle.facet_model.specs.QueryViews.{query_view};
ghost use Rattle.facet_engine.specs.Systems.{BelongsTo};
ghost use Rattle.facet_engine.specs.Calls.{IsCall, SameSession};
ghost use Rattle.facet_names.specs.Texts.{text_in};
ghost use Rattle.facet_engine.specs.Steps.{summed};

use crate::session::Session;
use crate::system::System;
use commit_turns::Start;
use facet_disk::Disk;
use facet_model::{Drill, Query};
use facet_names::NoMemory;
use pair_search::{SumsAnswer, SumsFault, sums_pair};
use std::sync::Wait;
use taxo_cache::Name;

impl<D: Disk, N: Name + Start> System<D, N> {
    /// Adds up the numbers below the components of a dimension, over the documents that match the query and pass the
    /// drill-down, and returns the first `n` components. The documents are those of the pair that is held under the
    /// name `on`. Without a name, they are those of the pair that was published last.
    ///
    /// Locks: without a name, that of the pairs, which is released before the sums. So it waits for a refresh in
    /// progress, and adds up without a lock.
    ///
    /// Errors: `NotHeld`; `TopZero`, if `n` is 0, which is checked after the pair was taken; out of memory. For the
    /// costs see `pair_search::sums_pair`.
    pub fn sums<R: Wait>(
        &self,
        rt: &R,
        session: &mut Session,
        on: Option<&str>,
        query: &Query,
        drill: &Drill,
        dim: &str,
        n: u32,
    ) -> Result<SumsAnswer, SumsFault>
        requires own { BelongsTo self.now session.old.pass }
        ensures same { SameSession session.old session.new }
        ensures held { session.new.held ≡ session.old.held }
        ensures step { IsCall self.now session.old
            (summed (text_in on.entry) (record { query = query_view query.now; drill = drill.now; dim = dim.now }) n
            session.old.pass session.new.pass result) }
    {
        match on {
            Some(name) => match session.held.find(name) {
                Some(lease) => sums_pair(self.alloc, lease.pair(), query, drill, dim, n),
                None => Err(SumsFault::NotHeld),
            },
            None => match self.manager.acquire(rt, &mut session.pass) {
                Ok(lease) => sums_pair(self.alloc, lease.pair(), query, drill, dim, n),
                Err(NoMemory) => Err(SumsFault::NoMemory),
            },
        }
    }
}
