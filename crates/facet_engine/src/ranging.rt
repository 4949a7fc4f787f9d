ghost use Rattle.std.specs.Prelude.{◌≡◌};
ghost use Rattle.facet_model.specs.QueryViews.{query_view};
ghost use Rattle.facet_engine.specs.Systems.{BelongsTo};
ghost use Rattle.facet_engine.specs.Calls.{IsCall, SameSession};
ghost use Rattle.facet_names.specs.Texts.{text_in};
ghost use Rattle.facet_engine.specs.Steps.{ranged};

use crate::session::Session;
use crate::system::System;
use commit_turns::Start;
use facet_disk::Disk;
use facet_model::{Drill, Query};
use facet_names::NoMemory;
use number_facets::Range;
use pair_search::{RangesAnswer, RangesFault, ranges_pair};
use std::sync::Wait;
use taxo_cache::Name;

impl<D: Disk, N: Name + Start> System<D, N> {
    /// Counts in how many documents that match the query and pass the drill-down the dimension has a number in each of
    /// these ranges. The documents are those of the pair that is held under the name `on`. Without a name, they are
    /// those of the pair that was published last.
    ///
    /// Locks: without a name, that of the pairs, which is released before the count. So it waits for a refresh in
    /// progress, and counts without a lock.
    ///
    /// Errors: `NotHeld`; out of memory. For the costs see `pair_search::ranges_pair`.
    pub fn ranges<R: Wait>(
        &self,
        rt: &R,
        session: &mut Session,
        on: Option<&str>,
        query: &Query,
        drill: &Drill,
        dim: &str,
        ranges: &[Range],
    ) -> Result<RangesAnswer, RangesFault>
        requires own { BelongsTo self.now session.old.pass }
        ensures same { SameSession session.old session.new }
        ensures held { session.new.held ≡ session.old.held }
        ensures step { IsCall self.now session.old
            (ranged (text_in on.entry) (record { query = query_view query.now; drill = drill.now; dim = dim.now })
            ranges.now session.old.pass session.new.pass result) }
    {
        match on {
            Some(name) => match session.held.find(name) {
                Some(lease) => ranges_pair(self.alloc, lease.pair(), query, drill, dim, ranges),
                None => Err(RangesFault::NotHeld),
            },
            None => match self.manager.acquire(rt, &mut session.pass) {
                Ok(lease) => ranges_pair(self.alloc, lease.pair(), query, drill, dim, ranges),
                Err(NoMemory) => Err(RangesFault::NoMemory),
            },
        }
    }
}
