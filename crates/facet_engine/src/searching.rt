ghost use Rattle.std.specs.Prelude.{◌≡◌};
ghost use Rattle.facet_engine.specs.Systems.{BelongsTo};
ghost use Rattle.facet_engine.specs.Calls.{IsCall, SameSession};
ghost use Rattle.facet_names.specs.Texts.{text_in};
ghost use Rattle.facet_engine.specs.Steps.{searched};
ghost use Rattle.pair_search.specs.Searches.{search_view};

use crate::session::Session;
use crate::system::System;
use commit_turns::Start;
use facet_disk::Disk;
use facet_names::NoMemory;
use pair_search::{SearchAnswer, SearchFault, search_pair};
use sideways::SearchAsk;
use std::sync::Wait;
use taxo_cache::Name;

impl<D: Disk, N: Name + Start> System<D, N> {
    /// Searches the documents of the pair that is held under the name `on`. Without a name, it searches those of the
    /// pair that was published last.
    ///
    /// Locks: without a name, that of the pairs, which is released before the search. So it waits for a refresh in
    /// progress, and counts without a lock.
    ///
    /// Errors: `NotHeld`; the first ask that is rejected, which is checked after the pair was taken; out of memory. For
    /// the costs see `pair_search::search_pair`.
    pub fn search<R: Wait>(
        &self,
        rt: &R,
        session: &mut Session,
        on: Option<&str>,
        ask: &SearchAsk,
    ) -> Result<SearchAnswer, SearchFault>
        requires own { BelongsTo self.now session.old.pass }
        ensures same { SameSession session.old session.new }
        ensures held { session.new.held ≡ session.old.held }
        ensures step { IsCall self.now session.old
            (searched (text_in on.entry) (search_view ask.now) session.old.pass session.new.pass result) }
    {
        match on {
            Some(name) => match session.held.find(name) {
                Some(lease) => {
                    let pair = lease.pair();
                    search_pair(self.alloc, pair, pair.config(), ask)
                }
                None => Err(SearchFault::NotHeld),
            },
            None => match self.manager.acquire(rt, &mut session.pass) {
                Ok(lease) => {
                    let pair = lease.pair();
                    search_pair(self.alloc, pair, pair.config(), ask)
                }
                Err(NoMemory) => Err(SearchFault::NoMemory),
            },
        }
    }
}
