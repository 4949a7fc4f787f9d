ghost use Rattle.std.specs.Prelude.{◌≡◌};
ghost use Rattle.facet_engine.specs.Systems.{BelongsTo};
ghost use Rattle.facet_engine.specs.Calls.{IsCall, SameSession};
ghost use Rattle.facet_engine.specs.Steps.{counted};
ghost use Rattle.facet_names.specs.Texts.{text_in};

use crate::holding::NotHeld;
use crate::session::Session;
use crate::system::System;
use commit_turns::Start;
use facet_disk::Disk;
use pair_manager::Stats;
use std::sync::Wait;
use taxo_cache::Name;
use taxo_list::Labelled;

impl<D: Disk, N: Name + Start> System<D, N> {
    /// Returns the numbers of operations, of labels with the root, and of documents of the pair that is held under the
    /// name `on`. Without a name, it takes the pair that was published last. It allocates nothing.
    ///
    /// Locks: without a name, that of the pairs.
    pub fn stats<R: Wait>(
        &self,
        rt: &R,
        session: &mut Session,
        on: Option<&str>,
    ) -> Result<Stats, NotHeld>
        requires own { BelongsTo self.now session.old.pass }
        ensures same { SameSession session.old session.new }
        ensures held { session.new.held ≡ session.old.held }
        ensures step { IsCall self.now session.old
            (counted (text_in on.entry) session.old.pass session.new.pass result) }
    {
        match on {
            Some(name) => match session.held.find(name) {
                Some(lease) => {
                    let pair = lease.pair();
                    Ok(Stats {
                        operations: pair.operations(),
                        labels: pair.view().size(),
                        documents: pair.documents(),
                    })
                }
                None => Err(NotHeld),
            },
            None => Ok(self.manager.stats(rt, &mut session.pass)),
        }
    }
}
