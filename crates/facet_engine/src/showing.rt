ghost use Rattle.std.specs.Prelude.{◌≡◌};
ghost use Rattle.facet_engine.specs.Systems.{BelongsTo};
ghost use Rattle.facet_engine.specs.Calls.{IsCall, SameSession};
ghost use Rattle.facet_names.specs.Texts.{text_in};
ghost use Rattle.facet_engine.specs.Steps.{documented};

use crate::session::Session;
use crate::system::System;
use commit_turns::Start;
use facet_disk::Disk;
use facet_names::NoMemory;
use pair_search::{DocumentFault, Shown, show_pair};
use std::sync::Wait;
use taxo_cache::Name;

impl<D: Disk, N: Name + Start> System<D, N> {
    /// Returns the document at a place, from 0, of the pair that is held under the name `on`. Without a name, it takes
    /// the pair that was published last.
    ///
    /// Locks: without a name, that of the pairs, which is released before the document is read.
    ///
    /// Errors: `NotHeld`; `NoSuchDocument` with the number of documents, which is checked after the pair was taken; out
    /// of memory.
    pub fn document<R: Wait>(
        &self,
        rt: &R,
        session: &mut Session,
        on: Option<&str>,
        at: u32,
    ) -> Result<Shown, DocumentFault>
        requires own { BelongsTo self.now session.old.pass }
        ensures same { SameSession session.old session.new }
        ensures held { session.new.held ≡ session.old.held }
        ensures step { IsCall self.now session.old
            (documented (text_in on.entry) at session.old.pass session.new.pass result) }
    {
        match on {
            Some(name) => match session.held.find(name) {
                Some(lease) => show_pair(self.alloc, lease.pair(), at),
                None => Err(DocumentFault::NotHeld),
            },
            None => match self.manager.acquire(rt, &mut session.pass) {
                Ok(lease) => show_pair(self.alloc, lease.pair(), at),
                Err(NoMemory) => Err(DocumentFault::NoMemory),
            },
        }
    }
}
