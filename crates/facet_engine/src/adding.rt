ghost use Rattle.std.specs.Prelude.{◌≡◌};
ghost use Rattle.facet_engine.specs.Calls.{IsCall, SameSession};
ghost use Rattle.facet_engine.specs.Steps.{added};
ghost use Rattle.facet_engine.specs.Systems.{BelongsTo};

use crate::session::Session;
use crate::system::System;
use commit_turns::Start;
use facet_adding::{AddFault, add_to};
use facet_disk::Disk;
use facet_model::Document;
use std::sync::Wait;
use taxo_cache::Name;

impl<D: Disk, N: Name + Start> System<D, N> {
    /// Adds a document after all others and returns its place, from 0. The document is not copied.
    ///
    /// Locks: if a label is missing from the cache, that of the labels, once for all labels; then that of the
    /// operations. It holds one at a time.
    ///
    /// Errors: `Broken` if the config rejects the document; then nothing changes. `LabelsFull` and `DocsFull` at the
    /// limits of the settings; out of memory. Labels that were added before the failure stay.
    pub fn add<R: Wait>(
        &self,
        rt: &R,
        session: &mut Session,
        doc: Document,
    ) -> Result<u64, AddFault>
        requires own { BelongsTo self.now session.old.pass }
        ensures same { SameSession session.old session.new }
        ensures held { session.new.held ≡ session.old.held }
        ensures step { IsCall self.now session.old (added doc session.old.pass session.new.pass result) }
    {
        match self.config.check(&doc) {
            Ok(()) => add_to(
                rt,
                self.alloc,
                &self.manager,
                &self.config,
                &mut session.pass,
                session.number,
                doc,
            ),
            Err(fault) => Err(AddFault::Broken { fault }),
        }
    }
}
