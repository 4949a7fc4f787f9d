ghost use Rattle.std.specs.Prelude.{◌≡◌};
ghost use Rattle.chronicle.specs.Shown.{SeesOn};
ghost use Rattle.facet_engine.specs.Calls.{IsCall, SameSession};
ghost use Rattle.facet_engine.specs.Steps.{segments_merged};
ghost use Rattle.facet_engine.specs.Systems.{BelongsTo};
ghost use Rattle.pair_manager.specs.Passes.{SamePass};

use crate::session::Session;
use crate::system::System;
use commit_turns::Start;
use facet_disk::Disk;
use facet_names::NoMemory;
use pair_manager::Pass;
use std::sync::Wait;
use taxo_cache::Name;

impl<D: Disk, N: Name + Start> System<D, N> {
    // Merges the segments of the index. Of the pass only the token of the operations may have seen more.
    fn merge_index<R: Wait>(&self, rt: &R, pass: &mut Pass) -> Result<(), NoMemory>
        requires own { BelongsTo self.now pass.old }
        ensures same { SamePass pass.old pass.new }
        ensures operations { SeesOn pass.old.operations pass.new.operations }
        ensures rest { (pass.new.labels ≡ pass.old.labels) × (pass.new.pairs ≡ pass.old.pairs)
            × (pass.new.commits ≡ pass.old.commits) }
    {
        self.manager.merge(rt, &mut pass.operations)
    }

    /// Merges all segments of the index into one. No document, label, reply or published pair changes, and a held pair
    /// keeps its own segments. Searches of pairs that are published afterwards visit one segment in place of many, and
    /// the next commit writes the merged one.
    ///
    /// Locks: that of the operations, twice: to share the segments, and to put the merged one in their place. Others
    /// can add documents while the segments are merged. The old segments and the merged one are in memory together.
    ///
    /// Errors: out of memory. The segments then stay, and the documents that waited may be one more.
    pub fn merge<R: Wait>(&self, rt: &R, session: &mut Session) -> Result<(), NoMemory>
        requires own { BelongsTo self.now session.old.pass }
        ensures same { SameSession session.old session.new }
        ensures held { session.new.held ≡ session.old.held }
        ensures step { IsCall self.now session.old (segments_merged session.old.pass session.new.pass result) }
    {
        self.merge_index(rt, &mut session.pass)
    }
}
