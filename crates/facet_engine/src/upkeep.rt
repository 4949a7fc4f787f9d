ghost use Rattle.facet_engine.specs.Systems.{BelongsTo};
ghost use Rattle.pair_manager.specs.Passes.{SeesMoreOperations};

use crate::system::System;
use commit_turns::Start;
use facet_disk::Disk;
use pair_manager::Pass;
use std::sync::Wait;
use taxo_cache::Name;

impl<D: Disk, N: Name + Start> System<D, N> {
    // Merges segments if there are too many and the settings have auto_merge. A refresh and a commit call it first.
    pub(crate) fn keep_few<R: Wait>(&self, rt: &R, pass: &mut Pass)
        requires own { BelongsTo self.now pass.old }
        ensures { SeesMoreOperations pass.old pass.new }
    {
        if self.auto_merge {
            self.manager.keep_few(rt, pass);
        }
    }
}
