ghost use Rattle.pair_manager.specs.Passes.{IsOf, SeesMoreOperations};

use crate::manager::Manager;
use crate::pass::Pass;
use std::sync::Wait;
use taxo_cache::Name;

impl<N: Name> Manager<N> {
    /// Merges segments if there are too many, as [`merge_few`](Manager::merge_few). Without memory for it the segments
    /// stay as they are.
    pub fn keep_few<R: Wait>(&self, rt: &R, pass: &mut Pass)
        requires own { IsOf self.now pass.old }
        ensures { SeesMoreOperations pass.old pass.new }
    {
        let _ = self.merge_few(rt, &mut pass.operations);
    }
}
