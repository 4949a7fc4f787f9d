ghost use Rattle.std.specs.Prelude.{◌≡◌};
ghost use Rattle.facet_engine.specs.Systems.{BelongsTo};
ghost use Rattle.facet_engine.specs.Calls.{HoldsAfter, IsCall, SameSession};
ghost use Rattle.facet_engine.specs.Steps.{pair_held, released};

use crate::session::Session;
use crate::system::System;
use commit_turns::Start;
use facet_disk::Disk;
use std::sync::Wait;
use taxo_cache::Name;

/// Why a pair was not held: one is held under the name already, or out of memory.
#[derive(Drop, Clone, Copy, Debug, PartialEq, Eq)]
pub enum HoldFault {
    /// The session holds a pair under the name already.
    HeldAlready,
    /// Out of memory.
    NoMemory,
}

/// The session holds no pair under the name.
#[derive(Drop, Clone, Copy, Debug, PartialEq, Eq)]
pub struct NotHeld;

impl<D: Disk, N: Name + Start> System<D, N> {
    /// Holds the pair that was published last under a name, and returns the number of its operations. The pair does not
    /// change until it is released, and its segments and labels stay in memory that long.
    ///
    /// Locks: that of the pairs, unless a pair is held under the name. So it waits for a refresh in progress.
    ///
    /// Errors: `HeldAlready` if the session holds a pair under the name; out of memory. Then nothing changes.
    pub fn hold<R: Wait>(&self, rt: &R, session: &mut Session, name: &str) -> Result<u64, HoldFault>
        requires own { BelongsTo self.now session.old.pass }
        ensures same { SameSession session.old session.new }
        ensures holds { HoldsAfter session.old session.new
            (pair_held name.now session.old.pass session.new.pass result) }
        ensures step { IsCall self.now session.old (pair_held name.now session.old.pass session.new.pass result) }
    {
        if session.held.find(name).is_some() {
            return Err(HoldFault::HeldAlready);
        }
        let Ok(lease) = self.manager.acquire(rt, &mut session.pass) else {
            return Err(HoldFault::NoMemory);
        };
        let Ok(name) = String::from_str(self.alloc, name) else {
            return Err(HoldFault::NoMemory);
        };
        let operations = lease.pair().operations();
        match session.held.push(name, lease) {
            Ok(()) => Ok(operations),
            Err(_) => Err(HoldFault::NoMemory),
        }
    }

    /// Releases the pair that is held under a name and returns the number of its operations. It allocates nothing and
    /// takes no lock.
    pub fn release(&self, session: &mut Session, name: &str) -> Result<u64, NotHeld>
        requires own { BelongsTo self.now session.old.pass }
        ensures pass { session.new.pass ≡ session.old.pass }
        ensures same { SameSession session.old session.new }
        ensures holds { HoldsAfter session.old session.new (released name.now session.old.pass result) }
        ensures step { IsCall self.now session.old (released name.now session.old.pass result) }
    {
        match session.held.release(name) {
            Some(operations) => Ok(operations),
            None => Err(NotHeld),
        }
    }
}
