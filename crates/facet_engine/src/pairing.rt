ghost use Rattle.std.specs.Prelude.{◌≡◌, IfErr, IfOk};
ghost use Rattle.std.specs.Arc.{arc_value};
ghost use Rattle.facet_engine.specs.Systems.{BelongsTo};
ghost use Rattle.facet_engine.specs.Calls.{SameSession};
ghost use Rattle.facet_engine.specs.Looking.{IsLook, IsNotHeld, IsPairAt};
ghost use Rattle.facet_engine.specs.declared.pairing.PairFault.TheVariants.{NotHeld as Missing, NoMemory as NoRoom};
ghost use Rattle.facet_names.specs.Texts.{text_in};

use crate::session::Session;
use crate::system::System;
use commit_turns::Start;
use facet_disk::Disk;
use facet_names::NoMemory;
use pair_manager::{Lease, Pair};
use std::sync::{Arc, Wait};
use taxo_cache::Name;

/// Why no pair is returned.
#[derive(Drop, Clone, Copy, Debug, PartialEq, Eq)]
pub enum PairFault {
    /// The session holds no pair under the name.
    NotHeld,
    /// Out of memory.
    NoMemory,
}

fn shared(lease: &Lease) -> Result<Arc<Pair>, PairFault>
    ensures ok { IfOk result (λ p. arc_value p ≡ lease.now) }
    ensures err { IfErr result (λ e. e ≡ NoRoom) }
{
    match lease.share() {
        Ok(pair) => Ok(pair),
        Err(NoMemory) => Err(PairFault::NoMemory),
    }
}

impl<D: Disk, N: Name + Start> System<D, N> {
    /// Returns a shared reference to the pair that is held under the name `on`. Without a name, it is the pair that was
    /// published last. So it is the pair that [`search`](System::search) sees, and a reply to a command that looks at
    /// it is one of the session. It stays in memory until the reference is dropped; other threads may read it too.
    ///
    /// Locks: without a name, that of the pairs. So it waits for a refresh in progress. It copies nothing.
    ///
    /// Errors: `NotHeld`; out of memory, also if there are too many references to the pair.
    pub fn pair<R: Wait>(
        &self,
        rt: &R,
        session: &mut Session,
        on: Option<&str>,
    ) -> Result<Arc<Pair>, PairFault>
        requires own { BelongsTo self.now session.old.pass }
        ensures same { SameSession session.old session.new }
        ensures held { session.new.held ≡ session.old.held }
        ensures pair { IfOk result (λ p. IsPairAt (text_in on.entry) session.old session.new.pass (arc_value p)) }
        ensures look { IfOk result
            (λ p. IsLook self.now (text_in on.entry) session.old session.new.pass (arc_value p)) }
        ensures not_held { IfErr result (λ e. e ≡ Missing → IsNotHeld (text_in on.entry) session.old) }
    {
        match on {
            Some(name) => match session.held.find(name) {
                Some(lease) => shared(lease),
                None => Err(PairFault::NotHeld),
            },
            None => match self.manager.acquire(rt, &mut session.pass) {
                Ok(lease) => shared(&lease),
                Err(NoMemory) => Err(PairFault::NoMemory),
            },
        }
    }
}
