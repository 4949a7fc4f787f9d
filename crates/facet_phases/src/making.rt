ghost use Rattle.std.specs.Prelude.{◌≡◌, ◌≤◌, [], length, All, IfOk, OnErr};
ghost use Rattle.facet_engine.specs.Steps.{seen_of};
ghost use Rattle.facet_engine.specs.Systems.{BelongsTo};
ghost use Rattle.facet_phases.specs.Lanes.{AreIdle};
ghost use Rattle.facet_phases.specs.Running.{AreReady, BeginsUnderway, HaveSameFrames, IsFirst};

use crate::collector::Collector;
use crate::lane::Lane;
use commit_turns::Start;
use facet_disk::Disk;
use facet_engine::System;
use facet_names::NoMemory;
use pair_manager::Pass;
use std::alloc::Global;
use taxo_cache::Name;

/// Makes the sessions 1 to `sessions`. They have seen what the first pass has, hold no pair and have no commands.
///
/// Errors: out of memory. Then no session is made.
pub fn make_lanes<D: Disk, N: Name + Start, C: Collector>(
    alloc: Global,
    system: &System<D, N>,
    first: &mut Pass,
    sessions: u32,
) -> Result<Vec<Lane<C>>, NoMemory>
    requires own { BelongsTo system.now first.old }
    requires first { IsFirst 0 first.old }
    requires many { sessions ≤ 64 }
    ensures seen { seen_of first.new ≡ seen_of first.old }
    ensures frames { HaveSameFrames first.old first.new }
    ensures none { OnErr result (first.new ≡ first.old) }
    ensures ready { IfOk result (λ lanes. AreReady system.now first.new lanes.items) }
    ensures many { IfOk result (λ lanes. length lanes.items ≡ sessions) }
    ensures idle { IfOk result (λ lanes. AreIdle lanes.items) }
    ensures held { IfOk result (λ lanes. All (λ l. l.session.held ≡ []) lanes.items) }
    ensures begun { IfOk result (λ lanes. BeginsUnderway system.now first.old first.new lanes.items) }
{
    let mut lanes = Vec::with_capacity(alloc, sessions as usize)?;
    for _ in 0..sessions {
        let session = system.session(first);
        lanes.push_reserved(Lane {
            session,
            orders: Vec::new(alloc),
            replies: Ok(C::new(alloc)),
        });
    }
    Ok(lanes)
}
