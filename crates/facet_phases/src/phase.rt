ghost use Rattle.std.specs.Prelude.{◌≡◌, ◌≤◌, length, map, All, IsTrue, OnOk};
ghost use Rattle.facet_words.specs.ScriptOrder.{lines_rise};
ghost use Rattle.pair_manager.specs.Passes.{SamePass};
ghost use Rattle.facet_phases.specs.Ending.{EndsPhase, EndsPhases};
ghost use Rattle.facet_phases.specs.Lanes.{AreIdle};
ghost use Rattle.facet_words.specs.CommandViews.{order_view};
ghost use Rattle.facet_phases.specs.Running.{AreReady, CarriesOut};
ghost use Rattle.facet_phases.specs.Taking.{at};

use crate::collector::{Collector, Output};
use crate::dealing::deal;
use crate::exchange::exchange_all;
use crate::fault::PhaseFault;
use crate::flushing::{are_whole, flush_all};
use crate::gate::Gate;
use crate::lane::{Lane, run_at_once};
use crate::phases::Phases;
use commit_turns::Start;
use facet_disk::Disk;
use facet_engine::System;
use facet_names::NoMemory;
use facet_words::Order;
use pair_manager::Pass;
use std::alloc::Global;
use std::sync::Wait;
use std::thread::Threads;
use taxo_cache::Name;

/// Carries out the commands of a phase, all sessions concurrently, and then shows each session what all others have
/// seen. It waits until all sessions have ended.
///
/// Errors: out of memory to keep a reply, at which a session stops while the others finish; or to give the sessions
/// their commands, of which none is then carried out.
pub fn execute_phase<
    D: Disk,
    N: Name + Start + Send + Sync,
    R: Threads + Wait + Sync,
    G: Gate + Sync,
    C: Collector,
>(
    rt: &R,
    alloc: Global,
    system: &System<D, N>,
    gate: &G,
    first: &mut Pass,
    lanes: &mut [Lane<C>],
    orders: Vec<Order>,
) -> Result<(), NoMemory>
    requires ready { AreReady system.now first.old lanes.old }
    requires idle { AreIdle lanes.old }
    requires sessions { All (λ o. (1 ≤ o.session) × (o.session ≤ length lanes.old)) orders.items }
    requires rise { IsTrue (lines_rise (map order_view orders.items)) }
    ensures ready { AreReady system.now first.new lanes.new }
    ensures same { SamePass first.old first.new }
    ensures many { length lanes.new ≡ length lanes.old }
    ensures idle { OnOk result (AreIdle lanes.new) }
    ensures ran { CarriesOut C.holds system.now
        (map order_view orders.items) first.old first.new lanes.old lanes.new result }
{
    deal(lanes, orders)?;
    run_at_once(rt, alloc, system, gate, lanes);
    exchange_all(system, first, lanes);
    if are_whole(lanes) {
        Ok(())
    } else {
        Err(NoMemory)
    }
}

/// Carries out the commands of a phase as `execute_phase` does, and hands over what is kept of their replies: by
/// ascending session, each session's in line order.
///
/// Errors: as for `execute_phase`, and then nothing is handed over; or handing over failed.
pub fn run_phase<
    D: Disk,
    N: Name + Start + Send + Sync,
    R: Threads + Wait + Sync,
    G: Gate + Sync,
    O: Output<C>,
    C: Collector,
>(
    rt: &R,
    alloc: Global,
    system: &System<D, N>,
    gate: &G,
    first: &mut Pass,
    lanes: &mut [Lane<C>],
    orders: Vec<Order>,
    out: &mut O,
) -> Result<(), PhaseFault>
    requires ready { AreReady system.now first.old lanes.old }
    requires idle { AreIdle lanes.old }
    requires sessions { All (λ o. (1 ≤ o.session) × (o.session ≤ length lanes.old)) orders.items }
    requires rise { IsTrue (lines_rise (map order_view orders.items)) }
    ensures ready { AreReady system.now first.new lanes.new }
    ensures same { SamePass first.old first.new }
    ensures many { length lanes.new ≡ length lanes.old }
    ensures idle { OnOk result (AreIdle lanes.new) }
    ensures ended { EndsPhase O.Output system.now
        (map order_view orders.items) out.old out.new first.old first.new lanes.old lanes.new result }
{
    match execute_phase(rt, alloc, system, gate, first, lanes, orders) {
        Ok(()) => match flush_all(out, lanes) {
            Ok(()) => Ok(()),
            Err(_) => Err(PhaseFault::Write),
        },
        Err(NoMemory) => Err(PhaseFault::NoMemory),
    }
}

/// Carries out phases, one after the other, and hands over what is kept of each before it asks for the next. It keeps
/// the replies of one phase in memory, and frees the commands of a phase as they are answered.
///
/// Errors: those of `Phases::next`, and those of `run_phase`. That phase is the last one: no later one is asked for.
pub fn run_phases<
    D: Disk,
    N: Name + Start + Send + Sync,
    R: Threads + Wait + Sync,
    G: Gate + Sync,
    P: Phases<O>,
    O: Output<C>,
    C: Collector,
>(
    rt: &R,
    alloc: Global,
    system: &System<D, N>,
    gate: &G,
    first: &mut Pass,
    lanes: &mut [Lane<C>],
    phases: &mut P,
    out: &mut O,
) -> Result<(), PhaseFault>
    requires ready { AreReady system.now first.old lanes.old }
    requires idle { AreIdle lanes.old }
    requires sessions { P.sessions phases.old ≤ length lanes.old }
    ensures ready { AreReady system.now first.new lanes.new }
    ensures same { SamePass first.old first.new }
    ensures many { length lanes.new ≡ length lanes.old }
    ensures ended { EndsPhases P.Phases O.Output system.now (at phases.old out.old)
        (at phases.new out.new) first.old first.new lanes.old lanes.new result }
{
    for _ in rt.forever() {
        match phases.next(alloc, out) {
            Ok(Some(orders)) => {
                if let Err(fault) = run_phase(rt, alloc, system, gate, first, lanes, orders, out) {
                    return Err(fault);
                }
            }
            Ok(None) => return Ok(()),
            Err(fault) => return Err(fault),
        }
    }
    unreachable!()
}
