ghost use Rattle.std.specs.Prelude.{◌<◌, ◌≤◌, length, All};
ghost use Rattle.std.specs.List.{AllZip};
ghost use Rattle.facet_phases.specs.Lanes.{LaneRan, MayRun};

use crate::answering::answer_all;
use crate::collector::Collector;
use crate::gate::Gate;
use commit_turns::Start;
use facet_disk::Disk;
use facet_engine::{Session, System};
use facet_names::NoMemory;
use facet_words::Order;
use std::alloc::Global;
use std::sync::Wait;
use std::thread::Threads;
use std::{mem, thread};
use taxo_cache::Name;

/// A session with its commands of a phase, and what it keeps of its replies once it has run.
#[derive(Drop)]
pub struct Lane<C> {
    /// The session.
    pub session: Session,
    /// Its commands of the phase, in line order.
    pub orders: Vec<Order>,
    /// What the collector keeps of the replies, or out of memory.
    pub replies: Result<C, NoMemory>,
}

fn run_lane<D: Disk, N: Name + Start, R: Wait, G: Gate, C: Collector>(
    rt: &R,
    alloc: Global,
    system: &System<D, N>,
    gate: &G,
    lane: &mut Lane<C>,
)
    requires run { MayRun system.now lane.old }
    ensures ran { LaneRan C.holds system.now lane.old lane.new }
{
    let orders = mem::replace(&mut lane.orders, Vec::new(alloc));
    lane.replies = answer_all(rt, alloc, system, gate, &mut lane.session, orders);
}

// How many lanes there are up to the last one that has orders.
fn busy_lanes<C>(lanes: &[Lane<C>]) -> usize
    ensures { result ≤ length lanes.now }
{
    match lanes.iter().rposition(|lane| !lane.orders.is_empty()) {
        Some(last) => last + 1,
        None => 0,
    }
}

// How many threads these lanes need: one for each, but where at most one of them has orders.
fn threads_for<C>(lanes: &[Lane<C>]) -> usize
    ensures { 0 < result }
{
    let mut left = lanes.iter();
    let some = left.any(|lane| !lane.orders.is_empty());
    if some && left.any(|lane| !lane.orders.is_empty()) {
        lanes.len().max(1)
    } else {
        1
    }
}

// Carries out the commands of these lanes with at most so many threads, of which this one is one.
fn run_lanes<
    D: Disk,
    N: Name + Start + Send + Sync,
    R: Threads + Wait + Sync,
    G: Gate + Sync,
    C: Collector,
>(rt: &R, alloc: Global, system: &System<D, N>, gate: &G, lanes: &mut [Lane<C>], threads: usize)
    requires run { All (MayRun system.now) lanes.old }
    requires threads { 0 < threads }
    ensures ran { AllZip (LaneRan C.holds system.now) lanes.old lanes.new }
{
    thread::for_each_mut(
        rt,
        lanes,
        threads,
        &|_, lane| -> ()
            requires { MayRun system.now lane.now }
            ensures { LaneRan C.holds system.entry.now lane.entry.now lane.exit.now }
        {
            run_lane(rt, alloc, system, gate, lane);
        },
    );
}

/// Carries out the commands of all lanes concurrently, and waits for all of them. Each lane up to the last one that has
/// commands has its own thread; those after it make none. If at most one lane has commands, it makes no thread.
pub(crate) fn run_at_once<
    D: Disk,
    N: Name + Start + Send + Sync,
    R: Threads + Wait + Sync,
    G: Gate + Sync,
    C: Collector,
>(rt: &R, alloc: Global, system: &System<D, N>, gate: &G, lanes: &mut [Lane<C>])
    requires run { All (MayRun system.now) lanes.old }
    ensures ran { AllZip (LaneRan C.holds system.now) lanes.old lanes.new }
{
    let busy = busy_lanes(lanes);
    let (front, back) = lanes.split_at_mut(busy);
    let threads = threads_for(front);
    run_lanes(rt, alloc, system, gate, front, threads);
    run_lanes(rt, alloc, system, gate, back, 1);
}
