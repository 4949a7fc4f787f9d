ghost use Rattle.std.specs.Prelude.{◌≡◌, ◌++◌, ◌∷◌, [], All, MatchOption};
ghost use Rattle.facet_engine.specs.Systems.{BelongsTo};
ghost use Rattle.facet_phases.specs.Orders.{Answers};

use crate::collector::Collector;
use crate::gate::Gate;
use commit_turns::Start;
use facet_disk::Disk;
use facet_engine::{Session, System, execute};
use facet_names::NoMemory;
use facet_words::Order;
use std::alloc::Global;
use std::sync::Wait;
use taxo_cache::Name;

// Takes the last order. Where half of the orders were taken, their memory is given back.
#[tactic(auto, using(crate::proofs::Taken::none_of_none))]
fn take_last(orders: &mut Vec<Order>) -> Option<Order>
    ensures { MatchOption result (orders.old.items ≡ []) (λ o. orders.old.items ≡ orders.new.items ++ o ∷ []) }
{
    let last = orders.pop();
    if orders.len() <= orders.capacity() / 2 {
        orders.shrink_to_fit();
    }
    last
}

/// Carries out the commands of a session, one after the other, and collects what is kept of their replies. It waits
/// where the gate and the calls wait.
///
/// The commands that are left use at most twice their memory, so what is made of the earlier ones fits there.
///
/// Errors: out of memory for a reply. Then it stops; the commands so far were carried out.
pub fn answer_all<D: Disk, N: Name + Start, R: Wait, G: Gate, C: Collector>(
    rt: &R,
    alloc: Global,
    system: &System<D, N>,
    gate: &G,
    session: &mut Session,
    orders: Vec<Order>,
) -> Result<C, NoMemory>
    requires own { BelongsTo system.now session.old.pass }
    requires orders { All (λ o. o.session ≡ session.old.number) orders.items }
    ensures { Answers C.holds system.now session.old session.new orders.items result }
{
    let mut replies = C::new(alloc);
    let mut left = orders;
    left.reverse();
    while let Some(order) = take_last(&mut left) {
        let Order {
            session: number,
            line,
            command,
        } = order;
        gate.before(number, line);
        let reply = execute(rt, system, session, command);
        gate.after(number, line);
        replies.add(alloc, number, line, reply)?;
    }
    Ok(replies)
}
