ghost use Rattle.std.specs.Prelude.{◌≡◌, ◌≤◌, [], ◌∷◌, length, All, OnOk};
ghost use Rattle.facet_phases.specs.Lanes.{AreIdle, AreNumbered, Each, IsDealt};

use crate::lane::Lane;
use facet_names::NoMemory;
use facet_words::Order;

// Gives the order to its session.
fn deal_one<C>(lanes: &mut [Lane<C>], order: Order) -> Result<(), NoMemory>
    requires session { (1 ≤ order.session) × (order.session ≤ length lanes.old) }
    requires numbered { AreNumbered 1 lanes.old }
    ensures sessions { Each (λ old new. new.session ≡ old.session) lanes.old lanes.new }
    ensures dealt { OnOk result (Each (IsDealt (order ∷ [])) lanes.old lanes.new) }
{
    let at = order.session as usize - 1;
    lanes[at].orders.push(order)?;
    Ok(())
}

// Gives the orders to the session whose they all are.
fn deal_all<C>(lane: &mut Lane<C>, orders: Vec<Order>)
    requires own { All (λ o. o.session ≡ lane.old.session.number) orders.items }
    requires idle { lane.old.orders.items ≡ [] }
    ensures { IsDealt orders.items lane.old lane.new }
{
    lane.orders = orders;
}

// Gives each order to its session.
fn deal_each<C>(lanes: &mut [Lane<C>], orders: Vec<Order>) -> Result<(), NoMemory>
    requires sessions { All (λ o. (1 ≤ o.session) × (o.session ≤ length lanes.old)) orders.items }
    requires numbered { AreNumbered 1 lanes.old }
    ensures sessions { Each (λ old new. new.session ≡ old.session) lanes.old lanes.new }
    ensures dealt { OnOk result (Each (IsDealt orders.items) lanes.old lanes.new) }
{
    for order in orders {
        deal_one(lanes, order)?;
    }
    Ok(())
}

/// Gives each session its commands, in order. If it runs out of memory, some were not given. A single session takes
/// them without a copy.
pub(crate) fn deal<C>(lanes: &mut [Lane<C>], orders: Vec<Order>) -> Result<(), NoMemory>
    requires idle { AreIdle lanes.old }
    requires sessions { All (λ o. (1 ≤ o.session) × (o.session ≤ length lanes.old)) orders.items }
    requires numbered { AreNumbered 1 lanes.old }
    ensures sessions { Each (λ old new. new.session ≡ old.session) lanes.old lanes.new }
    ensures dealt { OnOk result (Each (IsDealt orders.items) lanes.old lanes.new) }
{
    if lanes.len() == 1 {
        deal_all(&mut lanes[0], orders);
        Ok(())
    } else {
        deal_each(lanes, orders)
    }
}
