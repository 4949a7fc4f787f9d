ghost use Rattle.std.specs.Prelude.{◌≤◌, ℕ, All};

use facet_words::Order;

// The greatest session of these orders, and no less than that.
fn greatest_in(orders: &[Order], least: u32) -> u32
    requires least { least ≤ 64 }
    requires within { All (λ o. o.session ≤ 64) orders.now }
    ensures least { least ≤ result }
    ensures most { result ≤ 64 }
    ensures no_more { (n : ℕ) → least ≤ n → All (λ o. o.session ≤ n) orders.now → result ≤ n }
    ensures all { All (λ o. o.session ≤ result) orders.now }
{
    let mut greatest = least;
    for order in orders {
        greatest = greatest.max(order.session);
    }
    greatest
}

/// Returns the greatest session number of all commands, and 0 if there are none.
pub(crate) fn greatest_session(phases: &[Vec<Order>]) -> u32
    requires { All (λ phase. All (λ o. o.session ≤ 64) phase.items) phases.now }
    ensures most { result ≤ 64 }
    ensures no_more { (n : ℕ) → All (λ phase. All (λ o. o.session ≤ n) phase.items) phases.now → result ≤ n }
    ensures all { All (λ phase. All (λ o. o.session ≤ result) phase.items) phases.now }
{
    let mut greatest = 0;
    for orders in phases {
        greatest = greatest_in(orders, greatest);
    }
    greatest
}
