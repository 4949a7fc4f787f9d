ghost use Rattle.std.specs.Prelude.{◌≡◌, ◌≤◌, IfOk, map};
ghost use Rattle.std.specs.List.{range_with_len};
ghost use Rattle.facet_words.specs.CommandViews.{order_view, script_view};
ghost use Rattle.facet_words.specs.ScriptOrder.{AreInOrder};
ghost use Rattle.generator.specs.Generated.{add_order, generated, generated_labels, generated_phases};

use crate::closing::closing_orders;
use crate::documents::document;
use crate::labels::first_labels;
use crate::settings::settings;
use facet_names::{NoMemory, Path};
use facet_words::{Command, Order, Script};
use std::alloc::Global;
use std::hash::RandomState;

#[tactic(auto, unfolding(crate::specs::Generated::add_order))]
fn add(alloc: Global, first: &[Vec<Path>], sessions: u32, number: u32) -> Result<Order, NoMemory>
    requires some { 1 ≤ sessions }
    requires few { sessions ≤ 64 }
    requires first { map (λ l. l.items) first.now ≡ map generated_labels (range_with_len 0 60) }
    ensures { IfOk result (λ o. order_view o ≡ add_order sessions number) }
{
    let doc = document(alloc, first, number)?;
    Ok(Order {
        session: 1 + number % sessions,
        line: 2 + number as u64,
        command: Command::Add { doc },
    })
}

fn adds(alloc: Global, documents: u32, sessions: u32) -> Result<Vec<Order>, NoMemory>
    requires some { 1 ≤ sessions }
    requires few { sessions ≤ 64 }
    ensures { IfOk result (λ v. map order_view v.items ≡ map (add_order sessions) (range_with_len 0 documents)) }
{
    let first = first_labels(alloc)?;
    let mut orders = Vec::with_capacity(alloc, documents as usize)?;
    for number in 0..documents {
        let order = add(alloc, &first, sessions, number)?;
        orders.push(order)?;
    }
    Ok(orders)
}

#[tactic(auto, unfolding(crate::specs::Generated::generated_phases))]
fn phases(alloc: Global, documents: u32, sessions: u32) -> Result<Vec<Vec<Order>>, NoMemory>
    requires some { 1 ≤ sessions }
    requires few { sessions ≤ 64 }
    ensures { IfOk result (λ v. map (λ orders. map order_view orders.items) v.items
        ≡ generated_phases documents sessions) }
{
    let adds = adds(alloc, documents, sessions)?;
    let closing = closing_orders(alloc, documents as u64 + 3)?;
    Ok(vec![in alloc; adds, closing]?)
}

/// Generates the script that adds `documents` documents: `sessions` sessions take turns in adding them, and then the
/// first session refreshes, commits, asks for the numbers and searches.
///
/// It allocates memory for all documents. `keys` are hash keys; no result depends on them.
///
/// Errors: out of memory.
pub fn script_for(
    alloc: Global,
    keys: RandomState,
    documents: u32,
    sessions: u32,
) -> Result<Script, NoMemory>
    requires some { 1 ≤ sessions }
    requires few { sessions ≤ 64 }
    ensures is { IfOk result (λ s. script_view s ≡ generated documents sessions) }
    ensures order { IfOk result (λ s. AreInOrder (script_view s).phases) }
{
    let settings = settings(alloc, keys)?;
    let phases = phases(alloc, documents, sessions)?;
    Ok(Script { settings, phases })
}
