ghost use Rattle.std.specs.Prelude.{◌≡◌, ◌≢◌, ◌≤◌, Ok, Err, IfOk, IfErr, map};
ghost use Rattle.facet_words.specs.Lines.{lines_of};
ghost use Rattle.facet_words.specs.CommandViews.{order_view, script_view};
ghost use Rattle.facet_words.specs.ScriptOrder.{AreInOrder};
ghost use Rattle.facet_words.specs.Scripts.{phases_of, script};
ghost use Rattle.facet_words.specs.declared.fault.ScriptFault.TheVariants.{NoMemory as Memory};

use crate::command::{Order, Script};
use crate::config_line::read_settings;
use crate::fault::ScriptFault;
use crate::lines::cut_line;
use crate::order::read_line;
use json::Scratch;
use std::alloc::Global;
use std::hash::RandomState;
use std::mem;

// The phases of the lines after the first one.
fn read_phases(alloc: Global, bytes: &[u8]) -> Result<Vec<Vec<Order>>, ScriptFault>
    ensures ok { IfOk result (λ v. phases_of (lines_of bytes.now)
        ≡ Ok (map (λ orders. map order_view orders.items) v.items)) }
    ensures err { IfErr result (λ e. e ≢ Memory → phases_of (lines_of bytes.now) ≡ Err e) }
{
    let mut scratch = Scratch::new(alloc);
    let mut phases = Vec::new(alloc);
    let mut orders = Vec::new(alloc);
    let mut line = 2;
    let mut rest = bytes;
    while !rest.is_empty() {
        let (first, after) = cut_line(rest);
        match read_line(alloc, &mut scratch, line, first)? {
            Some(order) => orders.push(order)?,
            None => {
                orders.shrink_to_fit();
                phases.push(mem::replace(&mut orders, Vec::new(alloc)))?;
            }
        }
        line += 1;
        rest = after;
    }
    orders.shrink_to_fit();
    phases.push(orders)?;
    Ok(phases)
}

/// Reads a script, line by line. It keeps memory for the commands only. `keys` are hash keys for the declared
/// dimensions; no result depends on them.
///
/// Errors: the fault of the first faulty line, and no later line is read; or out of memory.
#[tactic(auto, unfolding(crate::specs::Scripts::script))]
pub fn read_script(alloc: Global, keys: RandomState, bytes: &[u8]) -> Result<Script, ScriptFault>
    ensures ok { IfOk result (λ s. script bytes.now ≡ Ok (script_view s)) }
    ensures err { IfErr result (λ e. e ≢ Memory → script bytes.now ≡ Err e) }
    ensures order { IfOk result (λ s. AreInOrder (script_view s).phases) }
{
    if bytes.is_empty() {
        return Err(ScriptFault::NoConfigFirst);
    }
    let (first, rest) = cut_line(bytes);
    let settings = read_settings(alloc, keys, first)?;
    let phases = read_phases(alloc, rest)?;
    Ok(Script { settings, phases })
}
