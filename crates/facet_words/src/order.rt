ghost use Rattle.std.specs.Prelude.{◌≡◌, ◌≢◌, IfOk, IfErr, Ok, Err, option_map};
ghost use Rattle.serde_json.specs.View.{view};
ghost use Rattle.facet_words.specs.CommandViews.{search_view, command_view, order_view};
ghost use Rattle.facet_words.specs.CommandLines.{added_of, name_of, search_of, ranges_of, sums_of, document_of};
ghost use Rattle.facet_words.specs.CommandLines.{stats_of, command_named, command_of};
ghost use Rattle.facet_words.specs.Commands.{add, hold, release, search};
ghost use Rattle.facet_words.specs.Scripts.{order_of, ends_phase, line_of, line_at};
ghost use Rattle.facet_words.specs.declared.fault.ScriptFault.TheVariants.{NoMemory as Memory};

use crate::command::{Command, Order};
use crate::fault::ScriptFault;
use crate::held_name::{name_in, on_at};
use crate::lines::line_value;
use crate::parts::{SearchLine, added_in, counted_in, heading_in, place_in, plain_in, searched_in};
use crate::quick::read_add;
use crate::ranges::ranges_at;
use crate::shape::{index_in, keys_among};
use facet_model::Word;
use facet_names::NoMemory;
use json::Scratch;
use serde_json::Value;
use std::alloc::Global;

fn add_in(alloc: Global, value: &Value) -> Result<Option<Command>, NoMemory>
    ensures { IfOk result (λ o. option_map command_view o ≡ option_map add (added_of (view value.now))) }
{
    match added_in(alloc, value)? {
        Some(doc) => Ok(Some(Command::Add { doc })),
        None => Ok(None),
    }
}

fn hold_in(alloc: Global, value: &Value) -> Result<Option<Command>, NoMemory>
    ensures { IfOk result (λ o. option_map command_view o ≡ option_map hold (name_of (view value.now))) }
{
    match name_in(alloc, value)? {
        Some(name) => Ok(Some(Command::Hold { name })),
        None => Ok(None),
    }
}

fn release_in(alloc: Global, value: &Value) -> Result<Option<Command>, NoMemory>
    ensures { IfOk result (λ o. option_map command_view o ≡ option_map release (name_of (view value.now))) }
{
    match name_in(alloc, value)? {
        Some(name) => Ok(Some(Command::Release { name })),
        None => Ok(None),
    }
}

fn search_command(alloc: Global, on: Option<Word>, line: SearchLine) -> Result<Command, NoMemory>
    ensures { IfOk result (λ c. command_view c ≡ search on (search_view line)) }
{
    let line = Box::new(alloc, line)?;
    Ok(Command::Search { on, line })
}

#[tactic(auto, unfolding(crate::specs::CommandLines::search_of))]
fn search_in(alloc: Global, value: &Value) -> Result<Option<Command>, NoMemory>
    ensures { IfOk result (λ o. option_map command_view o ≡ search_of (view value.now)) }
{
    let Some(on) = on_at(alloc, value)? else {
        return Ok(None);
    };
    let found = searched_in(
        alloc,
        value,
        &[
            "cmd", "s", "on", "query", "drill", "sideways", "ask", "newest", "show", "from", "hits",
        ],
    )?;
    match found {
        Some(line) => Ok(Some(search_command(alloc, on, line)?)),
        None => Ok(None),
    }
}

#[tactic(auto, unfolding(crate::specs::CommandLines::ranges_of))]
fn ranges_in(alloc: Global, value: &Value) -> Result<Option<Command>, NoMemory>
    ensures { IfOk result (λ o. option_map command_view o ≡ ranges_of (view value.now)) }
{
    let Some(on) = on_at(alloc, value)? else {
        return Ok(None);
    };
    let keys = ["cmd", "s", "on", "query", "drill", "dim", "ranges"];
    let Some(line) = counted_in(alloc, value, &keys)? else {
        return Ok(None);
    };
    let Some(ranges) = ranges_at(alloc, value)? else {
        return Ok(None);
    };
    let line = Box::new(alloc, line)?;
    Ok(Some(Command::Ranges { on, line, ranges }))
}

#[tactic(auto, unfolding(crate::specs::CommandLines::sums_of))]
fn sums_in(alloc: Global, value: &Value) -> Result<Option<Command>, NoMemory>
    ensures { IfOk result (λ o. option_map command_view o ≡ sums_of (view value.now)) }
{
    let Some(on) = on_at(alloc, value)? else {
        return Ok(None);
    };
    let keys = ["cmd", "s", "on", "query", "drill", "dim", "n"];
    let Some(line) = counted_in(alloc, value, &keys)? else {
        return Ok(None);
    };
    let Some(n) = value.get("n").and_then(index_in) else {
        return Ok(None);
    };
    let line = Box::new(alloc, line)?;
    Ok(Some(Command::Sums { on, line, n }))
}

#[tactic(auto, unfolding(crate::specs::CommandLines::document_of))]
fn document_in(alloc: Global, value: &Value) -> Result<Option<Command>, NoMemory>
    ensures { IfOk result (λ o. option_map command_view o ≡ document_of (view value.now)) }
{
    let Some(on) = on_at(alloc, value)? else {
        return Ok(None);
    };
    match place_in(value, &["cmd", "s", "on", "at"]) {
        Some(at) => Ok(Some(Command::Document { on, at })),
        None => Ok(None),
    }
}

#[tactic(auto, unfolding(crate::specs::CommandLines::stats_of))]
fn stats_in(alloc: Global, value: &Value) -> Result<Option<Command>, NoMemory>
    ensures { IfOk result (λ o. option_map command_view o ≡ stats_of (view value.now)) }
{
    let Some(on) = on_at(alloc, value)? else {
        return Ok(None);
    };
    if keys_among(value, &["cmd", "s", "on"]) {
        Ok(Some(Command::Stats { on }))
    } else {
        Ok(None)
    }
}

#[tactic(auto, using(crate::proofs::PlainLines::plain_viewed), unfolding(crate::specs::CommandLines::command_named))]
fn command_in(alloc: Global, name: &str, value: &Value) -> Result<Option<Command>, NoMemory>
    ensures { IfOk result (λ o. option_map command_view o ≡ command_named name.now (view value.now)) }
{
    match name {
        "add" => add_in(alloc, value),
        "refresh" => Ok(plain_in(value, Command::Refresh)),
        "hold" => hold_in(alloc, value),
        "release" => release_in(alloc, value),
        "search" => search_in(alloc, value),
        "ranges" => ranges_in(alloc, value),
        "sums" => sums_in(alloc, value),
        "document" => document_in(alloc, value),
        "stats" => stats_in(alloc, value),
        "commit" => Ok(plain_in(value, Command::Commit)),
        "merge" => Ok(plain_in(value, Command::Merge)),
        _ => Ok(None),
    }
}

// The number of the session, whether there is such a session or not, and the command.
#[tactic(auto, unfolding(crate::specs::CommandLines::command_of))]
fn numbered_command_in(alloc: Global, value: &Value) -> Result<Option<(u64, Command)>, NoMemory>
    ensures { IfOk result (λ o. option_map (λ c. (c.0, command_view c.1)) o ≡ command_of (view value.now)) }
{
    let Some((session, name)) = heading_in(value) else {
        return Ok(None);
    };
    let Some(command) = command_in(alloc, name, value)? else {
        return Ok(None);
    };
    Ok(Some((session, command)))
}

#[tactic(auto, unfolding(crate::specs::Scripts::order_of))]
fn order_in(alloc: Global, line: u64, value: &Value) -> Result<Order, ScriptFault>
    ensures ok { IfOk result (λ o. order_of line (view value.now) ≡ Ok (order_view o)) }
    ensures err { IfErr result (λ e. e ≢ Memory → order_of line (view value.now) ≡ Err e) }
{
    let Some((session, command)) = numbered_command_in(alloc, value)? else {
        return Err(ScriptFault::BadShape { line });
    };
    if 1 <= session && session <= 64 {
        Ok(Order {
            session: session as u32,
            line,
            command,
        })
    } else {
        Err(ScriptFault::BadSession { line })
    }
}

#[tactic(auto, unfolding(crate::specs::Scripts::ends_phase))]
fn ends_phase_in(value: &Value) -> bool
    ensures { result ≡ ends_phase (view value.now) }
{
    match value.get("cmd").and_then(Value::as_str) {
        Some("phase") => keys_among(value, &["cmd"]),
        Some(_) => false,
        None => false,
    }
}

#[tactic(auto, unfolding(crate::specs::Scripts::line_of))]
fn line_in(alloc: Global, line: u64, value: &Value) -> Result<Option<Order>, ScriptFault>
    ensures ok { IfOk result (λ o. line_of line (view value.now) ≡ Ok (option_map order_view o)) }
    ensures err { IfErr result (λ e. e ≢ Memory → line_of line (view value.now) ≡ Err e) }
{
    if ends_phase_in(value) {
        return Ok(None);
    }
    let order = order_in(alloc, line, value)?;
    Ok(Some(order))
}

// The order of any line, by its value.
#[tactic(auto, unfolding(crate::specs::Scripts::line_at))]
fn read_any(alloc: Global, line: u64, bytes: &[u8]) -> Result<Option<Order>, ScriptFault>
    ensures ok { IfOk result (λ o. line_at line bytes.now ≡ Ok (option_map order_view o)) }
    ensures err { IfErr result (λ e. e ≢ Memory → line_at line bytes.now ≡ Err e) }
{
    match line_value(alloc, bytes)? {
        Some(value) => line_in(alloc, line, &value),
        None => Err(ScriptFault::NotJson { line }),
    }
}

/// Returns the command of a line, or `None` if the line ends a phase. The scratch memory is used again from line to
/// line.
///
/// Errors: the fault of the line, or out of memory.
pub fn read_line(
    alloc: Global,
    scratch: &mut Scratch,
    line: u64,
    bytes: &[u8],
) -> Result<Option<Order>, ScriptFault>
    ensures ok { IfOk result (λ o. line_at line bytes.now ≡ Ok (option_map order_view o)) }
    ensures err { IfErr result (λ e. e ≢ Memory → line_at line bytes.now ≡ Err e) }
{
    match read_add(alloc, scratch, line, bytes)? {
        Some(order) => Ok(Some(order)),
        None => read_any(alloc, line, bytes),
    }
}
