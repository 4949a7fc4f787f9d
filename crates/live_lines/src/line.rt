ghost use Rattle.std.specs.Prelude.{◌≡◌, if◌then◌else◌, false, IfOk};
ghost use Rattle.std.specs.Option.{option_map_or};
ghost use Rattle.serde_json.specs.View.{view};
ghost use Rattle.facet_words.specs.CommandViews.{order_view};
ghost use Rattle.facet_words.specs.Lines.{line_data};
ghost use Rattle.live_lines.specs.Lines.{begins_group as begins, order_line as line_of_order, live_line, group, faulty};
ghost use Rattle.live_lines.specs.Lines.{script};
ghost use Rattle.live_lines.specs.Views.{line_view};

use facet_names::NoMemory;
use facet_words::{Command, Order, ScriptFault, keys_among, line_value, read_line};
use json::Scratch;
use serde_json::Value;
use std::alloc::Global;

/// How many bytes a line may have without its line feed, and the lines of a group together.
pub const MOST_BYTES: usize = 67_108_864;

/// Why a line is not carried out.
#[derive(Clone, Copy, Debug, PartialEq, Eq)]
pub enum LineFault {
    /// It is not a line of a script. Or the line is a commit and the process only reads.
    Script(ScriptFault),
    /// The line has more than 67,108,864 bytes, or its group has more with it.
    TooLong { line: u64 },
}

/// What a line behind the first one is.
#[derive(Drop)]
pub enum LiveLine {
    /// A command.
    Order(Order),
    /// The end of a group. Outside a group it does nothing.
    End,
    /// The beginning of a group.
    Group,
    /// A line that is not carried out.
    Faulty(LineFault),
}

#[tactic(auto, unfolding(crate::specs::Lines::begins_group))]
fn names_group(value: &Value) -> bool
    ensures { result ≡ begins (view value.now) }
{
    match value.get("cmd").and_then(Value::as_str) {
        Some("group") => keys_among(value, &["cmd"]),
        Some(_) => false,
        None => false,
    }
}

fn begins_group(alloc: Global, bytes: &[u8]) -> Result<bool, NoMemory>
    ensures { IfOk result (λ b. b ≡ option_map_or begins (line_data bytes.now) false) }
{
    match line_value(alloc, bytes)? {
        Some(value) => Ok(names_group(&value)),
        None => Ok(false),
    }
}

// The line that begins a group is no line of a script.
fn other_line(alloc: Global, fault: ScriptFault, bytes: &[u8]) -> Result<LiveLine, NoMemory>
    ensures { IfOk result (λ l. line_view l
        ≡ (if option_map_or begins (line_data bytes.now) false then group else faulty (script fault))) }
{
    if begins_group(alloc, bytes)? {
        Ok(LiveLine::Group)
    } else {
        Ok(LiveLine::Faulty(LineFault::Script(fault)))
    }
}

fn order_line(only_reads: bool, order: Order) -> LiveLine
    ensures { line_view result ≡ line_of_order only_reads (order_view order) }
{
    match order.command {
        Command::Commit if only_reads => {
            LiveLine::Faulty(LineFault::Script(ScriptFault::BadShape { line: order.line }))
        }
        _ => LiveLine::Order(order),
    }
}

/// Reads a line behind the first one, without its line feed. A process that only reads has no `commit`. The scratch
/// memory is used again from line to line.
///
/// Errors: out of memory.
pub fn read_live_line(
    alloc: Global,
    scratch: &mut Scratch,
    only_reads: bool,
    line: u64,
    bytes: &[u8],
) -> Result<LiveLine, NoMemory>
    ensures { IfOk result (λ l. line_view l ≡ live_line only_reads line bytes.now) }
{
    if MOST_BYTES < bytes.len() {
        return Ok(LiveLine::Faulty(LineFault::TooLong { line }));
    }
    match read_line(alloc, scratch, line, bytes) {
        Ok(Some(order)) => Ok(order_line(only_reads, order)),
        Ok(None) => Ok(LiveLine::End),
        Err(ScriptFault::NoMemory) => Err(NoMemory),
        Err(fault) => other_line(alloc, fault, bytes),
    }
}
