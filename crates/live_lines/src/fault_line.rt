ghost use Rattle.std.specs.Prelude.{◌≡◌, ◌++◌, IfOk, OnOk, OnErr, string_bytes};
ghost use Rattle.live_lines.specs.FaultLines.{line_fault_line, opened_line};
ghost use Rattle.live_lines.specs.Views.{line_fault_view};

use crate::line::LineFault;
use facet_names::NoMemory;
use facet_replies::{Detail, write_named_fault};
use facet_words::write_fault;
use std::alloc::Global;
use std::fmt::Write;

/// Appends the line that reports why a line is not carried out, as a line of JSON in the form of a reply.
///
/// Errors: out of memory. Then nothing is appended.
#[tactic(auto, unfolding(crate::specs::FaultLines::line_fault_line))]
pub fn write_line_fault(alloc: Global, out: &mut Vec<u8>, fault: LineFault) -> Result<(), NoMemory>
    ensures ok { OnOk result (out.new.items ≡ out.old.items ++ line_fault_line (line_fault_view fault)) }
    ensures err { OnErr result (out.new.items ≡ out.old.items) }
{
    match fault {
        LineFault::Script(fault) => write_fault(alloc, out, fault),
        LineFault::TooLong { line } => {
            write_named_fault(alloc, out, "too_long", &[("line", Detail::Number(line))])
        }
    }
}

fn opened_text(alloc: Global, documents: u64, labels: u64) -> Result<String, NoMemory>
    ensures { IfOk result (λ s. string_bytes s ≡ opened_line (documents, labels)) }
{
    let mut text = String::with_capacity(alloc, 64)?;
    write!(text, "{{\"line\":1,\"opened\":[{documents},{labels}]}}\n")?;
    Ok(text)
}

/// Appends the line that reports how many documents and labels the opened store has.
///
/// Errors: out of memory. Then nothing is appended.
pub fn write_opened(
    alloc: Global,
    out: &mut Vec<u8>,
    documents: u64,
    labels: u64,
) -> Result<(), NoMemory>
    ensures ok { OnOk result (out.new.items ≡ out.old.items ++ opened_line (documents, labels)) }
    ensures err { OnErr result (out.new.items ≡ out.old.items) }
{
    let text = opened_text(alloc, documents, labels)?;
    out.extend_from_slice(text.as_bytes())?;
    Ok(())
}
