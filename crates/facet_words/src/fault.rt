ghost use Rattle.std.specs.Prelude.{◌≡◌, ◌++◌, OnOk, OnErr};
ghost use Rattle.facet_words.specs.FaultLines.{fault_line_at, fault_line};

use facet_names::NoMemory;
use facet_replies::{Detail, write_named_fault};
use std::alloc::{AllocError, AllocFailed, Global};

/// Why bytes are not a script. Lines count from 1. The first faulty line decides, and in one line the first of these
/// faults.
#[derive(Clone, Copy, Debug, PartialEq, Eq)]
pub enum ScriptFault {
    /// The line is not JSON.
    NotJson { line: u64 },
    /// The first line is not an object with `cmd` as `config`, or there is no line.
    NoConfigFirst,
    /// The line is not a command: a key is missing, is unknown, or has a value of another form.
    BadShape { line: u64 },
    /// The number of the session is a whole number, but not from 1 to 64.
    BadSession { line: u64 },
    /// Out of memory.
    NoMemory,
}

impl From<NoMemory> for ScriptFault {
    ghost use Rattle.facet_words.specs.declared.fault.ScriptFault.TheVariants.{NoMemory as Memory};

    ghost from_gives = { λ _ e. e ≡ Memory };

    fn from(_error: NoMemory) -> ScriptFault {
        ScriptFault::NoMemory
    }
}

impl From<AllocError> for ScriptFault {
    ghost use Rattle.facet_words.specs.declared.fault.ScriptFault.TheVariants.{NoMemory as Memory};

    ghost from_gives = { λ _ e. e ≡ Memory };

    fn from(_error: AllocError) -> ScriptFault {
        ScriptFault::NoMemory
    }
}

impl<T: Drop> From<AllocFailed<T>> for ScriptFault {
    ghost use Rattle.facet_words.specs.declared.fault.ScriptFault.TheVariants.{NoMemory as Memory};

    ghost from_gives = { λ _ e. e ≡ Memory };

    fn from(_error: AllocFailed<T>) -> ScriptFault {
        ScriptFault::NoMemory
    }
}

fn write_fault_at(alloc: Global, out: &mut Vec<u8>, name: &str, line: u64) -> Result<(), NoMemory>
    ensures ok { OnOk result (out.new.items ≡ out.old.items ++ fault_line_at name.now line) }
    ensures err { OnErr result (out.new.items ≡ out.old.items) }
{
    write_named_fault(alloc, out, name, &[("line", Detail::Number(line))])
}

/// Appends the line that reports why bytes are not a script, as a line of JSON in the form of a reply.
///
/// Errors: out of memory. Then nothing is appended.
#[tactic(auto, unfolding(crate::specs::FaultLines::fault_line))]
pub fn write_fault(alloc: Global, out: &mut Vec<u8>, fault: ScriptFault) -> Result<(), NoMemory>
    ensures ok { OnOk result (out.new.items ≡ out.old.items ++ fault_line fault) }
    ensures err { OnErr result (out.new.items ≡ out.old.items) }
{
    match fault {
        ScriptFault::NotJson { line } => write_fault_at(alloc, out, "not_json", line),
        ScriptFault::BadShape { line } => write_fault_at(alloc, out, "bad_shape", line),
        ScriptFault::BadSession { line } => write_fault_at(alloc, out, "bad_session", line),
        ScriptFault::NoConfigFirst => write_named_fault(alloc, out, "no_config_first", &[]),
        ScriptFault::NoMemory => write_named_fault(alloc, out, "no_memory", &[]),
    }
}
