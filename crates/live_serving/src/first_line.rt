ghost use Rattle.std.specs.Prelude.{◌≡◌, ◌≤◌, ℕ, false, None, IfOk, IfErr};
ghost use Rattle.live_io.specs.Unread.{first_feed, nothing_unread};
ghost use Rattle.live_serving.specs.FirstLine.{FailsFirst, Finds, GoesOnReading, HasFirst, Looks};

use crate::line_phases::MOST_BYTES;
use live_io::{Duplex, FillFault, LineReader};

/// The first line, which a reader has: how many bytes it has, and whether it is what was left at the end of input.
#[derive(Clone, Copy, Debug, PartialEq, Eq)]
pub(crate) struct FirstLine {
    pub len: usize,
    pub is_ended: bool,
}

/// Why there is no first line.
#[derive(Clone, Copy, Debug, PartialEq, Eq)]
pub(crate) enum FirstFault {
    /// A read failed before it was whole.
    Read,
    /// It has more than 67,108,864 bytes.
    TooLong,
    /// Input ended without a byte.
    NoLine,
    /// Out of memory.
    NoMemory,
}

// The first line, if it is whole.
fn look_at_line(reader: &LineReader) -> Result<Option<FirstLine>, FirstFault>
    requires { reader.now.dropped ≡ false }
    ensures { (count : ℕ) → Looks count reader.now result }
{
    match reader.whole() {
        None => Ok(None),
        Some(len) => if len > MOST_BYTES {
            Err(FirstFault::TooLong)
        } else {
            Ok(Some(FirstLine {
                len,
                is_ended: false,
            }))
        },
    }
}

// What is left at the end of input.
fn look_at_rest(reader: &LineReader) -> Result<Option<FirstLine>, FirstFault>
    requires kept { reader.now.dropped ≡ false }
    requires none { first_feed reader.now.bytes ≡ None }
    ensures { Looks 0 reader.now result }
{
    let len = reader.rest().len();
    if len == 0 {
        Err(FirstFault::NoLine)
    } else if len > MOST_BYTES {
        Err(FirstFault::TooLong)
    } else {
        Ok(Some(FirstLine {
            len,
            is_ended: true,
        }))
    }
}

// What there is after a read call that got so many bytes.
fn look(reader: &LineReader, count: usize) -> Result<Option<FirstLine>, FirstFault>
    requires { count ≡ 0 → first_feed reader.now.bytes ≡ None }
    ensures { Looks count reader.now result }
{
    if reader.is_dropped() {
        Err(FirstFault::TooLong)
    } else if count == 0 {
        look_at_rest(reader)
    } else {
        look_at_line(reader)
    }
}

// Reads once.
fn read_piece<X: Duplex>(
    reader: &mut LineReader,
    io: &mut X,
) -> Result<Option<FirstLine>, FirstFault>
    requires { first_feed reader.old.bytes ≡ None }
    ensures { (before : X) → GoesOnReading X.Duplex before io.old reader.old
        → Finds X.Duplex before io.new reader.new result }
{
    match reader.fill(io, MOST_BYTES) {
        Ok(count) => look(reader, count),
        Err(FillFault::Failed) => Err(FirstFault::Read),
        Err(FillFault::NoMemory) => Err(FirstFault::NoMemory),
    }
}

/// Reads until the first line is whole, or what is left at the end of input. It flushes nothing, since nothing was
/// written before.
///
/// Errors: a read failed, the line is too long, there is no line, or out of memory.
pub(crate) fn read_first<X: Duplex>(
    reader: &mut LineReader,
    io: &mut X,
) -> Result<FirstLine, FirstFault>
    requires { reader.old ≡ nothing_unread }
    ensures ok { IfOk result (HasFirst X.Duplex io.old io.new reader.new) }
    ensures failed { IfErr result (FailsFirst X.Duplex io.old io.new reader.new) }
{
    'reading: for _ in 0..u64::MAX {
        match read_piece(reader, io) {
            Ok(Some(first)) => return Ok(first),
            Ok(None) => {}
            Err(fault) => return Err(fault),
        }
    }
    Err(FirstFault::NoMemory)
}
