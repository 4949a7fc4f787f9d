ghost use Rattle.std.specs.Prelude.{◌≡◌, ◌<◌, ◌≤◌, ◌+◌, ◌^◌, ℕ, List, Option, length, IfOk, IsErr, IsErrOf};
ghost use Rattle.std.specs.Io.{ReadsAtMost};
ghost use Rattle.std.specs.Io.KnownBytes.{ReadConsumes, Consumes, IsAtEnd};
ghost use Rattle.facet_io.specs.Faults.{Rose, CountsFaults};

use crate::failed::Failed;
use std::alloc::Global;

/// A source of bytes, which is read piece by piece to its end.
pub trait Source {
    /// The bytes left, or `None` if contracts know nothing of them.
    ghost left: { Self → Option (List ℕ) };

    /// How many faults the source has counted.
    ghost faults: { Self → ℕ };

    /// Reads the next bytes into the beginning of `into`, and returns how many. `Ok(0)` is the end of input. Errors:
    /// `Failed`; then nothing was taken.
    fn read(&mut self, into: &mut [u8]) -> Result<usize, Failed>
        requires { 0 < length into.old }
        ensures bound { ReadsAtMost result into.new }
        ensures bytes { ReadConsumes (left self.old) (left self.new) result into.new }
        ensures cause { CountsFaults (faults self.old) (faults self.new) (IsErr result) };
}

/// Why a source was not read to its end.
#[derive(Clone, Copy, Debug, PartialEq, Eq)]
pub enum ReadFault {
    /// A read failed.
    Failed,
    /// There are more bytes than the limit. One more than the limit was read.
    TooLong,
    /// Out of memory.
    NoMemory,
}

// bytes per read
const BLOCK: usize = 4096;

/// Returns all bytes that are left, if they are at most `limit`.
///
/// It reads at most 4,096 bytes at a time, into one vector that grows.
///
/// Errors: `TooLong` if there are more bytes; `Failed` if a read failed; out of memory.
pub fn read_to_end<S: Source>(
    alloc: Global,
    source: &mut S,
    limit: usize,
) -> Result<Vec<u8>, ReadFault>
    requires { limit < 2 ^ 32 }
    ensures whole { IfOk result (λ v. Consumes (S.left source.old) (S.left source.new) v.items
        × IsAtEnd (S.left source.new)) }
    ensures within { IfOk result (λ v. length v.items ≤ limit) }

    // Whatever it returns, at most one byte more than the limit was read: exactly one more for `TooLong`, and at most
    // the limit for `Failed`.
    ensures taken { (bs : List ℕ) × (length bs ≤ limit + 1) × Consumes (S.left source.old) (S.left source.new) bs }
    ensures too_long { IsErrOf result ReadFault.TooLong → (bs : List ℕ) × (length bs ≡ limit + 1)
        × Consumes (S.left source.old) (S.left source.new) bs }
    ensures failed { IsErrOf result ReadFault.Failed → (bs : List ℕ) × (length bs ≤ limit)
        × Consumes (S.left source.old) (S.left source.new) bs }
    ensures cause { CountsFaults (S.faults source.old) (S.faults source.new) (IsErrOf result ReadFault.Failed) }
{
    let mut bytes = Vec::new(alloc);
    let mut block = [0u8; BLOCK];
    'reading: while bytes.len() <= limit {
        let room = (limit + 1 - bytes.len()).min(BLOCK);
        match source.read(&mut block[..room]) {
            Ok(0) => return Ok(bytes),
            Ok(count) => {
                if bytes.extend_from_slice(&block[..count]).is_err() {
                    return Err(ReadFault::NoMemory);
                }
            }
            Err(Failed) => return Err(ReadFault::Failed),
        }
    }
    Err(ReadFault::TooLong)
}
