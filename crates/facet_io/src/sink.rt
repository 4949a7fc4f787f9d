ghost use Rattle.std.specs.Prelude.{◌≡◌, ◌<◌, ◌≤◌, ℕ, List, Option, length, take, IfOk, OnOk, OnErr, IsErr};
ghost use Rattle.std.specs.Io.KnownBytes.{WriteAppends, Appends};
ghost use Rattle.facet_io.specs.Faults.{CountsFaults};

use crate::failed::Failed;

/// A sink of bytes, which is written piece by piece.
pub trait Sink {
    /// The bytes written, or `None` if contracts know nothing of them.
    ghost written: { Self → Option (List ℕ) };

    /// How many faults the sink has counted.
    ghost faults: { Self → ℕ };

    /// Appends the first bytes of `piece`, at least one, and returns how many. `piece` is not empty. Errors: `Failed`;
    /// then nothing was appended.
    fn write(&mut self, piece: &[u8]) -> Result<usize, Failed>
        requires { 0 < length piece.now }
        ensures bound { IfOk result (λ k. (0 < k) × (k ≤ length piece.now)) }
        ensures bytes { WriteAppends (written self.old) (written self.new) result piece.now }
        ensures cause { CountsFaults (faults self.old) (faults self.new) (IsErr result) };
}

/// Appends all of `bytes`, in as many writes as the sink needs. It allocates nothing. Errors: `Failed` if a write
/// failed.
pub fn write_all<K: Sink>(sink: &mut K, bytes: &[u8]) -> Result<(), Failed>
    ensures ok { OnOk result (Appends (K.written sink.old) (K.written sink.new) bytes.now) }
    // After a failure a prefix of them was appended.
    ensures failed { OnErr result ((n : ℕ) × Appends (K.written sink.old) (K.written sink.new) (take n bytes.now)) }
    ensures cause { CountsFaults (K.faults sink.old) (K.faults sink.new) (IsErr result) }
{
    let mut rest = bytes;
    while !rest.is_empty() {
        match sink.write(rest) {
            Ok(count) => {
                let (_, after) = rest.split_at(count);
                rest = after;
            }
            Err(Failed) => return Err(Failed),
        }
    }
    Ok(())
}
