ghost use Rattle.std.specs.Prelude.{◌≡◌, ◌<◌, ◌≤◌, ℕ, List, Option, length, IfOk, IsErr};
ghost use Rattle.std.specs.Io.{ReadsAtMost};
ghost use Rattle.std.specs.Io.KnownBytes.{ReadConsumes, WriteAppends, Keeps};
ghost use Rattle.facet_io.specs.Faults.{CountsFaults};
ghost use Rattle.live_io.specs.Events.{Event, ReadNotes, WriteNotes, FlushNotes};

use facet_io::Failed;

/// A source and a sink of bytes that are one object, so that a contract can say which call came first.
pub trait Duplex: Drop {
    /// The bytes left to read, or `None` if contracts know nothing of them.
    ghost left: { Self → Option (List ℕ) };

    /// The bytes written, or `None` if contracts know nothing of them.
    ghost written: { Self → Option (List ℕ) };

    /// The calls that succeeded, the newest first, or `None` if contracts know nothing of them.
    ghost events: { Self → Option (List Event) };

    /// How many faults of reads were counted.
    ghost read_faults: { Self → ℕ };

    /// How many faults of writes and flushes were counted.
    ghost write_faults: { Self → ℕ };

    /// Reads the next bytes into the beginning of `into`, and returns how many. `Ok(0)` is the end of input. Errors:
    /// `Failed`; then nothing was taken.
    fn read(&mut self, into: &mut [u8]) -> Result<usize, Failed>
        requires { 0 < length into.old }
        ensures bound { ReadsAtMost result into.new }
        ensures bytes { ReadConsumes (left self.old) (left self.new) result into.new }
        ensures notes { ReadNotes result into.new (events self.old) (events self.new) }
        ensures cause { CountsFaults (read_faults self.old) (read_faults self.new) (IsErr result) }
        ensures same_written { written self.new ≡ written self.old }
        ensures same_faults { write_faults self.new ≡ write_faults self.old };

    /// Appends the first bytes of `piece`, at least one, and returns how many. `piece` is not empty. Errors: `Failed`;
    /// then nothing was appended.
    fn write(&mut self, piece: &[u8]) -> Result<usize, Failed>
        requires { 0 < length piece.now }
        ensures bound { IfOk result (λ k. (0 < k) × (k ≤ length piece.now)) }
        ensures bytes { WriteAppends (written self.old) (written self.new) result piece.now }
        ensures notes { WriteNotes result piece.now (events self.old) (events self.new) }
        ensures cause { CountsFaults (write_faults self.old) (write_faults self.new) (IsErr result) }
        ensures same_left { left self.new ≡ left self.old }
        ensures same_faults { read_faults self.new ≡ read_faults self.old };

    /// Sends on what was written and is still held back. Errors: `Failed`.
    fn flush(&mut self) -> Result<(), Failed>
        ensures notes { FlushNotes result (events self.old) (events self.new) }
        ensures cause { CountsFaults (write_faults self.old) (write_faults self.new) (IsErr result) }
        ensures same_written { Keeps (written self.old) (written self.new) }
        ensures same_left { left self.new ≡ left self.old }
        ensures same_faults { read_faults self.new ≡ read_faults self.old };
}
