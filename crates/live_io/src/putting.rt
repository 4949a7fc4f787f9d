ghost use Rattle.std.specs.Prelude.{◌≡◌, ℕ, take, OnOk, OnErr, IsErr};
ghost use Rattle.std.specs.Io.KnownBytes.{Appends};
ghost use Rattle.facet_io.specs.Faults.{CountsFaults};
ghost use Rattle.live_io.specs.Events.{PutsAfter};

use crate::duplex::Duplex;
use facet_io::Failed;

/// Appends all of `bytes`, in as many writes as the sink needs. It allocates nothing and does not flush. Errors:
/// `Failed` if a write failed.
pub fn put_all<X: Duplex>(io: &mut X, bytes: &[u8]) -> Result<(), Failed>
    ensures ok { OnOk result (Appends (X.written io.old) (X.written io.new) bytes.now) }
    ensures puts { OnOk result (PutsAfter bytes.now (X.events io.old) (X.events io.new)) }
    // After a failure a prefix of them was appended.
    ensures failed { OnErr result ((n : ℕ) × Appends (X.written io.old) (X.written io.new) (take n bytes.now)
        × PutsAfter (take n bytes.now) (X.events io.old) (X.events io.new)) }
    ensures cause { CountsFaults (X.write_faults io.old) (X.write_faults io.new) (IsErr result) }
    ensures same_left { X.left io.new ≡ X.left io.old }
    ensures same_faults { X.read_faults io.new ≡ X.read_faults io.old }
{
    let mut rest = bytes;
    while !rest.is_empty() {
        match io.write(rest) {
            Ok(count) => {
                let (_, after) = rest.split_at(count);
                rest = after;
            }
            Err(Failed) => return Err(Failed),
        }
    }
    Ok(())
}
