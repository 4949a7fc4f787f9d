ghost use Rattle.std.specs.Prelude.{◌≢◌, IfErr};
ghost use Rattle.std.specs.IoError.{error_kind};
ghost use Rattle.std.specs.Io.KnownBytes.{Keeps};

use crate::duplex::Duplex;
use facet_io::{Failed, read_retrying, write_retrying};
use std::io;
use std::io::{ErrorKind, Read, Write};

/// Flushes once, and again if a signal interrupts it. It allocates nothing. Errors: those of the writer except
/// `Interrupted`.
fn flush_retrying<W: Write>(writer: &mut W) -> io::Result<()>
    ensures bytes { Keeps (W.contents writer.old) (W.contents writer.new) }
    ensures retried { IfErr result (λ e. error_kind e ≢ ErrorKind.Interrupted) }
{
    for _ in 0..u64::MAX {
        match writer.flush() {
            Ok(()) => return Ok(()),
            Err(e) => if e.kind() != ErrorKind::Interrupted {
                return Err(e);
            },
        }
    }
    Err(ErrorKind::TimedOut.into())
}

/// A reader and a writer of the standard library as one object. Contracts know nothing of its events.
///
/// A call that a signal interrupts is repeated. Each other error is a fault, and so is a write of no bytes.
#[derive(Drop)]
pub struct StdDuplex<R: Read + Drop, W: Write + Drop> {
    reader: R,
    writer: W,
    read_faults: u64,
    write_faults: u64,
}

impl<R: Read + Drop, W: Write + Drop> StdDuplex<R, W> {
    ghost use Rattle.std.specs.Prelude.{◌≡◌};

    /// Returns a reader and a writer as one object, with counts of 0 faults.
    pub fn new(reader: R, writer: W) -> StdDuplex<R, W>
        ensures reader { result.reader ≡ reader }
        ensures writer { result.writer ≡ writer }
        ensures read_faults { result.read_faults ≡ 0 }
        ensures write_faults { result.write_faults ≡ 0 }
    {
        StdDuplex {
            reader,
            writer,
            read_faults: 0,
            write_faults: 0,
        }
    }
}

impl<R: Read + Drop, W: Write + Drop> Duplex for StdDuplex<R, W> {
    ghost use Rattle.std.specs.Prelude.{None};

    ghost left = { λ d. R.remaining d.reader };

    ghost written = { λ d. W.contents d.writer };

    ghost events = { λ d. None };

    ghost read_faults = { λ d. d.read_faults };

    ghost write_faults = { λ d. d.write_faults };

    fn read(&mut self, into: &mut [u8]) -> Result<usize, Failed> {
        match read_retrying(&mut self.reader, into) {
            Ok(count) => Ok(count),
            Err(_) => {
                self.read_faults = self.read_faults.saturating_add(1);
                Err(Failed)
            }
        }
    }

    fn write(&mut self, piece: &[u8]) -> Result<usize, Failed> {
        match write_retrying(&mut self.writer, piece) {
            Ok(0) | Err(_) => {
                self.write_faults = self.write_faults.saturating_add(1);
                Err(Failed)
            }
            Ok(count) => Ok(count),
        }
    }

    fn flush(&mut self) -> Result<(), Failed> {
        match flush_retrying(&mut self.writer) {
            Ok(()) => Ok(()),
            Err(_) => {
                self.write_faults = self.write_faults.saturating_add(1);
                Err(Failed)
            }
        }
    }
}
