ghost use Rattle.std.specs.Prelude.{◌≡◌, ◌≤◌, OnOk, IfOk, vec_len};

use crate::buffer::Buffer;
use crate::duplex::Duplex;
use facet_io::Failed;
use std::alloc::{AllocError, Global};
use std::marker::Model;

/// Why nothing more was read.
#[derive(Clone, Copy, Debug, PartialEq, Eq)]
pub enum FillFault {
    /// The read failed.
    Failed,
    /// Out of memory. Nothing was read.
    NoMemory,
}

// bytes per read
const BLOCK: usize = 65_536;

/// The lines of a client, as they come: the bytes that were got and not taken yet.
///
/// Each byte is looked at once and moved at most twice, so the time is linear in the bytes that were got. The memory is
/// a block of 65,536 bytes and the bytes of the longest line. Memory above 131,072 bytes beside the block is freed when
/// its line was passed.
#[derive(Drop)]
pub struct LineReader {
    buffer: Buffer,
    block: Vec<u8>,
}

impl Model for LineReader {
    ghost use Rattle.live_io.specs.Unread.{Unread};

    ghost Value = { Unread };

    ghost view = { λ r. r.buffer.unread };
}

// Makes the block, if it was not made. Errors: out of memory.
fn make_block(block: &mut Vec<u8>) -> Result<(), AllocError>
    ensures { OnOk result (vec_len block.new ≡ BLOCK) }
{
    if block.len() != BLOCK {
        block.resize(BLOCK, 0)?;
    }
    Ok(())
}

impl LineReader {
    ghost use Rattle.std.specs.Prelude.{◌≡◌, ◌≤◌, ℕ, List, [], Some, None, IfOk, OnErr, IsErrOf, length, take};
    ghost use Rattle.std.specs.Io.KnownBytes.{Keeps};
    ghost use Rattle.facet_io.specs.Faults.{CountsFaults};
    ghost use Rattle.live_io.specs.Unread.{first_feed, nothing_unread, passed, IsUnread, TakesLine, LeavesLine, Fills};

    /// Returns a reader that has got nothing. It allocates nothing.
    pub fn new(alloc: Global) -> LineReader
        ensures nothing { result ≡ nothing_unread }
        ensures unread { (limit : ℕ) → IsUnread limit [] result [] }
    {
        LineReader {
            buffer: Buffer::new(alloc),
            block: Vec::new(alloc),
        }
    }

    /// Returns the length of the first line without its line feed, or `None` if there is no line feed yet. It takes
    /// constant time.
    pub fn whole(&self) -> Option<usize>
        ensures { result ≡ first_feed self.now.bytes }
    {
        self.buffer.feed()
    }

    /// Returns true if bytes of the first line were dropped, since it is longer than the limit of [`fill`].
    ///
    /// [`fill`]: LineReader::fill
    pub fn is_dropped(&self) -> bool
        ensures { result ≡ self.now.dropped }
    {
        self.buffer.is_dropped()
    }

    /// Returns the first `len` bytes that were not taken.
    pub fn line(&self, len: usize) -> &[u8]
        requires { len ≤ length self.now.bytes }
        ensures { result.now ≡ take len self.now.bytes }
    {
        let (line, _) = self.buffer.unread().split_at(len);
        line
    }

    /// Returns all bytes that were not taken. At the end of input they are what is left of a line without a line feed.
    pub fn rest(&self) -> &[u8]
        ensures bytes { result.now ≡ self.now.bytes }
        ensures line { (limit : ℕ) (consumed before : List ℕ) → first_feed self.now.bytes ≡ None
            → IsUnread limit consumed self.now before → LeavesLine limit consumed self.now before }
    {
        self.buffer.unread()
    }

    /// Takes the first line, of `len` bytes, and its line feed.
    pub fn pass(&mut self, len: usize)
        requires { first_feed self.old.bytes ≡ Some len }
        ensures after { self.new ≡ passed len self.old }
        ensures line { (limit : ℕ) (consumed before : List ℕ) → IsUnread limit consumed self.old before
            → TakesLine limit consumed self.old len self.new before }
    {
        self.buffer.pass(len);
    }

    /// Reads once, at most 65,536 bytes, and returns how many bytes it got: 0 at the end of input. No whole line may be
    /// there.
    ///
    /// If the first line then has more than `limit` bytes, its bytes are dropped, now and in later calls. A later line
    /// of the same read may be longer than `limit` and still be there as a whole.
    ///
    /// Errors: `Failed` if the read failed; out of memory, and then nothing was read. After an error the unread bytes
    /// are as before.
    pub fn fill<X: Duplex>(&mut self, io: &mut X, limit: usize) -> Result<usize, FillFault>
        requires { first_feed self.old.bytes ≡ None }
        ensures ok { IfOk result (λ n. Fills limit n self.old self.new (X.left io.old) (X.left io.new) (X.events io.old)
            (X.events io.new)) }
        ensures bound { IfOk result (λ n. n ≤ BLOCK) }
        ensures same { OnErr result (self.new ≡ self.old) }
        ensures same_left { OnErr result (Keeps (X.left io.old) (X.left io.new)) }
        ensures same_events { OnErr result (X.events io.new ≡ X.events io.old) }
        ensures cause { CountsFaults (X.read_faults io.old) (X.read_faults io.new) (IsErrOf result FillFault.Failed) }
        ensures same_written { X.written io.new ≡ X.written io.old }
        ensures same_faults { X.write_faults io.new ≡ X.write_faults io.old }
    {
        if make_block(&mut self.block).is_err() || self.buffer.make_room(BLOCK).is_err() {
            return Err(FillFault::NoMemory);
        }
        match io.read(&mut self.block) {
            Ok(count) => {
                self.buffer.add(&self.block[..count], limit);
                Ok(count)
            }
            Err(Failed) => Err(FillFault::Failed),
        }
    }
}
