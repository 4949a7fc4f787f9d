ghost use Rattle.std.specs.Prelude.{◌≡◌, ◌≤◌, vec_len, drop};
ghost use Rattle.live_io.specs.Unread.{first_feed};

use std::alloc::{AllocError, Global};
use std::marker::Model;

// The capacity in bytes above which memory is freed once a line was passed, and what is kept then.
const LARGE: usize = 131_072;

const KEPT: usize = 65_536;

/// The bytes that were got and not taken, in one vector. Those in front of `at` were taken.
#[derive(Drop)]
pub(crate) struct Buffer {
    bytes: Vec<u8>,
    at: usize,
    // the place of the first line feed from `at` on, so that no byte is looked at twice
    feed: Option<usize>,
    dropped: bool,
}

impl Model for Buffer {
    ghost use Rattle.std.specs.Prelude.{◌≡◌, ◌≤◌, ◌-◌, vec_len, vec_capacity, drop};
    ghost use Rattle.live_io.specs.Buffer.{BufferState};
    ghost use Rattle.live_io.specs.Unread.{first_feed};

    ghost Value = { BufferState };

    ghost view = { λ b. record {
      unread = record { dropped = b.dropped; bytes = drop b.at b.bytes.items };
      room = vec_capacity b.bytes - vec_len b.bytes;
    } };

    ghost invariant = { λ b. (b.at ≤ vec_len b.bytes) × (b.feed ≡ first_feed (drop b.at b.bytes.items)) };
}

fn feed_at(bytes: &[u8]) -> Option<usize>
    ensures { result ≡ first_feed bytes.now }
{
    bytes.iter().position(|byte| *byte == b'\n')
}

// Removes the first bytes.
fn remove_front(bytes: &mut Vec<u8>, count: usize)
    requires { count ≤ vec_len bytes.old }
    ensures items { bytes.new.items ≡ drop count bytes.old.items }
{
    if count > 0 {
        let rest = bytes.len() - count;
        bytes.copy_within(count.., 0);
        bytes.truncate(rest);
    }
}

impl Buffer {
    ghost use Rattle.std.specs.Prelude.{◌≡◌, ◌≤◌, ◌++◌, Some, None, OnOk, length};
    ghost use Rattle.live_io.specs.Unread.{first_feed, line_len, nothing_unread, passed, shortened, with_got};

    pub(crate) fn new(alloc: Global) -> Buffer
        ensures { result.unread ≡ nothing_unread }
    {
        Buffer {
            bytes: Vec::new(alloc),
            at: 0,
            feed: None,
            dropped: false,
        }
    }

    pub(crate) fn feed(&self) -> Option<usize>
        ensures { result ≡ first_feed self.now.unread.bytes }
    {
        self.feed
    }

    // How many bytes there are before the first line feed, or in all.
    fn line_len(&self) -> usize
        ensures { result ≡ line_len self.now.unread.bytes }
    {
        self.feed.unwrap_or(self.bytes.len() - self.at)
    }

    pub(crate) fn is_dropped(&self) -> bool
        ensures { result ≡ self.now.unread.dropped }
    {
        self.dropped
    }

    pub(crate) fn unread(&self) -> &[u8]
        ensures { result.now ≡ self.now.unread.bytes }
    {
        &self.bytes[self.at..]
    }

    // Moves the unread bytes to the front of the vector.
    fn move_to_front(&mut self)
        ensures { self.new.unread ≡ self.old.unread }
    {
        remove_front(&mut self.bytes, self.at);
        self.at = 0;
    }

    // Frees memory if much more is held than a block and the rest of one take.
    fn free_memory(&mut self)
        ensures { self.new.unread ≡ self.old.unread }
    {
        if self.bytes.capacity() > LARGE {
            self.move_to_front();
            self.bytes.shrink_to(KEPT);
        }
    }

    // Takes the first line, of `len` bytes, and its line feed.
    pub(crate) fn pass(&mut self, len: usize)
        requires { first_feed self.old.unread.bytes ≡ Some len }
        ensures { self.new.unread ≡ passed len self.old.unread }
    {
        // `len + 1` alone is not known to fit.
        self.at = self.at + len + 1;
        self.dropped = false;
        self.feed = feed_at(&self.bytes[self.at..]);
        self.free_memory();
    }

    // Makes room for `count` bytes more. Errors: out of memory.
    pub(crate) fn make_room(&mut self, count: usize) -> Result<(), AllocError>
        ensures unread { self.new.unread ≡ self.old.unread }
        ensures room { OnOk result (count ≤ self.new.room) }
    {
        self.move_to_front();
        self.bytes.reserve(count)
    }

    // Drops the bytes of the first line.
    fn drop_line(&mut self)
        ensures { self.new.unread ≡ shortened self.old.unread.bytes }
    {
        self.dropped = true;
        match self.feed {
            Some(len) => {
                self.at += len;
                self.feed = Some(0);
            }
            None => {
                self.at = 0;
                self.bytes.clear();
            }
        }
    }

    // Adds bytes behind the unread ones, among which there is no line feed and for which there is room.
    fn append(&mut self, more: &[u8])
        requires room { length more.now ≤ self.old.room }
        requires no_feed { first_feed self.old.unread.bytes ≡ None }
        ensures dropped { self.new.unread.dropped ≡ self.old.unread.dropped }
        ensures bytes { self.new.unread.bytes ≡ self.old.unread.bytes ++ more.now }
    {
        let before = self.bytes.len() - self.at;
        self.feed = match feed_at(more) {
            Some(place) => Some(before + place),
            None => None,
        };
        // There is room, so it does not fail.
        let _ = self.bytes.extend_from_slice(more);
    }

    // Adds bytes behind the unread ones, and drops those of the first line if it is longer than `limit`.
    pub(crate) fn add(&mut self, more: &[u8], limit: usize)
        requires room { length more.now ≤ self.old.room }
        requires no_feed { first_feed self.old.unread.bytes ≡ None }
        ensures { self.new.unread ≡ with_got limit more.now self.old.unread }
    {
        self.append(more);
        if self.is_dropped() || limit < self.line_len() {
            self.drop_line();
        }
    }
}
