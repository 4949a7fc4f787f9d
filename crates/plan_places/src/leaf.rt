ghost use Rattle.std.specs.Prelude.{◌≡◌, ◌≤◌, ◌<◌};
ghost use Rattle.seg_postings.specs.Rising.{IsRising, IsNext, first_of, from_place};
ghost use Rattle.seg_postings.specs.Steps.{IsPeeked};
ghost use Rattle.plan_places.specs.Marks.{IsMarkable, AreMarkedToo};
ghost use Rattle.plan_places.specs.Nodes.{leaf_left};

use place_bits::Bits;
use seg_postings::{Places, PostingsCursor};

/// The places of a list. The first one was read and is stored.
#[derive(Drop)]
pub(crate) struct Leaf<'a> {
    pub(crate) head: Option<u32>,
    pub(crate) cursor: PostingsCursor<'a>,
}

impl<'a> Leaf<'a> {
    /// Returns the first place left that is at least `place`, or `None`. The places before it are passed; it is not.
    pub(crate) fn at_least(&mut self, place: u64) -> Option<u32>
        requires kept { IsPeeked self.old.head self.old.cursor }
        requires fits { place ≤ 4294967296 }
        ensures rising { IsRising (leaf_left self.old) }
        ensures first { result ≡ first_of (leaf_left self.new) }
        ensures moved { leaf_left self.new ≡ from_place place (leaf_left self.old) }
        ensures kept { IsPeeked self.new.head self.new.cursor }
    {
        let Some(head) = self.head else {
            return None;
        };
        if head as u64 >= place {
            return Some(head);
        }
        self.head = sought(&mut self.cursor, place);
        self.head
    }

    /// Marks all places left.
    pub(crate) fn mark(self, bits: &mut Bits)
        requires kept { IsPeeked self.head self.cursor }
        requires room { IsMarkable bits.old (leaf_left self) }
        ensures { AreMarkedToo (leaf_left self.entry) bits.new bits.old }
    {
        let Some(head) = self.head else {
            return;
        };
        let mut cursor = self.cursor;
        bits.add(head);
        bits.mark(&mut cursor);
    }
}

// Returns the first place of a cursor that is at least `place`. It is passed, with all places before it. The next one
// is tried first: a walk over a list asks for the place after the last one.
fn sought(cursor: &mut PostingsCursor<'_>, place: u64) -> Option<u32>
    requires some { 0 < place }
    requires fits { place ≤ 4294967296 }
    ensures rising { IsRising cursor.old }
    ensures next { IsNext result (from_place place cursor.old) cursor.new }
{
    let next = cursor.next()?;
    if next as u64 >= place {
        return Some(next);
    }
    sought_behind(cursor, place)
}

// Does the same without trying the next place.
fn sought_behind(cursor: &mut PostingsCursor<'_>, place: u64) -> Option<u32>
    requires some { 0 < place }
    requires fits { place ≤ 4294967296 }
    ensures rising { IsRising cursor.old }
    ensures next { IsNext result (from_place place cursor.old) cursor.new }
{
    let found = cursor.seek((place - 1) as u32)?;
    if found as u64 >= place {
        return Some(found);
    }
    cursor.next()
}
