ghost use Rattle.std.specs.Prelude.{◌≡◌, ◌<◌, ◌+◌, ◌-◌, ◌^◌, ◌++◌, ◌∷◌, [], fold, length, map, None, OnOk};
ghost use Rattle.std.specs.Arc.{arc_value};
ghost use Rattle.commit_plan.specs.Committed.{kept_view};
ghost use Rattle.commit_plan.specs.Drafts.{place, placed_by};

use crate::draft::Draft;
use crate::matching::take_same;
use crate::state::StoredSegment;
use commit_file::{DocumentPart, digest_of};
use facet_disk::{Dir, Kind};
use facet_names::NoMemory;
use seg_file::Segment;
use std::alloc::Global;
use std::marker::Model;
use std::sync::Arc;

/// Finds out, segment by segment, which segments are stored already: the files that the new ones need, the place in the
/// stored segments, and the segments of the next commit.
#[derive(Drop)]
pub(crate) struct Placing<'a> {
    alloc: Global,
    stored: &'a [StoredSegment],
    behind: usize,
    draft: Draft,
    kept: Vec<StoredSegment>,
}

impl<'a> Model for Placing<'a> {
    ghost use Rattle.std.specs.Prelude.{◌≤◌, drop, length, map};
    ghost use Rattle.commit_plan.specs.Committed.{kept_view};
    ghost use Rattle.commit_plan.specs.Drafts.{Placed};

    ghost Value = { Placed };

    ghost view = { λ p. record {
      draft = p.draft;
      behind = drop p.behind (map kept_view p.stored.now);
      kept = map kept_view p.kept.items;
    } };

    ghost invariant = { λ p. p.behind ≤ length p.stored.now };
}

impl<'a> Placing<'a> {
    /// Returns the state before the first segment.
    pub fn new(alloc: Global, stored: &'a [StoredSegment], draft: Draft) -> Placing<'a>
        ensures { result ≡ record { draft = draft; behind = map kept_view stored.now; kept = [] } }
    {
        Placing {
            alloc,
            stored,
            behind: 0,
            draft,
            kept: Vec::new(alloc),
        }
    }

    // Keeps a segment under a name.
    fn keep(&mut self, part: DocumentPart, segment: &Arc<Segment>) -> Result<(), NoMemory>
        ensures { OnOk result (self.new ≡ record self.old {
          kept = self.old.kept
              ++ (record { part = part; segment = arc_value segment.now }) ∷ [];
        }) }
    {
        let segment = Arc::try_clone(segment)?;
        self.kept.push(StoredSegment { part, segment })?;
        Ok(())
    }

    // Keeps a new segment, with its file.
    fn add(&mut self, segment: &Arc<Segment>) -> Result<(), NoMemory>
        requires { self.old.draft.next < 2 ^ 64 - 1 }
        ensures { OnOk result (self.new ≡ placed_by self.old (arc_value segment.now) None) }
    {
        let bytes = segment.bytes();
        let part = DocumentPart {
            number: self.draft.next(),
            documents: segment.docs(),
            digest: digest_of(bytes),
        };
        self.draft
            .put(Dir::Index, Kind::Segment, bytes.to_vec(self.alloc)?)?;
        self.keep(part, segment)?;
        Ok(())
    }

    /// Places one segment more. It takes the name of the first stored segment with the same bytes after the last one
    /// that was taken. Otherwise the segment is new.
    pub fn place(&mut self, segment: &Arc<Segment>) -> Result<(), NoMemory>
        requires { self.old.draft.next < 2 ^ 64 - 1 }
        ensures { OnOk result (self.new ≡ place self.old (arc_value segment.now)) }
    {
        let Some((part, behind)) = take_same(self.stored, self.behind, segment.bytes()) else {
            self.add(segment)?;
            return Ok(());
        };
        self.behind = behind;
        self.keep(part, segment)?;
        Ok(())
    }

    /// Places all segments, in order.
    pub fn place_all(&mut self, segments: &[Arc<Segment>]) -> Result<(), NoMemory>
        requires { self.old.draft.next + length segments.now < 2 ^ 64 - 1 }
        ensures { OnOk result (self.new ≡ fold place self.old (map arc_value segments.now)) }
    {
        for segment in segments {
            self.place(segment)?;
        }
        Ok(())
    }

    /// Returns the files, and the segments of the next commit.
    pub fn finish(self) -> (Draft, Vec<StoredSegment>)
        ensures draft { result.0 ≡ self.entry.draft }
        ensures kept { map kept_view result.1.items ≡ self.entry.kept }
    {
        (self.draft, self.kept)
    }
}
