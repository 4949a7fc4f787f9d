ghost use Rattle.std.specs.Prelude.{◌≡◌, ◌≤◌, drop, length, map, IfSome};
ghost use Rattle.std.specs.Option.{option_map};
ghost use Rattle.std.specs.Arc.{arc_value};
ghost use Rattle.std.specs.Str.{bytes_eq};
ghost use Rattle.seg_grammar.specs.Spelling.{seg_bytes};
ghost use Rattle.commit_plan.specs.Committed.{kept_view};
ghost use Rattle.commit_plan.specs.Drafts.{taken, is_same, are_same};

use crate::state::StoredSegment;
use commit_file::DocumentPart;
use seg_file::Segment;
use std::sync::Arc;

// Returns whether a segment has these bytes.
fn has_bytes(segment: &Segment, bytes: &[u8]) -> bool
    ensures { result ≡ bytes_eq (seg_bytes segment.now) bytes.now }
{
    segment.bytes() == bytes
}

/// Returns how the first stored segment with these bytes is named, from a place on, and the place after it. It compares
/// bytes until it finds them. It allocates nothing.
pub(crate) fn take_same(
    stored: &[StoredSegment],
    from: usize,
    bytes: &[u8],
) -> Option<(DocumentPart, usize)>
    requires { from ≤ length stored.now }
    ensures within { IfSome result (λ found. found.1 ≤ length stored.now) }
    ensures taken { taken (drop from (map kept_view stored.now)) bytes.now
        ≡ option_map (λ found. (found.0, drop found.1 (map kept_view stored.now))) result }
{
    let rest = &stored[from..];
    for (ahead, kept) in rest.iter().enumerate() {
        if has_bytes(&kept.segment, bytes) {
            return Some((kept.part, from + ahead + 1));
        }
    }
    None
}

// Returns whether a segment is the stored one: it has the same bytes, and the same records are no longer live.
fn is_same(stored: &StoredSegment, segment: &Segment) -> bool
    ensures { result ≡ is_same (kept_view stored.now) segment.now }
{
    has_bytes(&stored.segment, segment.bytes()) && stored.segment.dead() == segment.dead()
}

/// Returns whether these are the stored segments, each with the same live records. It compares bytes and live records
/// up to the first difference.
pub(crate) fn are_same(stored: &[StoredSegment], segments: &[Arc<Segment>]) -> bool
    ensures { result ≡ are_same (map kept_view stored.now) (map arc_value segments.now) }
{
    if stored.len() != segments.len() {
        return false;
    }
    for (at, kept) in stored.iter().enumerate() {
        if !is_same(kept, &segments[at]) {
            return false;
        }
    }
    true
}
