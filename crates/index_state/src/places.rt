//! Where neighbouring segments with so many documents are. Documents are counted, and bytes are never compared.
ghost use Rattle.std.specs.Prelude.{◌≡◌, ◌≢◌, ◌≤◌, ◌+◌, ℕ, None, IfSome, length, map, take, drop};
ghost use Rattle.std.specs.Arc.{arc_value};
ghost use Rattle.seg_documents.specs.Decoding.{records_in};
ghost use Rattle.index_state.specs.Merging.{AreAt, HasNoPlace};

use seg_file::Segment;
use std::sync::Arc;

// The first place before which the segments have just so many documents.
fn cut_at(segments: &[Arc<Segment>], docs: u64) -> Option<usize>
    requires { length (records_in (map arc_value segments.now)) ≤ 1000000 }
    ensures within { IfSome result (λ k. k ≤ length segments.now) }
    ensures found { IfSome result (λ k. length (records_in (take k (map arc_value segments.now))) ≡ docs) }
    ensures none { result ≡ None → (k : ℕ) → length (records_in (take k (map arc_value segments.now))) ≢ docs }
{
    let mut count: u64 = 0;
    for at in 0..segments.len() {
        if count == docs {
            return Some(at);
        }
        count += segments[at].live() as u64;
    }
    if count == docs {
        Some(segments.len())
    } else {
        None
    }
}

/// The first of the neighbours that have `many` documents with `before` documents before theirs, and how many
/// neighbours they are; `None` where there are none. It takes no memory, and goes over the list of segments once or
/// twice.
pub fn find_range(segments: &[Arc<Segment>], before: u64, many: u64) -> Option<(usize, usize)>
    requires { length (records_in (map arc_value segments.now)) ≤ 1000000 }
    ensures within { IfSome result (λ r. r.0 + r.1 ≤ length segments.now) }
    ensures found { IfSome result (λ r. AreAt before many (map arc_value segments.now)
        (take r.0 (map arc_value segments.now)) (take r.1 (drop r.0 (map arc_value segments.now))) (drop (r.0
        + r.1) (map arc_value segments.now))) }
    ensures none { result ≡ None → HasNoPlace before many (map arc_value segments.now) }
{
    let first = cut_at(segments, before)?;
    let (_, rest) = segments.split_at(first);
    let count = cut_at(rest, many)?;
    Some((first, count))
}
