//! The segments in the order of their next terms. No proof depends on this order: the walk over the terms compares each
//! with the one before it.

ghost use Rattle.std.specs.Prelude.{◌≡◌, ◌<◌, length};

use std::cmp::Ordering;

/// The next term of a segment; none after its last one.
#[derive(Drop)]
pub(crate) struct Head<'s> {
    /// The text of the term.
    pub(crate) text: Option<&'s str>,
    /// Which of the segments it is.
    pub(crate) segment: usize,
}

// Whether a head comes before another one: by the texts, and for equal texts by the segments.
fn is_before(a: &Head<'_>, b: &Head<'_>) -> bool {
    match (a.text, b.text) {
        (Some(first), Some(second)) => match first.cmp(second) {
            Ordering::Less => true,
            Ordering::Equal => a.segment < b.segment,
            Ordering::Greater => false,
        },
        (Some(_), None) => true,
        (None, _) => false,
    }
}

/// Moves a head of a binary heap down until none below it comes before it. It compares about twice the logarithm of the
/// number of heads.
pub(crate) fn sink(heads: &mut [Head<'_>], from: usize)
    requires { from < length heads.old }
    ensures { length heads.new ≡ length heads.old }
{
    let mut at = from;
    for _ in 0..usize::BITS {
        let left = at.saturating_mul(2).saturating_add(1);
        if left >= heads.len() {
            break;
        }
        let right = left.saturating_add(1);
        let below = if right < heads.len() && is_before(&heads[right], &heads[left]) {
            right
        } else {
            left
        };
        if is_before(&heads[at], &heads[below]) {
            break;
        }
        heads.swap(at, below);
        at = below;
    }
}
