ghost use Rattle.seg_postings.specs.Rising.{IsRising, IsNext, from_place};
ghost use Rattle.std.specs.Prelude.{◌≡◌, List, ℕ};
ghost use Rattle.seg_postings.specs.Steps.{least_of};

/// A strictly rising list of places, from left to right. No call allocates.
pub trait Places {
    /// The places left.
    ghost left: { Self → List ℕ };

    /// Returns the next place, or `None` at the end.
    fn next(&mut self) -> Option<u32>
        ensures rising { IsRising (left self.old) }
        ensures next { IsNext result (left self.old) (left self.new) };

    /// Returns the first place left that is at least `place`, or `None`. It is passed, with all places before it.
    fn seek(&mut self, place: u32) -> Option<u32>
        ensures rising { IsRising (left self.old) }
        ensures next { IsNext result (from_place place (left self.old)) (left self.new) };
}

/// Returns the lesser of two places if both are given, and otherwise the given one.
pub fn least(a: Option<u32>, b: Option<u32>) -> Option<u32>
    ensures { result ≡ least_of a b }
{
    match (a, b) {
        (None, None) => None,
        (None, Some(b)) => Some(b),
        (Some(a), None) => Some(a),
        (Some(a), Some(b)) => { if b < a { Some(b) } else { Some(a) } }
    }
}
