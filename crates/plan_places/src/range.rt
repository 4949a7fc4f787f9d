ghost use Rattle.std.specs.Prelude.{◌≡◌, ◌≤◌, ◌<◌};
ghost use Rattle.seg_postings.specs.Rising.{IsRising, first_of, from_place};
ghost use Rattle.plan_places.specs.Nodes.{range_left};

/// The places from `next` on and below `end`.
#[derive(Drop)]
pub(crate) struct Range {
    pub(crate) next: u32,
    pub(crate) end: u32,
}

impl Range {
    /// Returns the first place left that is at least `place`, or `None`. The places before it are passed; it is not.
    pub(crate) fn at_least(&mut self, place: u64) -> Option<u32>
        ensures rising { IsRising (range_left self.old) }
        ensures first { result ≡ first_of (range_left self.new) }
        ensures moved { range_left self.new ≡ from_place place (range_left self.old) }
    {
        self.next = later(self.next, self.end, place);
        if self.next < self.end {
            Some(self.next)
        } else {
            None
        }
    }
}

// Returns the later of two places, but at most the end.
fn later(next: u32, end: u32, place: u64) -> u32
    ensures same { place ≤ next → result ≡ next }
    ensures within { next < place → place < end → result ≡ place }
    ensures past { next < place → end ≤ place → result ≡ end }
{
    if place <= next as u64 {
        next
    } else if place < end as u64 {
        place as u32
    } else {
        end
    }
}
