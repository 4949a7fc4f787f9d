ghost use Rattle.std.specs.Prelude.{◌≡◌, ◌≤◌, length};
ghost use Rattle.seg_postings.specs.Rising.{IsRising, first_of, from_place};
ghost use Rattle.seg_postings.specs.Steps.{IsFirstFrom};

/// The places that are left of a borrowed list.
#[derive(Drop)]
pub(crate) struct Listed<'a> {
    pub(crate) places: &'a [u32],
}

impl<'a> Listed<'a> {
    /// Returns the first place left that is at least `place`, or `None`. The places before it are passed; it is not.
    pub(crate) fn at_least(&mut self, place: u64) -> Option<u32>
        requires { IsRising self.old.places.now }
        ensures first { result ≡ first_of self.new.places.now }
        ensures moved { self.new.places.now ≡ from_place place self.old.places.now }
        ensures rising { IsRising self.new.places.now }
    {
        let places = self.places;
        let passed = first_from(places, place);
        let (_, rest) = places.split_at(passed);
        self.places = rest;
        match rest {
            [] => None,
            [first, ..] => Some(*first),
        }
    }
}

// Returns how many of the places are below `place`: 0 if the first is not, and otherwise by binary search.
fn first_from(places: &[u32], place: u64) -> usize
    requires { IsRising places.now }
    ensures first { IsFirstFrom place places.now result result }
    ensures within { result ≤ length places.now }
{
    if let [first, ..] = places {
        if *first as u64 >= place {
            return 0;
        }
    }
    let mut low = 0;
    let mut high = places.len();
    while low < high {
        let middle = low + (high - low) / 2;
        if (places[middle] as u64) < place {
            low = middle + 1;
        } else {
            high = middle;
        }
    }
    low
}
