ghost use Rattle.std.specs.Prelude.{◌≤◌, length};
ghost use Rattle.seg_postings.specs.Rising.{IsRising};
ghost use Rattle.seg_postings.specs.Bytes.{places_of};
ghost use Rattle.seg_postings.specs.Steps.{IsFirstFrom};

/// Returns how many of the places are below `place`. It reads about twice as many places as the logarithm of that
/// number.
pub(crate) fn first_from(places: &[[u8; 4]], place: u32) -> usize
    requires { IsRising (places_of places.now) }
    ensures first { IsFirstFrom place (places_of places.now) result result }
    ensures within { result ≤ length places.now }
{
    let (low, high) = reach(places, place);
    bisect(places, place, low, high)
}

// Returns bounds of that number, by doubling steps up to a place that is not below `place`.
fn reach(places: &[[u8; 4]], place: u32) -> (usize, usize)
    requires { IsRising (places_of places.now) }
    ensures between { IsFirstFrom place (places_of places.now) result.0 result.1 }
    ensures order { result.0 ≤ result.1 }
    ensures within { result.1 ≤ length places.now }
{
    let mut low = 0;
    let mut step = 1;
    while step <= places.len() - low {
        let last = low + step - 1;
        if u32::from_be_bytes(places[last]) >= place {
            return (low, last);
        }
        low = last + 1;
        if step <= places.len() / 2 {
            step *= 2;
        }
    }
    (low, places.len())
}

// Returns that number, by bisection between two bounds.
fn bisect(places: &[[u8; 4]], place: u32, low: usize, high: usize) -> usize
    requires rising { IsRising (places_of places.now) }
    requires between { IsFirstFrom place (places_of places.now) low high }
    requires order { low ≤ high }
    requires within { high ≤ length places.now }
    ensures first { IsFirstFrom place (places_of places.now) result result }
    ensures within { result ≤ length places.now }
{
    let mut low = low;
    let mut high = high;
    while low < high {
        let middle = low + (high - low) / 2;
        if u32::from_be_bytes(places[middle]) < place {
            low = middle + 1;
        } else {
            high = middle;
        }
    }
    low
}
