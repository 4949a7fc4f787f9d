//! Binary searches among rising places.
ghost use Rattle.std.specs.Prelude.{◌≤◌, length};
ghost use Rattle.seg_postings.specs.Rising.{IsRising};
ghost use Rattle.seg_postings.specs.Steps.{IsFirstFrom};
ghost use Rattle.live_records.specs.Live.{IsPastRank};

/// Returns how many of the places are below `place`.
pub(crate) fn first_from(places: &[u32], place: u32) -> usize
    requires { IsRising places.now }
    ensures first { IsFirstFrom place places.now result result }
    ensures within { result ≤ length places.now }
{
    let mut low = 0;
    let mut high = places.len();
    while low < high {
        let middle = low + (high - low) / 2;
        if places[middle] < place {
            low = middle + 1;
        } else {
            high = middle;
        }
    }
    low
}

/// Returns how many of the places have at most `rank` places below them that are not in the list.
pub(crate) fn past_rank(places: &[u32], rank: u32) -> usize
    requires { IsRising places.now }
    ensures past { IsPastRank rank places.now result result }
    ensures within { result ≤ length places.now }
{
    let mut low = 0;
    let mut high = places.len();
    while low < high {
        let middle = low + (high - low) / 2;
        if places[middle] as usize <= rank as usize + middle {
            low = middle + 1;
        } else {
            high = middle;
        }
    }
    low
}
