use place_bits::Bits;
use seg_postings::Places;
use std::alloc::{AllocError, Global};

// Returns whether a walk over bits finds the places below 130 that are also among four, at the ends of words and after
// the bound.
pub(crate) fn are_in_common(alloc: Global) -> Result<bool, AllocError> {
    let mut below = Bits::none(alloc, 200)?;
    below.fill(130);
    let mut some = Bits::none(alloc, 200)?;
    some.add(63);
    some.add(128);
    some.add(64);
    some.add(199);
    below.keep(&some);
    let mut places = below.into_places();
    let first = places.next();
    let from_64 = places.seek(64);
    let last = places.next();
    let found = [first, from_64, last, places.seek(64)];
    Ok(found == [Some(63), Some(64), Some(128), None])
}
