use crate::making::{sought, spelled};
use seg_postings::{Places, Postings};
use std::alloc::Global;
use std::test::Fail;

// Each place to seek among 0, 3, 6 up to 2,997, and the result.
const FAR: &[(u32, Option<u32>)] = &[
    (0, Some(0)),
    (0, Some(3)),
    (5, Some(6)),
    (2000, Some(2001)),
    (1, Some(2004)),
    (2996, Some(2997)),
    (0, None),
];

fn are_sought(postings: &Postings) -> bool {
    let mut cursor = postings.cursor();
    for (place, want) in FAR {
        if cursor.seek(*place) != *want {
            return false;
        }
    }
    sought(postings.cursor(), 2998) == (None, None)
}

fn far(alloc: Global) -> Result<Vec<u32>, Fail> {
    let mut places = Vec::new(alloc);
    for place in (0..3000u32).step_by(3) {
        places.push(place)?;
    }
    Ok(places)
}

/// Returns whether a cursor over a thousand places finds the next ones that are asked for, near and far.
pub fn far_ahead_are_sought(alloc: Global) -> Result<bool, Fail> {
    let bytes = spelled(alloc, &far(alloc)?)?;
    let postings = Postings::new(&bytes);
    Ok(postings.len() == 1000 && are_sought(&postings))
}
