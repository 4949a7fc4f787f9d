ghost use Rattle.std.specs.Prelude.{map, IfOk};
ghost use Rattle.std.specs.Arc.{arc_value};
ghost use Rattle.std.specs.List.{AllZip};
ghost use Rattle.search_tests.specs.Alike.{IsStoredAlike};

use crate::draws::Draws;
use seg_file::Segment;
use std::alloc::Global;
use std::sync::Arc;
use std::test::Fail;

/// Returns the segments with, if `thin`, about half of their records no longer live.
pub fn thinned(
    alloc: Global,
    draws: &mut Draws,
    segments: &[Arc<Segment>],
    thin: bool,
) -> Result<Vec<Arc<Segment>>, Fail>
    ensures { IfOk result (λ v. AllZip IsStoredAlike (map arc_value segments.now) (map arc_value v.items)) }
{
    let mut thinned = Vec::new(alloc);
    for segment in segments {
        let mut dead = Vec::new(alloc);
        for doc in 0..segment.docs() {
            if thin && draws.one_in_two() {
                dead.push(doc)?;
            }
        }
        thinned.push(Arc::new(alloc, segment.without(alloc, &dead)?)?)?;
    }
    Ok(thinned)
}
