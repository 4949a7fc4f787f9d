ghost use Rattle.std.specs.Prelude.{◌≡◌, ◌≤◌, map};
ghost use Rattle.std.specs.List.{AllByRecursion};
ghost use Rattle.seg_postings.specs.Rising.{IsRising, first_of};
ghost use Rattle.plan_places.specs.Planned.{moved_to, any_of};

use crate::node::PlanNode;
use seg_postings::least;

/// Returns the first place that any child has from `place` on. Each child passes the places before it.
#[cycle(at_least)]
pub(crate) fn any_at_least(children: &mut Vec<PlanNode<'_>>, place: u64) -> Option<u32>
    requires { place ≤ 4294967296 }
    ensures rising { AllByRecursion (λ p. IsRising p.left) children.old.items }
    ensures first { result ≡ first_of (any_of children.new.items) }
    ensures moved { children.new.items ≡ map (moved_to place) children.old.items }
{
    let mut first = None;
    for child in children.iter_mut() {
        first = least(first, child.at_least(place));
    }
    first
}
