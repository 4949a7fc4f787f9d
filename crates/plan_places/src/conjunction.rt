ghost use Rattle.std.specs.Prelude.{◌≡◌, ◌≤◌, IfSome};
ghost use Rattle.seg_postings.specs.Rising.{IsRising, first_of, from_place};
ghost use Rattle.plan_places.specs.Planned.{all_have, is_chosen};
ghost use Rattle.plan_places.specs.Nodes.{conjunction_left};
ghost use Rattle.plan_places.specs.Steps.{AreSameFrom, IsMeeting, IsMoved};

use crate::node::PlanNode;
use crate::union::any_at_least;

/// The places that the lead and all others have and that no excluded node has. The lead is asked first, and the others
/// about as often.
#[derive(Drop)]
#[cycle(node)]
pub(crate) struct Conjunction<'a> {
    pub(crate) lead: Box<PlanNode<'a>>,
    pub(crate) others: Vec<PlanNode<'a>>,
    pub(crate) excluded: Vec<PlanNode<'a>>,
}

impl<'a> Conjunction<'a> {
    /// Returns the first place left that is at least `place`, or `None`. The places before it are passed; it is not.
    #[cycle(at_least)]
    pub(crate) fn at_least(&mut self, place: u64) -> Option<u32>
        requires { place ≤ 4294967296 }
        ensures rising { IsRising (conjunction_left self.old) }
        ensures first { result ≡ first_of (conjunction_left self.new) }
        ensures moved { IsMoved place self.new self.old }
    {
        let mut first = self.lead.at_least(place)?;
        loop {
            let next = chosen(&mut self.others, &mut self.excluded, first)?;
            if next == first as u64 {
                return Some(first);
            }
            first = self.lead.at_least(next)?;
        }
    }
}

// Returns where the search continues from `first`: there, if all others have that place and no excluded node has it;
// otherwise after it.
#[cycle(at_least)]
fn chosen(
    others: &mut Vec<PlanNode<'_>>,
    excluded: &mut Vec<PlanNode<'_>>,
    first: u32,
) -> Option<u64>
    ensures others { AreSameFrom first others.new.items others.old.items }
    ensures excluded { AreSameFrom first excluded.new.items excluded.old.items }
    ensures next { IsMeeting (is_chosen others.old.items excluded.old.items) first result }
    ensures fits { IfSome result (λ next. next ≤ 4294967296) }
{
    let next = meeting(others, first)?;
    if next > first {
        return Some(next as u64);
    }
    if any_at_least(excluded, first as u64) == Some(first) {
        return Some(first as u64 + 1);
    }
    Some(first as u64)
}

// Returns the first place from `first` on of an other that does not have `first`, or `first` if all have it.
#[cycle(at_least)]
fn meeting(others: &mut Vec<PlanNode<'_>>, first: u32) -> Option<u32>
    ensures others { AreSameFrom first others.new.items others.old.items }
    ensures next { IsMeeting (λ n. all_have n others.old.items) first result }
{
    for other in others.iter_mut() {
        let next = other.at_least(first as u64)?;
        if next != first {
            return Some(next);
        }
    }
    Some(first)
}
