ghost use Rattle.merge_policy.specs.Laws.{TieredAreFew, TieredAreAtMost49, KeptIsTiered, MovedSeldom, WorkIsBounded};
ghost use Rattle.merge_policy.specs.Laws.{NoneIsLost, FollowsPolicy};

/// States that tiered segments are few: at most one more than the logarithm to the base 4/3 of the number of documents,
/// so at most 49 for a million.
pub fn tiered_are_few()
    ensures few { TieredAreFew }
    ensures most { TieredAreAtMost49 }
{}

/// States what the policy guarantees if it is applied after each new segment. The segments stay tiered, and no document
/// is lost. A document is moved at most once more than the logarithm to the base 4/3 of its segment's size, and these
/// numbers bound all that was moved.
pub fn moved_seldom()
    ensures policy { FollowsPolicy }
    ensures tiered { KeptIsTiered }
    ensures seldom { MovedSeldom }
    ensures work { WorkIsBounded }
    ensures all { NoneIsLost }
{}
