ghost use Rattle.std.specs.Prelude.{List, OnOk, OnErr, IsOk, IsTrue, ◌↔◌, All};
ghost use Rattle.facet_output.specs.Answered.{Answered};
ghost use Rattle.facet_phases.specs.Lanes.{Each, IsFlushed, KeepAll, KeepsOf};

use crate::collector::{Collector, Output};
use crate::lane::Lane;
use facet_io::Failed;

/// Returns whether each session has kept the replies to all its commands.
pub(crate) fn are_whole<C>(lanes: &[Lane<C>]) -> bool
    ensures { IsTrue result ↔ All (λ l. IsOk l.replies) lanes.now }
{
    lanes.iter().all(|lane| lane.replies.is_ok())
}

// Hands over what a session keeps.
fn flush_lane<O: Output<C>, C: Collector>(out: &mut O, lane: &mut Lane<C>) -> Result<(), Failed>
    ensures ok { OnOk result ((answered : List Answered) → KeepsOf C.holds answered lane.old.replies
        → O.flushes out.old out.new answered) }
    ensures failed { OnErr result
        ((answered : List Answered) → KeepsOf C.holds answered lane.old.replies → O.breaks out.old out.new answered) }
    ensures flushed { IsFlushed lane.old lane.new }
{
    match &mut lane.replies {
        Ok(replies) => out.take(replies),
        Err(_) => Ok(()),
    }
}

/// Hands over what all sessions keep, the first session first. It stops at the first failure.
pub(crate) fn flush_all<O: Output<C>, C: Collector>(
    out: &mut O,
    lanes: &mut [Lane<C>],
) -> Result<(), Failed>
    ensures ok { OnOk result ((answered : List Answered) → KeepAll C.holds lanes.old answered
        → O.flushes out.old out.new answered) }
    ensures failed { OnErr result
        ((answered : List Answered) → KeepAll C.holds lanes.old answered → O.breaks out.old out.new answered) }
    ensures flushed { Each IsFlushed lanes.old lanes.new }
{
    for lane in lanes.iter_mut() {
        flush_lane(out, lane)?;
    }
    Ok(())
}
