use facet_io::Failed;
use facet_names::NoMemory;
use facet_phases::{Collector, Output};
use facet_replies::Reply;
use generator::Tally;
use std::alloc::Global;
use std::mem;

/// What a session keeps of its replies if documents are generated: what their summary needs.
#[derive(Drop)]
pub(crate) struct Counted {
    tally: Tally,
}

impl Collector for Counted {
    ghost use Rattle.generator.specs.Tallies.{IsTallyOf};
    ghost use Rattle.facet_serving.specs.Alike.{replies_of};

    ghost holds = { λ answered c. IsTallyOf (replies_of answered) c.tally };

    fn new(_alloc: Global) -> Counted {
        Counted {
            tally: Tally::new(),
        }
    }

    fn add(
        &mut self,
        _alloc: Global,
        _session: u32,
        _line: u64,
        reply: Reply,
    ) -> Result<(), NoMemory> {
        self.tally.add(reply)
    }
}

impl Output<Counted> for Tally {
    ghost use Rattle.facet_serving.specs.Counting.{GoesOn, goes_on_none, goes_on_then};

    ghost flushes = { GoesOn };

    ghost breaks = { λ before now answered. Unit {0} };

    fn take(&mut self, replies: &mut Counted) -> Result<(), Failed> {
        let tally = mem::replace(&mut replies.tally, Tally::new());
        match self.join(tally) {
            Ok(()) => Ok(()),
            Err(NoMemory) => Err(Failed),
        }
    }

    ghost flushes_none = { goes_on_none };

    ghost flushes_then = { goes_on_then };

    ghost breaks_then = { λ a b c xs ys zs p q. tt };
}
