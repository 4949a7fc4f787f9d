use facet_io::Failed;
use facet_phases::{Lines, Output};
use live_io::{Duplex, put_all};

/// The output of a live process: its input and output, to which the replies are put. Nothing is flushed here: that is
/// done before the next read call.
#[derive(Drop)]
pub struct Answering<X: Duplex> {
    pub io: X,
}

impl<X: Duplex> Output<Lines> for Answering<X> {
    ghost use Rattle.facet_output.specs.OutputLines.{reply_lines};
    ghost use Rattle.live_serving.specs.Answering.{Puts, PutsSome, puts_none, puts_then, some_then};

    ghost flushes = { λ before now answered. Puts X.Duplex before.io now.io (reply_lines answered) };

    ghost breaks = { λ before now answered. PutsSome X.Duplex before.io now.io (reply_lines answered) };

    fn take(&mut self, replies: &mut Lines) -> Result<(), Failed> {
        put_all(&mut self.io, replies.bytes())
    }

    ghost flushes_none = { λ o. puts_none X.Duplex o.io };

    ghost flushes_then = { λ a b c. puts_then X.Duplex a.io b.io c.io };

    ghost breaks_then = { λ a b c. some_then X.Duplex a.io b.io c.io };
}
