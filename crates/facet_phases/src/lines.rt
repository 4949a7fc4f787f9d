ghost use Rattle.std.specs.Prelude.{◌≡◌};

use crate::collector::{Collector, Output};
use facet_io::{Failed, Sink, write_all};
use facet_names::NoMemory;
use facet_replies::{Reply, write_reply};
use std::alloc::Global;

/// The lines of replies, which a session of a script keeps until a sink takes them.
#[derive(Drop)]
pub struct Lines {
    bytes: Vec<u8>,
}

impl Lines {
    /// Returns the lines.
    pub fn bytes(&self) -> &[u8]
        ensures { result.now ≡ self.now.bytes.items }
    {
        &self.bytes
    }
}

impl Collector for Lines {
    ghost use Rattle.std.specs.Prelude.{◌≡◌};
    ghost use Rattle.facet_output.specs.OutputLines.{reply_lines};

    ghost holds = { λ answered l. l.bytes.items ≡ reply_lines answered };

    fn new(alloc: Global) -> Lines {
        Lines {
            bytes: Vec::new(alloc),
        }
    }

    fn add(
        &mut self,
        alloc: Global,
        session: u32,
        line: u64,
        reply: Reply,
    ) -> Result<(), NoMemory> {
        write_reply(alloc, &mut self.bytes, session, line, &reply)
    }
}

impl<K: Sink> Output<Lines> for K {
    ghost use Rattle.facet_output.specs.OutputLines.{reply_lines};
    ghost use Rattle.facet_phases.specs.Moments.{Writes, WritesSome, moment};
    ghost use Rattle.facet_phases.specs.Flushing.{writes_none, writes_then, some_then};

    ghost flushes = { λ before now answered.
        Writes (moment (K.faults before) (K.written before)) (moment (K.faults now) (K.written now))
        (reply_lines answered) };

    ghost breaks = { λ before now answered.
        WritesSome (moment (K.faults before) (K.written before)) (moment (K.faults now) (K.written now))
        (reply_lines answered) };

    fn take(&mut self, replies: &mut Lines) -> Result<(), Failed> {
        write_all(self, &replies.bytes)
    }

    ghost flushes_none = { λ o. writes_none (moment (K.faults o) (K.written o)) };

    ghost flushes_then = { λ a b c.
        writes_then (moment (K.faults a) (K.written a)) (moment (K.faults b) (K.written b))
        (moment (K.faults c) (K.written c)) };

    ghost breaks_then = { λ a b c.
        some_then (moment (K.faults a) (K.written a)) (moment (K.faults b) (K.written b))
        (moment (K.faults c) (K.written c)) };
}
