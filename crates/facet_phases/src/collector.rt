ghost use Rattle.std.specs.Prelude.{◌≡◌, ◌++◌, ◌∷◌, [], List, OnOk, OnErr};
ghost use Rattle.facet_output.specs.Answered.{Answered};
ghost use Rattle.facet_replies.specs.ReplyViews.{reply_view};

use facet_io::Failed;
use facet_names::NoMemory;
use facet_replies::Reply;
use std::alloc::Global;

/// What a session keeps of its replies in a phase.
pub trait Collector: Send + Drop {
    /// It holds what is kept of these replies, which were given one after the other.
    ghost holds: { List Answered → Self → Type 0 };

    /// Returns a collector that holds nothing. It allocates nothing.
    fn new(alloc: Global) -> Self
        ensures { holds [] result };

    /// Keeps what is needed of one more reply, and drops the reply.
    ///
    /// Errors: out of memory. What the collector holds afterwards is not specified.
    fn add(&mut self, alloc: Global, session: u32, line: u64, reply: Reply) -> Result<(), NoMemory>
        ensures { OnOk result ((answered : List Answered) (a : Answered) → holds answered self.old
            → a.order.session ≡ session → a.order.line ≡ line
            → a.reply ≡ reply_view reply → holds (answered ++ a ∷ []) self.new) };
}

/// Receives what the sessions kept in a phase, after each phase.
pub trait Output<C: Collector> {
    /// Between two moments it received all of these.
    ghost flushes: { Self → Self → List Answered → Type 0 };

    /// Between two moments, handing these over failed.
    ghost breaks: { Self → Self → List Answered → Type 0 };

    /// Takes everything that was kept. What `replies` holds afterwards is not specified.
    ///
    /// Errors: `Failed` as the implementation defines it, for example if a write failed.
    fn take(&mut self, replies: &mut C) -> Result<(), Failed>
        ensures ok { OnOk result ((answered : List Answered) → C.holds answered replies.old
            → flushes self.old self.new answered) }
        ensures failed { OnErr result
            ((answered : List Answered) → C.holds answered replies.old → breaks self.old self.new answered) };

    /// If nothing is handed over, it is as before.
    ghost flushes_none: { (o : Self) → flushes o o [] };

    /// What is handed over comes after what was handed over before.
    ghost flushes_then: { (a b c : Self) (xs ys : List Answered) → flushes a b xs → flushes b c ys
        → flushes a c (xs ++ ys) };

    /// If handing over fails after some replies, it fails for all of them, whatever comes later.
    ghost breaks_then: { (a b c : Self) (xs ys zs : List Answered) → flushes a b xs → breaks b c ys
        → breaks a c (xs ++ (ys ++ zs)) };
}
