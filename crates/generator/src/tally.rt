ghost use Rattle.std.specs.Prelude.{◌≡◌, ◌++◌, ◌∷◌, [], List, OnOk, option_map};
ghost use Rattle.facet_replies.specs.Replies.{Reply as Answer};
ghost use Rattle.facet_replies.specs.ReplyViews.{refusal_view, reply_view};
ghost use Rattle.facet_replies.specs.SummaryViews.{summary_view};
ghost use Rattle.generator.specs.Summaries.{is_no_memory, leaves_uncommitted, summary_of};
ghost use Rattle.generator.specs.Tallies.{IsTallyOf};

use facet_model::FacetAnswer;
use facet_names::NoMemory;
use facet_replies::{Refusal, Reply, Summary};
use std::alloc::Global;

/// How many documents and labels a pair has.
#[derive(Clone, Copy, Debug)]
struct Sizes {
    documents: u32,
    labels: u32,
}

/// How many documents a search found, and the answers to its asks.
#[derive(Debug, Drop)]
struct Counts {
    hit_count: u64,
    results: Vec<FacetAnswer>,
}

/// What the summary of replies needs, in place of their lines. It counts adds and uses no memory for them.
#[derive(Debug, Drop)]
pub struct Tally {
    added: u64,
    uncommitted: bool,
    starved: bool,
    sizes: Option<Sizes>,
    counts: Option<Counts>,
}

// Returns the tally of one reply.
fn tally_of(reply: Reply) -> Tally
    ensures { IsTallyOf (reply_view reply ∷ []) result }
{
    let mut tally = Tally::new();
    match reply {
        Reply::Placed { at: _ } => tally.added = 1,
        Reply::Number { n: _ } => {}
        Reply::Found {
            n: _,
            hit_count,
            hits: _,
            results,
        } => tally.counts = Some(Counts { hit_count, results }),
        Reply::Shown {
            n: _,
            at: _,
            doc: _,
            ordinals: _,
        } => {}
        Reply::Stats {
            n: _,
            labels,
            documents,
        } => tally.sizes = Some(Sizes { documents, labels }),
        Reply::Ranged {
            n: _,
            counts: _,
            valued: _,
        } => {}
        Reply::Summed { n: _, sums: _ } => {}
        Reply::Merged => {}
        Reply::Refused(refusal) => {
            tally.uncommitted = leaves_uncommitted(refusal);
            tally.starved = is_no_memory(refusal);
        }
    }
    tally
}

fn leaves_uncommitted(refusal: Refusal) -> bool
    ensures { result ≡ leaves_uncommitted (refusal_view refusal) }
{
    matches!(
        refusal,
        Refusal::Disk { .. } | Refusal::Closed { .. } | Refusal::NumbersSpent { .. }
    )
}

fn is_no_memory(refusal: Refusal) -> bool
    ensures { result ≡ is_no_memory (refusal_view refusal) }
{
    matches!(refusal, Refusal::NoMemory)
}

impl Tally {
    /// Returns the tally of no reply. It allocates nothing.
    pub fn new() -> Tally
        ensures { IsTallyOf [] result }
    {
        Tally {
            added: 0,
            uncommitted: false,
            starved: false,
            sizes: None,
            counts: None,
        }
    }

    /// Adds a reply after the others. It allocates nothing. Errors: `NoMemory` if the count of adds is at 2^64 - 1;
    /// then a part of the reply may have been added.
    pub fn add(&mut self, reply: Reply) -> Result<(), NoMemory>
        ensures { OnOk result ((replies : List Answer) → IsTallyOf replies self.old
            → IsTallyOf (replies ++ reply_view reply ∷ []) self.new) }
    {
        self.join(tally_of(reply))
    }

    /// Adds the replies of another tally after its own. It allocates nothing. Errors: `NoMemory` if the count of adds
    /// is at 2^64 - 1.
    pub fn join(&mut self, later: Tally) -> Result<(), NoMemory>
        ensures { OnOk result ((first second : List Answer) → IsTallyOf first self.old → IsTallyOf second later
            → IsTallyOf (first ++ second) self.new) }
    {
        let Some(added) = self.added.checked_add(later.added) else {
            return Err(NoMemory);
        };
        self.added = added;
        self.uncommitted = self.uncommitted | later.uncommitted;
        self.starved = self.starved | later.starved;
        self.sizes = self.sizes.or(later.sizes);
        self.counts = self.counts.take().or(later.counts);
        Ok(())
    }

    #[tactic(auto)]
    /// Returns the summary of the replies, or `None` if one of them was out of memory.
    pub fn summary(self, alloc: Global) -> Option<Summary>
        ensures { (replies : List Answer) → IsTallyOf replies self
            → option_map summary_view result ≡ summary_of replies }
    {
        if self.starved {
            return None;
        }
        let sizes = self.sizes.unwrap_or(Sizes {
            documents: 0,
            labels: 0,
        });
        let counts = self.counts.unwrap_or(Counts {
            hit_count: 0,
            results: Vec::new(alloc),
        });
        Some(Summary {
            added: self.added,
            committed: !self.uncommitted,
            documents: sizes.documents,
            hit_count: counts.hit_count,
            labels: sizes.labels,
            results: counts.results,
        })
    }
}
