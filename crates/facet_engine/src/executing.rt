ghost use Rattle.std.specs.Prelude.{◌≡◌};
ghost use Rattle.facet_config.specs.Faults.{fault_view};
ghost use Rattle.facet_output.specs.Replies.{broken, refused};
ghost use Rattle.facet_replies.specs.ReplyViews.{refusal_view, reply_view};
ghost use Rattle.facet_words.specs.CommandViews.{counted_view, search_view as line_view, command_view};
ghost use Rattle.facet_engine.specs.Calls.{IsCarriedOut};
ghost use Rattle.facet_names.specs.Texts.{text_in};
ghost use Rattle.facet_engine.specs.Replies.{add_reply, commit_reply, hold_reply, merge_reply, refresh_reply};
ghost use Rattle.facet_engine.specs.Replies.{release_reply, stats_reply};
ghost use Rattle.pair_search.specs.Replies.{document_reply, ranges_reply, search_reply, sums_reply};
ghost use Rattle.pair_search.specs.Searches.{search_view};
ghost use Rattle.facet_engine.specs.Systems.{BelongsTo};

use crate::holding::{HoldFault, NotHeld};
use crate::session::Session;
use crate::system::System;
use commit_store::CommitFault;
use commit_turns::Start;
use facet_adding::AddFault;
use facet_config::DocFault;
use facet_disk::Disk;
use facet_model::Word;
use facet_names::NoMemory;
use facet_replies::{Refusal, Reply};
use facet_words::{Command, CountedLine, SearchLine};
use pair_manager::Stats;
use pair_search::{
    DocumentFault, RangesAnswer, RangesFault, SearchAnswer, SearchFault, Shown, SumsAnswer,
    SumsFault,
};
use sideways::SearchAsk;
use std::sync::Wait;
use taxo_cache::Name;

fn refused(refusal: Refusal) -> Reply
    ensures { reply_view result ≡ refused (refusal_view refusal) }
{
    Reply::Refused(refusal)
}

fn broken(fault: DocFault) -> Refusal
    ensures { refusal_view result ≡ broken (fault_view fault) }
{
    match fault {
        DocFault::NoComponent { facet } => Refusal::NoComponent { facet },
        DocFault::NotHierarchical { facet, len } => Refusal::NotHierarchical { facet, len },
        DocFault::NotMultiValued { facet } => Refusal::NotMultiValued { facet },
    }
}

fn added(of: Result<u64, AddFault>) -> Reply
    ensures { reply_view result ≡ add_reply of }
{
    match of {
        Ok(at) => Reply::Placed { at },
        Err(AddFault::Broken { fault }) => refused(broken(fault)),
        Err(AddFault::LabelsFull { size }) => refused(Refusal::LabelsFull { size }),
        Err(AddFault::DocsFull { count }) => refused(Refusal::DocsFull { count }),
        Err(AddFault::NoMemory) => refused(Refusal::NoMemory),
    }
}

fn refreshed(of: Result<u64, NoMemory>) -> Reply
    ensures { reply_view result ≡ refresh_reply of }
{
    match of {
        Ok(n) => Reply::Number { n },
        Err(NoMemory) => refused(Refusal::NoMemory),
    }
}

fn held(of: Result<u64, HoldFault>) -> Reply
    ensures { reply_view result ≡ hold_reply of }
{
    match of {
        Ok(n) => Reply::Number { n },
        Err(HoldFault::HeldAlready) => refused(Refusal::HeldAlready),
        Err(HoldFault::NoMemory) => refused(Refusal::NoMemory),
    }
}

fn released(of: Result<u64, NotHeld>) -> Reply
    ensures { reply_view result ≡ release_reply of }
{
    match of {
        Ok(n) => Reply::Number { n },
        Err(NotHeld) => refused(Refusal::NotHeld),
    }
}

fn found(of: Result<SearchAnswer, SearchFault>) -> Reply
    ensures { reply_view result ≡ search_reply of }
{
    match of {
        Ok(answer) => Reply::Found {
            n: answer.operations,
            hit_count: answer.hit_count,
            hits: answer.hits,
            results: answer.answers,
        },
        Err(SearchFault::NotHeld) => refused(Refusal::NotHeld),
        Err(SearchFault::TopZero { ask }) => refused(Refusal::TopZero { ask }),
        Err(SearchFault::DimValueNotKept { ask }) => refused(Refusal::DimValueNotKept { ask }),
        Err(SearchFault::NoMemory) => refused(Refusal::NoMemory),
    }
}

fn ranged(of: Result<RangesAnswer, RangesFault>) -> Reply
    ensures { reply_view result ≡ ranges_reply of }
{
    match of {
        Ok(answer) => Reply::Ranged {
            n: answer.operations,
            counts: answer.counts,
            valued: answer.valued,
        },
        Err(RangesFault::NotHeld) => refused(Refusal::NotHeld),
        Err(RangesFault::NoMemory) => refused(Refusal::NoMemory),
    }
}

fn summed(of: Result<SumsAnswer, SumsFault>) -> Reply
    ensures { reply_view result ≡ sums_reply of }
{
    match of {
        Ok(answer) => Reply::Summed {
            n: answer.operations,
            sums: answer.sums,
        },
        Err(SumsFault::NotHeld) => refused(Refusal::NotHeld),
        Err(SumsFault::TopZero) => refused(Refusal::TopZero { ask: 0 }),
        Err(SumsFault::NoMemory) => refused(Refusal::NoMemory),
    }
}

fn shown(at: u32, of: Result<Shown, DocumentFault>) -> Reply
    ensures { reply_view result ≡ document_reply at of }
{
    match of {
        Ok(shown) => Reply::Shown {
            n: shown.operations,
            at,
            doc: shown.doc,
            ordinals: shown.ordinals,
        },
        Err(DocumentFault::NotHeld) => refused(Refusal::NotHeld),
        Err(DocumentFault::NoSuchDocument { count }) => refused(Refusal::NoSuchDocument { count }),
        Err(DocumentFault::NoMemory) => refused(Refusal::NoMemory),
    }
}

fn counted(of: Result<Stats, NotHeld>) -> Reply
    ensures { reply_view result ≡ stats_reply of }
{
    match of {
        Ok(stats) => Reply::Stats {
            n: stats.operations,
            labels: stats.labels,
            documents: stats.documents,
        },
        Err(NotHeld) => refused(Refusal::NotHeld),
    }
}

fn committed(of: Result<u64, CommitFault>) -> Reply
    ensures { reply_view result ≡ commit_reply of }
{
    match of {
        Ok(n) => Reply::Number { n },
        Err(CommitFault::Disk { count }) => refused(Refusal::Disk { count }),
        Err(CommitFault::Closed { count }) => refused(Refusal::Closed { count }),
        Err(CommitFault::NoMemory) => refused(Refusal::NoMemory),
        Err(CommitFault::NumbersSpent { number }) => refused(Refusal::NumbersSpent { number }),
    }
}

fn merged(of: Result<(), NoMemory>) -> Reply
    ensures { reply_view result ≡ merge_reply of }
{
    match of {
        Ok(()) => Reply::Merged,
        Err(NoMemory) => refused(Refusal::NoMemory),
    }
}

fn text_of(name: &Option<Word>) -> Option<&str>
    ensures { text_in result ≡ name.now }
{
    match name {
        Some(name) => Some(name.text()),
        None => None,
    }
}

// What a search's line asks.
fn ask_of(line: SearchLine) -> SearchAsk
    ensures { search_view result ≡ line_view line }
{
    SearchAsk {
        query: line.query,
        drill: line.drill,
        asks: line.asks,
        newest: line.newest,
        show: line.show,
        from: line.from,
        hits: line.hits,
        sideways: line.sideways,
    }
}

/// Carries out one command of a session and returns the reply. Costs, locks and errors are those of the command's call
/// of [`System`]; an error is the reply `Refused`.
pub fn execute<D: Disk, N: Name + Start, R: Wait>(
    rt: &R,
    system: &System<D, N>,
    session: &mut Session,
    command: Command,
) -> Reply
    requires own { BelongsTo system.now session.old.pass }
    ensures { IsCarriedOut system.now session.old session.new (command_view command) (reply_view result) }
{
    match command {
        Command::Add { doc } => added(system.add(rt, session, doc)),
        Command::Refresh => refreshed(system.refresh(rt, session)),
        Command::Hold { name } => held(system.hold(rt, session, name.text())),
        Command::Release { name } => released(system.release(session, name.text())),
        Command::Search { on, line } => {
            let ask = ask_of(Box::into_inner(line));
            found(system.search(rt, session, text_of(&on), &ask))
        }
        Command::Ranges { on, line, ranges } => {
            let line = Box::into_inner(line);
            ranged(system.ranges(
                rt,
                session,
                text_of(&on),
                &line.query,
                &line.drill,
                line.dim.text(),
                &ranges,
            ))
        }
        Command::Sums { on, line, n } => {
            let line = Box::into_inner(line);
            summed(system.sums(
                rt,
                session,
                text_of(&on),
                &line.query,
                &line.drill,
                line.dim.text(),
                n,
            ))
        }
        Command::Document { on, at } => shown(at, system.document(rt, session, text_of(&on), at)),
        Command::Stats { on } => counted(system.stats(rt, session, text_of(&on))),
        Command::Commit => committed(system.commit(rt, session)),
        Command::Merge => merged(system.merge(rt, session)),
    }
}
