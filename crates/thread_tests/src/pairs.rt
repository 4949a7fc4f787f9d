//! Passes that add documents and labels, and refresh.
ghost use Rattle.std.specs.Prelude.{◌≡◌, IfSome};
ghost use Rattle.pair_manager.specs.Passes.{IsOf};

use pair_fixture::{Begun, Opened, bare_entry, begin, label_of, name_of, open_labels};
use pair_manager::{Lease, Manager, Pass, release};
use seg_file::Segment;
use std::alloc::Global;
use std::marker::Brand;
use std::process::Abort;
use std::sync::{Arc, Wait};
use std::test::Fail;
use std::thread::{Threads, join};
use taxo_cache::Name;
use taxo_list::{Labelled, TaxoView};

// Returns the document's place, if it and its label could be added.
fn add<N: Name, R: Wait>(
    rt: &R,
    alloc: Global,
    manager: &Manager<N>,
    pass: &mut Pass,
    session: u32,
    number: u32,
) -> Option<u64>
    requires own { IsOf manager.now pass.old }
    ensures own { IsOf manager.now pass.new }
{
    let labels = vec![in alloc; label_of(alloc, session, number).ok()?].ok()?;
    manager.resolve_each(rt, pass, &labels).ok()?;
    let name = name_of(alloc, session, number).ok()?;
    let Ok(entry) = bare_entry(alloc, &name, "") else {
        return None;
    };
    manager.append(rt, pass, session, entry).ok()
}

// Adds a document with its label and refreshes, repeatedly. Returns the pass, if each place was at or above the refresh
// before it and below the refresh after it.
pub(crate) fn add_and_refresh<N: Name, R: Wait>(
    rt: &R,
    alloc: Global,
    manager: &Manager<N>,
    mut pass: Pass,
    session: u32,
    times: u32,
) -> Option<Pass>
    requires own { IsOf manager.now pass }
    ensures own { IfSome result (IsOf manager.now) }
{
    let mut last = 0;
    for number in 0..times {
        let at = add(rt, alloc, manager, &mut pass, session, number)?;
        let n = manager.refresh(rt, &mut pass).ok()?;
        if at < last || n <= at {
            return None;
        }
        last = n;
    }
    Some(pass)
}

// The numbers of a pair, and how many documents and labels of sessions 1 and 2 it has in the order in which they were
// added.
#[derive(Drop, Clone, Copy, Debug, PartialEq, Eq)]
pub(crate) struct Reading {
    pub(crate) operations: u64,
    pub(crate) labels: u32,
    pub(crate) documents: (u32, u32),
    pub(crate) named: (u32, u32),
}

// Returns the number of the session's next document, after those of the segment.
fn next_behind(alloc: Global, segment: &Segment, session: u32, first: u32) -> Option<u32> {
    let mut next = first;
    for doc in 0..segment.docs() {
        if *segment.id(doc) == *name_of(alloc, session, next).ok()? {
            next = next.saturating_add(1);
        }
    }
    Some(next)
}

fn documents_of(alloc: Global, segments: &[Arc<Segment>], session: u32) -> Option<u32> {
    let mut next = 0;
    for segment in segments {
        next = next_behind(alloc, segment, session, next)?;
    }
    Some(next)
}

fn labels_of(alloc: Global, view: &TaxoView, session: u32) -> Option<u32> {
    let mut next = 0;
    for ord in 1..view.size() {
        if *view.path_of(ord) == label_of(alloc, session, next).ok()? {
            next = next.saturating_add(1);
        }
    }
    Some(next)
}

pub(crate) fn read(alloc: Global, lease: &Lease) -> Option<Reading> {
    let pair = lease.pair();
    let segments = pair.segments().to_vec().ok()?;
    let view = pair.view();
    Some(Reading {
        operations: pair.operations(),
        labels: view.size(),
        documents: (
            documents_of(alloc, &segments, 1)?,
            documents_of(alloc, &segments, 2)?,
        ),
        named: (labels_of(alloc, view, 1)?, labels_of(alloc, view, 2)?),
    })
}

// Returns what the last pair has.
pub(crate) fn acquired<N: Name, R: Wait>(
    rt: &R,
    alloc: Global,
    manager: &Manager<N>,
    mut pass: Pass,
) -> Option<Reading>
    requires own { IsOf manager.now pass }
{
    let lease = manager.acquire(rt, &mut pass).ok()?;
    let reading = read(alloc, &lease);
    release(lease);
    reading
}

// Returns what the last pair has after two threads added and refreshed 20 times each.
fn last_of_both<N: Name + Send + Sync, R: Threads + Wait + Sync>(
    rt: &R,
    alloc: Global,
    opened: Opened,
) -> Option<Reading>
    requires { opened.labels ≡ N.labels }
{
    let Begun {
        manager,
        first,
        second,
    } = begin::<N, R>(rt, alloc, opened).ok()?;
    let (first, second) = join(
        rt,
        || -> Option<Pass>
            requires { IsOf manager first }
            ensures { IfSome result (IsOf manager) }
        { add_and_refresh(rt, alloc, &manager, first, 1, 20) },
        || -> Option<Pass>
            requires { IsOf manager second }
            ensures { IfSome result (IsOf manager) }
        { add_and_refresh(rt, alloc, &manager, second, 2, 20) },
    );
    second?;
    acquired(rt, alloc, &manager, first?)
}

fn added_beside<R: Threads + Wait + Sync>(rt: &R, alloc: Global) -> Option<Reading> {
    let opened = open_labels(alloc)?;
    last_of_both::<Brand, R>(rt, alloc, opened)
}

#[test]
fn the_last_pair_has_what_both_threads_added(rt: HostRuntime) -> Result<(), Fail> {
    let reading = Reading {
        operations: 40,
        labels: 42,
        documents: (20, 20),
        named: (20, 20),
    };
    assert!(rt; added_beside(&rt, rt.alloc()) == Some(reading));
    Ok(())
}
