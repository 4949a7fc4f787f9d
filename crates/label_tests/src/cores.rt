use crate::making::{document, path};
use facet_core::{Core, Event, Publication, run, step};
use facet_model::Change;
use std::alloc::Global;
use std::test::Fail;

fn label(alloc: Global, text: &str) -> Result<Event, Fail> {
    let path = path(alloc, text)?;
    Ok(Event::Label { session: 1, path })
}

fn append(alloc: Global, id: &str, text: &str) -> Result<Event, Fail> {
    let doc = document(alloc, id, &[text])?;
    Ok(Event::Append {
        session: 1,
        change: Change::Add(doc),
    })
}

/// Returns the events that add a document with one label: the label's parent, the label and the document.
fn added(alloc: Global, id: &str, text: &str) -> Result<Vec<Event>, Fail> {
    let mut events = Vec::new(alloc);
    events.push(label(alloc, "Author")?)?;
    events.push(label(alloc, text)?)?;
    events.push(append(alloc, id, text)?)?;
    Ok(events)
}

fn add(alloc: Global, core: &mut Core, id: &str, text: &str) -> Result<(), Fail> {
    let events = added(alloc, id, text)?;
    Ok(run(alloc, core, &events)?)
}

fn commit(alloc: Global, core: &mut Core, calls: u32) -> Result<(), Fail> {
    step(alloc, core, &Event::BeginCommit { session: 1 })?;
    for _ in 0..calls {
        step(alloc, core, &Event::Device { done: true })?;
    }
    Ok(())
}

/// Commits one document, and begins to commit a second, with this many disk calls done.
fn committing(alloc: Global, core: &mut Core, calls: u32) -> Result<(), Fail> {
    add(alloc, core, "b1", "Author/Bob")?;
    commit(alloc, core, 12)?;
    add(alloc, core, "b2", "Author/Lisa")?;
    commit(alloc, core, calls)
}

fn shown(core: &Core) -> (u64, u64) {
    (core.labels(), core.operations())
}

// How many disk calls of the second commit are done, whether one more fails, the choice of the crash, and the numbers
// of labels and operations afterwards.
type Crash = (u32, bool, u32, (u64, u64));

const CRASHES: &[Crash] = &[
    (0, false, 0, (3, 1)),
    (0, false, 1, (4, 2)),
    (1, false, 0, (3, 1)),
    (2, false, 0, (3, 1)),
    (3, false, 0, (3, 1)),
    (4, false, 0, (3, 1)),
    (5, false, 0, (3, 1)),
    (6, false, 0, (3, 1)),
    (7, false, 0, (3, 1)),
    (8, false, 0, (3, 1)),
    (8, false, 1, (4, 2)),
    (9, false, 0, (3, 1)),
    (9, false, 1, (4, 1)),
    (9, false, 2, (4, 2)),
    (10, false, 0, (4, 1)),
    (10, false, 1, (4, 2)),
    (11, false, 0, (4, 1)),
    (11, false, 1, (4, 2)),
    (11, false, 2, (4, 2)),
    (12, false, 0, (4, 2)),
    (0, true, 0, (3, 1)),
    (0, true, 1, (4, 2)),
    (7, true, 1, (4, 2)),
    (8, true, 0, (3, 1)),
    (8, true, 1, (4, 1)),
    (9, true, 0, (3, 1)),
    (9, true, 1, (4, 1)),
    (10, true, 0, (4, 1)),
    (10, true, 1, (4, 2)),
    (11, true, 0, (4, 1)),
    (11, true, 1, (4, 2)),
];

// Fails a disk call, after which no other commit begins.
fn fail(alloc: Global, core: &mut Core) -> Result<(), Fail> {
    step(alloc, core, &Event::Device { done: false })?;
    commit(alloc, core, 12)
}

fn crash(alloc: Global, core: &mut Core, crash: &Crash) -> Result<(), Fail> {
    let (calls, fails, keep, _) = *crash;
    committing(alloc, core, calls)?;
    if fails {
        fail(alloc, core)?;
    }
    Ok(step(alloc, core, &Event::Crash { keep })?)
}

// Returns the core after the crash.
fn crashed(alloc: Global, row: &Crash) -> Result<Core, Fail> {
    let mut core = Core::new(alloc)?;
    crash(alloc, &mut core, row)?;
    Ok(core)
}

fn are_left(alloc: Global) -> Result<bool, Fail> {
    for row in CRASHES {
        if shown(&crashed(alloc, row)?) != row.3 {
            return Ok(false);
        }
    }
    Ok(true)
}

// What is published after a crash that kept the pair of one operation and four labels.
const KEPT: &[Publication] = &[Publication {
    operations: 1,
    labels: 4,
}];

fn is_published(alloc: Global) -> Result<bool, Fail> {
    let core = crashed(alloc, &(10, false, 0, (4, 1)))?;
    Ok(core.publications() == KEPT)
}

#[test]
fn crashes_of_a_commit(rt: HostRuntime) -> Result<(), Fail> {
    let alloc = rt.alloc();
    assert!(rt; are_left(alloc)? && is_published(alloc)?);
    Ok(())
}

fn publish(alloc: Global, core: &mut Core, session: u32) -> Result<(), Fail> {
    let events = [
        Event::DropRefresh { session: 2 },
        Event::TakeLabels { session },
        Event::Publish { session },
    ];
    Ok(run(alloc, core, &events)?)
}

// Refreshes between two documents, first taking the index, or the labels, for which it is too early; then publishes.
// Steps of other sessions change nothing.
fn refresh(alloc: Global, core: &mut Core, first: &Event) -> Result<(), Fail> {
    add(alloc, core, "b1", "Author/Bob")?;
    step(alloc, core, &Event::TakeLabels { session: 1 })?;
    step(alloc, core, first)?;
    add(alloc, core, "b2", "Author/Lisa")?;
    publish(alloc, core, 2)?;
    publish(alloc, core, 1)
}

const NONE: Publication = Publication {
    operations: 0,
    labels: 1,
};

const ONE: Publication = Publication {
    operations: 1,
    labels: 4,
};

fn has_published(alloc: Global, first: &Event, expected: &[Publication]) -> Result<bool, Fail> {
    let mut core = Core::new(alloc)?;
    refresh(alloc, &mut core, first)?;
    Ok(core.publications() == expected)
}

// A label without its parent, a document without its label, and the end of a commit that did not begin.
fn none_is_possible(alloc: Global) -> Result<bool, Fail> {
    let mut core = Core::new(alloc)?;
    step(alloc, &mut core, &label(alloc, "Author/Bob")?)?;
    step(alloc, &mut core, &append(alloc, "b1", "Author")?)?;
    step(alloc, &mut core, &Event::DropCommit)?;
    Ok(shown(&core) == (1, 0))
}

#[test]
fn refreshes_and_impossible_events(rt: HostRuntime) -> Result<(), Fail> {
    let alloc = rt.alloc();
    let index = has_published(alloc, &Event::TakeIndex { session: 1 }, &[NONE, ONE])?;
    let labels = has_published(alloc, &Event::TakeLabels { session: 1 }, &[NONE])?;
    assert!(rt; index && labels && none_is_possible(alloc)?);
    Ok(())
}
