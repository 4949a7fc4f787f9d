//! A lease that threads read while others publish.
ghost use Rattle.std.specs.Prelude.{◌≡◌, IfSome};
ghost use Rattle.pair_manager.specs.Passes.{IsOf};

use crate::pairs::{Reading, acquired, add_and_refresh, read};
use pair_fixture::{Begun, Opened, begin, open_labels};
use pair_manager::{Lease, Manager, Pass, release};
use std::alloc::Global;
use std::marker::Brand;
use std::process::Abort;
use std::sync::Wait;
use std::test::Fail;
use std::thread;
use std::thread::{Threads, join};
use std::time::{Clock, Duration};
use taxo_cache::Name;

// Returns what the lease has, if it has the same at each of 50 checks, a millisecond apart.
fn read_on<R: Clock>(rt: &R, alloc: Global, lease: &Lease) -> Option<Reading> {
    let first = read(alloc, lease)?;
    for _ in 0..50u32 {
        thread::sleep(rt, Duration::from_millis(1));
        if read(alloc, lease)? != first {
            return None;
        }
    }
    Some(first)
}

fn read_in_both<R: Threads + Clock + Sync>(
    rt: &R,
    alloc: Global,
    lease: &Lease,
) -> (Option<Reading>, Option<Reading>) {
    join(
        rt,
        || -> Option<Reading> { read_on(rt, alloc, lease) },
        || -> Option<Reading> { read_on(rt, alloc, lease) },
    )
}

// Returns what a lease has after the pass published, if two other threads read the same meanwhile.
fn read_beside<N: Name, R: Threads + Wait + Clock + Sync>(
    rt: &R,
    alloc: Global,
    manager: &Manager<N>,
    pass: Pass,
    lease: &Lease,
) -> Option<(Pass, Reading)>
    requires own { IsOf manager.now pass }
    ensures own { IfSome result (λ r. IsOf manager.now r.0) }
{
    let ((one, two), pass) = join(
        rt,
        || -> (Option<Reading>, Option<Reading>) { read_in_both(rt, alloc, lease) },
        || -> Option<Pass>
            requires { IsOf manager.now pass }
            ensures { IfSome result (IsOf manager.entry.now) }
        { add_and_refresh(rt, alloc, manager, pass, 2, 20) },
    );
    let pass = pass?;
    let leased = read(alloc, lease)?;
    if one == Some(leased) && two == Some(leased) {
        Some((pass, leased))
    } else {
        None
    }
}

// Returns what a lease of three documents has after 20 more were published, and what the last pair has then.
fn held_beside<N: Name, R: Threads + Wait + Clock + Sync>(
    rt: &R,
    alloc: Global,
    manager: &Manager<N>,
    first: Pass,
    second: Pass,
) -> Option<(Reading, Reading)>
    requires own { IsOf manager.now first × IsOf manager.now second }
{
    let mut first = add_and_refresh(rt, alloc, manager, first, 1, 3)?;
    let lease = manager.acquire(rt, &mut first).ok()?;
    let (pass, leased) = read_beside(rt, alloc, manager, second, &lease)?;
    let newer = acquired(rt, alloc, manager, pass)?;
    release(lease);
    Some((leased, newer))
}

fn held_opened<N: Name, R: Threads + Wait + Clock + Sync>(
    rt: &R,
    alloc: Global,
    opened: Opened,
) -> Option<(Reading, Reading)>
    requires { opened.labels ≡ N.labels }
{
    let Begun {
        manager,
        first,
        second,
    } = begin::<N, R>(rt, alloc, opened).ok()?;
    held_beside(rt, alloc, &manager, first, second)
}

fn read_while_published<R: Threads + Wait + Clock + Sync>(
    rt: &R,
    alloc: Global,
) -> Option<(Reading, Reading)> {
    let opened = open_labels(alloc)?;
    held_opened::<Brand, R>(rt, alloc, opened)
}

#[test]
fn a_lease_stays_as_it_is_while_another_thread_publishes(rt: HostRuntime) -> Result<(), Fail> {
    let leased = Reading {
        operations: 3,
        labels: 5,
        documents: (3, 0),
        named: (3, 0),
    };
    let newer = Reading {
        operations: 23,
        labels: 25,
        documents: (3, 20),
        named: (3, 20),
    };
    assert!(rt; read_while_published(&rt, rt.alloc()) == Some((leased, newer)));
    Ok(())
}
