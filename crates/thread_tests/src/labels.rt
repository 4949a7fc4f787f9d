ghost use Rattle.std.specs.Prelude.{◌≡◌, true, false};
ghost use Rattle.chronicle.specs.Frame.{empty_frame};
ghost use Rattle.chronicle.specs.Shown.{MayGive, MayTake};
ghost use Rattle.taxo_cache.specs.Seen.{labels_of, SeesLabels};

use chronicle::Token;
use facet_names::Path;
use pair_fixture::{Opened, open_labels};
use std::alloc::Global;
use std::marker::Brand;
use std::process::Abort;
use std::sync::Wait;
use std::sync::atomic::{AtomicBool, Ordering};
use std::test::Fail;
use std::thread;
use std::thread::{Threads, join};
use std::time::{Clock, Duration};
use taxo_cache::Name;
use taxo_writer::{LabelList, TaxoWriter};

// Returns the ordinal of the first path, which is resolved as an add resolves the labels of its document.
fn ordinal_of<N: Name, R: Wait>(
    rt: &R,
    writer: &TaxoWriter<N>,
    token: &mut Token<Path>,
    paths: &[Path],
) -> Option<u32>
    requires own { token.old.identity ≡ writer.now.labels }
    requires rests { MayTake token.old × SeesLabels token.old }
    ensures own { token.new.identity ≡ writer.now.labels }
    ensures rests { MayTake token.new × SeesLabels token.new }
    ensures frame { token.new.frame ≡ token.old.frame }
{
    let resolved = writer.resolve_each(rt, token, paths).ok()?;
    resolved.first()?.prefixes().last().copied()
}

// Returns the ordinals of two paths and of the first one again, each resolved in a list of its own, with this many
// stripes of this capacity.
fn ordinals_of<N: Name, R: Wait>(
    rt: &R,
    alloc: Global,
    opened: Opened,
    room: (u32, u32),
    one: &[Path],
    two: &[Path],
) -> Option<(u32, u32, u32)>
    requires { opened.labels ≡ N.labels }
{
    let Opened {
        keys,
        labels,
        mut first,
    } = opened;
    let (stripes, cache) = room;
    if stripes == 0 || cache == 0 {
        return None;
    }
    let writer = TaxoWriter::<N>::open(
        alloc, keys, labels, &mut first, stripes, cache, 1_000_000,
    ).ok()?;
    let before = ordinal_of(rt, &writer, &mut first, one)?;
    let beside = ordinal_of(rt, &writer, &mut first, two)?;
    let after = ordinal_of(rt, &writer, &mut first, one)?;
    Some((before, beside, after))
}

// Returns whether the flag is set at one of 10,000 checks, a millisecond apart.
fn comes_up<R: Clock>(rt: &R, flag: &AtomicBool) -> bool {
    for _ in 0..10_000u32 {
        if flag.load(Ordering::SeqCst) {
            return true;
        }
        thread::sleep(rt, Duration::from_millis(1));
    }
    false
}

// Releases the lock once the flag is set, or after all checks. Returns whether it was set.
fn hold<N: Name, R: Clock>(
    rt: &R,
    writer: &TaxoWriter<N>,
    mut holder: Token<Path>,
    list: LabelList,
    answered: &AtomicBool,
) -> bool
    requires own { holder.identity ≡ writer.now.labels }
    requires turn { MayGive holder }
    requires list { list ≡ labels_of holder.seen }
    requires frame { holder.frame ≡ empty_frame }
{
    let was_up = comes_up(rt, answered);
    writer.labels().give(&mut holder, list);
    was_up
}

// Returns the path's ordinal, and sets the flag.
fn resolve_again<N: Name, R: Wait>(
    rt: &R,
    writer: &TaxoWriter<N>,
    mut token: Token<Path>,
    paths: &[Path],
    answered: &AtomicBool,
) -> Option<u32>
    requires own { token.identity ≡ writer.now.labels }
    requires rests { MayTake token × SeesLabels token }
{
    let ordinal = ordinal_of(rt, writer, &mut token, paths);
    answered.store(true, Ordering::SeqCst);
    ordinal
}

// Returns the ordinal of a path that was resolved before, if another thread resolves it while this one holds the lock
// of the labels.
fn known_beside<N: Name + Send + Sync, R: Threads + Wait + Clock + Sync>(
    rt: &R,
    alloc: Global,
    opened: Opened,
    paths: &[Path],
) -> Option<u32>
    requires { opened.labels ≡ N.labels }
{
    let Opened {
        keys,
        labels,
        mut first,
    } = opened;
    let writer = TaxoWriter::<N>::open(alloc, keys, labels, &mut first, 16, 4096, 1_000_000).ok()?;
    let second = writer.token(&mut first);
    ordinal_of(rt, &writer, &mut first, paths)?;
    let answered = AtomicBool::new(false);
    let list = writer.labels().take(rt, &mut first);
    let (in_turn, ordinal) = join(
        rt,
        || -> bool
            requires { (first.identity ≡ writer.labels) × MayGive first × (list ≡ labels_of first.seen)
                × (first.frame ≡ empty_frame) }
        { hold(rt, &writer, first, list, &answered) },
        || -> Option<u32>
            requires { (second.identity ≡ writer.labels) × MayTake second × SeesLabels second }
        { resolve_again(rt, &writer, second, paths, &answered) },
    );
    if in_turn { ordinal } else { None }
}

fn in_room_for<R: Wait>(rt: &R, alloc: Global, room: (u32, u32)) -> Option<(u32, u32, u32)> {
    let one = [Path::of(alloc, &["Author", "Bob"]).ok()?];
    let two = [Path::of(alloc, &["Year", "2010"]).ok()?];
    let opened = open_labels(alloc)?;
    ordinals_of::<Brand, R>(rt, alloc, opened, room, &one, &two)
}

fn while_held<R: Threads + Wait + Clock + Sync>(rt: &R, alloc: Global) -> Option<u32> {
    let paths = [Path::of(alloc, &["Author", "Bob"]).ok()?];
    let opened = open_labels(alloc)?;
    known_beside::<Brand, R>(rt, alloc, opened, &paths)
}

// Returns whether a label keeps its ordinal, with a large cache and with a small one, and needs no lock once it is
// known.
fn keeps_its_ordinal<R: Threads + Wait + Clock + Sync>(rt: &R, alloc: Global) -> bool {
    let much = in_room_for(rt, alloc, (16, 4096));
    let little = in_room_for(rt, alloc, (1, 1));
    let held = while_held(rt, alloc);
    much == Some((2, 4, 2)) && little == Some((2, 4, 2)) && held == Some(2)
}

#[test]
fn a_known_label_keeps_its_ordinal_and_needs_no_turn(rt: HostRuntime) -> Result<(), Fail> {
    assert!(rt; keeps_its_ordinal(&rt, rt.alloc()));
    Ok(())
}
