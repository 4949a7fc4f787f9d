//! A view of the labels that is made from an earlier one.
ghost use Rattle.std.specs.Prelude.{◌≡◌, ◌<◌};

use facet_names::Path;
use label_pieces::Steps;
use pair_fixture::{Opened, open_labels};
use std::alloc::Global;
use std::marker::Brand;
use std::sync::Wait;
use std::sync::ledger::{Blank, Ledger};
use std::test::Fail;
use taxo_cache::Name;
use taxo_list::Labelled;
use taxo_writer::TaxoWriter;

// How many labels two views have: one after the first paths were added, and one that is made from it after the second
// paths were added.
fn sizes_of<N: Name, L: Ledger, R: Wait>(
    rt: &R,
    alloc: Global,
    opened: Opened,
    blank: Blank,
    one: &[Path],
    two: &[Path],
) -> Option<(u32, u32)>
    requires labels { opened.labels ≡ N.labels }
    requires name { blank.name ≡ L.name }
    requires parts { blank.parts ≡ L.parts }
    requires some { 0 < blank.parts }
{
    let Opened {
        keys,
        labels,
        mut first,
    } = opened;
    let writer = TaxoWriter::<N>::open(alloc, keys, labels, &mut first, 16, 4096, 1_000_000).ok()?;
    writer.resolve_each(rt, &mut first, one).ok()?;
    let Ok(before) = writer.snapshot(rt, &mut first) else {
        return None;
    };
    writer.resolve_each(rt, &mut first, two).ok()?;
    let mut steps = Steps::<L>::new(blank);
    let after = writer
        .snapshot_from(rt, &mut first, &before, &mut steps)
        .ok()?;
    Some((before.size(), after.size()))
}

fn sizes_of_views<R: Wait>(rt: &R, alloc: Global) -> Option<(u32, u32)> {
    let one = [Path::of(alloc, &["Author", "Bob"]).ok()?];
    let two = [Path::of(alloc, &["Year", "2010"]).ok()?];
    let opened = open_labels(alloc)?;
    sizes_of::<Brand, Brand, R>(rt, alloc, opened, Blank::new(1), &one, &two)
}

#[test]
fn a_view_from_an_earlier_one_has_the_new_labels(rt: HostRuntime) -> Result<(), Fail> {
    assert!(rt; sizes_of_views(&rt, rt.alloc()) == Some((3, 5)));
    Ok(())
}
