//! Views of a list that grows, each from the view before it, at the sizes where a piece of labels is nearly full, full,
//! and followed by others.
ghost use Rattle.std.specs.Prelude.{◌≡◌, ◌<◌, length, IfOk};
ghost use Rattle.facet_names.specs.Labels.{GoesOn};

use crate::making::put_path;
use facet_counts::{child_of, sibling_of};
use facet_names::Path;
use label_pieces::Steps;
use std::alloc::Global;
use std::marker::Brand;
use std::sync::ledger::{Blank, Ledger};
use std::test::Fail;
use taxo_list::{Labelled, TaxoView, Taxonomy};
use test_keys::fixed_keys;

// The label at a place: the first of each hundred is a dimension, and the first of each ten below the first ten has the
// nine that follow below it.
fn label_at(alloc: Global, at: usize) -> Result<Path, Fail> {
    let dimension = format!(in alloc; "d{}", at / 100)?;
    let middle = format!(in alloc; "m{}", at / 10)?;
    let last = format!(in alloc; "l{at}")?;
    let mut parts = Vec::new(alloc);
    parts.push(dimension.as_str())?;
    if at % 100 >= 10 {
        parts.push(middle.as_str())?;
    }
    if at % 10 > 0 {
        parts.push(last.as_str())?;
    }
    Ok(Path::of(alloc, &parts)?)
}

// Goes on with the list until it has so many labels, without the root.
fn grow_to(alloc: Global, list: &mut Taxonomy, labels: usize) -> Result<(), Fail>
    ensures { GoesOn list.old list.new }
{
    for at in list.paths().len()..labels {
        let label = label_at(alloc, at)?;
        put_path(alloc, list, &label)?;
    }
    Ok(())
}

// The view of the list with so many labels, from the last one.
fn next_view<L: Ledger>(
    alloc: Global,
    list: &mut Taxonomy,
    last: &TaxoView,
    labels: usize,
    steps: &mut Steps<L>,
) -> Result<TaxoView, Fail>
    requires { last.now ≡ list.old }
    ensures { IfOk result (λ v. v ≡ list.new) }
{
    grow_to(alloc, list, labels)?;
    Ok(list.view_from(last, steps)?)
}

// Whether two views say the same of a label.
fn is_same_label(one: &TaxoView, other: &TaxoView, ord: u32) -> bool
    requires some { 0 < ord }
    requires within { ord < length one.now }
    requires within_other { ord < length other.now }
{
    let path = one.path_of(ord);
    path == other.path_of(ord)
        && one.ordinal_of(path) == Some(ord)
        && other.ordinal_of(path) == Some(ord)
        && one.dim_number(ord) == other.dim_number(ord)
        && child_of(one, ord) == child_of(other, ord)
        && sibling_of(one, ord) == sibling_of(other, ord)
}

fn are_same(one: &TaxoView, other: &TaxoView) -> bool {
    if one.size() != other.size() || one.dims() != other.dims() {
        return false;
    }
    for ord in 1..one.size() {
        if !is_same_label(one, other, ord) {
            return false;
        }
    }
    true
}

// Whether the view is that of a new list of so many labels.
fn is_view_of(alloc: Global, view: &TaxoView, labels: usize) -> Result<bool, Fail> {
    let mut list = Taxonomy::new(alloc, fixed_keys()?)?;
    grow_to(alloc, &mut list, labels)?;
    let whole = list.view()?;
    Ok(list.paths().len() == labels && are_same(view, &whole))
}

// Whether the view of 10,000 labels is right.
fn last_is_right<L: Ledger>(
    alloc: Global,
    list: &mut Taxonomy,
    third: &TaxoView,
    steps: &mut Steps<L>,
) -> Result<bool, Fail>
    requires { third.now ≡ list.old }
{
    let last = next_view(alloc, list, third, 10_000, steps)?;
    is_view_of(alloc, &last, 10_000)
}

// Whether the view of 8,193 labels is right after the last one was made, and that too.
fn third_is_right<L: Ledger>(
    alloc: Global,
    list: &mut Taxonomy,
    full: &TaxoView,
    steps: &mut Steps<L>,
) -> Result<bool, Fail>
    requires { full.now ≡ list.old }
{
    let third = next_view(alloc, list, full, 8_193, steps)?;
    Ok(last_is_right(alloc, list, &third, steps)? && is_view_of(alloc, &third, 8_193)?)
}

// Whether the view of 4,096 labels is right after the later ones were made, and those too.
fn full_is_right<L: Ledger>(
    alloc: Global,
    list: &mut Taxonomy,
    short: &TaxoView,
    steps: &mut Steps<L>,
) -> Result<bool, Fail>
    requires { short.now ≡ list.old }
{
    let full = next_view(alloc, list, short, 4_096, steps)?;
    Ok(third_is_right(alloc, list, &full, steps)? && is_view_of(alloc, &full, 4_096)?)
}

// Whether the view of 4,095 labels is right after the later ones were made, and those too.
fn short_is_right<L: Ledger>(
    alloc: Global,
    list: &mut Taxonomy,
    root: &TaxoView,
    steps: &mut Steps<L>,
) -> Result<bool, Fail>
    requires { root.now ≡ list.old }
{
    let short = next_view(alloc, list, root, 4_095, steps)?;
    Ok(full_is_right(alloc, list, &short, steps)? && is_view_of(alloc, &short, 4_095)?)
}

// Whether each of four views is right after all of them were made.
fn are_right<L: Ledger>(alloc: Global, blank: Blank) -> Result<bool, Fail>
    requires name { blank.name ≡ L.name }
    requires parts { blank.parts ≡ L.parts }
    requires some { 0 < blank.parts }
{
    let mut steps = Steps::<L>::new(blank);
    let mut list = Taxonomy::new(alloc, fixed_keys()?)?;
    let root = list.view()?;
    short_is_right(alloc, &mut list, &root, &mut steps)
}

fn views_are_right(alloc: Global) -> Result<bool, Fail> {
    are_right::<Brand>(alloc, Blank::new(1))
}

#[test]
fn views_of_a_list_that_grows(rt: HostRuntime) -> Result<(), Fail> {
    assert!(rt; views_are_right(rt.alloc())?);
    Ok(())
}
