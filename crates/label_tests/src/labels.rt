ghost use Rattle.std.specs.Prelude.{◌≡◌, ◌<◌, OnOk};
ghost use Rattle.taxo_list.specs.ArrayLists.{arrays_of};

use crate::making::{BOOKS, listed, put_all, viewed};
use std::alloc::Global;
use std::test::Fail;
use taxo_list::{Arrays, Labelled, TaxoView, Taxonomy};
use test_keys::fixed_keys;

const ARRAYS: &str =
    "Arrays { parents: [-1, 0, 1, 0, 3, 4, 5, 1, 5, 3, 9, 10, 1, 10, 1, 3, 15, 16], children: [3, 14, -1, 15, 5, 8, -1, -1, -1, 10, 13, -1, -1, -1, -1, 16, 17, -1], siblings: [-1, -1, -1, 1, -1, -1, -1, 2, 6, 4, -1, -1, 7, 11, 12, 9, -1, -1] }";

// Adds these labels, and extends the arrays of the list before to those of the list now.
fn go_on(
    alloc: Global,
    list: &mut Taxonomy,
    arrays: &mut Arrays,
    labels: &[&str],
) -> Result<(), Fail>
    requires { arrays.old ≡ arrays_of list.old }
    ensures { OnOk result (arrays.new ≡ arrays_of list.new) }
{
    put_all(alloc, list, labels)?;
    arrays.extend(&list.view()?)?;
    Ok(())
}

// Adds these labels, and extends the arrays after each `many` of them.
fn go_on_by(
    alloc: Global,
    list: &mut Taxonomy,
    arrays: &mut Arrays,
    labels: &[&str],
    many: usize,
) -> Result<(), Fail>
    requires arrays { arrays.old ≡ arrays_of list.old }
    requires some { 0 < many }
{
    for part in labels.chunks(many) {
        go_on(alloc, list, arrays, part)?;
    }
    Ok(())
}

// Returns the arrays of these labels, extended after each `many` of them.
fn extended(alloc: Global, labels: &[&str], many: usize) -> Result<Arrays, Fail>
    requires { 0 < many }
{
    let mut list = Taxonomy::new(alloc, fixed_keys()?)?;
    let mut arrays = Arrays::from_scratch(alloc, &list.view()?)?;
    go_on_by(alloc, &mut list, &mut arrays, labels, many)?;
    Ok(arrays)
}

// Returns the arrays of these labels, from scratch.
fn from_scratch(alloc: Global, labels: &[&str]) -> Result<Arrays, Fail> {
    let view = viewed(alloc, labels)?;
    Ok(Arrays::from_scratch(alloc, &view)?)
}

fn is_text(alloc: Global, arrays: &Arrays, text: &str) -> Result<bool, Fail> {
    let written = format!(in alloc; "{arrays:?}")?;
    Ok(written.as_str() == text)
}

fn are_from_scratch(alloc: Global) -> Result<bool, Fail> {
    let arrays = from_scratch(alloc, BOOKS)?;
    is_text(alloc, &arrays, ARRAYS)
}

fn are_extended_by(alloc: Global, many: usize) -> Result<bool, Fail>
    requires { 0 < many }
{
    let arrays = extended(alloc, BOOKS, many)?;
    is_text(alloc, &arrays, ARRAYS)
}

// Extended after each eight labels, after each label, and once from the root to all.
fn are_extended(alloc: Global) -> Result<bool, Fail> {
    Ok(are_extended_by(alloc, 8)? && are_extended_by(alloc, 1)? && are_extended_by(alloc, 17)?)
}

#[test]
fn arrays_of_labels(rt: HostRuntime) -> Result<(), Fail> {
    let alloc = rt.alloc();
    assert!(rt; are_from_scratch(alloc)? && are_extended(alloc)?);
    Ok(())
}

fn may_be_shared<T: Send + Sync>(_value: &T) -> bool {
    true
}

fn are_linked(alloc: Global, view: &TaxoView) -> Result<bool, Fail> {
    if view.size() != 3 {
        return Ok(false);
    }
    let arrays = Arrays::from_scratch(alloc, view)?;
    Ok((arrays.parent(2), arrays.child(1), arrays.sibling(2)) == (1, 2, -1))
}

// Returns whether the links of two labels are these, in a view that threads may share.
fn has_links(alloc: Global) -> Result<bool, Fail> {
    let view: TaxoView = viewed(alloc, &["Author", "Author/Bob"])?;
    Ok(may_be_shared(&view) && are_linked(alloc, &view)?)
}

// Returns the components of all labels, and how many labels there are, with the root.
fn described<L: Labelled>(alloc: Global, labels: &L) -> Result<String, Fail> {
    let mut text = String::new(alloc);
    for ord in 1..labels.size() {
        let path = labels.path_of(ord);
        for place in 0..path.len() {
            text.push_str(path.part(place))?;
            text.push('/')?;
        }
        text.push(' ')?;
    }
    let size = labels.size();
    Ok(format!(in alloc; "{text}{size}")?)
}

fn is_described<L: Labelled>(alloc: Global, labels: &L, expected: &str) -> Result<bool, Fail> {
    Ok(described(alloc, labels)?.as_str() == expected)
}

const DESCRIBED: &str = "Author/ Author/Bob/ Year/ 4";

fn view_is_described(alloc: Global, list: &Taxonomy) -> Result<bool, Fail> {
    let view = list.view()?;
    is_described(alloc, &view, DESCRIBED)
}

fn both_are_described(alloc: Global) -> Result<bool, Fail> {
    let list = listed(alloc, &["Author", "Author/Bob", "Year"])?;
    let both = is_described(alloc, &list, DESCRIBED)? && view_is_described(alloc, &list)?;
    Ok(both && list.paths().len() == 3)
}

#[test]
fn a_list_and_its_view_alike(rt: HostRuntime) -> Result<(), Fail> {
    let alloc = rt.alloc();
    assert!(rt; both_are_described(alloc)? && has_links(alloc)?);
    Ok(())
}
