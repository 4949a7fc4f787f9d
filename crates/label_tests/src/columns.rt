ghost use Rattle.std.specs.Prelude.{◌≡◌, ◌<◌, ℕ, true, length, IfOk};
ghost use Rattle.std.specs.List.{AllByRecursion};
ghost use Rattle.seg_postings.specs.Rising.{is_in};
ghost use Rattle.label_tests.specs.Columns.{MayBeListed, AreListed};

use crate::counts::{are_counted, config_of, flags_of, may_be_added, spelled};
use crate::making::viewed;
use counted_column::Column;
use facet_config::FacetsConfig;
use facet_counts::{Counter, Counts};
use place_bits::Bits;
use seg_postings::Ords;
use std::alloc::{AllocError, Global};
use std::test::Fail;
use taxo_list::{Labelled, TaxoView};

const TAGS: &[&str] = &["Tag", "Tag/a", "Tag/b", "Tag/c"];

// Returns the bytes of these ordinals.
fn list_of(
    alloc: Global,
    view: &TaxoView,
    config: &FacetsConfig,
    ords: &[u32],
) -> Result<Vec<u8>, Fail>
    ensures { IfOk result (λ v. AreListed config.now view.now v.items) }
{
    if !may_be_added(view, config, ords) {
        return Err("not to be listed".into());
    }
    Ok(spelled(alloc, ords)?)
}

// Returns a column of 130 documents: the first list for those of even numbers, the second for the others, and the third
// for the last two.
fn column_of(
    alloc: Global,
    view: &TaxoView,
    config: &FacetsConfig,
    kinds: [&[u32]; 3],
) -> Result<Column, Fail>
    ensures docs { IfOk result (λ c. length c ≡ 130) }
    ensures listed { IfOk result (λ c. AllByRecursion (MayBeListed config.now view.now) c) }
{
    let [even, odd, last] = kinds;
    let even = list_of(alloc, view, config, even)?;
    let odd = list_of(alloc, view, config, odd)?;
    let last = list_of(alloc, view, config, last)?;
    let mut lists = Vec::new(alloc);
    for _ in 0..64u32 {
        lists.push(Ords::new(&even))?;
        lists.push(Ords::new(&odd))?;
    }
    lists.push(Ords::new(&last))?;
    lists.push(Ords::new(&last))?;
    Ok(Column::of(alloc, &lists)?)
}

// Returns the set of these of 130 documents.
fn chosen(alloc: Global, docs: &[u32]) -> Result<Bits, AllocError>
    ensures words { IfOk result (λ b. b.words ≡ 3) }
    ensures below { IfOk result (λ b. (n : ℕ) → is_in n b.places ≡ true → n < 130) }
{
    let mut set = Bits::none(alloc, 130)?;
    for doc in docs {
        if *doc < 130 {
            set.add(*doc);
        }
    }
    Ok(set)
}

// Returns the counts of these documents.
fn counts_of<'a>(
    alloc: Global,
    view: &'a TaxoView,
    config: &'a FacetsConfig,
    column: &Column,
    docs: &[u32],
) -> Result<Counts<'a>, Fail>
    requires docs { length column.now ≡ 130 }
    requires listed { AllByRecursion (MayBeListed config.now view.now) column.now }
    ensures labels { IfOk result (λ c. c.labels ≡ view.now) }
{
    let places = chosen(alloc, docs)?;
    if places.len() > 130 {
        return Err("more than 130".into());
    }
    let mut counter = Counter::new(alloc, view, config)?;
    counter.add_column(column, &places);
    Ok(counter.roll_up())
}

// Returns whether this many of these documents have these ordinals.
fn are_at(
    alloc: Global,
    view: &TaxoView,
    config: &FacetsConfig,
    column: &Column,
    docs: &[u32],
    want: &[(u32, u32)],
) -> Result<bool, Fail>
    requires docs { length column.now ≡ 130 }
    requires listed { AllByRecursion (MayBeListed config.now view.now) column.now }
{
    let counts = counts_of(alloc, view, config, column, docs)?;
    Ok(are_counted(view, &counts, want))
}

const SOME: &[(&[u32], &[(u32, u32)])] = &[
    (&[0, 63, 64, 127, 128], &[(1, 5), (2, 3), (3, 2), (4, 1)]),
    (&[129], &[(1, 1), (2, 1), (3, 0), (4, 1)]),
    (&[], &[(1, 0), (2, 0), (3, 0), (4, 0)]),
];

fn are_at_some(
    alloc: Global,
    view: &TaxoView,
    config: &FacetsConfig,
    column: &Column,
) -> Result<bool, Fail>
    requires docs { length column.now ≡ 130 }
    requires listed { AllByRecursion (MayBeListed config.now view.now) column.now }
{
    for (docs, want) in SOME {
        if !are_at(alloc, view, config, column, *docs, *want)? {
            return Ok(false);
        }
    }
    Ok(true)
}

const AT_ALL: &[(u32, u32)] = &[(1, 130), (2, 66), (3, 64), (4, 2)];

fn are_at_all(
    alloc: Global,
    view: &TaxoView,
    config: &FacetsConfig,
    column: &Column,
) -> Result<bool, Fail>
    requires docs { length column.now ≡ 130 }
    requires listed { AllByRecursion (MayBeListed config.now view.now) column.now }
{
    let all = (0..130u32).collect::<Vec<u32>>(alloc)?;
    are_at(alloc, view, config, column, &all, AT_ALL)
}

// The lists of even and of odd documents, and of the last two. Only the last two have the last ordinal.
const KINDS: [&[u32]; 3] = [&[1, 2], &[1, 3], &[1, 2, 4]];

fn are_counted_by(alloc: Global, view: &TaxoView, config: &FacetsConfig) -> Result<bool, Fail> {
    let column = column_of(alloc, view, config, KINDS)?;
    Ok(are_at_all(alloc, view, config, &column)? && are_at_some(alloc, view, config, &column)?)
}

fn are_tags_of(alloc: Global, view: &TaxoView) -> Result<bool, Fail> {
    let config = config_of(alloc, "Tag", flags_of(true, false))?;
    are_counted_by(alloc, view, &config)
}

/// Returns whether tags of 130 documents are counted at some of their places.
pub(crate) fn tags_are_counted(alloc: Global) -> Result<bool, Fail> {
    let view = viewed(alloc, TAGS)?;
    are_tags_of(alloc, &view)
}
