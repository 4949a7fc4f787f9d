ghost use Rattle.std.specs.Prelude.{◌≡◌, IfOk, map};
ghost use Rattle.std.specs.List.{range_with_len};
ghost use Rattle.generator.specs.Generated.{date_of, first_tag_of, generated_labels, second_tag_of, shelf_of};

use facet_names::{NoMemory, Path};
use std::alloc::Global;

/// After this many documents the labels repeat.
pub(crate) const PERIOD: u32 = 60;

#[tactic(auto, using(crate::proofs::Fitting::shelf_fits))]
fn shelf(alloc: Global, number: u32) -> Result<Path, NoMemory>
    ensures { IfOk result (λ p. p ≡ shelf_of number) }
{
    let shelf = format!(in alloc; "s{}", number % 10)?;
    Path::of_valid(alloc, &["Shelf", &shelf])
}

#[tactic(auto, using(crate::proofs::Fitting::date_fits))]
fn date(alloc: Global, number: u32) -> Result<Path, NoMemory>
    ensures { IfOk result (λ p. p ≡ date_of number) }
{
    let year = format!(in alloc; "{}", 2000 + number % 4)?;
    let month = format!(in alloc; "{}", 1 + number % 3)?;
    Path::of_valid(alloc, &["Date", &year, &month])
}

#[tactic(auto, using(crate::proofs::Fitting::first_tag_fits))]
fn first_tag(alloc: Global, number: u32) -> Result<Path, NoMemory>
    ensures { IfOk result (λ p. p ≡ first_tag_of number) }
{
    let tag = format!(in alloc; "t{}", number % 2)?;
    Path::of_valid(alloc, &["Tag", &tag])
}

#[tactic(auto, using(crate::proofs::Fitting::second_tag_fits))]
fn second_tag(alloc: Global, number: u32) -> Result<Path, NoMemory>
    ensures { IfOk result (λ p. p ≡ second_tag_of number) }
{
    let tag = format!(in alloc; "u{}", number % 5)?;
    Path::of_valid(alloc, &["Tag", &tag])
}

#[tactic(auto, unfolding(crate::specs::Generated::generated_labels))]
fn labels(alloc: Global, number: u32) -> Result<Vec<Path>, NoMemory>
    ensures { IfOk result (λ v. v.items ≡ generated_labels number) }
{
    let shelf = shelf(alloc, number)?;
    let date = date(alloc, number)?;
    let first = first_tag(alloc, number)?;
    let second = second_tag(alloc, number)?;
    Ok(vec![in alloc; shelf, date, first, second]?)
}

/// Returns the labels of the first documents, up to where they repeat.
pub(crate) fn first_labels(alloc: Global) -> Result<Vec<Vec<Path>>, NoMemory>
    ensures { IfOk result (λ v. map (λ l. l.items) v.items ≡ map generated_labels (range_with_len 0 60)) }
{
    let mut all = Vec::new(alloc);
    for number in 0..PERIOD {
        all.push(labels(alloc, number)?)?;
    }
    Ok(all)
}
