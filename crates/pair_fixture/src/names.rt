ghost use Rattle.std.specs.Prelude.{◌≡◌, IfOk, string_bytes};
ghost use Rattle.pair_fixture.specs.Names.{LabelsDiffer, label_of, name_of};

use facet_names::{NoMemory, Path};
use std::alloc::Global;

/// Returns the id of the session's document of this number, which is also the name of its label.
pub fn name_of(alloc: Global, session: u32, number: u32) -> Result<String, NoMemory>
    ensures { IfOk result (λ t. string_bytes t ≡ name_of session number) }
{
    Ok(format!(in alloc; "{session} {number}")?)
}

#[tactic(auto, using(crate::proofs::Fitting::label_fits))]
/// Returns the label of that document, of two components.
pub fn label_of(alloc: Global, session: u32, number: u32) -> Result<Path, NoMemory>
    ensures { IfOk result (λ p. p ≡ label_of session number) }
{
    let name = name_of(alloc, session, number)?;
    Path::of_valid(alloc, &["Name", &name])
}

/// States that no two of these labels are equal.
pub fn labels_differ()
    ensures { LabelsDiffer }
{}
