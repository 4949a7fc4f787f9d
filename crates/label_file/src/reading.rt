ghost use Rattle.std.specs.Prelude.{◌≡◌, ◌≢◌, ◌≤◌, ◌<◌, ◌+◌, ◌++◌, [], ◌∷◌, ℕ, List, Some, None, Ok, length};
ghost use Rattle.std.specs.Prelude.{option_and_then, IfOk, IfErr, OnOk, OnErr};
ghost use Rattle.facet_names.specs.declared.fault.PathFault.TheVariants.{NoMemory as Memory};
ghost use Rattle.facet_names.specs.Faults.{path_fault};
ghost use Rattle.facet_names.specs.Labels.{GoesOn, IsLabelList};
ghost use Rattle.label_file.specs.LabelReading.{Fails, behind, head_at, joined, path_below, parent_at, label_at};
ghost use Rattle.label_file.specs.LabelReading.{labels_at, AreFirst, stored_labels, StandBefore};

use crate::fault::LabelsFault;
use facet_codec::Cursor;
use facet_names::{NoMemory, Path, PathFault};
use std::alloc::Global;
use taxo_list::{Labelled, TaxoFault, Taxonomy};

/// Reads four bytes, which have to be this number.
#[tactic(auto, unfolding(crate::specs::LabelReading::behind))]
fn number(cursor: &mut Cursor<'_>, wanted: u32) -> Result<(), LabelsFault>
    ensures ok { OnOk result (behind wanted cursor.old ≡ Ok cursor.new) }
    ensures err { IfErr result (λ e. Fails e (behind wanted cursor.old)) }
{
    let at = cursor.at() as u64;
    if cursor.u32()? != wanted {
        return Err(LabelsFault::Malformed { at });
    }
    Ok(())
}

/// Reads the bytes before the labels.
#[tactic(auto, unfolding(crate::specs::LabelReading::head_at))]
fn head(cursor: &mut Cursor<'_>, first: u32, count: u32) -> Result<(), LabelsFault>
    ensures ok { OnOk result (head_at first count cursor.old ≡ Ok cursor.new) }
    ensures err { IfErr result (λ e. Fails e (head_at first count cursor.old)) }
{
    number(cursor, 0x4654_4158)?;
    number(cursor, 1)?;
    number(cursor, first)?;
    let at = cursor.at() as u64;
    number(cursor, count)?;
    if count == 0 {
        return Err(LabelsFault::Malformed { at });
    }
    Ok(())
}

/// Returns the path of a component below the label at an ordinal, or why it is not a path.
fn joined(labels: &Taxonomy, alloc: Global, parent: u32, part: &str) -> Result<Path, PathFault>
    requires list { IsLabelList labels.now }
    requires within { parent < length labels.now }
    ensures ok { IfOk result (λ p. joined labels.now parent part.now ≡ Some p) }
    ensures fits { IfOk result (λ p. path_fault p ≡ None) }
    ensures err { IfErr result (λ e. e ≢ Memory → option_and_then path_fault (joined labels.now parent part.now)
        ≡ Some e) }
    ensures memory { IfErr result (λ e. e ≡ Memory → option_and_then path_fault (joined labels.now parent part.now)
        ≡ None) }
{
    if parent == 0 {
        return Path::of_dim(alloc, part);
    }
    labels.path_of(parent).child(alloc, part)
}

/// Returns the path of a component below the label at an ordinal. It returns `None` if it is not a path, or if the list
/// has it.
#[tactic(auto, unfolding(crate::specs::LabelReading::path_below))]
fn path_below(
    labels: &Taxonomy,
    alloc: Global,
    parent: u32,
    part: &str,
) -> Result<Option<Path>, NoMemory>
    requires list { IsLabelList labels.now }
    requires within { parent < length labels.now }
    ensures ok { IfOk result (λ o. o ≡ path_below labels.now parent part.now) }
    ensures memory { IfErr result (λ _. option_and_then path_fault (joined labels.now parent part.now) ≡ None) }
{
    let path = match joined(labels, alloc, parent, part) {
        Ok(path) => path,
        Err(PathFault::NoMemory) => return Err(NoMemory),
        Err(_) => return Ok(None),
    };
    if labels.find(&path).is_some() {
        return Ok(None);
    }
    Ok(Some(path))
}

/// Reads the ordinal of a parent, which has to be below `known`.
#[tactic(auto, unfolding(crate::specs::LabelReading::parent_at))]
fn parent_at(cursor: &mut Cursor<'_>, known: u32) -> Result<u32, LabelsFault>
    ensures ok { IfOk result (λ parent. parent_at known cursor.old ≡ Ok (parent, cursor.new)) }
    ensures before { IfOk result (λ parent. parent < known) }
    ensures err { IfErr result (λ e. Fails e (parent_at known cursor.old)) }
{
    let at = cursor.at() as u64;
    let parent = cursor.u32()?;
    if parent >= known {
        return Err(LabelsFault::Malformed { at });
    }
    Ok(parent)
}

/// Reads a label and adds it.
#[tactic(auto, unfolding(crate::specs::LabelReading::label_at))]
fn label(labels: &mut Taxonomy, alloc: Global, cursor: &mut Cursor<'_>) -> Result<(), LabelsFault>
    requires { length labels.old < 1000000 }
    ensures ok { OnOk result ((path : List (List ℕ)) × (label_at labels.old cursor.old ≡ Ok (path, cursor.new))
        × (labels.new ≡ labels.old ++ path ∷ [])) }
    ensures err { IfErr result (λ e. Fails e (label_at labels.old cursor.old)) }
    ensures unchanged { OnErr result (labels.new ≡ labels.old) }
    ensures goes_on { GoesOn labels.old labels.new }
{
    let at = cursor.at() as u64;
    let parent = parent_at(cursor, labels.size())?;
    let part = cursor.text(u32::MAX)?;
    let Some(path) = path_below(labels, alloc, parent, part)? else {
        return Err(LabelsFault::Malformed { at });
    };
    match labels.add_under(path, parent, 1_000_000) {
        Ok(_) => Ok(()),
        Err(TaxoFault::NoMemory) => Err(LabelsFault::NoMemory),
        // The list is not full.
        Err(TaxoFault::LabelsFull { .. }) => unreachable!(),
    }
}

/// Reads `count` labels and adds them.
fn labels_after(
    labels: &mut Taxonomy,
    alloc: Global,
    cursor: &mut Cursor<'_>,
    count: u32,
) -> Result<(), LabelsFault>
    requires { length labels.old + count ≤ 1000000 }
    ensures ok { OnOk result (labels_at count labels.old cursor.old ≡ Ok (labels.new, cursor.new)) }
    ensures err { IfErr result (λ e. Fails e (labels_at count labels.old cursor.old)) }
    ensures some { OnErr result (AreFirst count labels.old cursor.old labels.new) }
    ensures goes_on { GoesOn labels.old labels.new }
{
    for _ in 0..count {
        label(labels, alloc, cursor)?;
    }
    Ok(())
}

/// Reads a taxonomy segment and adds its labels after the others. The bytes have to be exactly one segment of `count`
/// labels, at least 1, whose first label has the ordinal `first`. A label's parent precedes it, and no label may occur
/// twice, also among the labels before.
///
/// Costs: it reads the bytes once from left to right, and looks each label up once. It allocates memory for each label
/// after reading it, whatever `count` is. A parent's ordinal is checked before the text is read.
///
/// Errors: the first fault; out of memory. Then the first labels of the segment may have been added, and no others.
#[tactic(auto, unfolding(crate::specs::LabelReading::stored_labels))]
pub fn read_labels(
    labels: &mut Taxonomy,
    alloc: Global,
    first: u32,
    count: u32,
    bytes: &[u8],
) -> Result<(), LabelsFault>
    requires first { length labels.old ≡ first }
    requires few { first + count ≤ 1000000 }
    ensures ok { OnOk result (stored_labels labels.old first count bytes.now ≡ Ok labels.new) }
    ensures err { IfErr result (λ e. Fails e (stored_labels labels.old first count bytes.now)) }
    ensures some { OnErr result (StandBefore labels.old first count bytes.now labels.new) }
    ensures goes_on { GoesOn labels.old labels.new }
{
    let mut cursor = Cursor::new(bytes);
    head(&mut cursor, first, count)?;
    labels_after(labels, alloc, &mut cursor, count)?;
    if cursor.rest() > 0 {
        return Err(LabelsFault::Malformed {
            at: cursor.at() as u64,
        });
    }
    Ok(())
}
