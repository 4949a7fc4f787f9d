ghost use Rattle.std.specs.Prelude.{◌≡◌, ◌++◌, ℕ, List, map, IfOk, OnOk};
ghost use Rattle.commit_calls.specs.Held.{file};
ghost use Rattle.facet_disk.specs.declared.name.Dir.TheVariants.{Taxonomy, Index};
ghost use Rattle.facet_disk.specs.declared.name.Kind.TheVariants.{Segment};
ghost use Rattle.commit_plan.specs.Committed.{kept_view};
ghost use Rattle.commit_plan.specs.Drafts.{commit_names, named_files};
ghost use Rattle.commit_plan.specs.Strays.{in_order, strays};

use crate::state::StoredSegment;
use commit_file::LabelPart;
use facet_disk::{Dir, FileName, Kind};
use facet_names::NoMemory;
use std::alloc::Global;
use std::collections::BTreeSet;

// Adds the name of a commit file, if there is one.
fn push_commit(names: &mut Vec<FileName>, dir: Dir, commit: Option<u64>) -> Result<(), NoMemory>
    ensures { OnOk result (names.new.items ≡ names.old.items ++ commit_names dir commit) }
{
    if let Some(number) = commit {
        names.push(FileName {
            dir,
            kind: Kind::Commit,
            number,
        })?;
    }
    Ok(())
}

// Adds the names of segments of labels.
fn push_labels(names: &mut Vec<FileName>, parts: &[LabelPart]) -> Result<(), NoMemory>
    ensures { OnOk result (names.new.items
        ≡ names.old.items ++ map (λ part. file Taxonomy Segment part.number) parts.now) }
{
    for part in parts {
        names.push(FileName {
            dir: Dir::Taxonomy,
            kind: Kind::Segment,
            number: part.number,
        })?;
    }
    Ok(())
}

// Adds the names of segments of documents.
fn push_documents(names: &mut Vec<FileName>, stored: &[StoredSegment]) -> Result<(), NoMemory>
    ensures { OnOk result (names.new.items
        ≡ names.old.items ++ map (λ k. file Index Segment k.part.number) (map kept_view stored.now)) }
{
    for segment in stored {
        names.push(FileName {
            dir: Dir::Index,
            kind: Kind::Segment,
            number: segment.part.number,
        })?;
    }
    Ok(())
}

/// Returns the names of the newest commit files and of the segments that they name.
pub(crate) fn named_files(
    alloc: Global,
    taxonomy: Option<u64>,
    label_parts: &[LabelPart],
    index: Option<u64>,
    stored: &[StoredSegment],
) -> Result<Vec<FileName>, NoMemory>
    ensures { IfOk result (λ names. names.items
        ≡ named_files taxonomy label_parts.now index (map kept_view stored.now)) }
{
    let mut names = Vec::new(alloc);
    push_commit(&mut names, Dir::Taxonomy, taxonomy)?;
    push_labels(&mut names, label_parts)?;
    push_commit(&mut names, Dir::Index, index)?;
    push_documents(&mut names, stored)?;
    Ok(names)
}

/// Returns the names in order, each once.
pub(crate) fn in_order(alloc: Global, names: &[FileName]) -> Result<BTreeSet<FileName>, NoMemory>
    ensures { IfOk result (λ ordered. ordered.keys ≡ in_order names.now) }
{
    let mut ordered = BTreeSet::new(alloc);
    for name in names {
        ordered.insert(*name)?;
    }
    Ok(ordered)
}

/// Returns the names of a set, in order.
pub(crate) fn names_of(alloc: Global, set: &BTreeSet<FileName>) -> Result<Vec<FileName>, NoMemory>
    ensures { IfOk result (λ names. names.items ≡ set.now.keys) }
{
    let names = set.iter().copied().collect(alloc)?;
    Ok(names)
}

/// Returns the listed files that are not among the named ones, in order, each once.
pub(crate) fn strays(
    alloc: Global,
    listed: &[FileName],
    named: &BTreeSet<FileName>,
) -> Result<Vec<FileName>, NoMemory>
    ensures { IfOk result (λ names. names.items ≡ strays listed.now named.now.keys) }
{
    let listed = in_order(alloc, listed)?;
    let names = listed.difference(named).copied().collect(alloc)?;
    Ok(names)
}
