//! Reading the taxonomy of a disk.
ghost use Rattle.std.specs.Prelude.{◌≡◌, ◌≢◌, ◌+◌, ◌≤◌, ◌<◌, [], ◌∷◌, ℕ, List, Option, Some, Ok, Err, length, IfOk};
ghost use Rattle.std.specs.Prelude.{IfErr, OnOk, IsErrOf};
ghost use Rattle.facet_codec.specs.Faults.{told_as};
ghost use Rattle.facet_disk.specs.Calls.{Rose};
ghost use Rattle.facet_names.specs.Labels.{IsLabelList};
ghost use Rattle.commit_calls.specs.Held.{file, newest_file};
ghost use Rattle.commit_file.specs.Commits.{AreInOrder, taxonomy_listing};
ghost use Rattle.commit_file.specs.Reading.{taxonomy_commit};
ghost use Rattle.store_opening.specs.declared.fault.OpenFault.TheVariants.{Disk, NoMemory as Memory};
ghost use Rattle.store_opening.specs.Faults.{IsSound};
ghost use Rattle.store_opening.specs.Files.{segments_in, of_file, labels_behind, labels_of, taxonomy_in};
ghost use Rattle.store_opening.specs.Newest.{AreListed, IsNewestTaxonomy};
ghost use Rattle.store_opening.specs.Quiet.{IsRead, FailsOnly, OfListed, OfFiles};

use crate::fault::{OpenFault, of_file, of_labels};
use crate::names::Names;
use crate::reading::{CommitBytes, read_newest, read_segment};
use commit_file::{LabelPart, TaxonomyCommit, read_taxonomy_commit};
use facet_disk::{Dir, Disk, FileName, Kind};
use label_file::read_labels;
use std::alloc::Global;
use std::hash::RandomState;
use taxo_list::Taxonomy;

/// A taxonomy that was read, and the commit that names its segments.
#[derive(Drop)]
pub(crate) struct TaxonomyRead {
    pub(crate) number: Option<u64>,
    pub(crate) parts: Vec<LabelPart>,
    pub(crate) labels: Taxonomy,
}

// Reads the labels of a segment, and adds them after the others.
#[tactic(auto, unfolding(crate::specs::Files::labels_behind))]
fn read_label_part<D: Disk>(
    alloc: Global,
    disk: &mut D,
    listed: &Names,
    part: LabelPart,
    labels: &mut Taxonomy,
) -> Result<(), OpenFault>
    requires first { length labels.old ≡ part.first }
    requires few { part.first + part.count ≤ 1000000 }
    requires list { IsLabelList labels.old }
    ensures ok { OnOk result (OfListed D.Disk listed.now disk.old
        (λ c. labels_behind (segments_in Dir.Taxonomy c) labels.old part ≡ Ok labels.new)) }
    ensures count { OnOk result (length labels.new ≡ length labels.old + part.count) }
    ensures some { OnOk result (0 < part.count) }
    ensures list { OnOk result (IsLabelList labels.new) }
    ensures err { OfFiles result (λ e. OfListed D.Disk listed.now disk.old
        (λ c. labels_behind (segments_in Dir.Taxonomy c) labels.old part ≡ Err e)) }
    ensures read { IsRead D.Disk disk.old disk.new result }
    ensures failed { FailsOnly D.Disk (λ c. AreListed c listed.now) disk.old disk.new result }
{
    let name = FileName {
        dir: Dir::Taxonomy,
        kind: Kind::Segment,
        number: part.number,
    };
    let bytes = read_segment(alloc, disk, listed, name, part.digest)?;
    if let Err(fault) = read_labels(labels, alloc, part.first, part.count, &bytes) {
        return Err(of_labels(name, fault));
    }
    Ok(())
}

// Reads the labels of these segments after the root, `total` labels in all.
fn read_label_parts<D: Disk>(
    alloc: Global,
    keys: RandomState,
    disk: &mut D,
    listed: &Names,
    total: u32,
    parts: &[LabelPart],
) -> Result<Taxonomy, OpenFault>
    requires order { AreInOrder total 1 parts.now }
    requires few { total ≤ 1000000 }
    ensures ok { IfOk result (λ labels. OfListed D.Disk listed.now disk.old
        (λ c. labels_of (segments_in Dir.Taxonomy c) ([] ∷ []) parts.now ≡ Ok labels)) }
    ensures count { IfOk result (λ labels. length labels ≡ total) }
    ensures list { IfOk result (λ labels. IsLabelList labels) }
    ensures many { IfOk result (λ labels. length parts.now < length labels) }
    ensures err { OfFiles result (λ e. OfListed D.Disk listed.now disk.old
        (λ c. labels_of (segments_in Dir.Taxonomy c) ([] ∷ []) parts.now ≡ Err e)) }
    ensures read { IsRead D.Disk disk.old disk.new result }
    ensures failed { FailsOnly D.Disk (λ c. AreListed c listed.now) disk.old disk.new result }
{
    let mut labels = Taxonomy::new(alloc, keys)?;
    for part in parts {
        read_label_part(alloc, disk, listed, *part, &mut labels)?;
    }
    Ok(labels)
}

// Reads the taxonomy commit in the bytes of a file.
fn commit_of(alloc: Global, found: &CommitBytes) -> Result<TaxonomyCommit, OpenFault>
    ensures ok { IfOk result (λ c. taxonomy_commit found.now.number found.now.bytes.items ≡ Ok (taxonomy_listing c)) }
    ensures order { IfOk result (λ c. AreInOrder c.labels 1 c.parts.items) }
    ensures few { IfOk result (λ c. c.labels ≤ 1000000) }
    ensures err { IfErr result (λ e. e ≢ Memory
        → told_as (of_file (file Dir.Taxonomy Kind.Commit found.now.number))
        (taxonomy_commit found.now.number found.now.bytes.items) ≡ Err e) }
    ensures sound { IfErr result IsSound }
{
    let name = FileName {
        dir: Dir::Taxonomy,
        kind: Kind::Commit,
        number: found.number,
    };
    match read_taxonomy_commit(alloc, found.number, &found.bytes) {
        Ok(commit) => Ok(commit),
        Err(fault) => Err(of_file(name, fault)),
    }
}

/// Reads the taxonomy: the labels of its newest commit, or the root alone. It reads the commit file and each of its
/// segments once.
pub(crate) fn read_taxonomy<D: Disk>(
    alloc: Global,
    keys: RandomState,
    disk: &mut D,
    listed: &Names,
) -> Result<TaxonomyRead, OpenFault>
    ensures ok { IfOk result (λ r. OfListed D.Disk listed.now disk.old (λ c.
        taxonomy_in (newest_file Dir.Taxonomy c) (segments_in Dir.Taxonomy c) ≡ Ok r.labels)) }
    ensures newest { IfOk result (λ r. OfListed D.Disk listed.now disk.old (λ c.
        IsNewestTaxonomy (newest_file Dir.Taxonomy c) r.number r.parts.items r.labels)) }
    ensures err { OfFiles result (λ e. OfListed D.Disk listed.now disk.old (λ c.
        taxonomy_in (newest_file Dir.Taxonomy c) (segments_in Dir.Taxonomy c) ≡ Err e)) }
    ensures order { IfOk result (λ r. AreInOrder (length r.labels) 1 r.parts.items) }
    ensures list { IfOk result (λ r. IsLabelList r.labels) }
    ensures many { IfOk result (λ r. length r.parts.items < length r.labels) }
    ensures read { IsRead D.Disk disk.old disk.new result }
    ensures failed { FailsOnly D.Disk (λ c. AreListed c listed.now) disk.old disk.new result }
{
    let Some(found) = read_newest(alloc, disk, listed, Dir::Taxonomy)? else {
        return Ok(TaxonomyRead {
            number: None,
            parts: Vec::new(alloc),
            labels: Taxonomy::new(alloc, keys)?,
        });
    };
    let commit = commit_of(alloc, &found)?;
    let labels = read_label_parts(alloc, keys, disk, listed, commit.labels, &commit.parts)?;
    Ok(TaxonomyRead {
        number: Some(found.number),
        parts: commit.parts,
        labels,
    })
}
