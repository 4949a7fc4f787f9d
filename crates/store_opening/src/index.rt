//! Reading the index of a disk.
ghost use Rattle.std.specs.Prelude.{◌≡◌, ◌≢◌, ◌≤◌, ◌++◌, [], ◌∷◌, ℕ, List, Option, Some, Ok, Err, length, map, IfOk};
ghost use Rattle.std.specs.Prelude.{IfErr, OnOk, IsErrOf};
ghost use Rattle.std.specs.Arc.{arc_value};
ghost use Rattle.std.specs.List.{AllByRecursion, AllZip, sum_by};
ghost use Rattle.facet_codec.specs.Faults.{told_as};
ghost use Rattle.facet_codec.specs.Laws.{IsBelow};
ghost use Rattle.facet_config.specs.Differences.{first_different};
ghost use Rattle.facet_disk.specs.Images.{Told};
ghost use Rattle.facet_disk.specs.Calls.{Rose};
ghost use Rattle.commit_calls.specs.Held.{file, newest_file};
ghost use Rattle.commit_file.specs.Commits.{index_listing};
ghost use Rattle.commit_file.specs.Limits.{IsLivePart};
ghost use Rattle.commit_file.specs.LiveParts.{live_of};
ghost use Rattle.commit_file.specs.Reading.{index_commit};
ghost use Rattle.seg_file.specs.Live.{with_dead};
ghost use Rattle.seg_postings.specs.Rising.{IsRising};
ghost use Rattle.store_opening.specs.declared.fault.OpenFault.TheVariants.{Disk, NoMemory as Memory};
ghost use Rattle.store_opening.specs.Faults.{IsSound};
ghost use Rattle.store_opening.specs.Files.{segments_in, of_file, same_flags, agrees, segment_of, segments_of};
ghost use Rattle.store_opening.specs.Files.{index_in};
ghost use Rattle.store_opening.specs.Newest.{AreListed, IsNewestIndex, IsNamedAs};
ghost use Rattle.store_opening.specs.Quiet.{IsRead, FailsOnly, OfListed, OfFiles};

use crate::fault::{OpenFault, of_file, of_segment};
use crate::names::Names;
use crate::reading::{CommitBytes, read_newest, read_segment};
use commit_file::{IndexCommit, LivePart, read_index_commit};
use facet_config::FacetsConfig;
use facet_disk::{Dir, Disk, FileName, Kind};
use facet_model::Word;
use facet_names::NoMemory;
use seg_decoding::open_stored;
use seg_file::Segment;
use std::alloc::Global;
use std::hash::RandomState;
use std::sync::Arc;
use taxo_list::{Labelled, Taxonomy};

/// An index that was read, and the commit that names its segments.
#[derive(Drop)]
pub(crate) struct IndexRead {
    pub(crate) number: Option<u64>,
    pub(crate) parts: Vec<LivePart>,
    pub(crate) segments: Vec<Arc<Segment>>,
}

// Returns a segment, all of whose records are live, without those that are no longer live.
fn thinned(alloc: Global, stored: &Segment, dead: &[u32]) -> Result<Segment, NoMemory>
    requires live { stored.now.dead ≡ [] }
    requires rise { IsRising dead.now }
    requires below { AllByRecursion (IsBelow (length stored.now.records)) dead.now }
    ensures { IfOk result (λ s. s ≡ with_dead stored.now dead.now) }
{
    let left = stored.without(alloc, dead)?;
    Ok(left)
}

// Reads a segment. Its documents need the first `needs` labels.
#[tactic(auto, unfolding(crate::specs::Files::segment_of))]
fn read_document_part<D: Disk>(
    alloc: Global,
    keys: RandomState,
    disk: &mut D,
    config: &FacetsConfig,
    labels: &Taxonomy,
    needs: u32,
    listed: &Names,
    part: &LivePart,
) -> Result<Segment, OpenFault>
    requires needs { needs ≤ length labels.now }
    requires part { IsLivePart part.now }
    ensures ok { IfOk result (λ v. OfListed D.Disk listed.now disk.old
        (λ c. segment_of config.now labels.now needs (segments_in Dir.Index c) part.now ≡ Ok v)) }
    ensures named { IfOk result (λ v. IsNamedAs config.now labels.now part.now v) }
    ensures err { OfFiles result (λ e. OfListed D.Disk listed.now disk.old (λ c.
        segment_of config.now labels.now needs (segments_in Dir.Index c) part.now ≡ Err e)) }
    ensures read { IsRead D.Disk disk.old disk.new result }
    ensures failed { FailsOnly D.Disk (λ c. AreListed c listed.now) disk.old disk.new result }
{
    let name = FileName {
        dir: Dir::Index,
        kind: Kind::Segment,
        number: part.part.number,
    };
    let bytes = read_segment(alloc, disk, listed, name, part.part.digest)?;
    let documents = part.part.documents;
    match open_stored(alloc, keys, config, labels, needs, documents, bytes) {
        Ok(stored) => Ok(thinned(alloc, &stored, &part.dead)?),
        Err(fault) => Err(of_segment(name, fault)),
    }
}

// Adds a segment after the others.
fn keep(alloc: Global, segments: &mut Vec<Arc<Segment>>, segment: Segment) -> Result<(), NoMemory>
    ensures { OnOk result (map arc_value segments.new.items ≡ map arc_value segments.old.items ++ segment ∷ []) }
{
    let shared = Arc::new(alloc, segment)?;
    segments.push(shared)?;
    Ok(())
}

// Reads the segments of a commit.
fn read_document_parts<D: Disk>(
    alloc: Global,
    keys: RandomState,
    disk: &mut D,
    config: &FacetsConfig,
    labels: &Taxonomy,
    needs: u32,
    listed: &Names,
    parts: &[LivePart],
) -> Result<Vec<Arc<Segment>>, OpenFault>
    requires needs { needs ≤ length labels.now }
    requires parts { AllByRecursion IsLivePart parts.now }
    ensures ok { IfOk result (λ v. OfListed D.Disk listed.now disk.old (λ c.
        segments_of config.now labels.now needs (segments_in Dir.Index c) parts.now ≡ Ok (map arc_value v.items))) }
    ensures named { IfOk result (λ v. AllZip (IsNamedAs config.now labels.now) parts.now (map arc_value v.items)) }
    ensures err { OfFiles result (λ e. OfListed D.Disk listed.now disk.old (λ c.
        segments_of config.now labels.now needs (segments_in Dir.Index c) parts.now ≡ Err e)) }
    ensures read { IsRead D.Disk disk.old disk.new result }
    ensures failed { FailsOnly D.Disk (λ c. AreListed c listed.now) disk.old disk.new result }
{
    let mut segments = Vec::new(alloc);
    for part in parts {
        let segment = read_document_part(alloc, keys, disk, config, labels, needs, listed, part)?;
        keep(alloc, &mut segments, segment)?;
    }
    Ok(segments)
}

// Reads the index commit in the bytes of a file.
fn commit_of(
    alloc: Global,
    keys: RandomState,
    found: &CommitBytes,
) -> Result<IndexCommit, OpenFault>
    ensures ok { IfOk result (λ c. index_commit found.now.number found.now.bytes.items ≡ Ok (index_listing c)) }
    ensures parts { IfOk result (λ c. AllByRecursion IsLivePart c.parts.items) }
    ensures few { IfOk result (λ c. sum_by live_of c.parts.items ≤ 1000000) }
    ensures err { IfErr result (λ e. e ≢ Memory
        → told_as (of_file (file Dir.Index Kind.Commit found.now.number))
        (index_commit found.now.number found.now.bytes.items) ≡ Err e) }
    ensures sound { IfErr result IsSound }
{
    let name = FileName {
        dir: Dir::Index,
        kind: Kind::Commit,
        number: found.number,
    };
    match read_index_commit(alloc, keys, found.number, &found.bytes) {
        Ok(commit) => Ok(commit),
        Err(fault) => Err(of_file(name, fault)),
    }
}

// Checks that the dimensions have the flags that were stored.
fn check_flags(alloc: Global, config: &FacetsConfig, kept: &FacetsConfig) -> Result<(), OpenFault>
    ensures ok { IfOk result (λ _. same_flags (first_different config.now kept.now) ≡ Ok tt) }
    ensures err { IfErr result (λ e. e ≢ Memory → same_flags (first_different config.now kept.now) ≡ Err e) }
    ensures device { IfErr result (λ e. e ≢ Disk) }
    ensures sound { IfErr result IsSound }
{
    let Some(dim) = config.differs(kept) else {
        return Ok(());
    };
    let dim = Word::new(alloc, dim)?.unwrap();
    Err(OpenFault::OtherConfig { dim })
}

// Checks that the documents were stored under these flags, and that the labels that they need exist.
#[tactic(auto, unfolding(crate::specs::Files::agrees))]
fn check_commit(
    alloc: Global,
    config: &FacetsConfig,
    labels: &Taxonomy,
    commit: &IndexCommit,
) -> Result<(), OpenFault>
    ensures ok { IfOk result (λ _. agrees config.now (length labels.now) (index_listing commit.now) ≡ Ok tt) }
    ensures needs { IfOk result (λ _. commit.now.needs ≤ length labels.now) }
    ensures err { IfErr result (λ e. e ≢ Memory → agrees config.now (length labels.now) (index_listing commit.now)
        ≡ Err e) }
    ensures device { IfErr result (λ e. e ≢ Disk) }
    ensures sound { IfErr result IsSound }
{
    check_flags(alloc, config, &commit.kept)?;
    let has = labels.size();
    if commit.needs > has {
        return Err(OpenFault::Uncovered {
            needs: commit.needs as u64,
            has: has as u64,
        });
    }
    Ok(())
}

/// Reads the index: the segments of its newest commit, or none. It reads the commit file and each of its segments once.
pub(crate) fn read_index<D: Disk>(
    alloc: Global,
    keys: RandomState,
    disk: &mut D,
    config: &FacetsConfig,
    labels: &Taxonomy,
    listed: &Names,
) -> Result<IndexRead, OpenFault>
    ensures ok { IfOk result (λ r. OfListed D.Disk listed.now disk.old (λ c.
        index_in config.now labels.now (newest_file Dir.Index c) (segments_in Dir.Index c)
        ≡ Ok (map arc_value r.segments.items))) }
    ensures newest { IfOk result (λ r. OfListed D.Disk listed.now disk.old
        (λ c. IsNewestIndex (newest_file Dir.Index c) r.number r.parts.items)) }
    ensures named { IfOk result (λ r. AllZip (IsNamedAs config.now labels.now) r.parts.items
        (map arc_value r.segments.items)) }
    ensures few { IfOk result (λ r. sum_by live_of r.parts.items ≤ 1000000) }
    ensures err { OfFiles result (λ e. OfListed D.Disk listed.now disk.old (λ c.
        index_in config.now labels.now (newest_file Dir.Index c) (segments_in Dir.Index c) ≡ Err e)) }
    ensures read { IsRead D.Disk disk.old disk.new result }
    ensures failed { FailsOnly D.Disk (λ c. AreListed c listed.now) disk.old disk.new result }
{
    let Some(found) = read_newest(alloc, disk, listed, Dir::Index)? else {
        return Ok(IndexRead {
            number: None,
            parts: Vec::new(alloc),
            segments: Vec::new(alloc),
        });
    };
    let commit = commit_of(alloc, keys, &found)?;
    check_commit(alloc, config, labels, &commit)?;
    let segments = read_document_parts(
        alloc,
        keys,
        disk,
        config,
        labels,
        commit.needs,
        listed,
        &commit.parts,
    )?;
    Ok(IndexRead {
        number: Some(found.number),
        parts: commit.parts,
        segments,
    })
}
