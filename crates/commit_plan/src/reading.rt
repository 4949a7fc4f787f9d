ghost use Rattle.std.specs.Prelude.{◌≡◌, ◌≤◌, ◌<◌, ◌^◌, ◌++◌, ◌∷◌, [], length, map, IfOk, OnOk};
ghost use Rattle.std.specs.Arc.{arc_value};
ghost use Rattle.std.specs.List.{AllZip};
ghost use Rattle.commit_file.specs.Commits.{AreInOrder};
ghost use Rattle.store_opening.specs.Newest.{IsNamedAs};
ghost use Rattle.commit_plan.specs.Committed.{kept_view};
ghost use Rattle.commit_plan.specs.Openings.{committed_read, kept_by};

use crate::state::{CommitState, StoredSegment};
use commit_file::LivePart;
use facet_config::FacetsConfig;
use facet_names::NoMemory;
use seg_file::Segment;
use std::alloc::Global;
use std::sync::Arc;
use store_opening::Newest;
use taxo_list::{Labelled, Taxonomy};

// Adds a segment with the name that a commit gives it.
fn push_stored(
    stored: &mut Vec<StoredSegment>,
    part: &LivePart,
    segment: &Arc<Segment>,
) -> Result<(), NoMemory>
    ensures { OnOk result (map kept_view stored.new.items ≡ map kept_view stored.old.items
        ++ (record { part = part.now.part; segment = arc_value segment.now }) ∷ []) }
{
    let segment = Arc::try_clone(segment)?;
    stored.push(StoredSegment {
        part: part.part,
        segment,
    })?;
    Ok(())
}

// Returns the segments with their names.
fn stored_segments(
    alloc: Global,
    parts: &[LivePart],
    segments: &[Arc<Segment>],
) -> Result<Vec<StoredSegment>, NoMemory>
    requires { length parts.now ≡ length segments.now }
    ensures { IfOk result (λ stored. map kept_view stored.items ≡ kept_by parts.now (map arc_value segments.now)) }
{
    let mut stored = Vec::new(alloc);
    for (at, part) in parts.iter().enumerate() {
        push_stored(&mut stored, part, &segments[at])?;
    }
    Ok(stored)
}

/// Returns what is known of the newest commits that were read. It shares the segments. Errors: out of memory.
pub fn state_of(
    alloc: Global,
    newest: Newest,
    config: &FacetsConfig,
    labels: &Taxonomy,
    segments: &[Arc<Segment>],
) -> Result<CommitState, NoMemory>
    requires some { 1 ≤ newest.next }
    requires room { newest.next ≤ 2 ^ 63 }
    requires order { AreInOrder (length labels.now) 1 newest.label_parts.items }
    requires many { length newest.label_parts.items < length labels.now }
    requires named { AllZip (IsNamedAs config.now labels.now) newest.document_parts.items (map arc_value segments.now) }
    ensures { IfOk result (λ state. state ≡ committed_read newest labels.now (map arc_value segments.now)) }
{
    let _ = config;
    let stored = stored_segments(alloc, &newest.document_parts, segments)?;
    Ok(CommitState {
        next: newest.next,
        listed: newest.listed,
        taxonomy: newest.taxonomy,
        label_parts: newest.label_parts,
        labels: labels.size(),
        index: newest.index,
        stored,
    })
}
