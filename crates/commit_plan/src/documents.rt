ghost use Rattle.std.specs.Prelude.{◌≡◌, ◌≤◌, ◌<◌, ◌+◌, ◌^◌, Some, length, map, not, IfOk, OnOk, IsTrue};
ghost use Rattle.std.specs.Arc.{arc_value};
ghost use Rattle.std.specs.List.{AllByRecursion};
ghost use Rattle.seg_documents.specs.Decoding.{records_in};
ghost use Rattle.seg_documents.specs.Storing.{AreStored};
ghost use Rattle.commit_plan.specs.Committed.{IsKept, kept_view, live_part, parts_in};
ghost use Rattle.commit_plan.specs.Drafts.{placed, with_index, is_index_left_out, index_drafted, index_number_from};
ghost use Rattle.commit_plan.specs.Drafts.{kept_from, IsIndexAgain};

use crate::draft::Draft;
use crate::matching::are_same;
use crate::placing::Placing;
use crate::state::{CommitState, StoredSegment};
use commit_file::{LivePart, write_index_commit};
use facet_config::FacetsConfig;
use facet_disk::{Dir, Kind};
use facet_names::NoMemory;
use seg_file::Segment;
use std::alloc::Global;
use std::sync::Arc;

/// The files of a commit so far, the number of the new commit of the index if there is one, and the segments of
/// documents.
#[derive(Drop)]
pub(crate) struct IndexDraft {
    pub draft: Draft,
    pub commit: Option<u64>,
    pub kept: Vec<StoredSegment>,
}

// Returns how a commit names a stored segment, and which of its records are no longer live.
fn live_part(alloc: Global, stored: &StoredSegment) -> Result<LivePart, NoMemory>
    ensures { IfOk result (λ part. part ≡ live_part (kept_view stored.now)) }
{
    let dead = Vec::from_slice(alloc, stored.segment.dead())?;
    Ok(LivePart {
        part: stored.part,
        dead,
    })
}

// Returns how a commit names the stored segments.
fn parts_of(alloc: Global, stored: &[StoredSegment]) -> Result<Vec<LivePart>, NoMemory>
    ensures { IfOk result (λ parts. parts.items ≡ parts_in (map kept_view stored.now)) }
{
    let mut parts = Vec::new(alloc);
    for segment in stored {
        let part = live_part(alloc, segment)?;
        parts.push(part)?;
    }
    Ok(parts)
}

// Returns the same segments, each with one owner more.
fn kept_again(alloc: Global, stored: &[StoredSegment]) -> Result<Vec<StoredSegment>, NoMemory>
    ensures { IfOk result (λ again. map kept_view again.items ≡ map kept_view stored.now) }
{
    let mut again = Vec::new(alloc);
    for segment in stored {
        let StoredSegment { part, segment } = segment;
        again.push(StoredSegment {
            part: *part,
            segment: Arc::try_clone(segment)?,
        })?;
    }
    Ok(again)
}

// Adds the new segments, and a commit that names all segments.
fn draft_new_index(
    alloc: Global,
    config: &FacetsConfig,
    needs: u32,
    state: &CommitState,
    segments: &[Arc<Segment>],
    draft: Draft,
) -> Result<IndexDraft, NoMemory>
    requires few { length (records_in (map arc_value segments.now)) ≤ 1000000 }
    requires own { AreStored (map arc_value segments.now) }
    requires some { 0 < draft.next }
    requires room { draft.next ≤ 2 ^ 63 + 2 }
    ensures draft { IfOk result (λ r. r.draft
        ≡ with_index config.now needs (placed state.now (map arc_value segments.now) draft)) }
    ensures commit { IfOk result (λ r. r.commit
        ≡ Some (placed state.now (map arc_value segments.now) draft).draft.next) }
    ensures kept { IfOk result (λ r. map kept_view r.kept.items
        ≡ (placed state.now (map arc_value segments.now) draft).kept) }
    ensures again { IfOk result (λ _. IsIndexAgain config.now needs
        (placed state.now (map arc_value segments.now) draft)) }
    ensures are { IfOk result (λ r. AllByRecursion IsKept (map kept_view r.kept.items)) }
{
    let mut placing = Placing::new(alloc, &state.stored, draft);
    placing.place_all(segments)?;
    let (mut draft, kept) = placing.finish();
    let parts = parts_of(alloc, &kept)?;
    let number = draft.next();
    let bytes = write_index_commit(alloc, number, needs, config, &parts)?;
    draft.put(Dir::Index, Kind::Pending, bytes)?;
    Ok(IndexDraft {
        draft,
        commit: Some(number),
        kept,
    })
}

/// Adds the new segments and a commit that names all segments. It adds nothing if the segments are the stored ones.
pub(crate) fn draft_index(
    alloc: Global,
    config: &FacetsConfig,
    needs: u32,
    state: &CommitState,
    segments: &[Arc<Segment>],
    draft: Draft,
) -> Result<IndexDraft, NoMemory>
    requires few { length (records_in (map arc_value segments.now)) ≤ 1000000 }
    requires own { AreStored (map arc_value segments.now) }
    requires some { 0 < draft.next }
    requires room { draft.next ≤ 2 ^ 63 + 2 }
    ensures draft { IfOk result (λ r. r.draft
        ≡ index_drafted config.now needs state.now (map arc_value segments.now) draft) }
    ensures commit { IfOk result (λ r. r.commit ≡ index_number_from draft state.now (map arc_value segments.now)) }
    ensures kept { IfOk result (λ r. map kept_view r.kept.items
        ≡ kept_from draft state.now (map arc_value segments.now)) }
    ensures again { IfOk result (λ _. IsTrue (not (is_index_left_out state.now (map arc_value segments.now)))
        → IsIndexAgain config.now needs (placed state.now (map arc_value segments.now) draft)) }
    ensures are { IfOk result (λ r. AllByRecursion IsKept (map kept_view r.kept.items)) }
{
    if are_same(&state.stored, segments) {
        let kept = kept_again(alloc, &state.stored)?;
        return Ok(IndexDraft {
            draft,
            commit: None,
            kept,
        });
    }
    let drafted = draft_new_index(alloc, config, needs, state, segments, draft)?;
    Ok(drafted)
}
