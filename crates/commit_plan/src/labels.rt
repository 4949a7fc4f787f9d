ghost use Rattle.std.specs.Prelude.{◌≡◌, ◌≤◌, ◌<◌, ◌+◌, ◌^◌, IsTrue, Some, length, IfOk, OnOk};
ghost use Rattle.commit_file.specs.Commits.{AreInOrder};
ghost use Rattle.label_file.specs.LabelBytes.{labels_bytes};
ghost use Rattle.commit_plan.specs.Drafts.{with_labels, labels_drafted, label_parts_with, label_parts_from};
ghost use Rattle.commit_plan.specs.Drafts.{labels_after, labels_number_from, is_longer, AreLabelsAgain};

use crate::draft::Draft;
use crate::state::CommitState;
use commit_file::{LabelPart, digest_of, write_taxonomy_commit};
use facet_disk::{Dir, Kind};
use facet_names::NoMemory;
use label_file::write_labels;
use std::alloc::Global;
use taxo_list::{Labelled, TaxoView};

/// The number of the new commit of the taxonomy if there is one, how many labels there are, and the segments that hold
/// them.
#[derive(Drop)]
pub(crate) struct LabelsDraft {
    pub commit: Option<u64>,
    pub labels: u32,
    pub parts: Vec<LabelPart>,
}

// Returns the segments of labels with a new one.
fn with_new_part(
    alloc: Global,
    state: &CommitState,
    view: &TaxoView,
    number: u64,
    bytes: &[u8],
) -> Result<Vec<LabelPart>, NoMemory>
    requires longer { state.now.labels < length view.now }
    requires bytes { bytes.now ≡ labels_bytes view.now state.now.labels }
    ensures parts { IfOk result (λ parts. parts.items ≡ label_parts_with number state.now view.now) }
    ensures few { IfOk result (λ parts. length parts.items < length view.now) }
{
    let first = state.labels;
    let part = LabelPart {
        number,
        first,
        count: view.size() - first,
        digest: digest_of(bytes),
    };
    let mut parts = Vec::from_slice(alloc, &state.label_parts)?;
    parts.push(part)?;
    Ok(parts)
}

// Adds a segment of the new labels, and a commit that names it.
fn draft_new_labels(
    alloc: Global,
    state: &CommitState,
    view: &TaxoView,
    draft: &mut Draft,
) -> Result<LabelsDraft, NoMemory>
    requires longer { state.now.labels < length view.now }
    requires some { 0 < draft.old.next }
    requires room { draft.old.next ≤ 2 ^ 63 }
    ensures draft { OnOk result (draft.new ≡ with_labels state.now view.now draft.old) }
    ensures commit { IfOk result (λ r. r.commit ≡ Some (draft.old.next + 1)) }
    ensures count { IfOk result (λ r. r.labels ≡ length view.now) }
    ensures parts { IfOk result (λ r. r.parts.items ≡ label_parts_with draft.old.next state.now view.now) }
    ensures order { IfOk result (λ r. AreInOrder (length view.now) 1 r.parts.items) }
    ensures few { IfOk result (λ r. length r.parts.items < length view.now) }
    ensures again { OnOk result (AreLabelsAgain state.now view.now draft.old.next) }
{
    let first = state.labels;
    let Ok(bytes) = write_labels(alloc, view, first) else {
        return Err(NoMemory);
    };
    let parts = with_new_part(alloc, state, view, draft.next(), &bytes)?;
    draft.put(Dir::Taxonomy, Kind::Segment, bytes)?;
    let number = draft.next();
    let bytes = write_taxonomy_commit(alloc, number, view.size(), &parts)?;
    draft.put(Dir::Taxonomy, Kind::Pending, bytes)?;
    Ok(LabelsDraft {
        commit: Some(number),
        labels: view.size(),
        parts,
    })
}

/// Adds a segment of the new labels and a commit that names it. It adds nothing if no label is new.
pub(crate) fn draft_labels(
    alloc: Global,
    state: &CommitState,
    view: &TaxoView,
    draft: &mut Draft,
) -> Result<LabelsDraft, NoMemory>
    requires some { 0 < draft.old.next }
    requires room { draft.old.next ≤ 2 ^ 63 }
    ensures draft { OnOk result (draft.new ≡ labels_drafted state.now view.now draft.old) }
    ensures commit { IfOk result (λ r. r.commit ≡ labels_number_from draft.old.next state.now view.now) }
    ensures count { IfOk result (λ r. r.labels ≡ labels_after state.now view.now) }
    ensures parts { IfOk result (λ r. r.parts.items ≡ label_parts_from draft.old.next state.now view.now) }
    ensures order { IfOk result (λ r. AreInOrder (labels_after state.now view.now) 1 r.parts.items) }
    ensures few { IfOk result (λ r. length r.parts.items < labels_after state.now view.now) }
    ensures again { OnOk result (IsTrue (is_longer state.now view.now)
        → AreLabelsAgain state.now view.now draft.old.next) }
{
    if state.labels < view.size() {
        let drafted = draft_new_labels(alloc, state, view, draft)?;
        return Ok(drafted);
    }
    let parts = Vec::from_slice(alloc, &state.label_parts)?;
    Ok(LabelsDraft {
        commit: None,
        labels: state.labels,
        parts,
    })
}
