ghost use Rattle.std.specs.Prelude.{◌≡◌, ◌<◌, ◌≤◌, ◌+◌, ◌^◌, ℕ, length, map, IfOk, IfErr};
ghost use Rattle.std.specs.Arc.{arc_value};
ghost use Rattle.std.specs.List.{AllByRecursion};
ghost use Rattle.std.specs.Option.{option_or};
ghost use Rattle.commit_calls.specs.Outcomes.{file_view};
ghost use Rattle.commit_calls.specs.Plans.{IsPlan, Rises};
ghost use Rattle.facet_model.specs.Stored.{Decodes};
ghost use Rattle.commit_file.specs.Commits.{AreInOrder};
ghost use Rattle.seg_documents.specs.Decoding.{records_in, docs_in};
ghost use Rattle.seg_documents.specs.Storing.{AreStored};
ghost use Rattle.commit_plan.specs.declared.fault.CommitFault.TheVariants.{NumbersSpent};
ghost use Rattle.commit_plan.specs.Committed.{IsKept, kept_view};
ghost use Rattle.commit_plan.specs.Drafts.{last_number, committed_by};
ghost use Rattle.commit_plan.specs.Strays.{strays};
ghost use Rattle.commit_plan.specs.Plannings.{IsPlanOf, IsReadAgain, IsOutOf, LeadsOn};

use crate::documents::{IndexDraft, draft_index};
use crate::draft::Draft;
use crate::fault::CommitFault;
use crate::labels::{LabelsDraft, draft_labels};
use crate::names::{in_order, named_files, names_of, strays};
use crate::state::CommitState;
use commit_calls::Plan;
use facet_config::FacetsConfig;
use facet_names::NoMemory;
use seg_file::Segment;
use std::alloc::Global;
use std::sync::Arc;
use taxo_list::{Labelled, TaxoView};

// the numbers of files are below this one
const LIMIT: u64 = 0x8000_0000_0000_0000;

/// The disk calls of a commit, and what is known after them.
#[derive(Drop)]
pub struct Planned {
    /// The disk calls.
    pub plan: Plan,
    /// What is known of the newest commits once all calls are made.
    pub after: CommitState,
}

// Joins the drafted parts to a plan.
fn join_parts(
    alloc: Global,
    state: &CommitState,
    labels: LabelsDraft,
    index: IndexDraft,
) -> Result<Planned, NoMemory>
    requires order { AreInOrder labels.labels 1 labels.parts.items }
    requires few { length labels.parts.items < labels.labels }
    requires kept { AllByRecursion IsKept (map kept_view index.kept.items) }
    requires some { 1 ≤ index.draft.next }
    requires room { index.draft.next ≤ 2 ^ 63 }
    ensures numbers { IfOk result (λ p. (p.plan.from ≡ index.draft.from) × (p.plan.to ≡ index.draft.next)) }
    ensures files { IfOk result (λ p. map file_view p.plan.writes.items ≡ index.draft.files) }
    ensures rises { IfOk result (λ p. (p.plan.from ≤ p.plan.to) × Rises p.plan.from p.plan.to p.plan.writes.items) }
    ensures parts { IfOk result (λ p. (p.plan.taxonomy ≡ labels.commit) × (p.plan.index ≡ index.commit)) }
    ensures strays { IfOk result (λ p. p.plan.strays.items ≡ strays state.now.listed p.after.listed) }
    ensures after { IfOk result (λ p. p.after
        ≡ committed_by (option_or labels.commit state.now.taxonomy) labels.parts.items labels.labels
        (option_or index.commit state.now.index) (map kept_view index.kept.items) index.draft.next) }
{
    let taxonomy = labels.commit.or(state.taxonomy);
    let newest = index.commit.or(state.index);
    let named = named_files(alloc, taxonomy, &labels.parts, newest, &index.kept)?;
    let named = in_order(alloc, &named)?;
    let strays = strays(alloc, &state.listed, &named)?;
    let listed = names_of(alloc, &named)?;
    let next = index.draft.next();
    let plan = index.draft.into_plan(labels.commit, index.commit, strays);
    let after = CommitState {
        next,
        listed,
        taxonomy,
        label_parts: labels.parts,
        labels: labels.labels,
        index: newest,
        stored: index.kept,
    };
    Ok(Planned { plan, after })
}

/// Plans a commit of these labels and segments. It makes no disk call, and allocates all memory of the commit: the
/// bytes of its files, and the names of all files.
///
/// Costs: the bytes and the live records of the segments are compared with those of the stored ones, and the SHA-256
/// digest of each new file is computed.
///
/// Errors: `NumbersSpent` if a file would need a number of 2^63 or more; out of memory.
pub fn plan_commit(
    alloc: Global,
    config: &FacetsConfig,
    state: &CommitState,
    view: &TaxoView,
    segments: &[Arc<Segment>],
) -> Result<Planned, CommitFault>
    requires few { length (records_in (map arc_value segments.now)) ≤ 1000000 }
    requires own { AreStored (map arc_value segments.now) }
    requires decodes { Decodes view.now config.now (map arc_value segments.now)
        (docs_in view.now (map arc_value segments.now)) }
    ensures is_plan { IfOk result (λ p. IsPlan p.plan) }
    ensures leads { IfOk result (λ p. LeadsOn config.now state.now p.plan p.after view.now
        (map arc_value segments.now)) }
    ensures takes { IfOk result (λ p. (state.now.next ≤ p.after.next) × (p.after.next ≤ state.now.next + 1000003)) }
    ensures plan { IfOk result (λ p. IsPlanOf config.now state.now view.now
        (map arc_value segments.now) p.plan p.after) }
    ensures again { IfOk result (λ _. IsReadAgain config.now state.now view.now (map arc_value segments.now)) }
    ensures bound { IfErr result (λ e. (number : ℕ) → e ≡ NumbersSpent number → number < state.now.next + 1000003) }
    ensures err { IfErr result (IsOutOf (last_number config.now state.now view.now (map arc_value segments.now))) }
{
    let mut draft = Draft::new(alloc, state.next);
    let labels = draft_labels(alloc, state, view, &mut draft)?;
    let index = draft_index(alloc, config, view.size(), state, segments, draft)?;
    let to = index.draft.next();
    if to > LIMIT {
        return Err(CommitFault::NumbersSpent { number: to - 1 });
    }
    let planned = join_parts(alloc, state, labels, index)?;
    Ok(planned)
}
