//! What a merge does under the lock of the operations: first it shares segments, and later it replaces them by the
//! merged one.
ghost use Rattle.std.specs.Prelude.{◌≡◌, ◌≤◌, ◌⊎◌, false, [], ◌∷◌, List, IfOk, OnOk, length, map};
ghost use Rattle.std.specs.Arc.{arc_value};
ghost use Rattle.facet_model.specs.Histories.{Operation as Entered};
ghost use Rattle.seg_documents.specs.Storing.{IsStored};
ghost use Rattle.taxo_cache.specs.Seen.{SeesLabels};
ghost use Rattle.index_state.specs.Index.{StandsFor, DecodeUnder, docs_under, IsFlushed};
ghost use Rattle.index_state.specs.Frames.{frame_of};
ghost use Rattle.index_state.specs.Merging.{ComeAfter, IsRangeOf};
ghost use Rattle.pair_manager.specs.Merging.{first_in, IsReplaced};

use chronicle::{Chronicle, Token};
use facet_names::{NoMemory, Path};
use index_state::{IndexState, SegmentRange};
use seg_file::Segment;
use std::sync::Arc;
use taxo_writer::LabelList;

/// Which segments a merge makes one.
#[derive(Clone, Copy)]
pub(crate) enum MergeScope {
    /// All segments.
    All,
    /// Those that the merge policy names.
    Policy,
}

// Returns the first segment that becomes one with all segments after it.
fn first_in(index: &IndexState, scope: MergeScope) -> Result<usize, NoMemory>
    ensures first { IfOk result (λ n. n ≡ first_in scope index.now.segments) }
    ensures within { IfOk result (λ n. n ≤ length index.now.segments) }
{
    match scope {
        MergeScope::All => Ok(0),
        MergeScope::Policy => index.first_to_merge(),
    }
}

/// Shares the segments that are to be merged: all, or those from the policy's first one on. The documents that wait
/// become a segment first, also where there is no memory for the rest.
pub(crate) fn share(
    index: &mut IndexState,
    chronicle: &Chronicle<LabelList>,
    scope: MergeScope,
) -> Result<SegmentRange, NoMemory>
    requires own { index.old.labels.identity ≡ chronicle.now }
    ensures stands { (history : List Entered) → StandsFor index.old history → StandsFor index.new history }
    ensures frame { frame_of index.new ≡ frame_of index.old }
    ensures rest { (index.new ≡ index.old) ⊎ IsFlushed index.old index.new }
    ensures flushed { OnOk result (IsFlushed index.old index.new) }
    ensures range { IfOk result (λ r. IsRangeOf index.new (first_in scope index.new.segments) r.labels r.before
        (map arc_value r.segments.items)) }
{
    index.flush()?;
    let first = first_in(index, scope)?;
    index.segments_from(chronicle, first)
}

/// Puts a merged segment in the place of those that were shared. If another merge has replaced these in between, all
/// segments are merged now if all were to be merged, and otherwise they stay as they are.
pub(crate) fn replace(
    index: &mut IndexState,
    chronicle: &Chronicle<LabelList>,
    before: u64,
    labels: Token<Path>,
    merged: Arc<Segment>,
    scope: MergeScope,
) -> Result<(), NoMemory>
    requires own { (index.old.labels.identity ≡ chronicle.now) × (labels.identity ≡ chronicle.now) }
    requires idle { labels.holds_turn ≡ false }
    requires list { SeesLabels labels }
    requires decodes { DecodeUnder labels index.old.config (arc_value merged ∷ []) }
    requires docs { ComeAfter before (docs_under labels (arc_value merged ∷ [])) index.old.docs }
    requires read { IsStored (arc_value merged) }
    ensures stands { (history : List Entered) → StandsFor index.old history → StandsFor index.new history }
    ensures frame { frame_of index.new ≡ frame_of index.old }
    ensures replaced { OnOk result (IsReplaced scope before (arc_value merged) index.old index.new) }
{
    if index.try_install(chronicle, before, labels, merged) {
        return Ok(());
    }
    match scope {
        MergeScope::All => index.merge(),
        MergeScope::Policy => Ok(()),
    }
}
