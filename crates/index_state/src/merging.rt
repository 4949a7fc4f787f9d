//! Segments that become one.
ghost use Rattle.std.specs.Prelude.{◌≡◌, ◌<◌, ◌≤◌, ℕ, List, [], ◌∷◌, IfOk, length, map};
ghost use Rattle.std.specs.Arc.{arc_value};
ghost use Rattle.facet_model.specs.Documents.{Doc};
ghost use Rattle.facet_model.specs.Flags.{Config};
ghost use Rattle.facet_model.specs.Stored.{Decodes};
ghost use Rattle.seg_documents.specs.Decoding.{records_in};
ghost use Rattle.seg_documents.specs.Storing.{IsStored};
ghost use Rattle.seg_merge.specs.Merged.{IsMergeOf};
ghost use Rattle.index_state.specs.Merging.{live_sizes};

use facet_names::NoMemory;
use seg_file::Segment;
use std::alloc::Global;
use std::hash::RandomState;
use std::sync::Arc;

/// How many live documents each segment has.
pub(crate) fn live_sizes(alloc: Global, segments: &[Arc<Segment>]) -> Result<Vec<u32>, NoMemory>
    ensures { IfOk result (λ v. v.items ≡ live_sizes (map arc_value segments.now)) }
{
    let mut sizes = Vec::with_capacity(alloc, segments.len())?;
    for segment in segments {
        sizes.push(segment.live())?;
    }
    Ok(sizes)
}

/// Returns one segment of the live documents of these segments, in their order, as [`seg_merge::merge`]. The segments
/// decode under some labels, and at least one document is live. Under all labels and configs under which they decode,
/// the merged segment decodes to the same documents.
///
/// It needs no lock and waits for nobody. Its time is that of writing the merged segment, with a lookup for each term
/// of each segment. Meanwhile it allocates memory for the terms with their places; the segments and the merged one are
/// in memory together.
pub fn merge_segments(
    alloc: Global,
    keys: RandomState,
    segments: &[Arc<Segment>],
) -> Result<Arc<Segment>, NoMemory>
    requires some { 0 < length (records_in (map arc_value segments.now)) }
    requires few { length (records_in (map arc_value segments.now)) ≤ 1000000 }
    requires decodes { (known : List (List (List ℕ))) × (config : Config) × (docs : List Doc)
        × Decodes known config (map arc_value segments.now) docs }
    ensures merge { IfOk result (λ m. IsMergeOf (map arc_value segments.now) (arc_value m)) }
    ensures documents { IfOk result (λ m. (known : List (List (List ℕ))) (config : Config) (docs : List Doc)
        → Decodes known config (map arc_value segments.now) docs → Decodes known config (arc_value m ∷ []) docs) }
    ensures own { IfOk result (λ m. IsStored (arc_value m)) }
{
    let merged = seg_merge::merge(alloc, keys, segments)?;
    Ok(Arc::new(alloc, merged)?)
}
