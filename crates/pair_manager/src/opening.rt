//! The first index and the first pair.
ghost use Rattle.std.specs.Prelude.{◌≡◌, ◌≤◌, [], ◌∷◌, IfOk, length, map};
ghost use Rattle.std.specs.Arc.{arc_value};
ghost use Rattle.facet_model.specs.Histories.{docs, opened};
ghost use Rattle.facet_model.specs.Stored.{Decodes};
ghost use Rattle.seg_documents.specs.Storing.{AreStored};
ghost use Rattle.chronicle.specs.History.{entries, numbered};
ghost use Rattle.chronicle.specs.Shown.{MayTake};
ghost use Rattle.taxo_cache.specs.Seen.{labels_of, SeesLabels};
ghost use Rattle.index_state.specs.Index.{StandsFor, docs_under, DecodeUnder};
ghost use Rattle.index_state.specs.Frames.{index_frame, frame_of};
ghost use Rattle.pair_manager.specs.Kept.{CoversAll};
ghost use Rattle.pair_manager.specs.Passes.{IsFirst};
ghost use Rattle.pair_manager.specs.Published.{ArePublications, pair_frame, seen_of};

use crate::pair::Pair;
use crate::publication::Publication;
use crate::state::PairState;
use chronicle::{Chronicle, Standing, Token};
use facet_config::FacetsConfig;
use facet_names::{NoMemory, Path};
use index_state::{IndexState, IndexView, Operation};
use seg_file::Segment;
use std::alloc::Global;
use std::hash::RandomState;
use std::sync::Arc;
use taxo_cache::Name;
use taxo_list::TaxoView;
use taxo_writer::{LabelList, TaxoWriter};

/// Makes the index of segments that were opened, as it is before the first operation.
///
/// Errors: out of memory.
pub fn open_index(
    alloc: Global,
    keys: RandomState,
    chronicle: &Chronicle<LabelList>,
    labels: &mut Token<Path>,
    segments: Vec<Arc<Segment>>,
    config: &Arc<FacetsConfig>,
    max_docs: u32,
) -> Result<(IndexState, IndexView), NoMemory>
    requires own { labels.old.identity ≡ chronicle.now }
    requires list { SeesLabels labels.old }
    requires decodes { DecodeUnder labels.old (arc_value config.now) (map arc_value segments.items) }
    requires read { AreStored (map arc_value segments.items) }
    requires few { length (docs_under labels.old (map arc_value segments.items)) ≤ 1000000 }
    requires most { max_docs ≤ 1000000 }
    ensures labels { labels.new ≡ labels.old }
    ensures docs { IfOk result (λ r. r.0.docs ≡ docs_under labels.old (map arc_value segments.items)) }
    ensures stands { IfOk result (λ r. StandsFor r.0 (opened r.0.docs)) }
    ensures frame { IfOk result (λ r. frame_of r.0 ≡ index_frame (arc_value config.now) max_docs chronicle.now) }
    ensures noted { IfOk result (λ r. (r.1.labels.seen ≡ labels.old.seen) × (r.1.labels.identity ≡ chronicle.now)) }
    ensures operations { IfOk result (λ r. r.1.operations ≡ length r.0.docs) }
    ensures documents { IfOk result (λ r. r.1.documents ≡ length r.0.docs) }
    ensures decodes { IfOk result (λ r. Decodes (labels_of labels.old.seen)
        (arc_value config.now) r.1.segments r.0.docs) }
{
    let note = chronicle.note(labels);
    let mut index = IndexState::open(
        alloc,
        keys,
        segments,
        note,
        Arc::try_clone(config)?,
        max_docs,
    )?;
    let view = index.snapshot(chronicle)?;
    Ok((index, view))
}

/// Makes a chronicle over the value, with its first token.
///
/// Errors: out of memory. Then the value is dropped.
pub fn open_chronicle<V: Standing + Drop>(
    alloc: Global,
    value: V,
) -> Result<(Chronicle<V>, Token<V::Entry>), NoMemory>
    requires { V.stands value (V.opening value) }
    ensures own { IfOk result (λ r. (r.1.identity ≡ r.0) × (r.1.frame ≡ V.frame value)) }
    ensures first { IfOk result (λ r. MayTake r.1 × (r.1.number ≡ 0) × (r.1.made ≡ 0)) }
    ensures seen { IfOk result (λ r. r.1.seen ≡ numbered 0 (V.opening value)) }
    ensures entries { IfOk result (λ r. entries r.1.seen ≡ V.opening value) }
{
    match Chronicle::open(alloc, value) {
        Ok(opened) => Ok(opened),
        Err(_) => Err(NoMemory),
    }
}

/// Makes the chronicle of the pairs. Its first pair has this view and this index, with notes of the labels and of the
/// operations.
///
/// Errors: out of memory.
pub fn open_pairs<N: Name>(
    alloc: Global,
    writer: &TaxoWriter<N>,
    labels: &mut Token<Path>,
    operations: &Chronicle<IndexState>,
    first: &mut Token<Operation>,
    view: TaxoView,
    taken: IndexView,
    config: Arc<FacetsConfig>,
) -> Result<(Chronicle<PairState>, Token<Publication>), NoMemory>
    requires own { (labels.old.identity ≡ writer.now.labels) × (first.old.identity ≡ operations.now) }
    requires list { SeesLabels labels.old }
    requires view { view ≡ labels_of labels.old.seen }
    requires count { taken.operations ≡ length first.old.seen }
    requires documents { taken.documents ≡ length (docs (entries first.old.seen)) }
    requires decodes { Decodes (labels_of labels.old.seen) (arc_value config) taken.segments
        (docs (entries first.old.seen)) }
    requires covers { CoversAll labels.old first.old }
    ensures labels { labels.new ≡ labels.old }
    ensures first { first.new ≡ first.old }
    ensures pairs { IfOk result (λ r. IsFirst r.1 r.0 (seen_of first.old labels.old ∷ [])) }
    ensures right { IfOk result (λ r. ArePublications labels.old.seen first.old.seen (entries r.1.seen)) }
    ensures frame { IfOk result (λ r. r.1.frame ≡ pair_frame (arc_value config) operations.now writer.now.labels) }
{
    let view = Arc::new(alloc, view)?;
    let pair = Pair::new(
        view,
        taken.segments,
        config,
        taken.operations,
        taken.documents,
        operations.note(first),
        writer.note(labels),
    );
    let state = PairState::new(alloc, pair, operations.note(first), writer.note(labels))?;
    open_chronicle(alloc, state)
}

/// Makes the chronicles of the operations and of the pairs, with their first tokens. The first pair is of what was
/// opened, over the writer's labels.
///
/// Errors: out of memory.
pub fn open_both<N: Name>(
    alloc: Global,
    keys: RandomState,
    writer: &TaxoWriter<N>,
    labels: &mut Token<Path>,
    view: TaxoView,
    segments: Vec<Arc<Segment>>,
    config: Arc<FacetsConfig>,
    max_docs: u32,
) -> Result<
    (
        Chronicle<IndexState>,
        Token<Operation>,
        Chronicle<PairState>,
        Token<Publication>,
    ),
    NoMemory,
>
    requires own { labels.old.identity ≡ writer.now.labels }
    requires list { SeesLabels labels.old }
    requires view { view ≡ labels_of labels.old.seen }
    requires decodes { DecodeUnder labels.old (arc_value config) (map arc_value segments.items) }
    requires read { AreStored (map arc_value segments.items) }
    requires few { length (docs_under labels.old (map arc_value segments.items)) ≤ 1000000 }
    requires most { max_docs ≤ 1000000 }
    ensures labels { labels.new ≡ labels.old }
    ensures operations { IfOk result (λ r. IsFirst r.1 r.0 (opened
        (docs_under labels.old (map arc_value segments.items)))) }
    ensures pairs { IfOk result (λ r. IsFirst r.3 r.2 (seen_of r.1 labels.old ∷ [])) }
    ensures right { IfOk result (λ r. ArePublications labels.old.seen r.1.seen (entries r.3.seen)) }
    ensures index_frame { IfOk result (λ r. r.1.frame ≡ index_frame (arc_value config) max_docs writer.now.labels) }
    ensures pair_frame { IfOk result (λ r. r.3.frame ≡ pair_frame (arc_value config) r.0 writer.now.labels) }
{
    let (index, taken) = open_index(
        alloc,
        keys,
        writer.labels(),
        labels,
        segments,
        &config,
        max_docs,
    )?;
    let (operations, mut first) = open_chronicle(alloc, index)?;
    let (pairs, token) = open_pairs(
        alloc,
        writer,
        labels,
        &operations,
        &mut first,
        view,
        taken,
        config,
    )?;
    Ok((operations, first, pairs, token))
}
