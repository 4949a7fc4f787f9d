ghost use Rattle.std.specs.Prelude.{◌≡◌, ◌≤◌, length};
ghost use Rattle.std.specs.Arc.{arc_value};
ghost use Rattle.facet_model.specs.Histories.{docs};
ghost use Rattle.facet_model.specs.Stored.{Decodes};
ghost use Rattle.seg_documents.specs.Decoding.{records_in};
ghost use Rattle.chronicle.specs.History.{entries};
ghost use Rattle.taxo_cache.specs.Seen.{labels_of, SeesLabels};
ghost use Rattle.pair_manager.specs.Published.{published};
ghost use Rattle.pair_manager.specs.Kept.{IsNote, IsPair, DecodesTo, CoversAll};

use arc_list::ArcList;
use chronicle::Token;
use facet_config::FacetsConfig;
use facet_names::Path;
use index_state::Operation;
use seg_file::Segment;
use std::marker::Model;
use std::sync::Arc;
use taxo_list::TaxoView;

/// A published pair of an index and a taxonomy. It never changes, and threads may share it. Its segments decode, under
/// its own view, to the documents of its operations.
///
/// It shares its segments with the pairs before it, the list of segments by pieces of 256, and its view if no label is
/// new.
#[derive(Drop)]
pub struct Pair {
    view: Arc<TaxoView>,
    segments: ArcList<Segment>,
    config: Arc<FacetsConfig>,
    operations: u64,
    documents: u32,
    history: Token<Operation>,
    labels: Token<Path>,
}

impl Model for Pair {
    ghost use Rattle.std.specs.Arc.{arc_value};
    ghost use Rattle.pair_manager.specs.Published.{Published, published};
    ghost use Rattle.pair_manager.specs.Kept.{IsKept};

    ghost Value = { Published };

    ghost view = { λ p. published p.history p.labels (arc_value p.config) p.segments };

    ghost invariant = { λ p. IsKept (published p.history p.labels (arc_value p.config) p.segments)
        (arc_value p.view) p.operations p.documents };
}

impl Pair {
    // The pair of this view and of the segments of so many operations and documents, with notes of these operations and
    // of the labels.
    pub(crate) fn new(
        view: Arc<TaxoView>,
        segments: ArcList<Segment>,
        config: Arc<FacetsConfig>,
        operations: u64,
        documents: u32,
        history: Token<Operation>,
        labels: Token<Path>,
    ) -> Pair
        requires notes { IsNote history × IsNote labels }
        requires list { SeesLabels labels }
        requires view { arc_value view ≡ labels_of labels.seen }
        requires operations { operations ≡ length history.seen }
        requires documents { documents ≡ length (docs (entries history.seen)) }
        requires decodes { DecodesTo labels (arc_value config) segments history }
        requires covers { CoversAll labels history }
        requires few { length (records_in segments) ≤ 1000000 }
        ensures pair { result ≡ published history labels (arc_value config) segments }
        ensures is { IsPair result }
    {
        Pair {
            view,
            segments,
            config,
            operations,
            documents,
            history,
            labels,
        }
    }

    /// Returns how many operations there were.
    pub fn operations(&self) -> u64
        ensures { result ≡ length self.now.history.seen }
    {
        self.operations
    }

    /// Returns how many documents there are, at most 1,000,000.
    pub fn documents(&self) -> u32
        ensures { result ≡ length (docs (entries self.now.history.seen)) }
    {
        self.documents
    }

    /// Returns the labels.
    pub fn view(&self) -> &TaxoView
        ensures { result.now ≡ labels_of self.now.labels.seen }
    {
        &self.view
    }

    // The view, for the next pair where it has no label more.
    pub(crate) fn shared_view(&self) -> &Arc<TaxoView>
        ensures { arc_value result.now ≡ labels_of self.now.labels.seen }
    {
        &self.view
    }

    /// Returns the segments, which have all documents.
    pub fn segments(&self) -> &ArcList<Segment>
        ensures segments { result.now ≡ self.now.segments }
        ensures decodes { DecodesTo self.now.labels self.now.config self.now.segments self.now.history }
        ensures few { length (records_in self.now.segments) ≤ 1000000 }
        ensures is { IsPair self.now }
    {
        &self.segments
    }

    /// Returns the config of the documents.
    pub fn config(&self) -> &FacetsConfig
        ensures { result.now ≡ self.now.config }
    {
        &self.config
    }

    // The config, for the next pair.
    pub(crate) fn shared_config(&self) -> &Arc<FacetsConfig>
        ensures { arc_value result.now ≡ self.now.config }
    {
        &self.config
    }
}
