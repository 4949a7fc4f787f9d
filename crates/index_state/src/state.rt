ghost use Rattle.std.specs.Prelude.{◌≡◌, ◌≢◌, ◌≤◌, ◌<◌, ◌+◌, ◌⊎◌, ◌++◌, [], ◌∷◌, true, false, Err, IfOk, IfErr, OnOk};
ghost use Rattle.std.specs.Prelude.{OnErr, List, length, map, take, drop};
ghost use Rattle.std.specs.Arc.{arc_value};
ghost use mathlib.Core.List.{IsPrefix};
ghost use Rattle.facet_model.specs.Histories.{Operation as Entered, opened};
ghost use Rattle.facet_model.specs.Stored.{Decodes};
ghost use Rattle.chronicle.specs.Shown.{IsNoteOf, SameToken, SeesOn};
ghost use Rattle.seg_documents.specs.Decoding.{records_in};
ghost use Rattle.seg_documents.specs.Entries.{IsEntry};
ghost use Rattle.seg_documents.specs.Storing.{IsStored, AreStored};
ghost use Rattle.merge_policy.specs.Tiers.{first_small};
ghost use Rattle.taxo_cache.specs.Seen.{labels_of, SeesLabels};
ghost use Rattle.index_state.specs.Index.{StandsFor, StandsForMore, docs_under, DecodeUnder};
ghost use Rattle.index_state.specs.Index.{IsAppended, IsFlushed};
ghost use Rattle.index_state.specs.Kept.{IsFirst};
ghost use Rattle.index_state.specs.Merging.{live_sizes, ComeAfter, IsRangeOf, HasNoPlace, IsInstalled};
ghost use Rattle.index_state.specs.declared.fault.AppendFault.TheVariants.{DocsFull, NoMemory as Memory};

use crate::fault::AppendFault;
use crate::flushing::{count_documents, flush, put_merged, share_all, shared_from, zeros};
use crate::merging::{live_sizes, merge_segments};
use crate::operation::Operation;
use crate::places::find_range;
use crate::range::SegmentRange;
use crate::view::IndexView;
use arc_list::ArcList;
use chronicle::{Chronicle, Standing, Token};
use facet_config::FacetsConfig;
use facet_names::{NoMemory, Path};
use merge_policy::merge_from;
use seg_file::{Entry, Segment};
use std::alloc::Global;
use std::hash::RandomState;
use std::marker::Model;
use std::sync::Arc;
use taxo_adding::LabelList;

/// The value of the operations chronicle, like Lucene's `IndexWriter` with a lock. The documents of its segments,
/// followed by those that wait in memory, are those of the history, under the labels that it has noted.
///
/// A document that waits is kept with its ordinals, until it becomes part of a segment and is bytes.
#[derive(Drop)]
pub struct IndexState {
    alloc: Global,
    keys: RandomState,
    segments: Vec<Arc<Segment>>,
    // the first of the segments, as the last snapshot shared them
    shared: ArcList<Segment>,
    waiting: Vec<Entry>,
    // of each operation: so far each adds a document
    sessions: Vec<u32>,
    config: Arc<FacetsConfig>,
    max_docs: u32,
    labels: Token<Path>,
    ghost begins: { IsFirst shared (map arc_value segments.items) },
}

impl Model for IndexState {
    ghost use Rattle.std.specs.Prelude.{map};
    ghost use Rattle.std.specs.Arc.{arc_value};
    ghost use Rattle.index_state.specs.Index.{Index, index_of};
    ghost use Rattle.index_state.specs.Kept.{IsKept};

    ghost Value = { Index };

    ghost view = { λ s. index_of (map arc_value s.segments.items) s.waiting.items s.sessions.items
        (arc_value s.config) s.max_docs s.labels };

    ghost invariant = { λ s. IsKept (arc_value s.config) s.labels
        (map arc_value s.segments.items) s.waiting.items s.sessions.items s.max_docs };
}

impl Standing for IndexState {
    ghost use Rattle.facet_model.specs.Histories.{opened};
    ghost use Rattle.index_state.specs.Index.{StandsFor};
    ghost use Rattle.index_state.specs.Frames.{frame_of};

    type Entry = Operation;

    ghost stands = { λ index history. StandsFor index history };

    ghost opening = { λ index. opened index.docs };

    ghost frame = { λ index. frame_of index };
}

// Adds a document that waits, with its session, after the others. Without memory for both, nothing changes.
fn add_waiting(
    sessions: &mut Vec<u32>,
    waiting: &mut Vec<Entry>,
    session: u32,
    entry: Entry,
) -> Result<(), AppendFault>
    ensures sessions { OnOk result (sessions.new.items ≡ sessions.old.items ++ session ∷ []) }
    ensures waiting { OnOk result (waiting.new.items ≡ waiting.old.items ++ entry ∷ []) }
    ensures unchanged { OnErr result ((sessions.new.items ≡ sessions.old.items)
        × (waiting.new.items ≡ waiting.old.items)) }
    ensures memory { IfErr result (λ e. e ≡ Memory) }
{
    sessions.reserve(1)?;
    waiting.reserve(1)?;
    sessions.push(session)?;
    waiting.push(entry)?;
    Ok(())
}

impl IndexState {
    /// Makes the index of segments that were opened, under labels that were noted. Each of their documents counts as
    /// added by session 0. It allocates four bytes per document.
    ///
    /// Errors: out of memory.
    pub fn open(
        alloc: Global,
        keys: RandomState,
        segments: Vec<Arc<Segment>>,
        labels: Token<Path>,
        config: Arc<FacetsConfig>,
        max_docs: u32,
    ) -> Result<IndexState, NoMemory>
        requires note { (labels.is_note ≡ true) × (labels.holds_turn ≡ false) }
        requires labels { SeesLabels labels }
        requires decodes { DecodeUnder labels (arc_value config) (map arc_value segments.items) }
        requires own { AreStored (map arc_value segments.items) }
        requires few { length (docs_under labels (map arc_value segments.items)) ≤ 1000000 }
        requires most { max_docs ≤ 1000000 }
        ensures docs { IfOk result (λ s. s.docs ≡ docs_under labels (map arc_value segments.items)) }
        ensures segments { IfOk result (λ s. (s.segments ≡ map arc_value segments.items) × (s.waiting ≡ 0)) }
        ensures labels { IfOk result (λ s. s.labels ≡ labels) }
        ensures config { IfOk result (λ s. (s.config ≡ arc_value config) × (s.max_docs ≡ max_docs)) }
        ensures stands { IfOk result (λ s. StandsFor s (opened s.docs)) }
    {
        let sessions = zeros(alloc, count_documents(&segments))?;
        Ok(IndexState {
            alloc,
            keys,
            segments,
            shared: ArcList::new(alloc),
            waiting: Vec::new(alloc),
            sessions,
            config,
            max_docs,
            labels,
        })
    }

    /// Adds a document of a session after all others and returns the place of this operation, from 0. The document's
    /// ordinals are those under the labels that `seen` has seen. The index has then noted these labels. The cost does
    /// not depend on how many documents there are.
    ///
    /// Errors: `DocsFull`; out of memory. Then nothing changes.
    pub fn append(
        &mut self,
        chronicle: &Chronicle<LabelList>,
        seen: &mut Token<Path>,
        session: u32,
        entry: Entry,
    ) -> Result<u64, AppendFault>
        requires own { (seen.old.identity ≡ chronicle.now) × (self.old.labels.identity ≡ chronicle.now) }
        requires labels { SeesLabels seen.old }
        requires entry { IsEntry self.old.config (labels_of seen.old.seen) entry }
        ensures seen { seen.new ≡ seen.old }
        ensures place { IfOk result (λ at. at ≡ length self.old.sessions) }
        ensures appended { OnOk result (IsAppended session entry.doc self.old self.new) }
        ensures stands { OnOk result (StandsForMore session entry.doc self.old self.new) }
        ensures noted { OnOk result (IsPrefix seen.old.seen self.new.labels.seen) }
        ensures full { self.old.max_docs ≤ length self.old.docs → result ≡ Err (DocsFull (length self.old.docs)) }
        ensures refused { IfErr result (λ e. e ≢ Memory → (e ≡ DocsFull (length self.old.docs))
            × (self.old.max_docs ≤ length self.old.docs)) }
        ensures unchanged { OnErr result (self.new ≡ self.old) }
    {
        let at = self.sessions.len() as u64;
        if at >= self.max_docs as u64 {
            return Err(AppendFault::DocsFull { count: at });
        }
        add_waiting(&mut self.sessions, &mut self.waiting, session, entry)?;
        let note = chronicle.note(seen);
        chronicle.meet(&mut self.labels, note);
        Ok(at)
    }

    /// Makes a segment of the documents that wait, and returns how many they are. If none waits, it makes no segment
    /// and allocates nothing. Otherwise it costs as much as [`Segment::build`] of these documents, whatever else the
    /// index has.
    ///
    /// Errors: out of memory. Then nothing changes.
    pub fn flush(&mut self) -> Result<u32, NoMemory>
        ensures many { IfOk result (λ n. n ≡ self.old.waiting) }
        ensures flushed { OnOk result (IsFlushed self.old self.new) }
        ensures unchanged { OnErr result (self.new ≡ self.old) }
    {
        let docs = flush(self.alloc, self.keys, &mut self.segments, &mut self.waiting)?;
        Ok(docs)
    }

    /// Returns the index as it is. The documents that wait become a segment first. All segments are shared and none is
    /// copied.
    ///
    /// The list of segments is shared with earlier snapshots in pieces of 256. So it allocates eight bytes per new
    /// segment, per 256 segments, and per segment after the last full piece, of which there are fewer than 256. Where
    /// segments were replaced since the last snapshot, it goes over all of them once.
    ///
    /// Errors: out of memory. The documents that waited may be a segment then.
    pub fn snapshot(&mut self, chronicle: &Chronicle<LabelList>) -> Result<IndexView, NoMemory>
        requires own { self.old.labels.identity ≡ chronicle.now }
        ensures rest { (self.new ≡ self.old) ⊎ IsFlushed self.old self.new }
        ensures flushed { OnOk result (IsFlushed self.old self.new) }
        ensures segments { IfOk result (λ v. v.segments ≡ self.new.segments) }
        ensures operations { IfOk result (λ v. v.operations ≡ length self.old.sessions) }
        ensures documents { IfOk result (λ v. v.documents ≡ length self.old.docs) }
        ensures note { IfOk result (λ v. IsNoteOf self.old.labels v.labels) }
        ensures labels { IfOk result (λ v. SeesLabels v.labels) }
        ensures decodes { IfOk result
            (λ v. Decodes (labels_of v.labels.seen) self.old.config v.segments self.old.docs) }
        ensures own { IfOk result (λ v. AreStored v.segments) }
    {
        self.flush()?;
        let segments = share_all(&mut self.shared, &self.segments)?;
        Ok(IndexView {
            segments,
            operations: self.sessions.len() as u64,
            documents: self.sessions.len() as u32,
            labels: chronicle.note(&mut self.labels),
        })
    }

    /// Replaces `count` segments from `first` on by one segment that has the same documents, such as their merge. All
    /// documents, and the operations that the index represents, stay as they are. It allocates nothing.
    pub fn install_merged(&mut self, first: usize, count: usize, merged: Arc<Segment>)
        requires some { 0 < count }
        requires range { first + count ≤ length self.old.segments }
        requires decodes { DecodeUnder self.old.labels self.old.config (arc_value merged ∷ []) }
        requires same { docs_under self.old.labels (arc_value merged ∷ [])
            ≡ docs_under self.old.labels (take count (drop first self.old.segments)) }
        requires own { IsStored (arc_value merged) }
        ensures list { self.new.segments ≡ take first self.old.segments
            ++ arc_value merged ∷ drop (first + count) self.old.segments }
        ensures rest { self.new ≡ record self.old { segments = self.new.segments } }
        ensures stands { (history : List Entered) → StandsFor self.old history → StandsFor self.new history }
    {
        self.shared = ArcList::new(self.alloc);
        put_merged(&mut self.segments, first, count, merged);
    }

    /// Returns the first segment that [`merge_from`] names: it becomes one with all segments after it. Where none is to
    /// be merged, it returns how many segments there are. A segment's size is the number of its live documents.
    ///
    /// It goes over the list of segments once, and allocates four bytes per segment.
    pub fn first_to_merge(&self) -> Result<usize, NoMemory>
        ensures first { IfOk result (λ n. n ≡ first_small (live_sizes self.now.segments)) }
        ensures within { IfOk result (λ n. n ≤ length self.now.segments) }
    {
        let sizes = live_sizes(self.alloc, &self.segments)?;
        Ok(merge_from(&sizes))
    }

    /// Shares the segments from `first` on, so that they can be merged without the index's lock. The index stays as it
    /// is.
    ///
    /// No segment is copied; it allocates eight bytes per segment.
    pub fn segments_from(
        &mut self,
        chronicle: &Chronicle<LabelList>,
        first: usize,
    ) -> Result<SegmentRange, NoMemory>
        requires own { self.old.labels.identity ≡ chronicle.now }
        requires within { first ≤ length self.old.segments }
        ensures index { self.new ≡ self.old }
        ensures range { IfOk result (λ r. IsRangeOf self.old first r.labels r.before (map arc_value r.segments.items)) }
    {
        let (segments, before) = shared_from(self.alloc, &self.segments, first)?;
        Ok(SegmentRange {
            segments,
            before,
            labels: chronicle.note(&mut self.labels),
        })
    }

    // Notes the labels that another note has seen as well.
    fn note_labels(&mut self, chronicle: &Chronicle<LabelList>, labels: Token<Path>)
        requires own { (self.old.labels.identity ≡ chronicle.now) × (labels.identity ≡ chronicle.now) }
        requires idle { labels.holds_turn ≡ false }
        requires list { SeesLabels labels }
        ensures rest { self.new ≡ record self.old { labels = self.new.labels } }
        ensures same { SameToken self.old.labels self.new.labels }
        ensures more { SeesOn self.old.labels self.new.labels }
        ensures noted { IsPrefix labels.seen self.new.labels.seen }
        ensures list { SeesLabels self.new.labels }
    {
        chronicle.meet(&mut self.labels, labels);
    }

    // Puts a merged segment in the place of the neighbours that have as many documents, with `before` documents before
    // theirs, where there are such neighbours.
    fn install_at(&mut self, before: u64, merged: Arc<Segment>) -> bool
        requires decodes { DecodeUnder self.old.labels self.old.config (arc_value merged ∷ []) }
        requires docs { ComeAfter before (docs_under self.old.labels (arc_value merged ∷ [])) self.old.docs }
        requires own { IsStored (arc_value merged) }
        ensures rest { self.new ≡ record self.old { segments = self.new.segments } }
        ensures installed { result ≡ true → IsInstalled before (arc_value merged) self.old.segments self.new.segments }
        ensures none { result ≡ false → (self.new.segments ≡ self.old.segments)
            × HasNoPlace before (length (records_in (arc_value merged ∷ []))) self.old.segments }
    {
        let many = merged.live() as u64;
        let place = find_range(self.segments(), before, many);
        match place {
            Some((first, count)) => {
                self.install_merged(first, count, merged);
                true
            }
            None => false,
        }
    }

    /// Puts a merged segment in the place of the segments that it was merged of, which were shared before, and returns
    /// whether it did. `before` and
    /// `labels` are those of their [`SegmentRange`]: the documents of the merged segment come after `before` others
    /// among all.
    ///
    /// The place is found by the number of documents. The history only grows, so neighbours that have as many
    /// documents, with as many before theirs, have the same documents. If another merge replaced segments in between,
    /// there may be none: then the segments stay. All documents, and the operations that the index represents, stay in
    /// either case; the labels that `labels` has seen are noted.
    ///
    /// It goes over the list of segments a few times. It reads no segment, compares no bytes and allocates nothing.
    pub fn try_install(
        &mut self,
        chronicle: &Chronicle<LabelList>,
        before: u64,
        labels: Token<Path>,
        merged: Arc<Segment>,
    ) -> bool
        requires own { (self.old.labels.identity ≡ chronicle.now) × (labels.identity ≡ chronicle.now) }
        requires idle { labels.holds_turn ≡ false }
        requires list { SeesLabels labels }
        requires decodes { DecodeUnder labels self.old.config (arc_value merged ∷ []) }
        requires docs { ComeAfter before (docs_under labels (arc_value merged ∷ [])) self.old.docs }
        requires read { IsStored (arc_value merged) }
        ensures rest { self.new ≡ record self.old { segments = self.new.segments; labels = self.new.labels } }
        ensures same { SameToken self.old.labels self.new.labels }
        ensures more { SeesOn self.old.labels self.new.labels }
        ensures noted { IsPrefix labels.seen self.new.labels.seen }
        ensures installed { result ≡ true → IsInstalled before (arc_value merged) self.old.segments self.new.segments }
        ensures none { result ≡ false → (self.new.segments ≡ self.old.segments)
            × HasNoPlace before (length (records_in (arc_value merged ∷ []))) self.old.segments }
        ensures stands { (history : List Entered) → StandsFor self.old history → StandsFor self.new history }
    {
        self.note_labels(chronicle, labels);
        self.install_at(before, merged)
    }

    // One segment of the documents of all segments.
    fn merged(&self) -> Result<Arc<Segment>, NoMemory>
        requires some { 0 < length self.now.segments }
        ensures decodes { IfOk result (λ m. DecodeUnder self.now.labels self.now.config (arc_value m ∷ [])) }
        ensures same { IfOk result (λ m. docs_under self.now.labels (arc_value m ∷ [])
            ≡ docs_under self.now.labels self.now.segments) }
        ensures own { IfOk result (λ m. IsStored (arc_value m)) }
    {
        merge_segments(self.alloc, self.keys, &self.segments)
    }

    /// Makes a segment of the documents that wait, and then one segment of all. All documents, and the operations that
    /// the index represents, stay.
    ///
    /// It costs what [`merge_segments`] costs, and whoever waits for the index's lock waits for all of it. To merge
    /// without the lock, use [`segments_from`](IndexState::segments_from) and [`try_install`](IndexState::try_install).
    ///
    /// Errors: out of memory. The documents that waited may be a segment then, and nothing else has changed.
    pub fn merge(&mut self) -> Result<(), NoMemory>
        ensures rest { self.new ≡ record self.old { segments = self.new.segments; waiting = self.new.waiting } }
        ensures one { OnOk result ((self.new.waiting ≡ 0) × (length self.new.segments ≤ 1)) }
        ensures failed { OnErr result ((self.new ≡ self.old) ⊎ IsFlushed self.old self.new) }
        ensures stands { (history : List Entered) → StandsFor self.old history → StandsFor self.new history }
    {
        let _ = self.flush()?;
        let count = self.segments().len();
        if count < 2 {
            return Ok(());
        }
        let merged = self.merged()?;
        self.install_merged(0, count, merged);
        Ok(())
    }

    /// Returns the segments of all documents except those that wait.
    pub fn segments(&self) -> &[Arc<Segment>]
        ensures segments { map arc_value result.now ≡ self.now.segments }
        ensures docs { self.now.waiting ≡ 0 → docs_under self.now.labels self.now.segments ≡ self.now.docs }
        ensures first { IsPrefix (docs_under self.now.labels self.now.segments) self.now.docs }
        ensures decodes { DecodeUnder self.now.labels self.now.config self.now.segments }
        ensures few { length (docs_under self.now.labels self.now.segments) ≤ 1000000 }
        ensures own { AreStored self.now.segments }
        ensures labels { SeesLabels self.now.labels }
    {
        &self.segments
    }

    /// Returns the session of each operation, in order. It allocates nothing.
    pub fn into_sessions(self) -> Vec<u32>
        ensures { result.items ≡ self.sessions }
    {
        self.sessions
    }
}
