ghost use Rattle.std.specs.Prelude.{◌≡◌, ◌≢◌, ◌<◌, ◌≤◌, ◌++◌, ◌∷◌, [], false, true, ℕ, List, IfOk, IfErr, OnOk, OnErr};
ghost use Rattle.std.specs.Prelude.{flat_map, length, map, take};
ghost use Rattle.std.specs.Arc.{arc_value};
ghost use mathlib.Core.List.{IsPrefix};
ghost use Rattle.facet_names.specs.Labels.{prefixes};
ghost use Rattle.facet_model.specs.ConfigTexts.{config_texts};
ghost use Rattle.facet_model.specs.CountedPaths.{AreResolved};
ghost use Rattle.facet_model.specs.Flags.{Config};
ghost use Rattle.facet_model.specs.Histories.{add, docs, opened};
ghost use Rattle.facet_model.specs.Stored.{Decodes};
ghost use Rattle.chronicle.specs.History.{entries};
ghost use Rattle.chronicle.specs.Shown.{mine, MayEnter, MayTake, SameToken, SeesOn, EntersBehind};
ghost use Rattle.seg_documents.specs.Decoding.{records_in};
ghost use Rattle.seg_documents.specs.Entries.{IsEntry};
ghost use Rattle.seg_documents.specs.Storing.{IsStored, AreStored};
ghost use Rattle.taxo_cache.specs.Seen.{labels_of, SeesLabels};
ghost use Rattle.taxo_list.specs.declared.fault.TaxoFault.TheVariants.{NoMemory as ListNoMemory};
ghost use Rattle.taxo_adding.specs.Several.{AddsInTurn, IsFullForOne};
ghost use Rattle.index_state.specs.Index.{docs_under, DecodeUnder};
ghost use Rattle.index_state.specs.Frames.{index_frame};
ghost use Rattle.index_state.specs.declared.fault.AppendFault.TheVariants.{DocsFull};
ghost use Rattle.pair_manager.specs.Published.{ArePublications, publication_of, frame_of, pair_frame, StandsFor};
ghost use Rattle.pair_manager.specs.Published.{IsLast, IsNewest, seen_of};
ghost use Rattle.pair_manager.specs.Kept.{CoversAll};
ghost use Rattle.pair_manager.specs.Next.{Ends, GoOn, IsNext};
ghost use Rattle.pair_manager.specs.Passes.{IsOf, IsFirst, SamePass, all_seen};
ghost use Rattle.pair_manager.specs.Appended.{HasNoRoom, IsPlaced};
ghost use Rattle.pair_manager.specs.Merging.{AreShared, AreFrom, IsReplacedIn, IsMerged};
ghost use Rattle.pair_manager.specs.declared.merging.MergeScope.TheVariants.{All, Policy};

use crate::lease::Lease;
use crate::merging::{MergeScope, replace, share};
use crate::opening::open_both;
use crate::pair::Pair;
use crate::pass::Pass;
use crate::publication::Publication;
use crate::state::PairState;
use chronicle::{Chronicle, Token};
use facet_config::FacetsConfig;
use facet_model::Resolved;
use facet_names::{NoMemory, Path};
use index_state::{AppendFault, IndexState, IndexView, Operation, SegmentRange, merge_segments};
use seg_file::{Entry, Segment};
use std::alloc::Global;
use std::hash::RandomState;
use std::marker::Model;
use std::sync::{Arc, Wait};
use taxo_cache::Name;
use taxo_list::{TaxoFault, TaxoView};
use taxo_writer::{LabelList, TaxoWriter};

/// The numbers of the last published pair: operations, labels with the root, and documents.
#[derive(Drop, Clone, Copy, Debug, PartialEq, Eq)]
pub struct Stats {
    /// How many operations.
    pub operations: u64,
    /// How many labels, with the root.
    pub labels: u32,
    /// How many documents.
    pub documents: u32,
}

/// Publishes pairs, and hands out the last one, to callers on any threads. Each caller has a [`Pass`] of its own. The
/// manager has the writer of labels and the chronicles of the operations and of the pairs.
///
/// No call holds two locks, except [`refresh`](Manager::refresh), which takes that of the pairs before any other. So no
/// two callers wait for each other.
#[derive(Drop)]
pub struct Manager<N: Name> {
    alloc: Global,
    keys: RandomState,
    writer: TaxoWriter<N>,
    operations: Chronicle<IndexState>,
    pairs: Chronicle<PairState>,
}

impl<N: Name> Model for Manager<N> {
    ghost use Rattle.pair_manager.specs.Passes.{Managed};

    ghost Value = { Managed };

    ghost view = { λ m. record { writer = m.writer; operations = m.operations; pairs = m.pairs } };
}

impl<N: Name> Manager<N> {
    /// Makes a manager over the writer's labels, and publishes the pair of what was opened. Each opened document counts
    /// as added by session 0. Also returns the first tokens of the operations and of the pairs.
    ///
    /// Errors: out of memory.
    pub fn open(
        alloc: Global,
        keys: RandomState,
        writer: TaxoWriter<N>,
        labels: &mut Token<Path>,
        view: TaxoView,
        segments: Vec<Arc<Segment>>,
        config: Arc<FacetsConfig>,
        max_docs: u32,
    ) -> Result<(Manager<N>, Token<Operation>, Token<Publication>), NoMemory>
        requires own { labels.old.identity ≡ writer.labels }
        requires list { SeesLabels labels.old }
        requires view { view ≡ labels_of labels.old.seen }
        requires decodes { DecodeUnder labels.old (arc_value config) (map arc_value segments.items) }
        requires read { AreStored (map arc_value segments.items) }
        requires few { length (docs_under labels.old (map arc_value segments.items)) ≤ 1000000 }
        requires most { max_docs ≤ 1000000 }
        ensures labels { labels.new ≡ labels.old }
        ensures writer { IfOk result (λ r. r.0.writer ≡ writer) }
        ensures operations { IfOk result (λ r. IsFirst r.1 r.0.operations
            (opened (docs_under labels.old (map arc_value segments.items)))) }
        ensures pairs { IfOk result (λ r. IsFirst r.2 r.0.pairs (seen_of r.1 labels.old ∷ [])) }
        ensures right { IfOk result (λ r. ArePublications labels.old.seen r.1.seen (entries r.2.seen)) }
        ensures index_frame { IfOk result (λ r. r.1.frame ≡ index_frame (arc_value config) max_docs writer.labels) }
        ensures pair_frame { IfOk result (λ r. r.2.frame ≡ pair_frame (arc_value config) r.0.operations writer.labels) }
    {
        let (operations, first, pairs, token) = open_both(
            alloc, keys, &writer, labels, view, segments, config, max_docs,
        )?;
        let manager = Manager {
            alloc,
            keys,
            writer,
            operations,
            pairs,
        };
        Ok((manager, first, token))
    }

    /// Returns the writer of labels.
    pub fn writer(&self) -> &TaxoWriter<N>
        ensures { result.now ≡ self.now.writer }
    {
        &self.writer
    }

    /// Returns the chronicle of the operations.
    pub fn operations(&self) -> &Chronicle<IndexState>
        ensures { result.now ≡ self.now.operations }
    {
        &self.operations
    }

    /// Returns the chronicle of the publications.
    pub fn pairs(&self) -> &Chronicle<PairState>
        ensures { result.now ≡ self.now.pairs }
    {
        &self.pairs
    }

    /// Returns the index as it is, as [`IndexState::snapshot`] does. The token has then seen exactly its operations.
    ///
    /// Locks: that of the operations. In it, the documents that wait become a segment.
    ///
    /// Errors: out of memory.
    pub fn take_index<R: Wait>(
        &self,
        rt: &R,
        token: &mut Token<Operation>,
    ) -> Result<IndexView, NoMemory>
        requires own { token.old.identity ≡ self.now.operations }
        requires idle { MayTake token.old }
        requires tied { token.old.frame.identities ≡ self.now.writer.labels ∷ [] }
        ensures token { SameToken token.old token.new × (token.new.holds_turn ≡ false) }
        ensures more { SeesOn token.old token.new }
        ensures own { IfOk result (λ v. v.labels.identity ≡ self.now.writer.labels) }
        ensures labels { IfOk result (λ v. SeesLabels v.labels) }
        ensures operations { IfOk result (λ v. v.operations ≡ length token.new.seen) }
        ensures documents { IfOk result (λ v. v.documents ≡ length (docs (entries token.new.seen))) }
        ensures covers { IfOk result (λ v. CoversAll v.labels token.new) }
        ensures decodes { IfOk result (λ v. (config : Config) → config_texts config ≡ token.old.frame.texts
            → Decodes (labels_of v.labels.seen) config v.segments (docs (entries token.new.seen))) }
        ensures read { IfOk result (λ v. AreStored v.segments) }
    {
        let mut index = self.operations.take(rt, token);
        let view = index.snapshot(self.writer.labels());
        self.operations.give(token, index);
        view
    }

    // Shares the segments that are to be merged, under the lock of the operations, after the documents that wait have
    // become a segment.
    fn share_segments<R: Wait>(
        &self,
        rt: &R,
        token: &mut Token<Operation>,
        scope: MergeScope,
    ) -> Result<SegmentRange, NoMemory>
        requires own { token.old.identity ≡ self.now.operations }
        requires idle { MayTake token.old }
        requires tied { token.old.frame.identities ≡ self.now.writer.labels ∷ [] }
        ensures token { SameToken token.old token.new × (token.new.holds_turn ≡ false) }
        ensures more { SeesOn token.old token.new }
        ensures shared { IfOk result (λ r. AreShared self.now.writer.labels token.new r.labels r.before
            (map arc_value r.segments.items)) }
        ensures from { IfOk result (λ r. AreFrom scope token.new r.labels r.before (map arc_value r.segments.items)) }
        ensures some { IfOk result (λ r. 0 < length r.segments.items
            → 0 < length (records_in (map arc_value r.segments.items))) }
    {
        let mut index = self.operations.take(rt, token);
        let range = share(&mut index, self.writer.labels(), scope);
        self.operations.give(token, index);
        range
    }

    // Replaces segments that were shared before by their merged one, under the lock of the operations.
    fn replace_segments<R: Wait>(
        &self,
        rt: &R,
        token: &mut Token<Operation>,
        before: u64,
        labels: Token<Path>,
        merged: Arc<Segment>,
        scope: MergeScope,
    ) -> Result<(), NoMemory>
        requires own { token.old.identity ≡ self.now.operations }
        requires idle { MayTake token.old }
        requires tied { token.old.frame.identities ≡ self.now.writer.labels ∷ [] }
        requires note { labels.holds_turn ≡ false }
        requires shared { AreShared self.now.writer.labels token.old labels before (arc_value merged ∷ []) }
        requires read { IsStored (arc_value merged) }
        ensures token { SameToken token.old token.new × (token.new.holds_turn ≡ false) }
        ensures more { SeesOn token.old token.new }
        ensures replaced { OnOk result (IsReplacedIn scope before (arc_value merged) (entries token.new.seen)) }
    {
        let mut index = self.operations.take(rt, token);
        let done = replace(
            &mut index,
            self.writer.labels(),
            before,
            labels,
            merged,
            scope,
        );
        self.operations.give(token, index);
        done
    }

    // Shares the segments under the lock, merges them without it, and replaces them under the lock again.
    fn merge_scope<R: Wait>(
        &self,
        rt: &R,
        token: &mut Token<Operation>,
        scope: MergeScope,
    ) -> Result<(), NoMemory>
        requires own { token.old.identity ≡ self.now.operations }
        requires idle { MayTake token.old }
        requires tied { token.old.frame.identities ≡ self.now.writer.labels ∷ [] }
        ensures token { SameToken token.old token.new × (token.new.holds_turn ≡ false) }
        ensures more { SeesOn token.old token.new }
        ensures merged { OnOk result (IsMerged scope token.new) }
    {
        let SegmentRange {
            segments,
            before,
            labels,
        } = self.share_segments(rt, token, scope)?;
        if segments.len() < 2 {
            return Ok(());
        }
        let merged = merge_segments(self.alloc, self.keys, &segments)?;
        self.replace_segments(rt, token, before, labels, merged, scope)
    }

    /// Merges all segments into one. The documents that wait become a segment first. Documents and operations stay, and
    /// published pairs keep the segments that they have. With fewer than two segments nothing changes.
    ///
    /// Locks: that of the operations, twice: to share the segments, and to put the merged one in their place. It merges
    /// in between, as [`merge_segments`], and holds no lock: other sessions add and refresh meanwhile. What they add
    /// stays as further segments. If another merge has replaced the segments in between, all segments are merged under
    /// the second lock, and then others wait for it. All old segments and the merged one are in memory together.
    ///
    /// Errors: out of memory. The documents that waited may be a segment then, and nothing else has changed.
    pub fn merge<R: Wait>(&self, rt: &R, token: &mut Token<Operation>) -> Result<(), NoMemory>
        requires own { token.old.identity ≡ self.now.operations }
        requires idle { MayTake token.old }
        requires tied { token.old.frame.identities ≡ self.now.writer.labels ∷ [] }
        ensures token { SameToken token.old token.new × (token.new.holds_turn ≡ false) }
        ensures more { SeesOn token.old token.new }
        ensures merged { OnOk result (IsMerged All token.new) }
    {
        self.merge_scope(rt, token, MergeScope::All)
    }

    /// Merges the segments that the policy names, as [`IndexState::first_to_merge`]: from the first that has less than
    /// a third of the documents after it. The documents that wait become a segment first. If the policy names none,
    /// nothing else changes.
    ///
    /// Called after each of many additions, it leaves few segments and moves each document a few times.
    ///
    /// Locks: that of the operations, twice, as [`merge`](Manager::merge). If another merge has replaced the segments
    /// in between, it leaves the segments as they are and drops its own: adds of other sessions never wait for a merge.
    ///
    /// Errors: out of memory. The documents that waited may be a segment then, and nothing else has changed.
    pub fn merge_few<R: Wait>(&self, rt: &R, token: &mut Token<Operation>) -> Result<(), NoMemory>
        requires own { token.old.identity ≡ self.now.operations }
        requires idle { MayTake token.old }
        requires tied { token.old.frame.identities ≡ self.now.writer.labels ∷ [] }
        ensures token { SameToken token.old token.new × (token.new.holds_turn ≡ false) }
        ensures more { SeesOn token.old token.new }
        ensures merged { OnOk result (IsMerged Policy token.new) }
    {
        self.merge_scope(rt, token, MergeScope::Policy)
    }

    /// Returns the ordinals of the prefixes of each path, as [`TaxoWriter::resolve_each`] does. Missing labels are
    /// added.
    ///
    /// Locks: that of the labels, once, if any label is missing from the cache. It is not held afterwards.
    ///
    /// Errors: `LabelsFull`; out of memory. Labels that were added before stay.
    pub fn resolve_each<R: Wait>(
        &self,
        rt: &R,
        pass: &mut Pass,
        paths: &[Path],
    ) -> Result<Vec<Resolved>, TaxoFault>
        requires own { IsOf self.now pass.old }
        ensures same { SamePass pass.old pass.new }
        ensures rest { (pass.new.operations ≡ pass.old.operations) × (pass.new.pairs ≡ pass.old.pairs)
            × (pass.new.commits ≡ pass.old.commits) }
        ensures more { IsPrefix pass.old.labels.seen pass.new.labels.seen }
        ensures adds { AddsInTurn (flat_map prefixes paths.now) self.now.writer.limit pass.old.labels pass.new.labels }
        ensures resolved { IfOk result (λ v. AreResolved (labels_of pass.new.labels.seen) paths.now v.items) }
        ensures full { IfErr result (λ e. e ≢ ListNoMemory
            → IsFullForOne e self.now.writer.limit (labels_of pass.new.labels.seen) paths.now) }
    {
        self.writer.resolve_each(rt, &mut pass.labels, paths)
    }

    /// Adds the document of an entry after all others, as an operation of this session, and returns the operation's
    /// place, from 0. The entry has to be one under the labels that the pass has seen.
    ///
    /// Locks: that of the operations. In it, the document is only moved into memory, as by [`IndexState::append`].
    ///
    /// Errors: `DocsFull`; out of memory. Then no operation is entered.
    pub fn append<R: Wait>(
        &self,
        rt: &R,
        pass: &mut Pass,
        session: u32,
        entry: Entry,
    ) -> Result<u64, AppendFault>
        requires own { IsOf self.now pass.old }
        requires entry { (config : Config) → config_texts config ≡ pass.old.operations.frame.texts
            → IsEntry config (labels_of pass.old.labels.seen) entry }
        ensures same { SamePass pass.old pass.new }
        ensures rest { (pass.new.labels ≡ pass.old.labels) × (pass.new.pairs ≡ pass.old.pairs)
            × (pass.new.commits ≡ pass.old.commits) }
        ensures placed { IfOk result (λ at. IsPlaced at (record {
          session = session;
          change = add entry.doc;
        }) pass.old.operations pass.new.operations) }
        ensures none { OnErr result (SeesOn pass.old.operations pass.new.operations) }
        ensures full { IfErr result (λ e. (count : ℕ) → e ≡ DocsFull count
            → HasNoRoom (add entry.doc) count pass.new.operations) }
    {
        let operation = Operation::add(session, &entry.doc);
        let mut index = self.operations.take(rt, &mut pass.operations);
        match index.append(self.writer.labels(), &mut pass.labels, session, entry) {
            Ok(at) => {
                self.operations.enter(&mut pass.operations, operation);
                self.operations.give(&mut pass.operations, index);
                Ok(at)
            }
            Err(fault) => {
                self.operations.give(&mut pass.operations, index);
                Err(fault)
            }
        }
    }

    // Makes the next pair, of all operations and labels that there are. It shares the config of the last pair, and its
    // view if no label is new.
    fn make_pair<R: Wait>(
        &self,
        rt: &R,
        last: &PairState,
        labels: &mut Token<Path>,
        operations: &mut Token<Operation>,
    ) -> Result<Pair, NoMemory>
        requires own { (labels.old.identity ≡ self.now.writer.labels)
            × (operations.old.identity ≡ self.now.operations) }
        requires idle { MayTake labels.old × MayTake operations.old }
        requires list { SeesLabels labels.old }
        requires last { IsPrefix last.now.labels.seen labels.old.seen }
        requires tied { operations.old.frame.identities ≡ self.now.writer.labels ∷ [] }
        requires config { config_texts last.now.config ≡ operations.old.frame.texts }
        ensures tokens { GoOn labels.old labels.new operations.old operations.new }
        ensures next { IfOk result (IsNext last.now.config operations.new labels.new) }
    {
        let IndexView {
            segments,
            operations: count,
            documents,
            labels: noted,
        } = self.take_index(rt, operations)?;
        self.writer.meet(labels, noted);
        let view = self.writer.renew(rt, labels, last.pair.shared_view())?;
        let config = Arc::try_clone(last.pair.shared_config())?;
        Ok(Pair::new(
            view,
            segments,
            config,
            count,
            documents,
            self.operations.note(operations),
            self.writer.note(labels),
        ))
    }

    // Makes the next pair, with its notes once more.
    fn make_next<R: Wait>(
        &self,
        rt: &R,
        last: &PairState,
        labels: &mut Token<Path>,
        operations: &mut Token<Operation>,
    ) -> Result<PairState, NoMemory>
        requires own { (labels.old.identity ≡ self.now.writer.labels)
            × (operations.old.identity ≡ self.now.operations) }
        requires idle { MayTake labels.old × MayTake operations.old }
        requires list { SeesLabels labels.old }
        requires last { IsPrefix last.now.labels.seen labels.old.seen }
        requires tied { operations.old.frame.identities ≡ self.now.writer.labels ∷ [] }
        requires config { config_texts last.now.config ≡ operations.old.frame.texts }
        ensures tokens { GoOn labels.old labels.new operations.old operations.new }
        ensures next { IfOk result (IsNext last.now.config operations.new labels.new) }
    {
        let pair = self.make_pair(rt, last, labels, operations)?;
        PairState::new(
            self.alloc,
            pair,
            self.operations.note(operations),
            self.writer.note(labels),
        )
    }

    // Notes in the tokens what the last pair has.
    fn tell(
        &self,
        state: &mut PairState,
        labels: &mut Token<Path>,
        operations: &mut Token<Operation>,
    )
        requires own { (labels.old.identity ≡ self.now.writer.labels)
            × (operations.old.identity ≡ self.now.operations) }
        requires of { (state.old.labels.identity ≡ self.now.writer.labels)
            × (state.old.history.identity ≡ self.now.operations) }
        requires idle { MayTake labels.old × MayTake operations.old }
        requires list { SeesLabels labels.old }
        ensures state { state.new ≡ state.old }
        ensures labels { SameToken labels.old labels.new × (labels.new.holds_turn ≡ false) }
        ensures more_labels { SeesOn labels.old labels.new }
        ensures operations { SameToken operations.old operations.new × (operations.new.holds_turn ≡ false) }
        ensures more_operations { SeesOn operations.old operations.new }
        ensures told { IsPrefix state.old.history.seen operations.new.seen
            × IsPrefix state.old.labels.seen labels.new.seen }
        ensures list { SeesLabels labels.new }
    {
        let note = self.operations.note(&mut state.history);
        self.operations.meet(operations, note);
        let note = self.writer.note(&mut state.labels);
        self.writer.meet(labels, note);
    }

    // Takes the last pair, under the lock of the pairs. The tokens have then seen what it has.
    fn take_last<R: Wait>(
        &self,
        rt: &R,
        pairs: &mut Token<Publication>,
        labels: &mut Token<Path>,
        operations: &mut Token<Operation>,
    ) -> PairState
        requires own { (labels.old.identity ≡ self.now.writer.labels)
            × (operations.old.identity ≡ self.now.operations) }
        requires own_pairs { pairs.old.identity ≡ self.now.pairs }
        requires idle { MayTake labels.old × MayTake operations.old × MayTake pairs.old }
        requires list { SeesLabels labels.old }
        requires tied { pairs.old.frame.identities ≡ operations.old.identity ∷ labels.old.identity ∷ [] }
        ensures pairs { SameToken pairs.old pairs.new × (pairs.new.holds_turn ≡ true) }
        ensures more_pairs { SeesOn pairs.old pairs.new }
        ensures labels { SameToken labels.old labels.new × (labels.new.holds_turn ≡ false) }
        ensures more_labels { SeesOn labels.old labels.new }
        ensures operations { SameToken operations.old operations.new × (operations.new.holds_turn ≡ false) }
        ensures more_operations { SeesOn operations.old operations.new }
        ensures list { SeesLabels labels.new }
        ensures last { StandsFor result (entries pairs.new.seen) }
        ensures frame { frame_of result ≡ pairs.new.frame }
        ensures told { IsPrefix result.history.seen operations.new.seen × IsPrefix result.labels.seen labels.new.seen }
    {
        let mut last = self.pairs.take(rt, pairs);
        self.tell(&mut last, labels, operations);
        last
    }

    // Releases the lock of the pairs: publishes the next pair, or puts the last one back if none was made.
    fn end_turn(
        &self,
        pairs: &mut Token<Publication>,
        last: PairState,
        next: Result<PairState, NoMemory>,
    ) -> Result<u64, NoMemory>
        requires own { pairs.old.identity ≡ self.now.pairs }
        requires turn { MayEnter pairs.old }
        requires last { StandsFor last (entries pairs.old.seen) × (frame_of last ≡ pairs.old.frame) }
        requires next { IfOk next (λ p. StandsFor p (entries pairs.old.seen ++ publication_of p ∷ [])
            × (frame_of p ≡ pairs.old.frame)) }
        ensures pairs { SameToken pairs.old pairs.new × (pairs.new.holds_turn ≡ false) }
        ensures ended { Ends next result pairs.old pairs.new }
    {
        match next {
            Ok(next) => {
                let publication = next.publication();
                self.pairs.enter(pairs, publication);
                self.pairs.give(pairs, next);
                Ok(publication.operations)
            }
            Err(error) => {
                self.pairs.give(pairs, last);
                Err(error)
            }
        }
    }

    /// Publishes a pair of all operations and labels that there are, and returns the number of its operations. The pass
    /// has then seen exactly these.
    ///
    /// Locks: that of the pairs; in it, that of the operations and then that of the labels. So the labels cover the
    /// documents. The documents that wait become a segment first. Each new label is copied, and at most 4,095 others;
    /// other sessions can add documents meanwhile.
    ///
    /// The list of segments is shared with earlier pairs, as [`IndexState::snapshot`] says: it allocates eight bytes
    /// per new segment, per 256 segments, and per segment after the last full 256.
    ///
    /// Errors: out of memory. Then no pair is published.
    pub fn refresh<R: Wait>(&self, rt: &R, pass: &mut Pass) -> Result<u64, NoMemory>
        requires own { IsOf self.now pass.old }
        ensures same { SamePass pass.old pass.new }
        ensures labels { SeesOn pass.old.labels pass.new.labels }
        ensures operations { SeesOn pass.old.operations pass.new.operations }
        ensures pairs { IsPrefix pass.old.pairs.seen pass.new.pairs.seen }
        ensures commits { pass.new.commits ≡ pass.old.commits }
        ensures answer { IfOk result (λ n. n ≡ length pass.new.operations.seen) }
        ensures fresh { IfOk result (λ n. length pass.old.operations.seen ≤ n) }
        ensures covers { OnOk result (length (labels_of pass.old.labels.seen) ≤ (all_seen pass.new).labels) }
        ensures enters { OnOk result (EntersBehind (all_seen pass.new) pass.old.pairs pass.new.pairs) }
        ensures last { OnOk result (IsLast (all_seen pass.new) (entries pass.new.pairs.seen)) }
        ensures none { OnErr result (mine pass.new.pairs ≡ mine pass.old.pairs) }
    {
        let last = self.take_last(rt, &mut pass.pairs, &mut pass.labels, &mut pass.operations);
        let next = self.make_next(rt, &last, &mut pass.labels, &mut pass.operations);
        self.end_turn(&mut pass.pairs, last, next)
    }

    /// Returns the last published pair, which is no older than any that the pass had seen. The pass has then seen its
    /// operations and labels. It copies nothing.
    ///
    /// Locks: that of the pairs. So it waits for a refresh in progress.
    ///
    /// Errors: out of memory, if there are too many leases.
    pub fn acquire<R: Wait>(&self, rt: &R, pass: &mut Pass) -> Result<Lease, NoMemory>
        requires own { IsOf self.now pass.old }
        ensures same { SamePass pass.old pass.new }
        ensures labels { SeesOn pass.old.labels pass.new.labels }
        ensures operations { SeesOn pass.old.operations pass.new.operations }
        ensures pairs { SeesOn pass.old.pairs pass.new.pairs }
        ensures commits { pass.new.commits ≡ pass.old.commits }
        ensures last { IfOk result (λ lease. IsLast (publication_of lease) (entries pass.new.pairs.seen)) }
        ensures newest { IfOk result (λ lease. IsNewest (publication_of lease) (entries pass.new.pairs.seen)) }
        ensures told { IfOk result (λ l. IsPrefix l.history.seen pass.new.operations.seen
            × IsPrefix l.labels.seen pass.new.labels.seen) }
        ensures frame { IfOk result (λ lease. frame_of lease ≡ pass.old.pairs.frame) }
    {
        let last = self.take_last(rt, &mut pass.pairs, &mut pass.labels, &mut pass.operations);
        let pair = Arc::try_clone(&last.pair);
        self.pairs.give(&mut pass.pairs, last);
        match pair {
            Ok(pair) => Ok(Lease { pair }),
            Err(_) => Err(NoMemory),
        }
    }

    /// Returns the numbers of the last published pair. The pass has then seen its operations and labels. It allocates
    /// nothing.
    ///
    /// Locks: that of the pairs. So it waits for a refresh in progress.
    pub fn stats<R: Wait>(&self, rt: &R, pass: &mut Pass) -> Stats
        requires own { IsOf self.now pass.old }
        ensures same { SamePass pass.old pass.new }
        ensures labels { SeesOn pass.old.labels pass.new.labels }
        ensures operations { SeesOn pass.old.operations pass.new.operations }
        ensures pairs { SeesOn pass.old.pairs pass.new.pairs }
        ensures commits { pass.new.commits ≡ pass.old.commits }
        ensures last { IsLast (record {
          operations = result.operations;
          labels = result.labels;
        }) (entries pass.new.pairs.seen) }
        ensures newest { IsNewest (record {
          operations = result.operations;
          labels = result.labels;
        }) (entries pass.new.pairs.seen) }
        ensures documents { result.documents
            ≡ length (docs (take result.operations (entries pass.new.operations.seen))) }
        ensures told { (result.operations ≤ length pass.new.operations.seen)
            × (result.labels ≤ length (labels_of pass.new.labels.seen)) }
    {
        let last = self.take_last(rt, &mut pass.pairs, &mut pass.labels, &mut pass.operations);
        let Publication { operations, labels } = last.publication();
        let documents = last.pair.documents();
        self.pairs.give(&mut pass.pairs, last);
        Stats {
            operations,
            labels,
            documents,
        }
    }
}
