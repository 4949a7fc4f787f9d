ghost use Rattle.std.specs.Prelude.{◌≡◌, ◌≢◌, ◌≤◌, ◌<◌, ◌+◌, ◌-◌, ◌^◌, ◌⊎◌, ℕ, [], true, false, length, take, map};
ghost use Rattle.std.specs.Prelude.{slice_get, flat_map, Some, IfOk, IfErr, OnOk};
ghost use Rattle.std.specs.Arc.{arc_value};
ghost use mathlib.Core.List.{IsPrefix};
ghost use Rattle.chronicle.specs.History.{longer};
ghost use Rattle.chronicle.specs.Shown.{mine, MayTake, SameToken, SeesOn, EndsWith, MakesOne, IsMadeFrom, IsNoteOf};
ghost use Rattle.chronicle.specs.Shown.{IsCounted};
ghost use Rattle.facet_names.specs.Labels.{place, prefixes};
ghost use Rattle.facet_model.specs.CountedPaths.{AreResolved};
ghost use Rattle.taxo_cache.specs.Seen.{labels_of, SeesLabels};
ghost use Rattle.taxo_cache.specs.declared.looked.Looked.TheVariants.{Hit};
ghost use Rattle.taxo_adding.specs.Adding.{HaveOrdinals, Adds, IsFull};
ghost use Rattle.taxo_adding.specs.Several.{AddsInTurn, EachHaveFirst, EachHaveOrdinals, IsFullForOne};
ghost use Rattle.taxo_list.specs.declared.fault.TaxoFault.TheVariants.{NoMemory as Memory};

use crate::viewing::renewed;
use chronicle::{Chronicle, Token};
use facet_model::Resolved;
use facet_names::{NoMemory, Path};
use label_pieces::Steps;
use std::alloc::Global;
use std::hash::RandomState;
use std::marker::Model;
use std::sync::ledger::Ledger;
use std::sync::{Arc, Wait};
use taxo_adding::{LabelList, add_behind_each, add_each};
use taxo_cache::{Looked, Memos, Name, Stripes};
use taxo_list::{TaxoFault, TaxoView, Taxonomy};

/// Gives ordinals to labels, for callers on any threads, each with its own token. It corresponds to Lucene's
/// `DirectoryTaxonomyWriter` with its cache of labels. Contracts see the identity of its labels chronicle, and how many
/// labels there may be.
///
/// A path whose prefixes are all in the cache is resolved without the lock of the labels. One that the token used
/// recently takes one look-up in a memo, whatever its length. No result depends on the cache.
#[derive(Drop)]
pub struct TaxoWriter<N: Name> {
    alloc: Global,
    labels: Chronicle<LabelList>,
    memos: Memos<N>,
    cache: Stripes<N>,
    limit: u32,
}

impl<N: Name> Model for TaxoWriter<N> {
    ghost use Rattle.std.specs.Prelude.{◌≡◌, ◌≤◌};
    ghost use Rattle.taxo_writer.specs.Writer.{Writer};

    ghost Value = { Writer };

    ghost view = { λ w. record { labels = w.labels; limit = w.limit } };

    ghost invariant = { λ w. (w.labels ≡ N.labels) × (w.limit ≤ 1000000) };
}

// the greatest capacity of a memo, in paths
const LATELY: u32 = 256;

// The ordinals of each path's first prefixes that are in the cache, and whether all are.
#[derive(Drop)]
struct Found {
    each: Vec<Resolved>,
    whole: bool,
}

// Returns whether all of a path's ordinals are known, and those of the paths before it.
fn is_whole(before: bool, known: usize, all: usize) -> bool
    ensures { result ≡ true → (before ≡ true) × (known ≡ all) }
{
    before && known == all
}

impl<N: Name> TaxoWriter<N> {
    /// Makes a writer over these labels, with a cache of `stripes` stripes of `cache` paths each, and as many memos of
    /// at most 256 paths each. `limit` counts the root too. If there are more labels already, they stay, and none can
    /// be added.
    ///
    /// Errors: out of memory.
    pub fn open(
        alloc: Global,
        keys: RandomState,
        labels: Chronicle<LabelList>,
        first: &mut Token<Path>,
        stripes: u32,
        cache: u32,
        limit: u32,
    ) -> Result<TaxoWriter<N>, NoMemory>
        requires name { labels ≡ N.labels }
        requires own { first.old.identity ≡ labels }
        requires labels { SeesLabels first.old }
        requires some { (1 ≤ stripes) × (1 ≤ cache) }
        requires limit { limit ≤ 1000000 }
        ensures first { first.new ≡ first.old }
        ensures writer { IfOk result (λ w. w ≡ record { labels = labels; limit = limit }) }
    {
        let memos = Memos::new(alloc, &labels, first, stripes, cache.min(LATELY))?;
        let cache = Stripes::new(alloc, keys, &labels, first, stripes, cache)?;
        Ok(TaxoWriter {
            alloc,
            labels,
            memos,
            cache,
            limit,
        })
    }

    // Returns the ordinal of the first `len` components of the path, if the cache has it. It copies a shorter path for
    // the look-up.
    fn look_at<R: Wait>(
        &self,
        rt: &R,
        token: &mut Token<Path>,
        path: &Path,
        len: usize,
    ) -> Result<Looked, NoMemory>
        requires own { token.old.identity ≡ self.now.labels }
        requires idle { MayTake token.old }
        requires some { 0 < len }
        requires within { len ≤ length path.now }
        ensures token { SameToken token.old token.new × SeesOn token.old token.new × (token.new.holds_turn ≡ false) }
        ensures labels { SeesLabels token.old → SeesLabels token.new }
        ensures counted { IsCounted token.old → IsCounted token.new }
        ensures hit { IfOk result (λ l. (ord : ℕ) → l ≡ Hit ord
            → place (labels_of token.new.seen) (take len path.now) ≡ Some ord) }
    {
        if len == path.len() {
            return Ok(self.cache.look(rt, &self.labels, token, path));
        }
        let prefix = path.front(self.alloc, len)?;
        Ok(self.cache.look(rt, &self.labels, token, &prefix))
    }

    // Returns the ordinals of the path's first prefixes, as far as the stripes have them.
    fn find_shared<R: Wait>(
        &self,
        rt: &R,
        token: &mut Token<Path>,
        path: &Path,
    ) -> Result<Vec<u32>, NoMemory>
        requires own { token.old.identity ≡ self.now.labels }
        requires idle { MayTake token.old }
        ensures token { SameToken token.old token.new × SeesOn token.old token.new × (token.new.holds_turn ≡ false) }
        ensures labels { SeesLabels token.old → SeesLabels token.new }
        ensures counted { IsCounted token.old → IsCounted token.new }
        ensures known { IfOk result (λ v. HaveOrdinals (labels_of token.new.seen)
            (take (length v.items) (prefixes path.now)) v.items) }
    {
        let mut ords = Vec::with_capacity(self.alloc, path.len())?;
        for n in 0..path.len() {
            let found = self.look_at(rt, token, path, n + 1)?;
            match found {
                Looked::Hit(ord) => ords.push(ord)?,
                Looked::Miss => return Ok(ords),
            }
        }
        Ok(ords)
    }

    // Does the same, from the token's memo if that has the path.
    fn find_known<R: Wait>(
        &self,
        rt: &R,
        token: &mut Token<Path>,
        path: &Path,
    ) -> Result<Vec<u32>, NoMemory>
        requires own { token.old.identity ≡ self.now.labels }
        requires idle { MayTake token.old }
        requires labels { SeesLabels token.old }
        ensures token { SameToken token.old token.new × SeesOn token.old token.new × (token.new.holds_turn ≡ false) }
        ensures labels { SeesLabels token.new }
        ensures counted { IsCounted token.old → IsCounted token.new }
        ensures known { IfOk result (λ v. HaveOrdinals (labels_of token.new.seen)
            (take (length v.items) (prefixes path.now)) v.items) }
    {
        if let Some(ords) = self.memos.look(rt, &self.labels, token, path)? {
            return Ok(ords);
        }
        let ords = self.find_shared(rt, token, path)?;
        if ords.len() != path.len() {
            return Ok(ords);
        }
        self.memos.offer(rt, &self.labels, token, path, &ords);
        Ok(ords)
    }

    // Takes the lock of the labels, adds the missing prefixes, and releases it.
    fn add_missing<R: Wait>(
        &self,
        rt: &R,
        token: &mut Token<Path>,
        path: &Path,
        ords: &mut Vec<u32>,
    ) -> Result<(), TaxoFault>
        requires own { token.old.identity ≡ self.now.labels }
        requires idle { MayTake token.old }
        requires known { HaveOrdinals (labels_of token.old.seen)
            (take (length ords.old.items) (prefixes path.now)) ords.old.items }
        ensures token { SameToken token.old token.new × (token.new.holds_turn ≡ false) }
        ensures labels { SeesLabels token.new }
        ensures counted { IsCounted token.new }
        ensures adds { Adds path.now self.now.limit token.old token.new }
        ensures ordinals { OnOk result (HaveOrdinals (labels_of token.new.seen) (prefixes path.now) ords.new.items) }
        ensures full { IfErr result (λ e. e ≢ Memory → IsFull e self.now.limit (labels_of token.new.seen) path.now) }
    {
        let mut list = self.labels.take(rt, token).into_list();
        let added = add_each(
            self.alloc,
            &self.labels,
            token,
            &mut list,
            path,
            ords,
            self.limit,
        );
        self.labels.give(token, LabelList::new(list));
        added
    }

    // Stores the ordinal of the first `len` components of the path, if there is memory.
    fn remember_at<R: Wait>(
        &self,
        rt: &R,
        token: &mut Token<Path>,
        path: &Path,
        len: usize,
        ord: u32,
    )
        requires own { token.old.identity ≡ self.now.labels }
        requires labels { SeesLabels token.old }
        requires some { 0 < len }
        requires within { len ≤ length path.now }
        requires there { place (labels_of token.old.seen) (take len path.now) ≡ Some ord }
        ensures token { token.new ≡ token.old }
    {
        if len == path.len() {
            self.cache.remember(rt, &self.labels, token, path, ord);
        } else if let Ok(prefix) = path.front(self.alloc, len) {
            self.cache.remember(rt, &self.labels, token, &prefix, ord);
        }
    }

    // Stores the ordinals of the path's prefixes from a place on, if there is memory.
    fn remember_from<R: Wait>(
        &self,
        rt: &R,
        token: &mut Token<Path>,
        path: &Path,
        ords: &[u32],
        from: usize,
    )
        requires own { token.old.identity ≡ self.now.labels }
        requires labels { SeesLabels token.old }
        requires ordinals { HaveOrdinals (labels_of token.old.seen) (prefixes path.now) ords.now }
        ensures token { token.new ≡ token.old }
    {
        for n in from..ords.len() {
            self.remember_at(rt, token, path, n + 1, ords[n]);
        }
    }

    /// Returns the ordinals of a path's prefixes, the dimension's first. It adds missing prefixes, the shortest first.
    ///
    /// Locks: that of a memo, then those of stripes, one at a time. If a prefix is missing there, that of the labels,
    /// once; no lock of the cache is held then. It looks the path up in the token's memo first, and then one prefix
    /// after the other in the stripes. A path that is not in the memo needs a copy of each shorter prefix.
    ///
    /// Errors: `LabelsFull` if a prefix is missing and the list is full; out of memory. Prefixes that were added before
    /// stay.
    pub fn resolve<R: Wait>(
        &self,
        rt: &R,
        token: &mut Token<Path>,
        path: &Path,
    ) -> Result<Resolved, TaxoFault>
        requires own { token.old.identity ≡ self.now.labels }
        requires idle { MayTake token.old }
        requires labels { SeesLabels token.old }
        ensures token { SameToken token.old token.new × (token.new.holds_turn ≡ false) }
        ensures more { IsPrefix token.old.seen token.new.seen }
        ensures labels { SeesLabels token.new }
        ensures adds { Adds path.now self.now.limit token.old token.new }
        ensures places { IfOk result (HaveOrdinals (labels_of token.new.seen) (prefixes path.now)) }
        ensures ordinals { IfOk result (λ r. map (slice_get (labels_of token.new.seen)) r
            ≡ map Some (prefixes path.now)) }
        ensures full { IfErr result (λ e. e ≢ Memory → IsFull e self.now.limit (labels_of token.new.seen) path.now) }
        ensures counted { IsCounted token.old → IsCounted token.new }
    {
        let mut ords = self.find_known(rt, token, path)?;
        let known = ords.len();
        if known == path.len() {
            return Ok(Resolved::new(ords));
        }
        self.add_missing(rt, token, path, &mut ords)?;
        self.remember_from(rt, token, path, &ords, known);
        Ok(Resolved::new(ords))
    }

    // Returns the ordinals of each path's first prefixes, as far as the cache has them.
    fn find_each<R: Wait>(
        &self,
        rt: &R,
        token: &mut Token<Path>,
        paths: &[Path],
    ) -> Result<Found, NoMemory>
        requires own { token.old.identity ≡ self.now.labels }
        requires idle { MayTake token.old }
        requires labels { SeesLabels token.old }
        ensures token { SameToken token.old token.new × SeesOn token.old token.new × (token.new.holds_turn ≡ false) }
        ensures labels { SeesLabels token.new }
        ensures counted { IsCounted token.old → IsCounted token.new }
        ensures first { IfOk result (λ f. EachHaveFirst (labels_of token.new.seen) paths.now f.each.items) }
        ensures whole { IfOk result (λ f. f.whole ≡ true
            → EachHaveOrdinals (labels_of token.new.seen) paths.now f.each.items) }
    {
        let mut each = Vec::with_capacity(self.alloc, paths.len())?;
        let mut whole = true;
        for path in paths {
            let ords = self.find_known(rt, token, path)?;
            whole = is_whole(whole, ords.len(), path.len());
            each.push(Resolved::new(ords))?;
        }
        Ok(Found { each, whole })
    }

    // Takes the lock of the labels once, adds the missing prefixes, path by path, and releases it.
    fn add_missing_each<R: Wait>(
        &self,
        rt: &R,
        token: &mut Token<Path>,
        paths: &[Path],
        found: &[Resolved],
    ) -> Result<Vec<Resolved>, TaxoFault>
        requires own { token.old.identity ≡ self.now.labels }
        requires idle { MayTake token.old }
        requires labels { SeesLabels token.old }
        requires known { EachHaveFirst (labels_of token.old.seen) paths.now found.now }
        ensures token { SameToken token.old token.new × (token.new.holds_turn ≡ false) }
        ensures more { IsPrefix token.old.seen token.new.seen }
        ensures labels { SeesLabels token.new }
        ensures counted { IsCounted token.old → IsCounted token.new }
        ensures adds { AddsInTurn (flat_map prefixes paths.now) self.now.limit token.old token.new }
        ensures ordinals { IfOk result (λ v. EachHaveOrdinals (labels_of token.new.seen) paths.now v.items) }
        ensures full { IfErr result (λ e. e ≢ Memory
            → IsFullForOne e self.now.limit (labels_of token.new.seen) paths.now) }
    {
        let resolved = Vec::with_capacity(self.alloc, paths.len())?;
        let mut list = self.labels.take(rt, token).into_list();
        let added = add_behind_each(
            self.alloc,
            &self.labels,
            token,
            &mut list,
            paths,
            found,
            resolved,
            self.limit,
        );
        self.labels.give(token, LabelList::new(list));
        added
    }

    // Stores the ordinals of each path's prefixes after those that were found, if there is memory.
    fn remember_each<R: Wait>(
        &self,
        rt: &R,
        token: &mut Token<Path>,
        paths: &[Path],
        found: &[Resolved],
        resolved: &[Resolved],
    )
        requires own { token.old.identity ≡ self.now.labels }
        requires labels { SeesLabels token.old }
        requires as_many { length found.now ≡ length paths.now }
        requires ordinals { EachHaveOrdinals (labels_of token.old.seen) paths.now resolved.now }
        ensures token { token.new ≡ token.old }
    {
        for at in 0..paths.len() {
            let known = found[at].prefixes().len();
            self.remember_from(rt, token, &paths[at], resolved[at].prefixes(), known);
        }
    }

    /// Returns the ordinals of the prefixes of each path, path by path, as [`resolve`](TaxoWriter::resolve) does.
    ///
    /// Locks: those of the cache, for all paths first. If a prefix is missing there, that of the labels, once for all
    /// paths.
    ///
    /// Errors: those of `resolve`. Labels that were added before stay. So for each added label, all prefixes of the
    /// paths before its own are earlier labels.
    pub fn resolve_each<R: Wait>(
        &self,
        rt: &R,
        token: &mut Token<Path>,
        paths: &[Path],
    ) -> Result<Vec<Resolved>, TaxoFault>
        requires own { token.old.identity ≡ self.now.labels }
        requires idle { MayTake token.old }
        requires labels { SeesLabels token.old }
        ensures token { SameToken token.old token.new × (token.new.holds_turn ≡ false) }
        ensures more { IsPrefix token.old.seen token.new.seen }
        ensures labels { SeesLabels token.new }
        ensures adds { AddsInTurn (flat_map prefixes paths.now) self.now.limit token.old token.new }
        ensures resolved { IfOk result (λ v. AreResolved (labels_of token.new.seen) paths.now v.items) }
        ensures full { IfErr result (λ e. e ≢ Memory
            → IsFullForOne e self.now.limit (labels_of token.new.seen) paths.now) }
        ensures counted { IsCounted token.old → IsCounted token.new }
    {
        let found = self.find_each(rt, token, paths)?;
        if found.whole {
            return Ok(found.each);
        }
        let resolved = match self.add_missing_each(rt, token, paths, &found.each) {
            Ok(resolved) => resolved,
            Err(fault) => return Err(fault),
        };
        self.remember_each(rt, token, paths, &found.each, &resolved);
        Ok(resolved)
    }

    /// Returns the view of exactly what the token has then seen. It copies every label, so it takes time and memory
    /// proportional to the whole list.
    ///
    /// Locks: that of the labels, while it copies. Errors: out of memory.
    pub fn snapshot<R: Wait>(&self, rt: &R, token: &mut Token<Path>) -> Result<TaxoView, NoMemory>
        requires own { token.old.identity ≡ self.now.labels }
        requires idle { MayTake token.old }
        ensures token { SameToken token.old token.new × (token.new.holds_turn ≡ false) }
        ensures more { SeesOn token.old token.new }
        ensures labels { SeesLabels token.new }
        ensures view { IfOk result (λ v. v ≡ labels_of token.new.seen) }
        ensures counted { IsCounted token.new }
    {
        let list = self.labels.take(rt, token).into_list();
        let view = list.view();
        self.labels.give(token, LabelList::new(list));
        view
    }

    /// Returns the view of exactly what the token has then seen, as [`snapshot`](TaxoWriter::snapshot) does, given an
    /// earlier view. The two share the labels that the earlier one has. It copies each new label, and at most 4,095
    /// others: on average 8 per new label if a view is taken after each. Each copy of a label counts as a step.
    ///
    /// Locks: that of the labels, while it copies. Errors: out of memory.
    pub fn snapshot_from<L: Ledger, R: Wait>(
        &self,
        rt: &R,
        token: &mut Token<Path>,
        last: &TaxoView,
        steps: &mut Steps<L>,
    ) -> Result<TaxoView, NoMemory>
        requires own { token.old.identity ≡ self.now.labels }
        requires idle { MayTake token.old }
        requires last { IsPrefix last.now (labels_of token.old.seen) }
        ensures token { SameToken token.old token.new × (token.new.holds_turn ≡ false) }
        ensures more { SeesOn token.old token.new }
        ensures labels { SeesLabels token.new }
        ensures view { IfOk result (λ v. v ≡ labels_of token.new.seen) }
        ensures steps { steps.new ≤ steps.old + (length (labels_of token.new.seen) - length last.now) + 4095 }
        ensures counted { IsCounted token.new }
    {
        let list = self.labels.take(rt, token).into_list();
        let view = list.view_from(last, steps);
        self.labels.give(token, LabelList::new(list));
        view
    }

    /// Returns the view of exactly what the token has then seen: the last one, shared, if no label is new, and
    /// otherwise a new one, which shares the labels of the last one. It copies the new labels, and at most 4,095
    /// others. It corresponds to Lucene's `openIfChanged` of a taxonomy reader.
    ///
    /// Locks: that of the labels, while it copies. Errors: out of memory.
    pub fn renew<R: Wait>(
        &self,
        rt: &R,
        token: &mut Token<Path>,
        last: &Arc<TaxoView>,
    ) -> Result<Arc<TaxoView>, NoMemory>
        requires own { token.old.identity ≡ self.now.labels }
        requires idle { MayTake token.old }
        requires last { IsPrefix (arc_value last.now) (labels_of token.old.seen) }
        ensures token { SameToken token.old token.new × (token.new.holds_turn ≡ false) }
        ensures more { SeesOn token.old token.new }
        ensures labels { SeesLabels token.new }
        ensures view { IfOk result (λ v. arc_value v ≡ labels_of token.new.seen) }
        ensures counted { IsCounted token.new }
    {
        let list = self.labels.take(rt, token).into_list();
        let view = renewed(self.alloc, &list, last);
        self.labels.give(token, LabelList::new(list));
        view
    }

    /// Takes the lock of the labels for good, and returns the list of exactly what the token has then seen.
    pub fn end<R: Wait>(&self, rt: &R, token: &mut Token<Path>) -> Taxonomy
        requires own { token.old.identity ≡ self.now.labels }
        requires idle { MayTake token.old }
        ensures ended { EndsWith token.old token.new }
        ensures more { SeesOn token.old token.new }
        ensures labels { SeesLabels token.new }
        ensures list { result ≡ labels_of token.new.seen }
        ensures counted { IsCounted token.new }
    {
        self.labels.end(rt, token).into_list()
    }

    /// Returns the labels chronicle.
    pub fn labels(&self) -> &Chronicle<LabelList>
        ensures { result.now ≡ self.now.labels }
    {
        &self.labels
    }

    /// Makes another token of the labels that may enter, as [`Chronicle::token`].
    pub fn token(&self, first: &mut Token<Path>) -> Token<Path>
        requires own { first.old.identity ≡ self.now.labels }
        requires first { (first.old.is_note ≡ false) × (first.old.number ≡ 0) }
        requires room { first.old.made < 2 ^ 64 - 1 }
        ensures first { MakesOne first.old first.new }
        ensures made { IsMadeFrom first.old result }
        ensures mine { (mine first.new ≡ mine first.old) × (mine result ≡ []) }
        ensures counted { IsCounted first.new }
    {
        self.labels.token(first)
    }

    /// Copies what the token has seen of the labels, as [`Chronicle::note`].
    pub fn note(&self, of: &mut Token<Path>) -> Token<Path>
        requires own { of.old.identity ≡ self.now.labels }
        ensures of { of.new ≡ of.old }
        ensures note { IsNoteOf of.old result }
        ensures counted { IsCounted of.new }
    {
        self.labels.note(of)
    }

    /// Shows `into` what `from` has seen of the labels, as [`Chronicle::meet`].
    pub fn meet(&self, into: &mut Token<Path>, from: Token<Path>)
        requires own { (into.old.identity ≡ self.now.labels) × (from.identity ≡ self.now.labels) }
        requires idle { (into.old.holds_turn ≡ false) × (from.holds_turn ≡ false) }
        ensures same { SameToken into.old into.new × (into.new.holds_turn ≡ false) }
        ensures one { IsPrefix into.old.seen from.seen ⊎ IsPrefix from.seen into.old.seen }
        ensures longer { into.new.seen ≡ longer into.old.seen from.seen }
        ensures told { IsPrefix from.seen into.new.seen }
        ensures more { SeesOn into.old into.new }
        ensures counted { IsCounted into.new }
    {
        self.labels.meet(into, from)
    }
}
