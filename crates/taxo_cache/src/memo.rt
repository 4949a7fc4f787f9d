ghost use Rattle.std.specs.Prelude.{◌≡◌, ◌≤◌, ℕ, false, [], IfSome, IfOk, OnOk, OnErr};
ghost use Rattle.std.specs.Map.{lookup};
ghost use Rattle.std.specs.Option.{option_map};
ghost use Rattle.chronicle.specs.History.{longer};
ghost use Rattle.chronicle.specs.Shown.{SameToken, SeesOn, IsCounted};
ghost use Rattle.lru.specs.LruCache.{lru_cache, promoted, put_entries};
ghost use Rattle.facet_names.specs.Paths.{path_eq};
ghost use Rattle.taxo_cache.specs.Seen.{labels_of, SeesLabels};
ghost use Rattle.taxo_cache.specs.Memos.{HasOrdinals};

use crate::name::Name;
use chronicle::{Chronicle, Standing, Token};
use facet_model::Resolved;
use facet_names::{NoMemory, Path};
use lru::LruCache;
use std::alloc::Global;
use std::marker::{Model, PhantomData};
use std::num::NonZeroUsize;

// One of so many offered paths is stored. A path that is used often is stored soon, and one that is used once seldom
// evicts another.
const OFFERED: u32 = 8;

/// An LRU cache of the ordinals of the prefixes of some paths, with a note of the labels in which they have them.
///
/// Contracts see its entries, the most recent one first, its capacity, and what the note has seen.
#[derive(Drop)]
pub(crate) struct Memo<N: Name> {
    alloc: Global,
    cache: LruCache<Path, Resolved>,
    note: Token<Path>,
    offered: u32,
    of: PhantomData<N>,
}

impl<N: Name> Model for Memo<N> {
    ghost use Rattle.taxo_cache.specs.Memos.{Noted, IsMemo};

    ghost Value = { Noted };

    ghost view = { λ m. record { entries = m.cache.entries; room = m.cache.cap; seen = m.note.seen } };

    ghost invariant = { λ m. IsMemo N.labels m.note m.cache.entries };
}

fn copied(alloc: Global, ords: &[u32]) -> Result<Vec<u32>, NoMemory>
    ensures { IfOk result (λ v. v.items ≡ ords.now) }
{
    let mut copy = Vec::with_capacity(alloc, ords.len())?;
    copy.extend_from_slice(ords)?;
    Ok(copy)
}

impl<N: Name> Memo<N> {
    // Returns an empty memo with a capacity of `room` entries. It allocates memory with each entry.
    pub(crate) fn new<V: Standing<Entry = Path>>(
        alloc: Global,
        labels: &Chronicle<V>,
        token: &mut Token<Path>,
        room: u32,
    ) -> Result<Memo<N>, NoMemory>
        requires own { (token.old.identity ≡ labels.now) × (labels.now ≡ N.labels) }
        requires labels { SeesLabels token.old }
        requires some { 1 ≤ room }
        ensures token { token.new ≡ token.old }
        ensures empty { IfOk result (λ m. m ≡ record { entries = []; room = room; seen = token.old.seen }) }
    {
        let cache = LruCache::sparse(alloc, NonZeroUsize::new(room as usize).unwrap())?;
        Ok(Memo {
            alloc,
            cache,
            note: labels.note(token),
            offered: 0,
            of: PhantomData,
        })
    }

    // Returns a copy of the ordinals of the path's entry, which becomes the most recent one, or `None`.
    pub(crate) fn find(&mut self, path: &Path) -> Result<Option<Vec<u32>>, NoMemory>
        ensures found { IfOk result (λ o. option_map (λ v. v.items) o ≡ lookup (path_eq path.now) self.old.entries) }
        ensures there { IfOk result (λ o. IfSome o (λ v. HasOrdinals (labels_of self.old.seen) path.now v.items)) }
        ensures front { self.new.entries ≡ promoted (path_eq path.now) self.old.entries }
        ensures same { (self.new.seen ≡ self.old.seen) × (self.new.room ≡ self.old.room) }
    {
        let Some(ords) = self.cache.get(path) else {
            return Ok(None);
        };
        let copy = copied(self.alloc, ords.prefixes())?;
        Ok(Some(copy))
    }

    // Stores the ordinals of a path's prefixes as the most recent entry. It evicts the oldest one if the memo is full.
    pub(crate) fn keep<V: Standing<Entry = Path>>(
        &mut self,
        labels: &Chronicle<V>,
        token: &mut Token<Path>,
        path: &Path,
        ords: &[u32],
    ) -> Result<(), NoMemory>
        requires own { (token.old.identity ≡ labels.now) × (labels.now ≡ N.labels) }
        requires labels { SeesLabels token.old }
        requires ordinals { HasOrdinals (labels_of token.old.seen) path.now ords.now }
        ensures token { token.new ≡ token.old }
        ensures kept { OnOk result (self.new.entries
            ≡ put_entries path_eq (lru_cache self.old.entries self.old.room) path.now ords.now) }
        ensures seen { OnOk result (self.new.seen ≡ longer self.old.seen token.old.seen) }
        ensures room { self.new.room ≡ self.old.room }
        ensures unchanged { OnErr result (self.new ≡ self.old) }
    {
        let key = path.dup(self.alloc)?;
        let ords = Resolved::new(copied(self.alloc, ords)?);
        self.cache.put(key, ords)?;
        let note = labels.note(token);
        labels.meet(&mut self.note, note);
        Ok(())
    }

    // Finds the path. If it has an entry, the token sees what the note has seen.
    pub(crate) fn look<V: Standing<Entry = Path>>(
        &mut self,
        labels: &Chronicle<V>,
        token: &mut Token<Path>,
        path: &Path,
    ) -> Result<Option<Vec<u32>>, NoMemory>
        requires own { (token.old.identity ≡ labels.now) × (labels.now ≡ N.labels) }
        requires idle { token.old.holds_turn ≡ false }
        ensures token { SameToken token.old token.new × SeesOn token.old token.new × (token.new.holds_turn ≡ false) }
        ensures hit { IfOk result (λ o. IfSome o (λ v. HasOrdinals (labels_of token.new.seen) path.now v.items)) }
        ensures labels { SeesLabels token.old → SeesLabels token.new }
        ensures counted { IsCounted token.old → IsCounted token.new }
    {
        let Some(ords) = self.find(path)? else {
            return Ok(None);
        };
        let note = labels.note(&mut self.note);
        labels.meet(token, note);
        Ok(Some(ords))
    }

    // Stores every eighth path that it is offered.
    pub(crate) fn offer<V: Standing<Entry = Path>>(
        &mut self,
        labels: &Chronicle<V>,
        token: &mut Token<Path>,
        path: &Path,
        ords: &[u32],
    ) -> Result<(), NoMemory>
        requires own { (token.old.identity ≡ labels.now) × (labels.now ≡ N.labels) }
        requires labels { SeesLabels token.old }
        requires ordinals { HasOrdinals (labels_of token.old.seen) path.now ords.now }
        ensures token { token.new ≡ token.old }
    {
        self.offered = self.offered.wrapping_add(1) % OFFERED;
        if self.offered != 0 {
            return Ok(());
        }
        self.keep(labels, token, path, ords)
    }
}
