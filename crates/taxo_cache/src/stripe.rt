ghost use Rattle.std.specs.Prelude.{◌≡◌, ◌≤◌, ℕ, false, [], ◌∷◌, Some, take, IfSome, IfOk, OnOk, OnErr};
ghost use Rattle.std.specs.Map.{lookup, remove_entry};
ghost use mathlib.Core.List.{IsPrefix};
ghost use Rattle.chronicle.specs.History.{longer};
ghost use Rattle.chronicle.specs.Shown.{SameToken, SeesOn, IsCounted};
ghost use Rattle.lru.specs.LruCache.{promoted};
ghost use Rattle.facet_names.specs.Labels.{place};
ghost use Rattle.facet_names.specs.Paths.{path_eq};
ghost use Rattle.taxo_cache.specs.Seen.{labels_of, SeesLabels};
ghost use Rattle.taxo_cache.specs.Stripes.{looked};
ghost use Rattle.taxo_cache.specs.declared.looked.Looked.TheVariants.{Hit, Miss};

use crate::looked::Looked;
use crate::name::Name;
use chronicle::{Chronicle, Standing, Token};
use facet_names::{NoMemory, Path};
use lru::LruCache;
use std::alloc::Global;
use std::hash::RandomState;
use std::marker::{Model, PhantomData};
use std::num::NonZeroUsize;

/// An LRU cache of the ordinals of some labels, with a note of the labels in which they have them.
///
/// Contracts see its entries, the most recent one first, its capacity, and what the note has seen.
#[derive(Drop)]
pub struct Stripe<N: Name> {
    alloc: Global,
    cache: LruCache<Path, u32, RandomState>,
    note: Token<Path>,
    of: PhantomData<N>,
}

impl<N: Name> Model for Stripe<N> {
    ghost use Rattle.taxo_cache.specs.Stripes.{Striped, IsStripe};

    ghost Value = { Striped };

    ghost view = { λ s. record { entries = s.cache.entries; room = s.cache.cap; seen = s.note.seen } };

    ghost invariant = { λ s. IsStripe N.labels s.note s.cache.entries s.cache.cap };
}

impl<N: Name> Stripe<N> {
    // Returns an empty stripe with a capacity of `room` entries. It allocates memory with each entry.
    pub(crate) fn new<V: Standing<Entry = Path>>(
        alloc: Global,
        keys: RandomState,
        labels: &Chronicle<V>,
        token: &mut Token<Path>,
        room: u32,
    ) -> Result<Stripe<N>, NoMemory>
        requires own { (token.old.identity ≡ labels.now) × (labels.now ≡ N.labels) }
        requires labels { SeesLabels token.old }
        requires some { 1 ≤ room }
        ensures token { token.new ≡ token.old }
        ensures empty { IfOk result (λ s. s ≡ record { entries = []; room = room; seen = token.old.seen }) }
    {
        // Memory for one entry is reserved, so that an unused capacity costs nothing.
        let mut cache = LruCache::with_hasher(alloc, NonZeroUsize::MIN, keys)?;
        cache.resize(NonZeroUsize::new(room as usize).unwrap());
        Ok(Stripe {
            alloc,
            cache,
            note: labels.note(token),
            of: PhantomData,
        })
    }

    /// Returns the ordinal of the path's entry, which becomes the most recent one, or `None`. It allocates nothing.
    pub fn find(&mut self, path: &Path) -> Option<u32>
        ensures found { result ≡ lookup (path_eq path.now) self.old.entries }
        ensures there { IfSome result (λ ord. place (labels_of self.old.seen) path.now ≡ Some ord) }
        ensures front { self.new.entries ≡ promoted (path_eq path.now) self.old.entries }
        ensures same { (self.new.seen ≡ self.old.seen) × (self.new.room ≡ self.old.room) }
    {
        self.cache.get(path).copied()
    }

    /// Stores the ordinal of a path as the most recent entry, in place of an older one of the path. It evicts the
    /// oldest entry if the stripe is full. It copies the path.
    ///
    /// Errors: out of memory; then the stripe is as before.
    pub fn keep<V: Standing<Entry = Path>>(
        &mut self,
        labels: &Chronicle<V>,
        token: &mut Token<Path>,
        path: &Path,
        ord: u32,
    ) -> Result<(), NoMemory>
        requires own { (token.old.identity ≡ labels.now) × (labels.now ≡ N.labels) }
        requires labels { SeesLabels token.old }
        requires there { place (labels_of token.old.seen) path.now ≡ Some ord }
        ensures token { token.new ≡ token.old }
        ensures kept { OnOk result (self.new.entries
            ≡ take self.old.room ((path.now, ord) ∷ remove_entry (path_eq path.now) self.old.entries)) }
        ensures seen { OnOk result (self.new.seen ≡ longer self.old.seen token.old.seen) }
        ensures room { self.new.room ≡ self.old.room }
        ensures unchanged { OnErr result (self.new ≡ self.old) }
    {
        let key = path.dup(self.alloc)?;
        self.cache.put(key, ord)?;
        let note = labels.note(token);
        labels.meet(&mut self.note, note);
        Ok(())
    }

    /// Looks the path up. On a hit the token has then seen what the note has seen. It allocates nothing.
    pub fn look<V: Standing<Entry = Path>>(
        &mut self,
        labels: &Chronicle<V>,
        token: &mut Token<Path>,
        path: &Path,
    ) -> Looked
        requires own { (token.old.identity ≡ labels.now) × (labels.now ≡ N.labels) }
        requires idle { token.old.holds_turn ≡ false }
        ensures token { SameToken token.old token.new × SeesOn token.old token.new × (token.new.holds_turn ≡ false) }
        ensures found { result ≡ looked (lookup (path_eq path.now) self.old.entries) }
        ensures hit { (ord : ℕ) → result ≡ Hit ord → place (labels_of token.new.seen) path.now ≡ Some ord }
        ensures met { (ord : ℕ) → result ≡ Hit ord → token.new.seen ≡ longer token.old.seen self.old.seen }
        ensures miss { result ≡ Miss → token.new ≡ token.old }
        ensures labels { SeesLabels token.old → SeesLabels token.new }
        ensures counted { IsCounted token.old → IsCounted token.new }
        ensures front { self.new.entries ≡ promoted (path_eq path.now) self.old.entries }
        ensures same { (self.new.seen ≡ self.old.seen) × (self.new.room ≡ self.old.room) }
    {
        let Some(ord) = self.find(path) else {
            return Looked::Miss;
        };
        let note = labels.note(&mut self.note);
        labels.meet(token, note);
        Looked::Hit(ord)
    }
}
