ghost use Rattle.std.specs.Prelude.{◌≡◌, ◌≤◌, ℕ, false, Some, IfOk};
ghost use Rattle.chronicle.specs.Shown.{SameToken, SeesOn, IsCounted};
ghost use Rattle.facet_names.specs.Labels.{place};
ghost use Rattle.taxo_cache.specs.Seen.{labels_of, SeesLabels};
ghost use Rattle.taxo_cache.specs.declared.looked.Looked.TheVariants.{Hit, Miss};

use crate::looked::Looked;
use crate::name::Name;
use crate::stripe::Stripe;
use chronicle::{Chronicle, Standing, Token};
use facet_names::{NoMemory, Path};
use std::alloc::Global;
use std::hash::{BuildHasher, RandomState};
use std::marker::Model;
use std::sync::{Mutex, Wait};

/// The ordinals of labels in stripes, each under its own lock. A path's hash chooses its stripe; its keys are random,
/// so nobody who chooses paths can foresee it. Contracts see how many stripes there are.
///
/// A call holds the lock of one stripe while it finds or stores one path. It needs no lock of the chronicle.
#[derive(Drop)]
pub struct Stripes<N: Name> {
    keys: RandomState,
    stripes: Vec<Mutex<Stripe<N>>>,
}

impl<N: Name> Model for Stripes<N> {
    ghost use Rattle.std.specs.Prelude.{◌<◌, ℕ};
    ghost use Rattle.std.specs.Vec.{vec_len};

    ghost Value = { ℕ };

    ghost view = { λ s. vec_len s.stripes };

    ghost invariant = { λ s. 0 < vec_len s.stripes };
}

impl<N: Name> Stripes<N> {
    /// Makes `stripes` empty stripes with a capacity of `cache` entries each. It allocates memory for each entry when
    /// that is stored. Errors: out of memory.
    pub fn new<V: Standing<Entry = Path>>(
        alloc: Global,
        keys: RandomState,
        labels: &Chronicle<V>,
        token: &mut Token<Path>,
        stripes: u32,
        cache: u32,
    ) -> Result<Stripes<N>, NoMemory>
        requires own { (token.old.identity ≡ labels.now) × (labels.now ≡ N.labels) }
        requires labels { SeesLabels token.old }
        requires some { (1 ≤ stripes) × (1 ≤ cache) }
        ensures token { token.new ≡ token.old }
        ensures many { IfOk result (λ s. s ≡ stripes) }
    {
        let mut all = Vec::new(alloc);
        for _ in 0..stripes {
            let stripe = Stripe::new(alloc, keys, labels, token, cache)?;
            all.push(Mutex::new(stripe))?;
        }
        Ok(Stripes { keys, stripes: all })
    }

    // Returns a path's stripe, by the upper half of its hash, since the map in a stripe uses the lower bits.
    fn stripe_of(&self, path: &Path) -> &Mutex<Stripe<N>> {
        let hash = self.keys.hash_one(path);
        let at = (hash >> 32) as usize % self.stripes.len();
        &self.stripes[at]
    }

    /// Looks up the path's ordinal in its stripe. On a hit the token has then seen everything that the stripe's note
    /// has.
    ///
    /// Locks: that of the stripe. It allocates nothing.
    pub fn look<V: Standing<Entry = Path>, R: Wait>(
        &self,
        rt: &R,
        labels: &Chronicle<V>,
        token: &mut Token<Path>,
        path: &Path,
    ) -> Looked
        requires own { (token.old.identity ≡ labels.now) × (labels.now ≡ N.labels) }
        requires idle { token.old.holds_turn ≡ false }
        ensures token { SameToken token.old token.new × SeesOn token.old token.new × (token.new.holds_turn ≡ false) }
        ensures hit { (ord : ℕ) → result ≡ Hit ord → place (labels_of token.new.seen) path.now ≡ Some ord }
        ensures miss { result ≡ Miss → token.new ≡ token.old }
        ensures labels { SeesLabels token.old → SeesLabels token.new }
        ensures counted { IsCounted token.old → IsCounted token.new }
    {
        self.stripe_of(path).lock(rt).look(labels, token, path)
    }

    /// Stores the ordinal of a path in its stripe, for later look-ups.
    ///
    /// Locks: that of the stripe. If it runs out of memory, the entries of the stripe stay.
    pub fn remember<V: Standing<Entry = Path>, R: Wait>(
        &self,
        rt: &R,
        labels: &Chronicle<V>,
        token: &mut Token<Path>,
        path: &Path,
        ord: u32,
    )
        requires own { (token.old.identity ≡ labels.now) × (labels.now ≡ N.labels) }
        requires labels { SeesLabels token.old }
        requires there { place (labels_of token.old.seen) path.now ≡ Some ord }
        ensures token { token.new ≡ token.old }
    {
        let _ = self.stripe_of(path).lock(rt).keep(labels, token, path, ord);
    }
}
