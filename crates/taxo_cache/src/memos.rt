ghost use Rattle.std.specs.Prelude.{◌≡◌, ◌≤◌, ℕ, false, IfSome, IfOk};
ghost use Rattle.chronicle.specs.Shown.{SameToken, SeesOn, IsCounted};
ghost use Rattle.taxo_cache.specs.Seen.{labels_of, SeesLabels};
ghost use Rattle.taxo_cache.specs.Memos.{HasOrdinals};

use crate::memo::Memo;
use crate::name::Name;
use chronicle::{Chronicle, Standing, Token};
use facet_names::{NoMemory, Path};
use std::alloc::Global;
use std::marker::Model;
use std::sync::{Mutex, Wait};

/// LRU caches of paths, called memos, each under its own lock. A token's number chooses its memo, so sessions seldom
/// wait for one another, and the entries of a session stay in the cache of its processor. A path's entry has the
/// ordinals of all its prefixes. Contracts see how many memos there are.
///
/// A call holds the lock of one memo while it finds or stores one path. It needs no lock of the chronicle. The hash has
/// a fixed seed, so somebody who chooses the paths can make them collide. Then a look-up compares at worst all paths of
/// a memo, which are few.
#[derive(Drop)]
pub struct Memos<N: Name> {
    memos: Vec<Mutex<Memo<N>>>,
}

impl<N: Name> Model for Memos<N> {
    ghost use Rattle.std.specs.Prelude.{◌<◌, ℕ};
    ghost use Rattle.std.specs.Vec.{vec_len};

    ghost Value = { ℕ };

    ghost view = { λ m. vec_len m.memos };

    ghost invariant = { λ m. 0 < vec_len m.memos };
}

impl<N: Name> Memos<N> {
    /// Makes `memos` empty memos with a capacity of `room` paths each. It allocates memory for each entry when that is
    /// stored. Errors: out of memory.
    pub fn new<V: Standing<Entry = Path>>(
        alloc: Global,
        labels: &Chronicle<V>,
        token: &mut Token<Path>,
        memos: u32,
        room: u32,
    ) -> Result<Memos<N>, NoMemory>
        requires own { (token.old.identity ≡ labels.now) × (labels.now ≡ N.labels) }
        requires labels { SeesLabels token.old }
        requires some { (1 ≤ memos) × (1 ≤ room) }
        ensures token { token.new ≡ token.old }
        ensures many { IfOk result (λ m. m ≡ memos) }
    {
        let mut all = Vec::new(alloc);
        for _ in 0..memos {
            let memo = Memo::new(alloc, labels, token, room)?;
            all.push(Mutex::new(memo))?;
        }
        Ok(Memos { memos: all })
    }

    // Returns the memo of a token's number.
    fn memo_of(&self, number: u64) -> &Mutex<Memo<N>> {
        let at = number as usize % self.memos.len();
        &self.memos[at]
    }

    /// Returns the ordinals of the path's prefixes if the token's memo has them, and `None` otherwise. On a hit the
    /// token has then seen everything that the memo's note has.
    ///
    /// Locks: that of the memo. It allocates only the ordinals. Errors: out of memory.
    pub fn look<V: Standing<Entry = Path>, R: Wait>(
        &self,
        rt: &R,
        labels: &Chronicle<V>,
        token: &mut Token<Path>,
        path: &Path,
    ) -> Result<Option<Vec<u32>>, NoMemory>
        requires own { (token.old.identity ≡ labels.now) × (labels.now ≡ N.labels) }
        requires idle { (token.old.holds_turn ≡ false) × (token.old.is_note ≡ false) }
        ensures token { SameToken token.old token.new × SeesOn token.old token.new × (token.new.holds_turn ≡ false) }
        ensures hit { IfOk result (λ o. IfSome o (λ v. HasOrdinals (labels_of token.new.seen) path.now v.items)) }
        ensures labels { SeesLabels token.old → SeesLabels token.new }
        ensures counted { IsCounted token.old → IsCounted token.new }
    {
        let number = token.number();
        self.memo_of(number).lock(rt).look(labels, token, path)
    }

    /// Offers the ordinals of a path's prefixes to the token's memo, which stores every eighth path that it is offered.
    ///
    /// Locks: that of the memo. If it runs out of memory, the entries of the memo stay.
    pub fn offer<V: Standing<Entry = Path>, R: Wait>(
        &self,
        rt: &R,
        labels: &Chronicle<V>,
        token: &mut Token<Path>,
        path: &Path,
        ords: &[u32],
    )
        requires own { (token.old.identity ≡ labels.now) × (labels.now ≡ N.labels) }
        requires idle { token.old.is_note ≡ false }
        requires labels { SeesLabels token.old }
        requires ordinals { HasOrdinals (labels_of token.old.seen) path.now ords.now }
        ensures token { token.new ≡ token.old }
    {
        let number = token.number();
        let _ = self
            .memo_of(number)
            .lock(rt)
            .offer(labels, token, path, ords);
    }
}
