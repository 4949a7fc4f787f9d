ghost use Rattle.std.specs.Prelude.{◌≡◌, false};

use crate::knowledge::Knowledge;
use atomic_table::Badge;
use std::marker::Model;

/// What its holder has seen of a chronicle, or a note of that. Contracts see a [`Shown`]: the seen entries, the token's
/// number, the chronicle's identity and its frame.
///
/// A token is three words of memory, owns nothing, and may be sent to other threads and shared. A token can be dropped
/// at any time, except while it holds the lock: then nobody gets the lock again.
#[derive(Drop)]
pub struct Token<E> {
    pub(crate) badge: Badge<Knowledge<E>>,
    pub(crate) number: u64,
    pub(crate) made: u64,
    // whether it took the lock for good
    pub(crate) ended: bool,
}

impl<E> Model for Token<E> {
    ghost use Rattle.chronicle.specs.Shown.{Shown, shown_coded};

    ghost Value = { Shown E };

    ghost coded = { shown_coded E.code };

    ghost use Rattle.chronicle.specs.TokenView.{view_of, IsToken};

    ghost view = { view_of };

    ghost invariant = { IsToken };
}

impl<E> Token<E> {
    /// Returns the number under which its entries are in the history. For a note the number has no meaning.
    pub fn number(&self) -> u64
        requires { self.now.is_note ≡ false }
        ensures { result ≡ self.now.number }
    {
        self.number
    }
}
