// What a seat of the table knows. It exists in the proofs only: no value of these types is made.
ghost use Rattle.std.specs.Prelude.{◌≡◌, ℕ, Bool, List};
ghost use base.Fml.{ftrue};
ghost use base.Stored.{coded×, coded_ℕ, coded_list};
ghost use Rattle.chronicle.specs.Frame.{Frame, frame_coded};

use std::marker::{Model, PhantomData};

/// How far a seat is on its way through a turn. The number is its ticket.
pub enum Stage {
    /// It was joined into another seat, and is gone.
    Spent,
    /// It waits for nothing.
    Idle,
    /// It has a ticket, which is not served yet.
    Waiting(u64),
    /// It holds the lock and the value. The slot is in its place, and empty.
    InTurn(u64),
    /// It holds the lock, and the slot is out with it: just emptied, or about to be filled.
    WithSlot(u64),
}

/// What a seat knows: its stage, its number, how many tokens were made from it, and what it has seen.
pub struct Knowledge<E> {
    marker: PhantomData<E>,
    /// How far it is on its way through a turn.
    pub stage: Stage,
    /// Whether it is a note, which never enters.
    pub is_note: bool,
    /// The number under which it enters. It has no meaning for a note.
    pub number: u64,
    /// How many tokens were made from it.
    pub made: u64,
    /// The part of the history that it has seen.
    pub ghost seen: { List (ℕ × E) } by { coded_list (coded× coded_ℕ E.code) },
    /// What a seat that was joined into this one had seen, until the two are compared.
    pub ghost told: { List (ℕ × E) } by { coded_list (coded× coded_ℕ E.code) },
    /// The frame of the chronicle's value.
    pub ghost frame: { Frame } by { frame_coded },
}

impl<E> Model for Knowledge<E> {
    ghost also_owns = { λ _. ftrue };
}
