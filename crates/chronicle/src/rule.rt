// The rule of the table, and what each step on it shows. `specs/Rule.antt` and `specs/Steps.antt` state them.
ghost use Rattle.std.specs.Prelude.{Option, None};
ghost use Rattle.chronicle.specs.Knowledge.{after_making, made_from, note_of, told_of, spent};
ghost use Rattle.chronicle.specs.Steps.{Draws, Calls, Looks, TakesSlot, ReturnsSlot, Passes, Enters, Compares};

use crate::knowledge::Knowledge;
use crate::standing::Standing;
use atomic_table::{Join, Play, Split, TableRule};
use std::marker::{Brand, PhantomData};
use std::snapshot::Snapshot;

/// The rule of a chronicle's table.
pub struct TurnRule;

impl<V: Standing> TableRule<Option<V>, Knowledge<V::Entry>, Snapshot<V>> for TurnRule {
    ghost use Rattle.chronicle.specs.Rule.{IsChronicle, first_of};

    ghost holds = { IsChronicle V.stands V.frame V.opening };

    ghost first = { first_of V.frame V.opening };
}

// A ticket is drawn.
pub(crate) struct Draw;

impl<V: Standing> Play<Option<V>, Knowledge<V::Entry>> for Draw {
    ghost then = { Draws };
}

// The word of the sleeping threads is written.
pub(crate) struct Call;

impl<V: Standing> Play<Option<V>, Knowledge<V::Entry>> for Call {
    ghost then = { Calls };
}

// The serving number is read. If it is the caller's ticket, the slot is taken out with the value.
pub(crate) struct Look;

impl<V: Standing> Play<Option<V>, Knowledge<V::Entry>> for Look {
    ghost then = { Looks V.stands V.frame };
}

// The emptied slot is put back in its place.
pub(crate) struct ReturnSlot;

impl<V: Standing> Play<Option<V>, Knowledge<V::Entry>> for ReturnSlot {
    ghost then = { ReturnsSlot };
}

// The empty slot is taken out, to be filled.
pub(crate) struct TakeSlot;

impl<V: Standing> Play<Option<V>, Knowledge<V::Entry>> for TakeSlot {
    ghost then = { TakesSlot };
}

// The filled slot is put back, and the lock is released.
pub(crate) struct Pass;

impl<V: Standing> Play<Option<V>, Knowledge<V::Entry>> for Pass {
    ghost then = { Passes };
}

// Which entry is added. Each call of `Chronicle::enter_lent` chooses it.
pub(crate) trait Adding<E> {
    ghost added: { Option E };
}

impl<E> Adding<E> for Brand {
    ghost added = { None };
}

pub(crate) struct Enter<W> {
    added: PhantomData<W>,
}

impl<V: Standing, W: Adding<V::Entry>> Play<Option<V>, Knowledge<V::Entry>> for Enter<W> {
    ghost then = { Enters W.added };
}

// A token of the next number is made from the first one.
pub(crate) struct Make;

impl<E> Split<Knowledge<E>> for Make {
    ghost left = { after_making };

    ghost right = { made_from };
}

pub(crate) struct Note;

impl<E> Split<Knowledge<E>> for Note {
    ghost left = { λ k. k };

    ghost right = { note_of };
}

// One seat is shown what another has seen, and the other is spent.
pub(crate) struct Tell;

impl<E> Join<Knowledge<E>> for Tell {
    ghost both = { told_of };

    ghost spent = { spent };
}

// What was shown is compared with what was seen. A join shows nothing by itself, so this is a step of its own.
pub(crate) struct Compare;

impl<V: Standing> Play<Option<V>, Knowledge<V::Entry>> for Compare {
    ghost then = { Compares };
}
