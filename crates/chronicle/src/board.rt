// The steps on the table. Each function keeps the rule, and its contract states what its seat then knows.
ghost use Rattle.std.specs.Prelude.{◌≡◌, ◌⊎◌, true, false, [], ◌∷◌, ◌++◌, Some};
ghost use mathlib.Core.List.{IsPrefix};
ghost use Rattle.chronicle.specs.History.{entries, longer};
ghost use Rattle.chronicle.specs.Knowledge.{with_stage, having_seen, after_making, made_from, note_of, told_of};
ghost use Rattle.chronicle.specs.Knowledge.{is_in_turn, Rests, Learns};
ghost use Rattle.chronicle.specs.declared.knowledge.Stage.TheVariants.{Idle, Waiting, InTurn};

use crate::knowledge::Knowledge;
use crate::rule::{
    Adding, Call, Compare, Draw, Enter, Look, Make, Note, Pass, ReturnSlot, TakeSlot, Tell,
    TurnRule,
};
use crate::standing::Standing;
use atomic_table::{Seat, Shared};
use std::hint;
use std::snapshot::Snapshot;
use std::sync::Wait;

pub(crate) type Board<V, E> = Shared<Option<V>, Knowledge<E>, Snapshot<V>, TurnRule>;

pub(crate) type Holder<V, E> = Seat<Option<V>, Knowledge<E>>;

// the words of the table, and its only slot
const NEXT: usize = 0;

const SERVING: usize = 1;

const ENTERED: usize = 2;

// 1 if a thread may be sleeping until the lock is released
const SLEEPING: usize = 3;

const VALUE: usize = 0;

// How often a thread checks whether the lock is free before it sleeps. To wake a thread takes as long as that many uses
// of the lock.
const LOOKS: u32 = 100;

// Draws a ticket, and only while no ticket is out. So a thread that runs gets the lock immediately, and nobody waits
// until a certain thread is awake.
// The last number is never drawn, so tickets do not wrap; a thread that would draw it sleeps for ever.
pub(crate) fn draw_ticket<V: Standing, R: Wait>(
    rt: &R,
    board: &Board<V, V::Entry>,
    seat: &mut Holder<V, V::Entry>,
) -> u64
    requires board { (seat.old.table_id ≡ board.now.table_id) × (board.now.table_id.words ≡ 4) }
    requires idle { (seat.old.me.0.stage ≡ Idle) × (seat.old.me.1 ≡ []) }
    ensures board { (seat.new.table_id ≡ seat.old.table_id) × (seat.new.id ≡ seat.old.id) }
    ensures drawn { seat.new.me ≡ (with_stage (Waiting result) seat.old.me.0, []) }
{
    let mut looks = 0;
    let mut slept = false;
    for _ in rt.forever() {
        let served = board.peek(SERVING);
        let ticket = board.peek(NEXT);
        if ticket == u64::MAX {
            board.park(rt, NEXT, u32::MAX);
        } else if ticket == served {
            if board.compare_exchange::<Draw>(seat, NEXT, ticket, ticket + 1) == ticket {
                // `give` wakes one thread at a time, so a woken thread makes its own `give` wake the next one.
                if slept {
                    board.store::<Call>(seat, SLEEPING, 1);
                }
                return ticket;
            }
        } else if looks < LOOKS {
            looks += 1;
            hint::spin_loop();
        } else {
            await_give(rt, board, seat);
            looks = 0;
            slept = true;
        }
    }
    unreachable!()
}

// Sleeps until the lock is released. It first sets the word and then checks once more: a release after that check finds
// the word set.
fn await_give<V: Standing, R: Wait>(
    rt: &R,
    board: &Board<V, V::Entry>,
    seat: &mut Holder<V, V::Entry>,
)
    requires board { (seat.old.table_id ≡ board.now.table_id) × (board.now.table_id.words ≡ 4) }
    ensures board { (seat.new.table_id ≡ seat.old.table_id) × (seat.new.id ≡ seat.old.id) }
    ensures same { seat.new.me ≡ seat.old.me }
{
    board.store::<Call>(seat, SLEEPING, 1);
    let served = board.peek(SERVING);
    if board.peek(NEXT) != served {
        board.park(rt, SLEEPING, 1);
    }
}

// Takes the value out when the ticket is served. No ticket is drawn while another is out, so it is served immediately;
// but the rule does not state that.
pub(crate) fn await_turn<V: Standing, R: Wait>(
    rt: &R,
    board: &Board<V, V::Entry>,
    seat: &mut Holder<V, V::Entry>,
    ticket: u64,
) -> V
    requires board { (seat.old.table_id ≡ board.now.table_id) × (board.now.table_id.words ≡ 4) }
    requires waits { (seat.old.me.0.stage ≡ Waiting ticket) × (seat.old.me.1 ≡ []) }
    ensures board { (seat.new.table_id ≡ seat.old.table_id) × (seat.new.id ≡ seat.old.id) }
    ensures turn { seat.new.me ≡ (having_seen (InTurn ticket) seat.new.me.0.seen seat.old.me.0, []) }
    ensures value { V.stands result (entries seat.new.me.0.seen) × (V.frame result ≡ seat.old.me.0.frame) }
    ensures learns { Learns seat.old.me.0 seat.new.me.0.seen }
{
    for _ in rt.forever() {
        let served = board.load::<Look>(seat, SERVING);
        if served == ticket {
            let value = board.exchange(seat, VALUE, None);
            board.load::<ReturnSlot>(seat, SERVING);
            return value.unwrap();
        }
        hint::spin_loop();
    }
    unreachable!()
}

// Puts the value back, releases the lock, and wakes one sleeping thread.
pub(crate) fn pass_turn<V: Standing>(
    board: &Board<V, V::Entry>,
    seat: &mut Holder<V, V::Entry>,
    value: V,
)
    requires board { (seat.old.table_id ≡ board.now.table_id) × (board.now.table_id.words ≡ 4) }
    requires turn { (is_in_turn seat.old.me.0.stage ≡ true) × (seat.old.me.1 ≡ []) }
    requires value { V.stands value (entries seat.old.me.0.seen) × (V.frame value ≡ seat.old.me.0.frame) }
    ensures board { (seat.new.table_id ≡ seat.old.table_id) × (seat.new.id ≡ seat.old.id) }
    ensures idle { seat.new.me ≡ (with_stage Idle seat.old.me.0, []) }
{
    board.load::<TakeSlot>(seat, SERVING);
    match board.exchange(seat, VALUE, Some(value)) {
        None => {}
        Some(_) => unreachable!(),
    }
    board.fetch_add::<Pass>(seat, SERVING, 1);
    if board.peek(SLEEPING) != 0 {
        board.store::<Call>(seat, SLEEPING, 0);
        board.wake_one(SLEEPING);
    }
}

// Adds the entry to the history. With `W` the call says in the proofs which entry that is.
pub(crate) fn add_entry<V: Standing, W: Adding<V::Entry>>(
    board: &Board<V, V::Entry>,
    seat: &mut Holder<V, V::Entry>,
    entry: &V::Entry,
)
    requires added { W.added ≡ Some entry.now }
    requires board { (seat.old.table_id ≡ board.now.table_id) × (board.now.table_id.words ≡ 4) }
    requires turn { (is_in_turn seat.old.me.0.stage ≡ true) × (seat.old.me.1 ≡ []) × (seat.old.me.0.is_note ≡ false) }
    ensures board { (seat.new.table_id ≡ seat.old.table_id) × (seat.new.id ≡ seat.old.id) }
    ensures added { seat.new.me ≡ (
      having_seen seat.old.me.0.stage (seat.old.me.0.seen
          ++ (seat.old.me.0.number, entry.now) ∷ []) seat.old.me.0,
      [],
    ) }
{
    let _ = entry;
    board.fetch_add::<Enter<W>>(seat, ENTERED, 1);
}

// Makes a seat with the next number from the first seat.
pub(crate) fn make_seat<V: Standing>(
    board: &Board<V, V::Entry>,
    first: &mut Holder<V, V::Entry>,
) -> Holder<V, V::Entry>
    requires board { (first.old.table_id ≡ board.now.table_id) × (board.now.table_id.words ≡ 4) }
    requires first { Rests first.old.me.0.stage × (first.old.me.0.is_note ≡ false) × (first.old.me.0.number ≡ 0)
        × (first.old.me.1 ≡ []) }
    ensures board { (first.new.table_id ≡ first.old.table_id) × (first.new.id ≡ first.old.id)
        × (result.table_id ≡ first.old.table_id) }
    ensures first { first.new.me ≡ (after_making first.old.me.0, []) }
    ensures made { result.me ≡ (made_from first.old.me.0, []) }
{
    board.split_seat::<Make>(first)
}

pub(crate) fn note_seat<V: Standing>(
    board: &Board<V, V::Entry>,
    of: &mut Holder<V, V::Entry>,
) -> Holder<V, V::Entry>
    requires board { (of.old.table_id ≡ board.now.table_id) × (board.now.table_id.words ≡ 4) }
    requires rests { Rests of.old.me.0.stage × (of.old.me.1 ≡ []) }
    ensures board { (of.new.table_id ≡ of.old.table_id) × (of.new.id ≡ of.old.id)
        × (result.table_id ≡ of.old.table_id) }
    ensures of { of.new.me ≡ of.old.me }
    ensures note { result.me ≡ (note_of of.old.me.0, []) }
{
    board.split_seat::<Note>(of)
}

// Shows the seat what another has seen, and spends the other. A join by itself shows nothing, so a load of a word
// compares the two.
pub(crate) fn tell_seat<V: Standing>(
    board: &Board<V, V::Entry>,
    seat: &mut Holder<V, V::Entry>,
    other: Holder<V, V::Entry>,
)
    requires board { (seat.old.table_id ≡ board.now.table_id) × (other.table_id ≡ board.now.table_id)
        × (board.now.table_id.words ≡ 4) }
    requires idle { (seat.old.me.0.stage ≡ Idle) × (seat.old.me.1 ≡ []) × (other.me.0.stage ≡ Idle)
        × (other.me.1 ≡ []) }
    ensures board { (seat.new.table_id ≡ seat.old.table_id) × (seat.new.id ≡ seat.old.id) }
    ensures told { seat.new.me
        ≡ (having_seen Idle (longer seat.old.me.0.seen other.me.0.seen) (told_of seat.old.me.0 other.me.0), []) }
    ensures one { IsPrefix seat.old.me.0.seen other.me.0.seen ⊎ IsPrefix other.me.0.seen seat.old.me.0.seen }
    ensures begins { IsPrefix other.me.0.seen seat.new.me.0.seen }
    ensures learns { Learns seat.old.me.0 seat.new.me.0.seen }
{
    board.join_seat::<Tell>(seat, other);
    board.load::<Compare>(seat, SERVING);
}
