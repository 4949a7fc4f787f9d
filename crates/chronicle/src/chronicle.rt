ghost use Rattle.std.specs.Prelude.{◌≡◌, ◌<◌, ◌^◌, ◌-◌, ◌⊎◌, true, false, ◌++◌, [], ◌∷◌, IfOk, IfErr};
ghost use mathlib.Core.List.{IsPrefix};
ghost use Rattle.chronicle.specs.History.{entries, numbered, longer};
ghost use Rattle.chronicle.specs.Shown.{mine, MayTake, MayGive, MayEnter, SameToken, EndsWith, SeesOn, MakesOne};
ghost use Rattle.chronicle.specs.Shown.{IsMadeFrom, IsNoteOf, IsCounted};

use crate::board;
use crate::knowledge::Knowledge;
use crate::rule::TurnRule;
use crate::standing::Standing;
use crate::token::Token;
use atomic_table::{Badge, Refused, Table};
use std::alloc::{AllocFailed, Global};
use std::marker::{Brand, Model};
use std::mem;
use std::snapshot::Snapshot;
use std::sync::Wait;

/// A lock around a value, with a history that only grows. It is a ticket lock; holding it is called a turn. Contracts
/// see a chronicle as its identity, which each of its tokens shows.
///
/// The history exists in proofs only and uses no memory. At run time a chronicle is the value and four words in one
/// allocation. It is shared by reference, also among threads if the value is `Send`.
///
/// Not guaranteed: progress, fairness, and any order of the entries of different tokens beyond what one of them has
/// seen.
#[derive(Drop)]
pub struct Chronicle<V: Standing> {
    table: Table<Option<V>, Knowledge<V::Entry>, Snapshot<V>, TurnRule, Global>,
}

impl<V: Standing> Model for Chronicle<V> {
    ghost use Rattle.std.specs.Prelude.{◌≡◌};
    ghost use Rattle.atomic_table.specs.Seated.{TableId, table_id_coded};

    ghost Value = { TableId };

    ghost coded = { table_id_coded };

    ghost view = { λ c. c.table.shared.table_id };

    ghost invariant = { λ c. (c.table.shared.table_id.words ≡ 4) × (c.table.shared.table_id.slots ≡ 1) };
}

impl<V: Standing> Chronicle<V> {
    /// Makes a chronicle of the value, and its first token, whose number is 0. The entries of the opening list belong
    /// to the first token.
    ///
    /// Errors: out of memory, with the value.
    pub fn open(alloc: Global, value: V) -> Result<(Chronicle<V>, Token<V::Entry>), V>
        requires { V.stands value (V.opening value) }
        ensures own { IfOk result (λ r. (r.1.identity ≡ r.0) × (r.1.frame ≡ V.frame value)) }
        ensures first { IfOk result (λ r. MayTake r.1 × (r.1.number ≡ 0) × (r.1.made ≡ 0)) }
        ensures seen { IfOk result (λ r. r.1.seen ≡ numbered 0 (V.opening value)) }
        ensures entries { IfOk result (λ r. entries r.1.seen ≡ V.opening value) }
        ensures mine { IfOk result (λ r. mine r.1 ≡ r.1.seen) }
        ensures counted { IfOk result (λ r. IsCounted r.1) }
        ensures err { IfErr result (λ v. v ≡ value) }
    {
        let about = Snapshot::of(&value);
        let mut slots = Vec::new(alloc);
        if let Err(AllocFailed { value: back }) = slots.push(Some(value)) {
            slots.destroy_empty();
            return Err(back.unwrap());
        }
        match Table::new(alloc, &[0, 0, 0, 0], slots, &about) {
            Ok((table, seat)) => {
                let token = Token {
                    badge: seat.into_badge(),
                    number: 0,
                    made: 0,
                    ended: false,
                };
                Ok((Chronicle { table }, token))
            }
            Err(Refused { mut slots }) => {
                let back = slots.pop();
                slots.destroy_empty();
                Err(back.unwrap().unwrap())
            }
        }
    }

    /// Makes another token that may enter. The `k`-th token made from the first one has number `k`. It allocates
    /// nothing.
    pub fn token(&self, first: &mut Token<V::Entry>) -> Token<V::Entry>
        requires own { first.old.identity ≡ self.now }
        requires first { (first.old.is_note ≡ false) × (first.old.number ≡ 0) }
        requires room { first.old.made < 2 ^ 64 - 1 }
        ensures first { MakesOne first.old first.new }
        ensures made { IsMadeFrom first.old result }
        ensures mine { (mine first.new ≡ mine first.old) × (mine result ≡ []) }
        ensures counted { IsCounted first.new }
    {
        let mut giver = mem::replace(&mut first.badge, Badge::blank()).into_seat();
        let made = board::make_seat::<V>(&self.table.shared, &mut giver);
        first.badge = giver.into_badge();
        first.made += 1;
        Token {
            badge: made.into_badge(),
            number: first.made,
            made: 0,
            ended: false,
        }
    }

    /// Copies what the token has seen. A note can be stored or passed on, and can never enter. It can be made while the
    /// token holds the lock. It allocates nothing.
    pub fn note(&self, of: &mut Token<V::Entry>) -> Token<V::Entry>
        requires own { of.old.identity ≡ self.now }
        ensures of { of.new ≡ of.old }
        ensures note { IsNoteOf of.old result }
        ensures counted { IsCounted of.new }
    {
        let mut noted = mem::replace(&mut of.badge, Badge::blank()).into_seat();
        let note = board::note_seat::<V>(&self.table.shared, &mut noted);
        of.badge = noted.into_badge();
        Token {
            badge: note.into_badge(),
            number: 0,
            made: 0,
            ended: false,
        }
    }

    /// Shows `into` what `from` has seen, and consumes `from`. One of the two seen lists is a prefix of the other, and
    /// `into` then has the longer. The number of `from` is lost. It allocates nothing.
    pub fn meet(&self, into: &mut Token<V::Entry>, from: Token<V::Entry>)
        requires own { (into.old.identity ≡ self.now) × (from.identity ≡ self.now) }
        requires idle { (into.old.holds_turn ≡ false) × (from.holds_turn ≡ false) }
        ensures same { SameToken into.old into.new × (into.new.holds_turn ≡ false) }
        ensures one { IsPrefix into.old.seen from.seen ⊎ IsPrefix from.seen into.old.seen }
        ensures longer { into.new.seen ≡ longer into.old.seen from.seen }
        ensures told { IsPrefix from.seen into.new.seen }
        ensures more { SeesOn into.old into.new }
        ensures counted { IsCounted into.new }
    {
        let mut told = mem::replace(&mut into.badge, Badge::blank()).into_seat();
        let Token {
            badge: teller,
            number: _,
            made: _,
            ended: _,
        } = from;
        board::tell_seat::<V>(&self.table.shared, &mut told, teller.into_seat());
        into.badge = told.into_badge();
    }

    /// Takes the lock, and returns the value, which represents the whole history. The token has then seen the whole
    /// history.
    ///
    /// It waits while another token holds the lock: it checks for a short time, and then sleeps. The lock goes to the
    /// thread that comes while it is free, and not to the one that waits longest. It allocates nothing.
    ///
    /// It waits for ever if the thread holds the lock by another token, or if the holder never releases it.
    pub fn take<R: Wait>(&self, rt: &R, token: &mut Token<V::Entry>) -> V
        requires own { token.old.identity ≡ self.now }
        requires idle { MayTake token.old }
        ensures turn { SameToken token.old token.new × (token.new.holds_turn ≡ true) }
        ensures value { V.stands result (entries token.new.seen) × (V.frame result ≡ token.new.frame) }
        ensures more { SeesOn token.old token.new }
        ensures counted { IsCounted token.new }
    {
        let mut waiter = mem::replace(&mut token.badge, Badge::blank()).into_seat();
        let ticket = board::draw_ticket::<V, R>(rt, &self.table.shared, &mut waiter);
        let value = board::await_turn::<V, R>(rt, &self.table.shared, &mut waiter, ticket);
        token.badge = waiter.into_badge();
        value
    }

    /// Adds one entry at the end of the history, under the token's number. It drops the entry and allocates nothing.
    /// The token holds the lock.
    pub fn enter(&self, token: &mut Token<V::Entry>, entry: V::Entry)
        requires own { token.old.identity ≡ self.now }
        requires turn { MayEnter token.old }
        ensures turn { SameToken token.old token.new × (token.new.holds_turn ≡ true) }
        ensures added { token.new.seen ≡ token.old.seen ++ (token.old.number, entry) ∷ [] }
        ensures entries { entries token.new.seen ≡ entries token.old.seen ++ entry ∷ [] }
        ensures mine { mine token.new ≡ mine token.old ++ (token.old.number, entry) ∷ [] }
        ensures more { IsPrefix token.old.seen token.new.seen }
        ensures counted { IsCounted token.new }
    {
        self.enter_lent(token, &entry);
    }

    /// Adds an entry as [`enter`](Chronicle::enter) does, and leaves it to the caller, so none has to be made for the
    /// history.
    pub fn enter_lent(&self, token: &mut Token<V::Entry>, entry: &V::Entry)
        requires own { token.old.identity ≡ self.now }
        requires turn { MayEnter token.old }
        ensures turn { SameToken token.old token.new × (token.new.holds_turn ≡ true) }
        ensures added { token.new.seen ≡ token.old.seen ++ (token.old.number, entry.now) ∷ [] }
        ensures entries { entries token.new.seen ≡ entries token.old.seen ++ entry.now ∷ [] }
        ensures mine { mine token.new ≡ mine token.old ++ (token.old.number, entry.now) ∷ [] }
        ensures more { IsPrefix token.old.seen token.new.seen }
        ensures counted { IsCounted token.new }
    {
        let mut writer = mem::replace(&mut token.badge, Badge::blank()).into_seat();
        board::add_entry::<V, Brand>(&self.table.shared, &mut writer, entry);
        token.badge = writer.into_badge();
    }

    /// Releases the lock, and returns the value to it. The value has to represent the whole history. It never waits and
    /// allocates nothing.
    pub fn give(&self, token: &mut Token<V::Entry>, value: V)
        requires own { token.old.identity ≡ self.now }
        requires turn { MayGive token.old }
        requires value { V.stands value (entries token.old.seen) × (V.frame value ≡ token.old.frame) }
        ensures idle { SameToken token.old token.new × (token.new.holds_turn ≡ false) }
        ensures seen { (token.new.seen ≡ token.old.seen) × (mine token.new ≡ mine token.old) }
        ensures counted { IsCounted token.new }
    {
        let mut holder = mem::replace(&mut token.badge, Badge::blank()).into_seat();
        board::pass_turn::<V>(&self.table.shared, &mut holder, value);
        token.badge = holder.into_badge();
    }

    /// Takes the lock for good: as [`take`](Chronicle::take), and no call releases it. Each later `take` waits for
    /// ever. The token can enter nothing more; a note of it can still be made.
    pub fn end<R: Wait>(&self, rt: &R, token: &mut Token<V::Entry>) -> V
        requires own { token.old.identity ≡ self.now }
        requires idle { MayTake token.old }
        ensures ended { EndsWith token.old token.new }
        ensures value { V.stands result (entries token.new.seen) × (V.frame result ≡ token.new.frame) }
        ensures more { SeesOn token.old token.new }
        ensures counted { IsCounted token.new }
    {
        let value = self.take(rt, token);
        token.ended = true;
        value
    }
}
