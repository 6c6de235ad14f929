// The turn lock.
ghost use Rattle.std.specs.Prelude.{◌≡◌, ◌*◌, ◌<◌, ◌≤◌, ◌^◌, ◌+◌, [], ◌∷◌, ◌++◌, false, true, Some, IfOk, IfErr};
ghost use Rattle.std.specs.Prelude.{length};
ghost use Rattle.turn_lock.specs.Turn.{KnowsHistory, entries};
ghost use Rattle.turn_lock.specs.Seats.{first_seat, everyone, having_seen, with_turn, after_entry, without_turn};
ghost use Rattle.turn_lock.specs.Seats.{having_split, split_from, with_joined, Ended};

use crate::rule::{Law, Represents};
use crate::seat::{Held, NewRefused, Seat};
use crate::step::{
    FULL, Spent, end_all, end_as_before, end_with, join, lay, lift, split, take_out, wait_for_turn,
    wait_to_close,
};
use crate::view::View;
use atomic_table::{Refused, Table};
use std::alloc::{AllocFailed, Global};
use std::marker::{Brand, Model, PhantomData};
use std::sync::Wait;

/// A state that threads use by turns.
pub struct Turns<S: Represents<K, E>, K, E: Drop> {
    pub(crate) table: Table<Option<S>, View<E>, K, Law<S, K, E>, Global>,
}

impl<S: Represents<K, E>, K, E: Drop> Model for Turns<S, K, E> {
    ghost use Rattle.std.specs.Prelude.{◌≡◌};
    ghost use Rattle.turn_lock.specs.Seats.{Lock};

    ghost Value = { Lock K };

    ghost view = { λ t. record { id = t.table.shared.table_id; base = t.table.shared.key } };

    ghost invariant = { λ t. (t.table.shared.table_id.words ≡ 1) × (t.table.shared.table_id.slots ≡ 1) };
}

impl<S: Represents<K, E>, K, E: Drop> Turns<S, K, E> {
    /// A lock on a state that stands for no entry yet, and its first seat.
    pub fn new(
        alloc: Global,
        state: S,
        base: &K,
    ) -> Result<(Turns<S, K, E>, Seat<S, E>), NewRefused<S>>
        requires stands { S.represents base.now [] state }
        ensures lock { IfOk result (λ made. made.0.base ≡ base.now) }
        ensures seat { IfOk result (λ made. made.1 ≡ first_seat made.0.id) }
        ensures refused { IfErr result (λ refused. refused.state ≡ state) }
    {
        let slots = one_slot(alloc, state)?;
        match Table::new(alloc, &[0], slots, base) {
            Ok((table, seat)) => Ok((Turns { table }, Seat { seat, events: 0 })),
            Err(Refused { slots }) => Err(NewRefused { state: only(slots) }),
        }
    }

    /// Waits for the turn, and lends the state. Refuses where there have been 2^62 events.
    pub fn take<R: Wait>(&self, rt: &R, seat: &mut Seat<S, E>) -> Result<Held<S>, Spent>
        requires lock { seat.old.lock ≡ self.now.id }
        requires free { seat.old.holds ≡ false }
        ensures held { IfOk result (λ _. seat.new ≡ with_turn seat.new.me.seen seat.old) }
        ensures stands { IfOk result (λ held. S.represents self.now.base (entries seat.new.me.seen) held.state) }
        ensures room { IfOk result (λ _. length seat.new.me.seen < 2 ^ 62) }
        ensures spent { IfErr result (λ _. seat.new ≡ having_seen seat.new.me.seen seat.old) }
        ensures full { IfErr result (λ _. length seat.new.me.seen ≡ 2 ^ 62) }
        ensures knows { KnowsHistory seat.new.me.seen (everyone seat.old) }
    {
        match wait_for_turn::<K, E, S, Brand, R>(rt, &self.table.shared, &mut seat.seat) {
            Ok(events) => {
                seat.events = events;
                Ok(Held {
                    state: lift(&self.table.shared, &mut seat.seat),
                    of: PhantomData,
                })
            }
            Err(Spent) => {
                seat.events = FULL / 2;
                Err(Spent)
            }
        }
    }

    /// Ends the turn with an entry.
    pub fn give(&self, seat: &mut Seat<S, E>, held: Held<S>, entry: &E)
        requires lock { seat.old.lock ≡ self.now.id }
        requires holds { seat.old.holds ≡ true }
        requires stands { S.represents self.now.base (entries seat.old.me.seen ++ entry.now ∷ []) held.state }
        ensures gave { seat.new ≡ after_entry entry.now seat.old }
    {
        let Held { state, of: _ } = held;
        lay(&self.table.shared, &mut seat.seat, state);
        seat.events += 1;
        end_with::<K, E, S, Brand>(&self.table.shared, &mut seat.seat, 2 * seat.events, entry);
    }

    /// Ends the turn with no event.
    pub fn give_back(&self, seat: &mut Seat<S, E>, held: Held<S>)
        requires lock { seat.old.lock ≡ self.now.id }
        requires holds { seat.old.holds ≡ true }
        requires stands { S.represents self.now.base (entries seat.old.me.seen) held.state }
        ensures gave { seat.new ≡ without_turn seat.old }
    {
        let Held { state, of: _ } = held;
        lay(&self.table.shared, &mut seat.seat, state);
        end_as_before(&self.table.shared, &mut seat.seat, 2 * seat.events);
    }

    /// Makes a seat for another thread, with a name and entries of its own. It has seen what this one has.
    pub fn split(&self, seat: &mut Seat<S, E>) -> Seat<S, E>
        requires lock { seat.old.lock ≡ self.now.id }
        requires free { seat.old.holds ≡ false }
        ensures kept { seat.new ≡ having_split seat.old }
        ensures made { result ≡ split_from seat.old }
    {
        Seat {
            seat: split(&self.table.shared, &mut seat.seat),
            events: seat.events,
        }
    }

    /// Takes in a seat, whose name and entries are kept. Then this one has seen what either had.
    pub fn join(&self, seat: &mut Seat<S, E>, other: Seat<S, E>)
        requires lock { (seat.old.lock ≡ self.now.id) × (other.lock ≡ self.now.id) }
        requires free { (seat.old.holds ≡ false) × (other.holds ≡ false) }
        ensures joined { seat.new ≡ with_joined seat.old other }
    {
        let events = seat.events.max(other.events());
        join(&self.table.shared, &mut seat.seat, other.into_inner());
        seat.events = events;
    }

    /// Waits for the turn, ends all turns, and gives the state.
    pub fn close<R: Wait>(self, rt: &R, seat: Seat<S, E>) -> S
        requires lock { seat.lock ≡ self.id }
        requires free { seat.holds ≡ false }
        ensures ended { Ended S.represents self.base seat result }
    {
        let Turns { table } = self;
        let mut last = seat.into_inner();
        let word = wait_to_close::<K, E, S, Brand, R>(rt, &table.shared, &mut last);
        end_all(&table.shared, &mut last, word);
        take_out(table, last)
    }
}

/// A row of one slot.
fn one_slot<S>(alloc: Global, state: S) -> Result<Vec<Option<S>>, NewRefused<S>>
    ensures slots { IfOk result (λ slots. slots.items ≡ Some state ∷ []) }
    ensures refused { IfErr result (λ refused. refused.state ≡ state) }
{
    let mut slots = Vec::new(alloc);
    match slots.push(Some(state)) {
        Ok(()) => Ok(slots),
        Err(AllocFailed { value }) => {
            slots.destroy_empty();
            match value {
                Some(state) => Err(NewRefused { state }),
                None => unreachable!(),
            }
        }
    }
}

/// The state in a row of one slot.
fn only<S>(mut slots: Vec<Option<S>>) -> S
    requires one { (y : S) × (slots.items ≡ Some y ∷ []) }
    ensures state { slots.items ≡ Some result ∷ [] }
{
    let last = slots.pop();
    slots.destroy_empty();
    match last {
        Some(Some(state)) => state,
        Some(None) | None => unreachable!(),
    }
}
