// The steps on the table, which know what a seat knows.
ghost use Rattle.std.specs.Prelude.{◌≡◌, ◌*◌, ◌%◌, ◌<◌, ◌≤◌, ◌^◌, ◌+◌, [], ◌∷◌, false, true, Some, None, IfOk, IfErr};
ghost use Rattle.std.specs.Prelude.{length};
ghost use Rattle.turn_lock.specs.Turn.{Acquires, Observes, Releases, KnowsHistory, StandsIf, StandsFor, IsLive};
ghost use Rattle.turn_lock.specs.Turn.{HasAcquired};
ghost use Rattle.turn_lock.specs.Turn.{HasAcquiredLast, Closes, ObservesFull, kept_at_split, made_at_split, joined};
ghost use Rattle.turn_lock.specs.Turn.{entries};
ghost use Rattle.turn_lock.specs.Turn.{told, seen_of};

use crate::rule::{Based, Both, Ends, Gives, Law, Looks, Parts, Represents, Takes, Told};
use crate::view::View;
use atomic_table::{Seat, Shared, Table};
use std::alloc::Global;
use std::hint::spin_loop;
use std::marker::Brand;
use std::sync::Wait;

/// The word from which on no turn is had: 2^62 events.
pub const FULL: u64 = 1 << 63;

/// How often a thread looks at the word before it sleeps.
const LOOKS: u32 = 500;

/// The history has become as long as it may.
#[derive(Debug, Drop, PartialEq)]
pub struct Spent;

/// How long the history is; where it is full, the seat sees it.
fn look<K, E: Drop, S: Represents<K, E>>(
    shared: &Shared<Option<S>, View<E>, K, Law<S, K, E>>,
    seat: &mut Seat<Option<S>, View<E>>,
) -> u64
    requires table { seat.old.table_id ≡ shared.now.table_id }
    requires shape { (shared.now.table_id.words ≡ 1) × (shared.now.table_id.slots ≡ 1) }
    requires free { seat.old.me.0.holds ≡ false }
    ensures table { (seat.new.table_id ≡ seat.old.table_id) × (seat.new.id ≡ seat.old.id) }
    ensures looked { Observes seat.old.me result seat.new.me }
{
    shared.load::<Looks>(seat, 0)
}

/// Tries to take the turn at an even number.
fn try_take<K, E: Drop, S: Represents<K, E>, J: Based<K>>(
    shared: &Shared<Option<S>, View<E>, K, Law<S, K, E>>,
    seat: &mut Seat<Option<S>, View<E>>,
    at: u64,
) -> u64
    requires table { seat.old.table_id ≡ shared.now.table_id }
    requires shape { (shared.now.table_id.words ≡ 1) × (shared.now.table_id.slots ≡ 1) }
    requires base { J.base ≡ Some shared.now.key }
    requires live { IsLive seat.old.me.0 }
    requires free { (seat.old.me.0.holds ≡ false) × (seat.old.me.1 ≡ []) }
    requires even { at % 2 ≡ 0 }
    requires room { at ≤ 2 ^ 63 }
    ensures table { (seat.new.table_id ≡ seat.old.table_id) × (seat.new.id ≡ seat.old.id) }
    ensures took { Acquires (StandsIf S.represents J.base) seat.old.me at result seat.new.me }
{
    shared.compare_exchange::<Takes<S, K, E, J>>(seat, 0, at, at + 1)
}

/// Waits for the word to change: awake for about as long as a turn with a device call takes, and then asleep. It may
/// return before the word has changed.
fn wait_for_change<K, E: Drop, S: Represents<K, E>, R: Wait>(
    rt: &R,
    shared: &Shared<Option<S>, View<E>, K, Law<S, K, E>>,
    found: u64,
)
    requires shape { (shared.now.table_id.words ≡ 1) × (shared.now.table_id.slots ≡ 1) }
{
    for _ in 0..LOOKS {
        if shared.peek(0) != found {
            return;
        }
        spin_loop();
    }
    shared.park(rt, 0, (found % 4_294_967_296) as u32);
}

/// Waits for the turn, and says how many events were before it.
pub(crate) fn wait_for_turn<K, E: Drop, S: Represents<K, E>, J: Based<K>, R: Wait>(
    rt: &R,
    shared: &Shared<Option<S>, View<E>, K, Law<S, K, E>>,
    seat: &mut Seat<Option<S>, View<E>>,
) -> Result<u64, Spent>
    requires table { seat.old.table_id ≡ shared.now.table_id }
    requires shape { (shared.now.table_id.words ≡ 1) × (shared.now.table_id.slots ≡ 1) }
    requires base { J.base ≡ Some shared.now.key }
    requires live { IsLive seat.old.me.0 }
    requires free { (seat.old.me.0.holds ≡ false) × (seat.old.me.1 ≡ []) }
    ensures table { (seat.new.table_id ≡ seat.old.table_id) × (seat.new.id ≡ seat.old.id) }
    ensures took { IfOk result (λ events. HasAcquired (StandsIf S.represents J.base) events seat.old.me seat.new.me) }
    ensures full { IfErr result (λ _. ObservesFull seat.old.me seat.new.me) }
{
    for _ in rt.forever() {
        let found = look(shared, seat);
        if found >= FULL {
            // Another may sleep here, and has to find the same.
            shared.wake_one(0);
            return Err(Spent);
        }
        if found % 2 == 1 {
            wait_for_change(rt, shared, found);
        } else if try_take::<K, E, S, J>(shared, seat, found) == found {
            return Ok(found / 2);
        }
    }
    unreachable!()
}

/// Waits for the turn, at any number of events, and says what the word is then.
pub(crate) fn wait_to_close<K, E: Drop, S: Represents<K, E>, J: Based<K>, R: Wait>(
    rt: &R,
    shared: &Shared<Option<S>, View<E>, K, Law<S, K, E>>,
    seat: &mut Seat<Option<S>, View<E>>,
) -> u64
    requires table { seat.old.table_id ≡ shared.now.table_id }
    requires shape { (shared.now.table_id.words ≡ 1) × (shared.now.table_id.slots ≡ 1) }
    requires base { J.base ≡ Some shared.now.key }
    requires live { IsLive seat.old.me.0 }
    requires free { (seat.old.me.0.holds ≡ false) × (seat.old.me.1 ≡ []) }
    ensures table { (seat.new.table_id ≡ seat.old.table_id) × (seat.new.id ≡ seat.old.id) }
    ensures took { HasAcquiredLast (StandsIf S.represents J.base) result seat.old.me seat.new.me }
{
    for _ in rt.forever() {
        let found = shared.peek(0);
        if found % 2 == 1 || found > FULL {
            shared.park(rt, 0, (found % 4_294_967_296) as u32);
        } else if try_take::<K, E, S, J>(shared, seat, found) == found {
            return found + 1;
        }
    }
    unreachable!()
}

/// Ends the turn with an entry.
pub(crate) fn end_with<K, E: Drop, S: Represents<K, E>, J: Told<E>>(
    shared: &Shared<Option<S>, View<E>, K, Law<S, K, E>>,
    seat: &mut Seat<Option<S>, View<E>>,
    next: u64,
    entry: &E,
)
    requires table { seat.old.table_id ≡ shared.now.table_id }
    requires shape { (shared.now.table_id.words ≡ 1) × (shared.now.table_id.slots ≡ 1) }
    requires entry { J.entry ≡ Some entry.now }
    requires live { IsLive seat.old.me.0 }
    requires held { seat.old.me.0.holds ≡ true }
    requires state { (y : S) × (seat.old.me.1 ≡ (0, Some y) ∷ [])
        × S.represents shared.now.key (entries (told seat.old.me.0 (Some entry.now))) y }
    requires room { length (told seat.old.me.0 (Some entry.now)) ≤ 2 ^ 62 }
    requires next { next ≡ 2 * length (told seat.old.me.0 (Some entry.now)) }
    ensures table { (seat.new.table_id ≡ seat.old.table_id) × (seat.new.id ≡ seat.old.id) }
    ensures gave { Releases (Some entry.now) seat.old.me seat.new.me }
{
    shared.store::<Gives<E, J>>(seat, 0, next);
    shared.wake_one(0);
}

/// Ends the turn with no entry.
pub(crate) fn end_as_before<K, E: Drop, S: Represents<K, E>>(
    shared: &Shared<Option<S>, View<E>, K, Law<S, K, E>>,
    seat: &mut Seat<Option<S>, View<E>>,
    next: u64,
)
    requires table { seat.old.table_id ≡ shared.now.table_id }
    requires shape { (shared.now.table_id.words ≡ 1) × (shared.now.table_id.slots ≡ 1) }
    requires live { IsLive seat.old.me.0 }
    requires held { seat.old.me.0.holds ≡ true }
    requires state { (y : S) × (seat.old.me.1 ≡ (0, Some y) ∷ [])
        × S.represents shared.now.key (entries (told seat.old.me.0 None)) y }
    requires room { length (told seat.old.me.0 None) ≤ 2 ^ 62 }
    requires next { next ≡ 2 * length (told seat.old.me.0 None) }
    ensures table { (seat.new.table_id ≡ seat.old.table_id) × (seat.new.id ≡ seat.old.id) }
    ensures gave { Releases None seat.old.me seat.new.me }
{
    shared.store::<Gives<E, Brand>>(seat, 0, next);
    shared.wake_one(0);
}

/// Splits a seat from another.
pub(crate) fn split<K, E: Drop, S: Represents<K, E>>(
    shared: &Shared<Option<S>, View<E>, K, Law<S, K, E>>,
    seat: &mut Seat<Option<S>, View<E>>,
) -> Seat<Option<S>, View<E>>
    requires table { seat.old.table_id ≡ shared.now.table_id }
    requires shape { (shared.now.table_id.words ≡ 1) × (shared.now.table_id.slots ≡ 1) }
    requires live { IsLive seat.old.me.0 }
    requires free { seat.old.me.0.holds ≡ false }
    ensures tables { (seat.new.table_id ≡ seat.old.table_id) × (seat.new.id ≡ seat.old.id)
        × (result.table_id ≡ seat.old.table_id) }
    ensures kept { seat.new.me ≡ (kept_at_split seat.old.me.0, seat.old.me.1) }
    ensures made { result.me ≡ (made_at_split seat.old.me.0, []) }
{
    shared.split_seat::<Parts>(seat)
}

/// Joins a seat into another.
pub(crate) fn join<K, E: Drop, S: Represents<K, E>>(
    shared: &Shared<Option<S>, View<E>, K, Law<S, K, E>>,
    seat: &mut Seat<Option<S>, View<E>>,
    other: Seat<Option<S>, View<E>>,
)
    requires tables { (seat.old.table_id ≡ shared.now.table_id) × (other.table_id ≡ shared.now.table_id) }
    requires shape { (shared.now.table_id.words ≡ 1) × (shared.now.table_id.slots ≡ 1) }
    requires live { IsLive seat.old.me.0 }
    requires free { (seat.old.me.0.holds ≡ false) × (other.me.0.holds ≡ false) × (other.me.1 ≡ []) }
    ensures table { (seat.new.table_id ≡ seat.old.table_id) × (seat.new.id ≡ seat.old.id) }
    ensures joined { seat.new.me ≡ (joined seat.old.me.0 other.me.0, seat.old.me.1) }
{
    shared.join_seat::<Both>(seat, other);
}

/// Lifts the state out of the slot.
pub(crate) fn lift<K, E: Drop, S: Represents<K, E>>(
    shared: &Shared<Option<S>, View<E>, K, Law<S, K, E>>,
    seat: &mut Seat<Option<S>, View<E>>,
) -> S
    requires table { seat.old.table_id ≡ shared.now.table_id }
    requires full { (y : S) × (seat.old.me.1 ≡ (0, Some y) ∷ []) }
    ensures table { (seat.new.table_id ≡ seat.old.table_id) × (seat.new.id ≡ seat.old.id) }
    ensures state { seat.old.me.1 ≡ (0, Some result) ∷ [] }
    ensures empty { seat.new.me ≡ (seat.old.me.0, (0, None) ∷ []) }
{
    match shared.exchange(seat, 0, None) {
        Some(state) => state,
        None => unreachable!(),
    }
}

/// Puts the state back into the slot.
pub(crate) fn lay<K, E: Drop, S: Represents<K, E>>(
    shared: &Shared<Option<S>, View<E>, K, Law<S, K, E>>,
    seat: &mut Seat<Option<S>, View<E>>,
    state: S,
)
    requires table { seat.old.table_id ≡ shared.now.table_id }
    requires empty { seat.old.me.1 ≡ (0, None) ∷ [] }
    ensures table { (seat.new.table_id ≡ seat.old.table_id) × (seat.new.id ≡ seat.old.id) }
    ensures state { seat.new.me ≡ (seat.old.me.0, (0, Some state) ∷ []) }
{
    let before = shared.exchange(seat, 0, Some(state));
    let None = before else { unreachable!() };
}

/// Ends all turns: the state lies in the slot, and the word stays as it is.
pub(crate) fn end_all<K, E: Drop, S: Represents<K, E>>(
    shared: &Shared<Option<S>, View<E>, K, Law<S, K, E>>,
    seat: &mut Seat<Option<S>, View<E>>,
    word: u64,
)
    requires table { seat.old.table_id ≡ shared.now.table_id }
    requires shape { (shared.now.table_id.words ≡ 1) × (shared.now.table_id.slots ≡ 1) }
    requires held { seat.old.me.0.holds ≡ true }
    requires state { (y : S) × (seat.old.me.1 ≡ (0, Some y) ∷ [])
        × S.represents shared.now.key (entries (seen_of seat.old.me.0.members)) y }
    requires word { word ≡ 2 * length (seen_of seat.old.me.0.members) + 1 }
    ensures table { (seat.new.table_id ≡ seat.old.table_id) × (seat.new.id ≡ seat.old.id) }
    ensures ended { Closes seat.old.me seat.new.me }
{
    shared.store::<Ends>(seat, 0, word);
}

/// Takes the state out of a lock whose turns have ended.
pub(crate) fn take_out<K, E: Drop, S: Represents<K, E>>(
    table: Table<Option<S>, View<E>, K, Law<S, K, E>, Global>,
    seat: Seat<Option<S>, View<E>>,
) -> S
    requires table { seat.table_id ≡ table.shared.table_id }
    requires shape { (table.shared.table_id.words ≡ 1) × (table.shared.table_id.slots ≡ 1) }
    requires ended { seat.me.0.ended ≡ true }
    ensures stands { S.represents table.shared.key (entries (seen_of seat.me.0.members)) result }
{
    let mut closed = table.close_with(seat);
    let last = closed.take(0);
    closed.free();
    match last {
        Some(state) => state,
        None => unreachable!(),
    }
}
