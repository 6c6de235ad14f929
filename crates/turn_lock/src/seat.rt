// A thread's place at a lock.
ghost use Rattle.std.specs.Prelude.{◌≡◌, ◌≤◌, ◌^◌, [], false, length, Contains};
ghost use Rattle.turn_lock.specs.Seats.{sitting};
ghost use Rattle.turn_lock.specs.Turn.{IsLive, seen_of};
ghost use Rattle.turn_lock.specs.declared.view.Member.{Member};

use crate::view::View;
use std::marker::{Model, PhantomData};

/// A thread's place at a lock. Contracts see its name, the history as it saw it, its own entries, and the seats that
/// were joined into it.
pub struct Seat<S, E: Drop> {
    pub(crate) seat: atomic_table::Seat<Option<S>, View<E>>,
    pub(crate) events: u64,
}

impl<S, E: Drop> Model for Seat<S, E> {
    ghost use Rattle.turn_lock.specs.Seats.{Sitting, sitting, IsSeat};

    ghost Value = { Sitting E };

    ghost view = { λ s. sitting s.seat.table_id s.seat.me.0 };

    ghost invariant = { λ s. IsSeat s.seat.me s.events };
}

impl<S, E: Drop> Seat<S, E> {
    /// How many events the seat has seen.
    pub fn events(&self) -> u64
        ensures events { result ≡ length self.now.me.seen }
    {
        self.events
    }

    /// The seat of the table.
    pub(crate) fn into_inner(self) -> atomic_table::Seat<Option<S>, View<E>>
        ensures seat { sitting result.table_id result.me.0 ≡ self }
        ensures live { IsLive result.me.0 }
        ensures most { (n : Member E) → Contains result.me.0.members n
            → length n.seen ≤ length (seen_of result.me.0.members) }
        ensures room { length (seen_of result.me.0.members) ≤ 2 ^ 62 }
        ensures free { result.me.0.holds ≡ false → result.me.1 ≡ [] }
    {
        let Seat { seat, events: _ } = self;
        seat
    }
}

impl<S, E: Drop> Drop for Seat<S, E> {
    fn drop(self) {
        let Self { seat: _, events: _ } = self;
    }
}

/// The state, lent for a turn. It is no `Drop`: only `give` and `give_back` of the lock take it.
/// It is moved out of the lock and back into it, so a large state is best kept behind a `Box`.
pub struct Held<S> {
    pub state: S,
    pub(crate) of: PhantomData<S>,
}

/// There was no memory for a lock. The state comes back.
#[derive(Drop)]
pub struct NewRefused<S> {
    pub state: S,
}
