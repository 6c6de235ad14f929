// What the threads of a run share.
ghost use Rattle.std.specs.Prelude.{◌≡◌, ◌+◌, ℕ, All, length};
ghost use Rattle.client_script.specs.Script.{IsAllowed};

use crate::host::Host;
use bank_trait::Bank;
use client_script::Script;
use schedule::Live;
use std::marker::{Brand, PhantomData};
use turn_lock::{Represents, Seat, Turns};

/// Which script the threads carry out, and what they began from. It stands in contracts alone.
pub trait Setup {
    ghost use Rattle.std.specs.Prelude.{Option};
    ghost use Rattle.client_script.specs.Script.{Script};
    ghost use Rattle.schedule.specs.Turns.{Turns};

    ghost script: { Script };

    ghost start: { Option Turns };
}

impl Setup for Brand {
    ghost use Rattle.std.specs.Prelude.{None, []};

    ghost script = { record { clients = 0; calls = []; order = [] } };

    ghost start = { None };
}

/// Turns that a client had one after the other, while no other had one.
#[derive(Clone, Copy, Debug, PartialEq, Eq)]
pub struct TurnsTaken {
    pub actor: u8,
    pub turns: u64,
}

/// An open pool and what the clients have come to, behind a pointer, so that they stay where they are while the lock
/// goes from thread to thread.
pub struct Shared<B: Bank, J: Setup> {
    pub live: Box<Live<B>>,
    pub of: PhantomData<J>,
}

/// The lock on the pool of a run.
pub type PoolLock<B, J> = Turns<Shared<B, J>, (), TurnsTaken>;

/// A thread's place at that lock.
pub type PoolSeat<B, J> = Seat<Shared<B, J>, TurnsTaken>;

/// What the threads of a run have in common.
#[derive(Drop)]
pub struct Run<'h, 'r, 'g, 's, 't, R, G, B: Bank, J: Setup> {
    pub host: &'h Host<'r, 'g, R, G>,
    /// The calls of the clients.
    pub script: &'s Script,
    /// The pool, which a thread has while it holds the turn.
    pub turns: &'t PoolLock<B, J>,
}

impl<B: Bank, J: Setup> Represents<(), TurnsTaken> for Shared<B, J> {
    ghost use Rattle.schedule.specs.Live.{turns_in};
    ghost use Rattle.pool_live.specs.Sharing.{StandsFor, actors_told};

    ghost represents = { λ base told shared. StandsFor J.script J.start (actors_told told)
        (turns_in B.disk shared.live.value) shared.live.value.journal.room shared.live.value.progress.turns };
}
