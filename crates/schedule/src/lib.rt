//! The calls of several clients, turn by turn, in the order that a script lists.
//!
//! Each client carries out its calls one after the other; a turn of a client is the first turn of its next
//! call, or the next one of its call under way. Read `specs/WholeRun.antt` for what a run promises and
//! `specs/InTurn.antt` for whose turn is next, then `specs/Running.antt`, `specs/Turned.antt` and
//! `specs/Coming.antt` for how it goes on; `specs/Turns.antt` for the turn that listed an item, and
//! `HasPlayed` of `specs/Playing.antt` for the law of turns. Stands on `core_turns`, `core_open`,
//! `client_script` and `journal_law`.
#![tactic(auto)]

mod client;
mod computing;
mod live;
mod progress;
mod replay;
mod taking;
mod turning;
mod whole_run;

pub use client::{Client, UnderWay, Work};
pub use computing::{Computed, ToCompute};
pub use live::{Finished, Live};
pub use progress::{Progress, UsedUp};
pub use replay::{begin, carry_out, take_listed, take_turns, turn_of};
pub use taking::take_turn;
pub use whole_run::{Ended, PoolRun, Ran, run_pool};
