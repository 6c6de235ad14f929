// How the top call ended, and what it leaves.
ghost use Rattle.std.specs.Prelude.{◌≡◌, []};

use crate::status::Status;
use core_state::Journal;
use std::alloc::Global;

/// How a call ended, the bank, what was answered (nothing where no pool was opened), and how many turns
/// were taken.
#[derive(Drop)]
pub struct Outcome<B> {
    pub status: Status,
    pub bank: B,
    pub journal: Journal,
    pub turns: u64,
}

impl<B> Outcome<B> {
    /// A call that took no turns.
    pub fn without_turns(alloc: Global, status: Status, bank: B) -> Outcome<B>
        ensures status { result.status ≡ status }
        ensures bank { result.bank ≡ bank }
        ensures journal { result.journal.items ≡ [] }
        ensures turns { result.turns ≡ 0 }
    {
        Outcome {
            status,
            bank,
            journal: Journal::new(alloc),
            turns: 0,
        }
    }
}
