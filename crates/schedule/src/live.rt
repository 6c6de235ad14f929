// An open pool while the calls of a script are carried out on it.
ghost use Rattle.std.specs.Prelude.{◌≡◌};

use crate::progress::Progress;
use crate::whole_run::Ended;
use bank_trait::Bank;
use core_state::Journal;
use core_turns::Core;

/// An open pool, its bank, the journal, and what the clients have come to: all that a turn changes.
#[derive(Drop)]
pub struct Live<B: Bank> {
    pub bank: B,
    pub core: Core,
    pub journal: Journal,
    pub progress: Progress,
}

/// How the calls of a script were carried out, and in how many turns, with the pool, its bank and the journal.
#[derive(Drop)]
pub struct Finished<B: Bank> {
    pub bank: B,
    pub core: Core,
    pub journal: Journal,
    pub ended: Ended,
    pub turns: u64,
}

impl<B: Bank> Live<B> {
    /// Whether the next turn of the client of this number syncs a device. A turn that finds too many devices out makes
    /// no device call.
    pub fn syncs_next(&self, actor: u8) -> bool {
        self.progress.syncs_next(actor, self.core.out()) && !self.core.has_too_many_out()
    }

    /// What is left of it once the calls were carried out, which ended so.
    pub fn end(self, ended: Ended) -> Finished<B>
        ensures { result ≡ record {
          bank = self.bank;
          core = self.core;
          journal = self.journal;
          ended = ended;
          turns = self.progress.turns;
        } }
    {
        let Live {
            bank,
            core,
            journal,
            progress,
        } = self;
        Finished {
            bank,
            core,
            journal,
            ended,
            turns: progress.turns,
        }
    }
}
