// A whole run: a pool is opened, and a script's calls are carried out on it turn by turn.
ghost use Rattle.std.specs.Prelude.{◌≡◌, ◌⊎◌, ◌<◌, ◌≤◌, [], All, IfOk, IfErr, Ok};
ghost use Rattle.bank_trait.specs.Disk.{Unchanged};
ghost use Rattle.core_state.specs.Journal.{IsComplete};
ghost use Rattle.core_open.specs.Causes.{IsOpenCause};
ghost use Rattle.core_open.specs.Opens.{IsForMemory, LeavesOthers};
ghost use Rattle.client_script.specs.Script.{IsAllowed, asked_by};
ghost use Rattle.core_open.specs.Opening.{CutsOpening, LeavesUnopened};
ghost use Rattle.schedule.specs.declared.whole_run.Ended.TheVariants.{Whole, Limit};
ghost use Rattle.schedule.specs.Turns.{most_turns};
ghost use Rattle.schedule.specs.WholeRun.{HasRunInTurn};

use crate::live::Finished;
use crate::replay::carry_out;
use bank_trait::Bank;
use client_script::Script;
use core_open::{OpenWhy, open_pool};
use core_state::{Item, Journal};
use core_turns::Core;
use std::alloc::Global;
use uberblock_ring::DeviceSet;

/// How far a run came: each call is answered; or there was no memory for the answers, and no turn was taken; or no
/// more turns can be counted.
#[derive(Clone, Copy, Debug, PartialEq, Eq)]
pub enum Ended {
    Whole,
    NoMemory,
    Limit,
}

/// How a run ended, how many turns it took, those that found a call in their way too, and the devices that are out.
#[derive(Clone, Copy, Debug, PartialEq, Eq)]
pub struct Ran {
    pub ended: Ended,
    pub turns: u64,
    pub out: DeviceSet,
}

/// How a run went, or why there was no pool, with the bank and the journal.
#[derive(Drop)]
pub struct PoolRun<B: Bank> {
    pub ran: Result<Ran, OpenWhy>,
    pub bank: B,
    pub journal: Journal,
}

impl<B: Bank> PoolRun<B> {
    /// The calls of a script were carried out so.
    pub fn of(finished: Finished<B>) -> PoolRun<B>
        ensures { result ≡ record {
          ran = Ok (record { ended = finished.ended; turns = finished.turns; out = finished.core.pool.out });
          bank = finished.bank;
          journal = finished.journal;
        } }
    {
        PoolRun {
            ran: Ok(Ran {
                ended: finished.ended,
                turns: finished.turns,
                out: finished.core.out(),
            }),
            bank: finished.bank,
            journal: finished.journal,
        }
    }
}

/// Opens the pool that the devices show and carries out the calls of a script's clients on it turn by turn. First
/// each client of the list takes a turn, in its order; then each call that is under way is carried on to its
/// answer, a turn a client in each round; then the calls that are left, each whole, in the order of their lines.
/// Where the list is empty, that is each call of the script. Lists what is answered: the opening's group, each
/// group that a sync, an attach or a copy ends, and each call. Lists nothing where no pool is opened.
pub fn run_pool<B: Bank>(
    alloc: Global,
    mut bank: B,
    script: &Script,
    listed: &[u8],
    mut journal: Journal,
) -> PoolRun<B>
    requires empty { journal.items ≡ [] }
    requires room { 1 ≤ journal.room }
    requires allowed { All (λ placed. IsAllowed placed.call) script.now.calls }
    requires actors { All (λ placed. placed.actor < script.now.clients) script.now.calls }
    ensures run { IfOk result.ran (HasRunInTurn script.now listed.now (B.disk bank) (B.disk result.bank)
        result.journal.items) }
    ensures complete { IfOk result.ran (λ ran. ran.ended ≡ Whole
        → IsComplete (asked_by script.now) result.journal.items) }
    ensures limit { IfOk result.ran (λ ran. ran.ended ≡ Limit → most_turns ≤ ran.turns) }
    ensures nothing { IfErr result.ran (λ why. result.journal.items ≡ []) }
    ensures cause { IfErr result.ran (IsOpenCause (B.disk bank) (B.disk result.bank)) }
    ensures cut { IfErr result.ran (λ why. Unchanged (B.disk bank) (B.disk result.bank)
        ⊎ CutsOpening (B.disk bank) (B.disk result.bank)) }
    ensures untouched { IfErr result.ran (λ why.
        LeavesUnopened why (B.disk bank) (B.disk result.bank)) }
    ensures opens { IfErr result.ran (IsForMemory (B.disk bank) (B.disk result.bank)) }
    ensures others { IfErr result.ran (λ why. LeavesOthers (B.disk bank) (B.disk result.bank)) }
{
    let opened = match open_pool(alloc, &mut bank) {
        Ok(opened) => opened,
        Err(why) => {
            return PoolRun {
                ran: Err(why),
                bank,
                journal,
            };
        }
    };
    journal.list(Item::Group(opened.pool.first_item()));
    let core = Core::new(alloc, opened.pool);
    PoolRun::of(carry_out(alloc, bank, core, script, listed, journal))
}
