// A whole run: a pool is opened, and a script's clients have their calls carried out on it beside one another.
ghost use Rattle.std.specs.Prelude.{◌≡◌, ◌⊎◌, ◌<◌, ◌≤◌, [], All, IfOk, IfErr};
ghost use Rattle.bank_trait.specs.Disk.{Unchanged};
ghost use Rattle.core_state.specs.Journal.{CallsAreRight, IsComplete};
ghost use Rattle.core_open.specs.Causes.{IsOpenCause};
ghost use Rattle.core_open.specs.Opens.{IsForMemory, LeavesOthers};
ghost use Rattle.client_script.specs.Script.{IsAllowed, asked_by};
ghost use Rattle.core_turns.specs.Core.{at_disk, HasBankOf};
ghost use Rattle.core_open.specs.Opening.{CutsOpening, LeavesUnopened};
ghost use Rattle.schedule.specs.declared.whole_run.Ended.TheVariants.{Whole, NoMemory};
ghost use Rattle.schedule.specs.Playing.{CarriesOut};
ghost use Rattle.schedule.specs.Replaying.{IsAtRest, blank_clients};
ghost use Rattle.schedule.specs.Turns.{turns_of};
ghost use Rattle.pool_live.specs.Sharing.{AnswersNone};
ghost use Rattle.pool_live.specs.Widening.{HasRunBeside, IsCarriedWith};

use crate::beside::carry_out_beside;
use crate::host::Host;
use bank_trait::{Bank, Gate};
use client_script::{Script, add_copier};
use core_open::{OpenWhy, open_pool};
use core_state::{Item, Journal};
use core_turns::Core;
use schedule::{Ended, Finished, PoolRun, carry_out};
use std::alloc::Global;
use std::sync::Wait;
use std::thread::Threads;

/// Carries out the calls of a script's clients on an open pool, each client in a thread of its own; with one more that
/// widens the pool, where a device is to be attached or an expansion runs. The calls of an only client are carried out
/// here. Where there is no memory nothing is done.
fn carry_out_with<R: Threads + Wait + Sync, G: Gate + Sync, B: Bank + Send>(
    host: &Host<R, G>,
    bank: B,
    core: Core,
    mut script: Script,
    attaches: bool,
    journal: Journal,
) -> Finished<B>
    requires bank { HasBankOf core (B.disk bank) }
    requires rest { IsAtRest core }
    requires allowed { All (λ placed. IsAllowed placed.call) script.calls }
    requires clients { script.clients ≤ 8 }
    requires actors { All (λ placed. placed.actor < script.clients) script.calls }
    requires none { AnswersNone journal.items }
    ensures { IsCarriedWith script attaches (at_disk core (B.disk bank)) journal.items result.ended result.turns
        (at_disk result.core (B.disk result.bank)) result.journal.items }
{
    if attaches || core.reflow().expands() {
        let Ok(()) = add_copier(host.alloc, &mut script, attaches) else {
            return Finished {
                bank,
                core,
                journal,
                ended: Ended::NoMemory,
                turns: 0,
            };
        };
        return carry_out_beside(host, bank, core, &script, journal);
    }
    if script.clients() <= 1 {
        return carry_out(host.alloc, bank, core, &script, &[], journal);
    }
    carry_out_beside(host, bank, core, &script, journal)
}

/// Opens the pool that the devices show and carries out the calls of a script's clients on it, each client in a thread
/// of its own. Beside them one more client attaches a device, where that is asked for, and copies; where an expansion
/// runs it copies in any case. Without that client, the calls of an only one are carried out in one thread, in the
/// order of their lines, and pass no gate. Lists what is answered: the opening's group, each group that a sync, an
/// attach or a copy ends, and each call. Lists nothing where no pool is opened.
pub fn run_pool_beside<R: Threads + Wait + Sync, B: Bank + Send, G: Gate + Sync>(
    rt: &R,
    alloc: Global,
    mut bank: B,
    script: Script,
    attaches: bool,
    gate: &G,
    mut journal: Journal,
) -> PoolRun<B>
    requires empty { journal.items ≡ [] }
    requires room { 1 ≤ journal.room }
    requires allowed { All (λ placed. IsAllowed placed.call) script.calls }
    requires clients { script.clients ≤ 8 }
    requires actors { All (λ placed. placed.actor < script.clients) script.calls }
    ensures run { IfOk result.ran (HasRunBeside script attaches (B.disk bank) (B.disk result.bank)
        result.journal.items) }
    ensures memory { IfOk result.ran (λ ran. ran.ended ≡ NoMemory → AnswersNone result.journal.items) }
    ensures nothing { IfErr result.ran (λ why. result.journal.items ≡ []) }
    ensures cause { IfErr result.ran (IsOpenCause (B.disk bank) (B.disk result.bank)) }
    ensures cut { IfErr result.ran (λ why. Unchanged (B.disk bank) (B.disk result.bank)
        ⊎ CutsOpening (B.disk bank) (B.disk result.bank)) }
    ensures untouched { IfErr result.ran (λ why. LeavesUnopened why (B.disk bank) (B.disk result.bank)) }
    ensures opens { IfErr result.ran (IsForMemory (B.disk bank) (B.disk result.bank)) }
    ensures others { IfErr result.ran (λ why. LeavesOthers (B.disk bank) (B.disk result.bank)) }
{
    let opened = match open_pool(alloc, &mut bank) {
        Ok(opened) => opened,
        Err(why) => {
            return PoolRun {
                ran: Err(why),
                bank,
                journal,
            };
        }
    };
    journal.list(Item::Group(opened.pool.first_item()));
    let core = Core::new(alloc, opened.pool);
    let host = Host { rt, alloc, gate };
    PoolRun::of(carry_out_with(&host, bank, core, script, attaches, journal))
}
