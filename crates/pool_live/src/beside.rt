// The clients of a script, each in a thread of its own.
ghost use Rattle.std.specs.Prelude.{◌≡◌, ◌<◌, ◌≤◌, ℕ, List, All, Some, []};
ghost use Rattle.std.specs.Thread.{IsSync};
ghost use Rattle.core_state.specs.Journal.{CallsAreRight, IsComplete};
ghost use Rattle.core_state.specs.declared.item.Item.{Item as ItemOf};
ghost use Rattle.client_script.specs.Script.{IsAllowed, asked_by, calls_of};
ghost use Rattle.core_turns.specs.Core.{CoreState, at_disk, HasBankOf};
ghost use Rattle.schedule.specs.Computing.{IsComputedFor};
ghost use Rattle.schedule.specs.declared.whole_run.Ended.TheVariants.{Whole, NoMemory, Limit};
ghost use Rattle.schedule.specs.Live.{turns_in};
ghost use Rattle.schedule.specs.Playing.{IsReady};
ghost use Rattle.schedule.specs.Replaying.{IsAtRest, blank_clients};
ghost use Rattle.schedule.specs.Turns.{most_turns, turns_of};
ghost use Rattle.pool_live.specs.declared.batch.Next.TheVariants.{Ended as EndedOf};
ghost use Rattle.pool_live.specs.Sharing.{AnswersNone, ComesTo, HasCarriedOut, HasStoodFor, IsFreeSeat};
ghost use Rattle.pool_live.specs.Sharing.{IsUntouched, StandsFor};

use crate::batch::{Next, take_turns_of};
use crate::gate::pass_behind;
use crate::host::Host;
use crate::live::{PoolSeat, Run, Setup, Shared};
use bank_trait::{Bank, Gate};
use client_script::Script;
use core_state::Journal;
use core_turns::Core;
use crossbeam_utils::CachePadded;
use schedule::{Computed, Ended, Finished, Live, UsedUp, begin, take_turns};
use std::alloc::Global;
use std::marker::{Brand, PhantomData};
use std::sync::Wait;
use std::thread::{Threads, join, yield_now};
use turn_lock::{NewRefused, Turns};

/// The calls of one client, some turns at once, and the gate between them. What a turn asks to be computed is computed
/// before it, while others have theirs. It ends where the client has no turn to take, or no more can be counted.
fn run_client<R: Wait, G: Gate, B: Bank, J: Setup>(
    run: &Run<R, G, B, J>,
    mut seat: PoolSeat<B, J>,
    actor: u8,
) -> PoolSeat<B, J>
    requires script { run.now.script.now ≡ J.script }
    requires allowed { All (λ placed. IsAllowed placed.call) run.now.script.now.calls }
    requires seat { IsFreeSeat run.now.turns.now seat }
    ensures seat { IsFreeSeat run.now.turns.now result }
    ensures ended { ComesTo J.script J.start result actor EndedOf }
{
    let mut computed = Computed::Nothing;
    for _ in run.host.rt.forever() {
        let batch = take_turns_of(run, &mut seat, actor, computed);
        pass_behind(run.host.rt, run.host.gate, actor, &batch);
        computed = match batch.next {
            Next::GoesOn(ahead) => ahead.compute(run.host.alloc, run.script.calls(actor)),
            Next::Waits => {
                yield_now();
                Computed::Nothing
            }
            Next::Ended => return seat,
        };
    }
    unreachable!()
}

/// The calls of some clients, each of them in a thread.
fn run_clients<R: Threads + Wait + Sync, G: Gate + Sync, B: Bank + Send, J: Setup + Send + Sync>(
    run: &Run<R, G, B, J>,
    mut seat: PoolSeat<B, J>,
    first: u8,
    end: u8,
) -> PoolSeat<B, J>
    requires script { run.now.script.now ≡ J.script }
    requires allowed { All (λ placed. IsAllowed placed.call) run.now.script.now.calls }
    requires seat { IsFreeSeat run.now.turns.now seat }
    requires range { first < end }
    ensures seat { IsFreeSeat run.now.turns.now result }
{
    if end - first == 1 {
        return run_client(run, seat, first);
    }
    let middle = first + (end - first) / 2;
    let other = run.turns.split(&mut seat);
    let (mut seat, other) = join(
        run.host.rt,
        move || -> PoolSeat<B, J>
            requires { IsSync R.row × IsSync G.row × (run.now.script.now ≡ J.script)
                × (first < middle) × IsFreeSeat run.now.turns.now seat
                × All (λ placed. IsAllowed placed.call) run.now.script.now.calls }
            ensures { IsFreeSeat run.entry.now.turns.now result }
        { run_clients(run, seat, first, middle) },
        move || -> PoolSeat<B, J>
            requires { IsSync R.row × IsSync G.row × (run.now.script.now ≡ J.script)
                × (middle < end) × IsFreeSeat run.now.turns.now other
                × All (λ placed. IsAllowed placed.call) run.now.script.now.calls }
            ensures { IsFreeSeat run.entry.now.turns.now result }
        { run_clients(run, other, middle, end) },
    );
    run.turns.join(&mut seat, other);
    seat
}

/// What the threads have left: calls under way go on in rounds, then the calls that are left follow.
fn finish<B: Bank>(alloc: Global, mut live: Live<B>, script: &Script) -> Finished<B>
    requires allowed { All (λ placed. IsAllowed placed.call) script.now.calls }
    requires actors { All (λ placed. placed.actor < script.now.clients) script.now.calls }
    requires ready { IsReady script.now
        (turns_in B.disk live) live.journal.room }
    ensures taken { HasCarriedOut script.now (turns_in B.disk live)
        live.progress.turns (at_disk result.core (B.disk result.bank)) result.journal.items result.turns }
    ensures calls { CallsAreRight (asked_by script.now) result.journal.items }
    ensures complete { result.ended ≡ Whole → IsComplete (asked_by script.now) result.journal.items }
    ensures limit { result.ended ≡ Limit → most_turns ≤ result.turns }
    ensures memory { result.ended ≡ NoMemory → ⊥ }
{
    let ended = match take_turns(alloc, &mut live, script, &[]) {
        Ok(()) => Ended::Whole,
        Err(UsedUp) => Ended::Limit,
    };
    live.end(ended)
}

/// Threads take turns. Where there is no memory for a lock none is taken.
fn take_turns_beside<
    J: Setup + Send + Sync,
    R: Threads + Wait + Sync,
    G: Gate + Sync,
    B: Bank + Send,
>(host: &Host<R, G>, live: Live<B>, script: &Script) -> Live<B>
    requires script { script.now ≡ J.script }
    requires allowed { All (λ placed. IsAllowed placed.call) script.now.calls }
    requires stands { StandsFor J.script J.start []
        (turns_in B.disk live) live.journal.room live.progress.turns }
    ensures stands { HasStoodFor J.script J.start
        (turns_in B.disk result) result.journal.room
        result.progress.turns }
{
    let shared: Shared<B, J> = match Box::new(host.alloc, live) {
        Ok(live) => Shared {
            live,
            of: PhantomData,
        },
        Err(refused) => return refused.value,
    };
    let (turns, seat) = match Turns::new(host.alloc, shared, &()) {
        Ok(made) => made,
        Err(
            NewRefused {
                state: Shared { live, of: _ },
            },
        ) => return Box::into_inner(live),
    };
    let turns = CachePadded::new(turns);
    let clients = script.clients();
    let last = if clients == 0 {
        seat
    } else {
        let run = Run {
            host,
            script,
            turns: &turns,
        };
        run_clients(&run, seat, 0, clients)
    };
    let Shared { live, of: _ } = turns.into_inner().close(host.rt, last);
    Box::into_inner(live)
}

/// The same, and then what the threads have left.
fn share<J: Setup + Send + Sync, R: Threads + Wait + Sync, G: Gate + Sync, B: Bank + Send>(
    host: &Host<R, G>,
    live: Live<B>,
    script: &Script,
) -> Finished<B>
    requires script { script.now ≡ J.script }
    requires start { J.start ≡ Some (turns_in B.disk live) }
    requires allowed { All (λ placed. IsAllowed placed.call) script.now.calls }
    requires actors { All (λ placed. placed.actor < script.now.clients) script.now.calls }
    requires ready { IsReady script.now
        (turns_in B.disk live) live.journal.room }
    requires none { live.progress.turns ≡ 0 }
    ensures taken { HasCarriedOut script.now (turns_in B.disk live) 0
        (at_disk result.core (B.disk result.bank)) result.journal.items result.turns }
    ensures calls { CallsAreRight (asked_by script.now) result.journal.items }
    ensures complete { result.ended ≡ Whole → IsComplete (asked_by script.now) result.journal.items }
    ensures limit { result.ended ≡ Limit → most_turns ≤ result.turns }
    ensures memory { result.ended ≡ NoMemory → ⊥ }
{
    let left = take_turns_beside::<J, R, G, B>(host, live, script);
    finish(host.alloc, left, script)
}

/// Carries out the calls of a script's clients, each client in a thread of its own: whoever has the turn has one, and
/// what the threads leave is carried out here. Between their turns they pass the gate. Room for all answers is made
/// before the first turn; where there is no memory for that, nothing is done. After 2^62 turns no more is taken.
pub fn carry_out_beside<R: Threads + Wait + Sync, G: Gate + Sync, B: Bank + Send>(
    host: &Host<R, G>,
    bank: B,
    core: Core,
    script: &Script,
    mut journal: Journal,
) -> Finished<B>
    requires bank { HasBankOf core (B.disk bank) }
    requires rest { IsAtRest core }
    requires allowed { All (λ placed. IsAllowed placed.call) script.now.calls }
    requires actors { All (λ placed. placed.actor < script.now.clients) script.now.calls }
    requires none { AnswersNone journal.items }
    ensures taken { HasCarriedOut script.now (turns_of (at_disk core (B.disk bank)) journal.items
        (blank_clients script.now.clients)) 0 (at_disk result.core (B.disk result.bank)) result.journal.items
        result.turns }
    ensures calls { CallsAreRight (asked_by script.now) result.journal.items }
    ensures complete { result.ended ≡ Whole → IsComplete (asked_by script.now) result.journal.items }
    ensures limit { result.ended ≡ Limit → most_turns ≤ result.turns }
    ensures memory { result.ended ≡ NoMemory → IsUntouched core (B.disk bank) journal.items
        result.core (B.disk result.bank) result.journal.items }
{
    let Ok(progress) = begin(host.alloc, script, &mut journal) else {
        return Finished {
            bank,
            core,
            journal,
            ended: Ended::NoMemory,
            turns: 0,
        };
    };
    let live = Live {
        bank,
        core,
        journal,
        progress,
    };
    share::<Brand, R, G, B>(host, live, script)
}
