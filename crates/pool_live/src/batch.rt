// The turns that a client has while it holds the lock.
ghost use Rattle.std.specs.Prelude.{◌≡◌, ◌+◌, ◌≤◌, ℕ, List, All, IsTrue, length};
ghost use Rattle.core_state.specs.declared.item.Item.{Item as ItemOf};
ghost use Rattle.client_script.specs.Script.{IsAllowed, Script as ScriptOf, calls_of};
ghost use Rattle.core_turns.specs.Core.{CoreState};
ghost use Rattle.schedule.specs.Computing.{IsComputedFor};
ghost use Rattle.schedule.specs.Live.{turns_in};
ghost use Rattle.schedule.specs.InTurn.{IsTurnOf};
ghost use Rattle.schedule.specs.Playing.{IsReady};
ghost use Rattle.schedule.specs.Turns.{Turns as TurnsOf, turns_of};
ghost use Rattle.schedule.specs.declared.computing.ToCompute.TheVariants as to_compute;
ghost use Rattle.pool_live.specs.declared.batch.Next.TheVariants.{Ended, GoesOn};
ghost use Rattle.pool_live.specs.Sharing.{AreBegun, ComesTo, HaveAnswered, IsFreeSeat, IsNextFor, MovesOn};

use crate::live::{PoolSeat, Run, Setup, TurnsTaken};
use bank_trait::Bank;
use client_script::Script;
use schedule::{Computed, Live, Progress, ToCompute, turn_of};
use std::alloc::Global;
use std::sync::Wait;

/// Most turns that a client has at once, while others wait for theirs. It has fewer where a turn behind its first would
/// sync a device: it has that one next, at once with those behind it.
const MOST_AT_ONCE: u64 = 32;

/// What a client has before it after a turn.
#[derive(Drop)]
pub enum Next {
    /// A turn of its call under way, or its next call; and what can be computed for that first.
    GoesOn(ToCompute),
    /// The first turn of its next call again, which found another's call in its way.
    Waits,
    /// Nothing: its calls are answered, or no more turns can be counted.
    Ended,
}

/// The turns that a client had one after the other, while no other had one.
#[derive(Drop)]
pub struct Batch {
    pub turns: u64,
    /// How many of its calls were answered by them.
    pub answered: u64,
    pub next: Next,
}

/// What the client of this number has before it, after a turn of its by which the journal came from so many items to
/// this.
fn next_of(
    alloc: Global,
    progress: &mut Progress,
    script: &Script,
    actor: u8,
    before: usize,
    now: usize,
) -> Next
    requires ready { (state : CoreState) × (items : List ItemOf) × (room : ℕ)
        × IsReady script.now (turns_of state items progress.old.clients.items) room }
    ensures same { progress.new.clients.items ≡ progress.old.clients.items }
    ensures turns { progress.new.turns ≡ progress.old.turns }
    ensures next { (was now_is : TurnsOf) → IsTurnOf script.now actor was now_is
        → now_is.clients ≡ progress.old.clients.items → length was.items ≡ before → length now_is.items ≡ now
        → IsNextFor script.now actor now_is progress.old.turns result }
{
    if progress.is_busy(actor) {
        Next::GoesOn(progress.to_compute(alloc, script, actor))
    } else if !progress.has_turn(script, actor) {
        Next::Ended
    } else if now == before {
        Next::Waits
    } else {
        Next::GoesOn(ToCompute::Nothing)
    }
}

/// Whether a turn of the client of this number follows in the same hold of the lock, after one by which the journal
/// came from so many items to this: one for which nothing is to be computed first, and which syncs no device. A call's
/// first turn is one, unless it found another's call in its way in the turn before.
fn goes_on_at_once<B: Bank>(
    live: &Live<B>,
    script: &Script,
    actor: u8,
    before: usize,
    now: usize,
) -> bool
    ensures { IsTrue result → IsNextFor script.now actor (turns_in B.disk live.now) live.now.progress.turns
        (GoesOn to_compute.Nothing) }
{
    if live.progress.is_busy(actor) {
        !live.progress.asks(actor) && !live.syncs_next(actor)
    } else {
        now != before && live.progress.has_turn(script, actor)
    }
}

/// How many of a client's calls were answered by a turn by which the journal came from so many items to this.
fn count_answered(progress: &Progress, actor: u8, before: usize, now: usize) -> u64
    ensures few { result ≤ 1 }
    ensures answered { (script : ScriptOf) (was now_is : TurnsOf) (count : ℕ) → IsTurnOf script actor was now_is
        → AreBegun was.clients → now_is.clients ≡ progress.now.clients.items → length was.items ≡ before
        → length now_is.items ≡ now → HaveAnswered was.clients actor count
        → HaveAnswered now_is.clients actor (count + result) }
{
    if now == before || progress.is_busy(actor) {
        0
    } else {
        1
    }
}

/// A client's turns, one after the other, where it has one to take: with what was computed for the first, and as long
/// as the next asks for nothing to be computed, finds no other's call in its way, syncs no device, and others have not
/// waited for too many. So at most one of them, the first, syncs a device.
fn have_turns<B: Bank>(
    alloc: Global,
    live: &mut Live<B>,
    script: &Script,
    actor: u8,
    computed: Computed,
) -> Batch
    requires allowed { All (λ placed. IsAllowed placed.call) script.now.calls }
    requires ready { IsReady script.now
        (turns_in B.disk live.old) live.old.journal.room }
    requires computed { IsComputedFor (calls_of script.now actor) computed }
    ensures next { IsNextFor script.now actor (turns_in B.disk live.new) live.new.progress.turns result.next }
    ensures some { result.turns ≡ 0 → result.next ≡ Ended }
    ensures answered { (count : ℕ) → HaveAnswered live.old.progress.clients.items actor count
        → HaveAnswered live.new.progress.clients.items actor (count + result.answered) }
    ensures stands { MovesOn script.now
        (turns_in B.disk live.old)
        live.old.journal.room live.old.progress.turns actor result.turns
        (turns_in B.disk live.new)
        live.new.journal.room live.new.progress.turns }
{
    let mut computed = computed;
    let mut turns = 0;
    let mut answered = 0;
    if !live.progress.has_turn(script, actor) {
        return Batch {
            turns,
            answered,
            next: Next::Ended,
        };
    }
    for _turn in 0..MOST_AT_ONCE {
        let Ok(()) = live.progress.count() else {
            return Batch {
                turns,
                answered,
                next: Next::Ended,
            };
        };
        let before = live.journal.len();
        turn_of(alloc, live, script, actor, computed);
        turns += 1;
        let now = live.journal.len();
        answered += count_answered(&live.progress, actor, before, now);
        if !goes_on_at_once(live, script, actor, before, now) {
            return Batch {
                turns,
                answered,
                next: next_of(alloc, &mut live.progress, script, actor, before, now),
            };
        }
        computed = Computed::Nothing;
    }
    Batch {
        turns,
        answered,
        next: Next::GoesOn(ToCompute::Nothing),
    }
}

/// Waits for the turn, and has it, with what was computed for it, and those behind it.
pub fn take_turns_of<R: Wait, G, B: Bank, J: Setup>(
    run: &Run<R, G, B, J>,
    seat: &mut PoolSeat<B, J>,
    actor: u8,
    computed: Computed,
) -> Batch
    requires script { run.now.script.now ≡ J.script }
    requires allowed { All (λ placed. IsAllowed placed.call) run.now.script.now.calls }
    requires seat { IsFreeSeat run.now.turns.now seat.old }
    requires computed { IsComputedFor (calls_of run.now.script.now actor) computed }
    ensures seat { IsFreeSeat run.now.turns.now seat.new }
    ensures next { ComesTo J.script J.start seat.new actor result.next }
{
    let Ok(mut held) = run.turns.take(run.host.rt, seat) else {
        return Batch {
            turns: 0,
            answered: 0,
            next: Next::Ended,
        };
    };
    let batch = have_turns(
        run.host.alloc,
        &mut held.state.live,
        run.script,
        actor,
        computed,
    );
    let taken = TurnsTaken {
        actor,
        turns: batch.turns,
    };
    run.turns.give(seat, held, &taken);
    batch
}
