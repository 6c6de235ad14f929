// The calls of a script, turn by turn.
ghost use Rattle.std.specs.Prelude.{◌≡◌, ◌+◌, ◌*◌, ◌<◌, ◌≤◌, ◌∷◌, ℕ, List, All, IfOk, OnOk, OnErr, Some, [], length};
ghost use Rattle.std.specs.Prelude.{slice_get, true};
ghost use Rattle.core_state.specs.declared.item.Entry.{Entry as EntryOf};
ghost use Rattle.core_state.specs.Journal.{CallsAreRight, IsComplete};
ghost use Rattle.core_state.specs.Legal.{CallAt};
ghost use Rattle.client_script.specs.Script.{IsAllowed, asked_by, calls_of};
ghost use Rattle.core_turns.specs.Core.{at_disk, HasBankOf};
ghost use Rattle.schedule.specs.declared.client.Client.{Client as ClientOf};
ghost use Rattle.schedule.specs.declared.whole_run.Ended.TheVariants.{Whole};
ghost use Rattle.schedule.specs.Turns.{most_turns, turns_of};
ghost use Rattle.schedule.specs.Computing.{IsComputedFor};
ghost use Rattle.schedule.specs.InTurn.{Cursor, InOrder, InRest, InRound, IsCallOfScript, has_left_at, has_turn_at};
ghost use Rattle.schedule.specs.Live.{replay_in, turns_in};
ghost use Rattle.schedule.specs.Playing.{CarriesOut, HasPlayed, HasRunOutOfTurns, IsReady};
ghost use Rattle.schedule.specs.Replaying.{AreIdle, BeginsOne, HasComeRound, HasTurn, HaveBegun, IsAtRest};
ghost use Rattle.schedule.specs.Replaying.{blank_clients};

use crate::computing::Computed;
use crate::live::{Finished, Live};
use crate::progress::{Progress, UsedUp};
use crate::taking::take_turn;
use crate::whole_run::Ended;
use bank_trait::Bank;
use client_script::Script;
use core_state::Journal;
use core_turns::Core;
use std::alloc::{AllocError, Global};

/// One turn of a client of the script that has one to take, with what was computed for it. It is not counted.
pub fn turn_of<B: Bank>(
    alloc: Global,
    live: &mut Live<B>,
    script: &Script,
    actor: u8,
    computed: Computed,
)
    requires allowed { All (λ placed. IsAllowed placed.call) script.now.calls }
    requires computed { IsComputedFor (calls_of script.now actor) computed }
    requires ready { IsReady script.now
        (turns_in B.disk live.old) live.old.journal.room }
    requires left { has_turn_at script.now live.old.progress.clients.items actor ≡ true }
    ensures turn { HasTurn script.now actor
        (turns_in B.disk live.old)
        (turns_in B.disk live.new) }
    ensures ready { IsReady script.now
        (turns_in B.disk live.new) live.new.journal.room }
    ensures turns { live.new.progress.turns ≡ live.old.progress.turns }
{
    let client = &mut live.progress.clients[usize::from(actor)];
    take_turn(
        alloc,
        &mut live.bank,
        &mut live.core,
        &mut live.journal,
        script.calls(actor),
        actor,
        client,
        computed,
    );
}

/// One turn of a client of the script that has one to take, counted, if it can be.
fn count_turn_of<B: Bank>(
    alloc: Global,
    live: &mut Live<B>,
    script: &Script,
    actor: u8,
) -> Result<(), UsedUp>
    requires allowed { All (λ placed. IsAllowed placed.call) script.now.calls }
    requires ready { IsReady script.now
        (turns_in B.disk live.old) live.old.journal.room }
    requires left { has_turn_at script.now live.old.progress.clients.items actor ≡ true }
    ensures turn { OnOk result (HasTurn script.now actor
        (turns_in B.disk live.old)
        (turns_in B.disk live.new)) }
    ensures ready { OnOk result (IsReady script.now
        (turns_in B.disk live.new) live.new.journal.room) }
    ensures turns { OnOk result (live.new.progress.turns ≡ live.old.progress.turns + 1) }
    ensures below { OnOk result (live.old.progress.turns < most_turns) }
    ensures stopped { OnErr result ((cursor : Cursor) → HasRunOutOfTurns script.now
        (replay_in B.disk live.old cursor)
        (turns_in B.disk live.new) live.new.progress.turns live.new.journal.room) }
{
    live.progress.count()?;
    turn_of(alloc, live, script, actor, Computed::Nothing);
    Ok(())
}

/// One turn for the client of a letter, where it has one to take.
fn take_letter<B: Bank>(
    alloc: Global,
    live: &mut Live<B>,
    script: &Script,
    actor: u8,
) -> Result<(), UsedUp>
    requires allowed { All (λ placed. IsAllowed placed.call) script.now.calls }
    requires ready { IsReady script.now
        (turns_in B.disk live.old) live.old.journal.room }
    ensures played { OnOk result ((letters : List ℕ) → HasPlayed script.now
        (replay_in B.disk live.old (InOrder (actor ∷ letters)))
        (replay_in B.disk live.new (InOrder letters)) live.new.journal.room) }
    ensures stopped { OnErr result ((letters : List ℕ) → HasRunOutOfTurns script.now
        (replay_in B.disk live.old (InOrder (actor ∷ letters)))
        (turns_in B.disk live.new) live.new.progress.turns live.new.journal.room) }
{
    if !live.progress.has_turn(script, actor) {
        return Ok(());
    }
    count_turn_of(alloc, live, script, actor)?;
    Ok(())
}

/// A turn for each client of a list, in its order, whoever they are: one that has none to take is passed over.
pub fn take_listed<B: Bank>(
    alloc: Global,
    live: &mut Live<B>,
    script: &Script,
    listed: &[u8],
) -> Result<(), UsedUp>
    requires allowed { All (λ placed. IsAllowed placed.call) script.now.calls }
    requires ready { IsReady script.now
        (turns_in B.disk live.old) live.old.journal.room }
    ensures played { OnOk result (HasPlayed script.now
        (replay_in B.disk live.old (InOrder listed.now))
        (replay_in B.disk live.new (InOrder [])) live.new.journal.room) }
    ensures stopped { OnErr result (HasRunOutOfTurns script.now
        (replay_in B.disk live.old (InOrder listed.now))
        (turns_in B.disk live.new) live.new.progress.turns live.new.journal.room) }
{
    for actor in listed {
        take_letter(alloc, live, script, *actor)?;
    }
    Ok(())
}

/// One turn for a client in a round, where it has a call under way.
fn take_if_busy<B: Bank>(
    alloc: Global,
    live: &mut Live<B>,
    script: &Script,
    actor: u8,
) -> Result<(), UsedUp>
    requires allowed { All (λ placed. IsAllowed placed.call) script.now.calls }
    requires ready { IsReady script.now
        (turns_in B.disk live.old) live.old.journal.room }
    requires client { actor < script.now.clients }
    ensures played { OnOk result (HasPlayed script.now
        (replay_in B.disk live.old (InRound actor))
        (replay_in B.disk live.new (InRound (actor + 1))) live.new.journal.room) }
    ensures stopped { OnErr result (HasRunOutOfTurns script.now
        (replay_in B.disk live.old (InRound actor))
        (turns_in B.disk live.new) live.new.progress.turns live.new.journal.room) }
    ensures round { OnOk result ((old : List ClientOf) (taken : ℕ)
        → HasComeRound actor old taken live.old.progress.clients.items live.old.progress.turns
        → HasComeRound (actor + 1) old taken live.new.progress.clients.items live.new.progress.turns) }
{
    if !live.progress.is_busy(actor) {
        return Ok(());
    }
    count_turn_of(alloc, live, script, actor)?;
    Ok(())
}

/// One turn for each client that has a call under way.
fn take_round<B: Bank>(alloc: Global, live: &mut Live<B>, script: &Script) -> Result<(), UsedUp>
    requires allowed { All (λ placed. IsAllowed placed.call) script.now.calls }
    requires ready { IsReady script.now
        (turns_in B.disk live.old) live.old.journal.room }
    ensures played { OnOk result (HasPlayed script.now
        (replay_in B.disk live.old (InRound 0))
        (replay_in B.disk live.new (InRound script.now.clients)) live.new.journal.room) }
    ensures stopped { OnErr result (HasRunOutOfTurns script.now
        (replay_in B.disk live.old (InRound 0))
        (turns_in B.disk live.new) live.new.progress.turns live.new.journal.room) }
    ensures round { OnOk result (HasComeRound script.now.clients live.old.progress.clients.items live.old.progress.turns
        live.new.progress.clients.items live.new.progress.turns) }
{
    for actor in 0..script.clients() {
        take_if_busy(alloc, live, script, actor)?;
    }
    Ok(())
}

/// Rounds, once the order is over, until no call is under way.
fn take_rounds<B: Bank>(alloc: Global, live: &mut Live<B>, script: &Script) -> Result<(), UsedUp>
    requires allowed { All (λ placed. IsAllowed placed.call) script.now.calls }
    requires ready { IsReady script.now
        (turns_in B.disk live.old) live.old.journal.room }
    ensures played { OnOk result (HasPlayed script.now
        (replay_in B.disk live.old (InOrder []))
        (replay_in B.disk live.new (InRest 0)) live.new.journal.room) }
    ensures stopped { OnErr result (HasRunOutOfTurns script.now
        (replay_in B.disk live.old (InOrder []))
        (turns_in B.disk live.new) live.new.progress.turns live.new.journal.room) }
    ensures idle { OnOk result (AreIdle live.new.progress.clients.items) }
{
    'rounds: while live.progress.is_any_busy() {
        take_round(alloc, live, script)?;
    }
    Ok(())
}

/// A call of a client that hasn't begun it, from its first turn to its answer.
fn take_call<B: Bank>(
    alloc: Global,
    live: &mut Live<B>,
    script: &Script,
    actor: u8,
    number: u64,
) -> Result<(), UsedUp>
    requires allowed { All (λ placed. IsAllowed placed.call) script.now.calls }
    requires ready { IsReady script.now
        (turns_in B.disk live.old) live.old.journal.room }
    requires idle { AreIdle live.old.progress.clients.items }
    requires left { has_left_at live.old.progress.clients.items actor number ≡ true }
    requires of_client { number ≤ length (calls_of script.now actor) }
    ensures played { OnOk result ((given : ℕ) → IsCallOfScript script.now given actor number → HasPlayed script.now
        (replay_in B.disk live.old (InRest given))
        (replay_in B.disk live.new (InRest given)) live.new.journal.room) }
    ensures stopped { OnErr result ((given : ℕ) → IsCallOfScript script.now given actor number
        → HasRunOutOfTurns script.now (replay_in B.disk live.old (InRest given))
        (turns_in B.disk live.new) live.new.progress.turns live.new.journal.room) }
    ensures begins { OnOk result (BeginsOne actor live.old.progress.clients.items live.new.progress.clients.items) }
    ensures idle { OnOk result (AreIdle live.new.progress.clients.items) }
{
    count_turn_of(alloc, live, script, actor)?;
    'turns: while live.progress.is_busy(actor) {
        count_turn_of(alloc, live, script, actor)?;
    }
    Ok(())
}

/// The calls that are left, each whole, in the order of their lines.
fn take_rest<B: Bank>(alloc: Global, live: &mut Live<B>, script: &Script) -> Result<(), UsedUp>
    requires allowed { All (λ placed. IsAllowed placed.call) script.now.calls }
    requires ready { IsReady script.now
        (turns_in B.disk live.old) live.old.journal.room }
    requires idle { AreIdle live.old.progress.clients.items }
    ensures played { OnOk result (HasPlayed script.now
        (replay_in B.disk live.old (InRest 0))
        (replay_in B.disk live.new (InRest (length script.now.calls)))
        live.new.journal.room) }
    ensures stopped { OnErr result (HasRunOutOfTurns script.now
        (replay_in B.disk live.old (InRest 0))
        (turns_in B.disk live.new) live.new.progress.turns live.new.journal.room) }
    ensures begun { OnOk result (HaveBegun script.now (length script.now.calls) live.new.progress.clients.items) }
    ensures idle { OnOk result (AreIdle live.new.progress.clients.items) }
{
    let mut calls = script.calls_in_order();
    while let Some(next) = calls.next_call() {
        if live.progress.has_left(next.actor, next.number) {
            take_call(alloc, live, script, next.actor, next.number)?;
        }
    }
    Ok(())
}

/// The turns that are listed, then rounds until no call is under way, then the calls that are left, each whole.
pub fn take_turns<B: Bank>(
    alloc: Global,
    live: &mut Live<B>,
    script: &Script,
    listed: &[u8],
) -> Result<(), UsedUp>
    requires allowed { All (λ placed. IsAllowed placed.call) script.now.calls }
    requires ready { IsReady script.now
        (turns_in B.disk live.old) live.old.journal.room }
    ensures played { OnOk result (HasPlayed script.now
        (replay_in B.disk live.old (InOrder listed.now))
        (replay_in B.disk live.new (InRest (length script.now.calls)))
        live.new.journal.room) }
    ensures stopped { OnErr result (HasRunOutOfTurns script.now
        (replay_in B.disk live.old (InOrder listed.now))
        (turns_in B.disk live.new) live.new.progress.turns live.new.journal.room) }
    ensures begun { OnOk result (HaveBegun script.now (length script.now.calls) live.new.progress.clients.items) }
    ensures idle { OnOk result (AreIdle live.new.progress.clients.items) }
{
    take_listed(alloc, live, script, listed)?;
    take_rounds(alloc, live, script)?;
    take_rest(alloc, live, script)
}

/// Clients that have begun no call, with room in the journal for the answers of all their calls, and for a group
/// beside each.
pub fn begin(alloc: Global, script: &Script, journal: &mut Journal) -> Result<Progress, AllocError>
    ensures same { journal.new.items ≡ journal.old.items }
    ensures clients { IfOk result (λ progress. progress.clients.items ≡ blank_clients script.now.clients) }
    ensures turns { IfOk result (λ progress. progress.turns ≡ 0) }
    ensures room { OnOk result (2 * length script.now.calls ≤ journal.new.room) }
{
    let calls = script.in_line_order().len();
    journal.reserve(2 * calls)?;
    Progress::new(alloc, script.clients())
}

/// Carries out the calls of a script turn by turn. Each letter of the order is one turn of that client: the
/// next of its call under way, or the first of its next call; one that finds another's call in its way does nothing,
/// and is a turn. A letter of a client that has nothing left is passed over. After the order the calls under way take
/// one turn each in letter order, round after round, until all have ended; then the remaining calls are carried out one
/// after the other, whole, in the order of their lines. Room for all answers is made before the first turn, so that
/// none is kept from being listed; where there is no memory for that, nothing is done. After 2^62 turns no more is
/// taken: calls under way stay as they are.
pub fn carry_out<B: Bank>(
    alloc: Global,
    bank: B,
    core: Core,
    script: &Script,
    listed: &[u8],
    mut journal: Journal,
) -> Finished<B>
    requires bank { HasBankOf core (B.disk bank) }
    requires rest { IsAtRest core }
    requires allowed { All (λ placed. IsAllowed placed.call) script.now.calls }
    requires actors { All (λ placed. placed.actor < script.now.clients) script.now.calls }
    requires none { (index : ℕ) (entry : EntryOf) → CallAt journal.items index entry → ⊥ }
    ensures taken { CarriesOut script.now listed.now (turns_of (at_disk core (B.disk bank)) journal.items
        (blank_clients script.now.clients)) result.ended result.turns (at_disk result.core (B.disk result.bank))
        result.journal.items }
    ensures calls { CallsAreRight (asked_by script.now) result.journal.items }
    ensures complete { result.ended ≡ Whole → IsComplete (asked_by script.now) result.journal.items }
{
    let Ok(progress) = begin(alloc, script, &mut journal) else {
        return Finished {
            bank,
            core,
            journal,
            ended: Ended::NoMemory,
            turns: 0,
        };
    };
    let mut live = Live {
        bank,
        core,
        journal,
        progress,
    };
    let ended = match take_turns(alloc, &mut live, script, listed) {
        Ok(()) => Ended::Whole,
        Err(UsedUp) => Ended::Limit,
    };
    live.end(ended)
}
