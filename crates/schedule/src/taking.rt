// A turn of one client.
ghost use Rattle.std.specs.Prelude.{◌≡◌, ◌↔◌, ◌+◌, OnErr, OnOk, is_some, ◌≤◌, ◌<◌, ◌-◌, ℕ, IsSome, IsTrue, None};
ghost use Rattle.std.specs.Prelude.{Option as OptionOf, Some, length, slice_get};
ghost use Rattle.bank_trait.specs.Disk.{Disk, Lawful};
ghost use Rattle.client_script.specs.declared.call.ScriptCall.{ScriptCall as CallOf};
ghost use Rattle.client_script.specs.Script.{IsAllowed};
ghost use Rattle.core_commit.specs.CommitTurns.{CommitRun as RunOf};
ghost use Rattle.core_turns.specs.Core.{IsCore, HasBankOf, at_disk};
ghost use Rattle.core_turns.specs.Steps.{turn_with};
ghost use Rattle.schedule.specs.declared.client.UnderWay.{UnderWay as UnderWayOf};
ghost use Rattle.schedule.specs.Playing.{MakesRoom, UsesRoom, owed, taken_for};
ghost use Rattle.core_state.specs.declared.answer.Answer.TheVariants as answer;
ghost use Rattle.schedule.specs.Computing.{FitsWork, IsComputedFor, IsComputedOf, for_call};
ghost use Rattle.schedule.specs.Turned.{GoesOnBy, HasDeviceFor, HasDeviceForTurn, HasDeviceUnder, MayGoOn, Turned};
ghost use Rattle.schedule.specs.Turned.{AnswersNoneWith, WorkGoesOn, entry_for, group_by, group_with};
ghost use Rattle.schedule.specs.Turned.{listed_on, listed_with};
ghost use Rattle.schedule.specs.Turned.{turn_state};
ghost use Rattle.schedule.specs.Works.{begun_at, commit_in};

use crate::client::{Client, UnderWay, Work};
use crate::computing::Computed;
use crate::turning::{begin_call, go_on};
use bank_trait::Bank;
use client_script::ScriptCall;
use core_state::{Answer, Entry, Group, Item, Journal};
use core_turns::{Core, Turn};
use journal_law::point_after;
use reflow_mark::Reflow;
use std::alloc::{AllocError, Global};

/// The entry of a call of this number, which began after so many items.
fn entry_for(call: &ScriptCall, actor: u8, number: usize, at: usize, answer: Answer) -> Entry
    ensures { result ≡ entry_for call.now actor number at answer }
{
    Entry {
        caller: actor,
        call: number as u64,
        kind: call.kind,
        id: call.id,
        at: point_after(call.kind, at, &answer),
        answer,
    }
}

/// The group that comes with an answer, if one does, where this one was made.
fn group_by(answer: &Answer, made: Option<u64>) -> Option<u64>
    ensures { result ≡ group_by answer.now made }
{
    match answer {
        Answer::Synced { group } | Answer::Attached { width: _, group } => Some(*group),
        Answer::NewDeviceFailed { .. } | Answer::DeviceOut { .. } => made,
        _ => None,
    }
}

/// The item of a group of these widths, whose commit began after so many items.
fn group_with(widths: &Reflow, group: u64, at: usize) -> Group
    ensures { result ≡ group_with widths.now at group }
{
    Group {
        group,
        after: at as u64,
        from: widths.from,
        to: widths.to,
    }
}

/// Lists an answer, and before it the group that its call made, if it made one.
fn list_answer(journal: &mut Journal, widths: &Reflow, at: usize, made: Option<u64>, entry: Entry)
    requires room { taken_for (group_by entry.answer made) + 1 ≤ journal.old.room }
    ensures items { journal.new.items ≡ listed_with widths.now journal.old.items at entry made entry.answer }
    ensures room { journal.old.room ≤ journal.new.room + (taken_for (group_by entry.answer made) + 1) }
{
    if let Some(group) = group_by(&entry.answer, made) {
        journal.list(Item::Group(group_with(widths, group, at)));
    }
    journal.list(Item::Call(entry));
}

/// Lists the group that a call made which goes on, if it made one.
fn list_made(journal: &mut Journal, widths: &Reflow, at: usize, made: Option<u64>)
    requires room { taken_for made ≤ journal.old.room }
    ensures items { journal.new.items ≡ listed_on widths.now journal.old.items at made }
    ensures room { journal.old.room ≤ journal.new.room + taken_for made }
{
    if let Some(group) = made {
        journal.list(Item::Group(group_with(widths, group, at)));
    }
}

/// Makes room for the next group of a copy that has made one.
fn make_room(journal: &mut Journal, made: Option<u64>) -> Result<(), AllocError>
    ensures items { journal.new.items ≡ journal.old.items }
    ensures more { OnOk result (journal.old.room + taken_for made ≤ journal.new.room) }
    ensures kept { OnErr result (journal.old.room ≤ journal.new.room) }
    ensures some { OnErr result (IsTrue (is_some made)) }
{
    match made {
        Some(_) => journal.reserve_more(1),
        None => Ok(()),
    }
}

/// How many items the journal had when the group of a work began: as many as it has now, where its commit begins in
/// this turn.
fn begun_at(work: &Work, makes: bool, at: usize, now: usize) -> usize
    ensures { (was : OptionOf RunOf) → (IsTrue makes ↔ IsSome was) → result ≡ begun_at (commit_in work.now) was at now }
{
    if work.makes_commit() && !makes {
        now
    } else {
        at
    }
}

/// The next turn of a call under way, once there is room for the next group of a copy that has made one.
/// Where there is no memory for that the copy ends, and nothing is done.
fn go_further<B: Bank>(
    alloc: Global,
    bank: &mut B,
    core: &mut Core,
    journal: &mut Journal,
    call: &ScriptCall,
    work: &mut Work,
    computed: Computed,
) -> Option<Answer>
    requires may { MayGoOn core.old call.now work.old }
    requires computed { IsComputedOf call.now computed }
    requires there { HasDeviceFor (B.disk bank.old) work.old }
    requires bank { HasBankOf core.old (B.disk bank.old) }
    ensures goes { GoesOnBy (at_disk core.old (B.disk bank.old)) (at_disk core.new (B.disk bank.new))
        call.now work.old (turn_with work.new result) }
    ensures goes_on { WorkGoesOn work.old (at_disk core.old (B.disk bank.old))
        (at_disk core.new (B.disk bank.new)) }
    ensures there { HasDeviceForTurn (B.disk bank.new) (turn_with work.new result) }
    ensures bank { HasBankOf core.new (B.disk bank.new) }
    ensures items { journal.new.items ≡ journal.old.items }
    ensures room { MakesRoom work.old journal.old.room journal.new.room (turn_with work.new result) }
    ensures taken { FitsWork work.old computed → result ≡ Some answer.NoMemory → ⊥ }
{
    match make_room(journal, work.made()) {
        Ok(()) => go_on(alloc, bank, core, call, work, computed),
        Err(AllocError) => Some(Answer::NoMemory),
    }
}

/// The next call of a client begins, waits, or is answered at once.
fn begin_next<B: Bank>(
    alloc: Global,
    bank: &B,
    core: &mut Core,
    journal: &mut Journal,
    calls: &[ScriptCall],
    actor: u8,
    client: &mut Client,
)
    requires allowed { (number : ℕ) (call : CallOf) → slice_get calls.now number ≡ Some call → IsAllowed call }
    requires left { client.old.begun < length calls.now }
    requires room { 2 ≤ journal.old.room }
    requires idle { client.old.under_way ≡ None }
    ensures turned { Turned calls.now actor
        (turn_state core.old (B.disk bank.now) journal.old.items client.old)
        (turn_state core.new (B.disk bank.now) journal.new.items client.new) }
    ensures there { HasDeviceUnder (B.disk bank.now) client.new.under_way }
    ensures bank { (disk : Disk) → HasBankOf core.old disk
        → HasBankOf core.new disk }
    ensures room { UsesRoom journal.old.room journal.new.room client.old client.new }
{
    let call = &calls[client.begun];
    let at = journal.len();
    match begin_call(alloc, bank, core, actor, call) {
        Turn::More(work) => {
            client.begun += 1;
            client.under_way = Some(UnderWay { at, work });
        }
        Turn::Busy { by: _ } => {}
        Turn::Done(answer) => {
            client.begun += 1;
            journal.list(Item::Call(entry_for(call, actor, client.begun, at, answer)));
        }
    }
}

/// One turn of a client: the next of its call under way, or the first of its next call; with what was computed for
/// it, if anything was. Nothing is done where that finds another's call in its way.
/// Takes room in the journal where a call is answered, and for two items at most.
pub fn take_turn<B: Bank>(
    alloc: Global,
    bank: &mut B,
    core: &mut Core,
    journal: &mut Journal,
    calls: &[ScriptCall],
    actor: u8,
    client: &mut Client,
    computed: Computed,
)
    requires allowed { (number : ℕ) (call : CallOf) → slice_get calls.now number ≡ Some call → IsAllowed call }
    requires computed { IsComputedFor calls.now computed }
    requires left { client.old.under_way ≡ None → client.old.begun < length calls.now }
    requires room { owed (length calls.now) client.old ≤ journal.old.room }
    requires bank { HasBankOf core.old (B.disk bank.old) }
    requires few { client.old.begun ≤ length calls.now }
    requires begun { (under : UnderWayOf) → client.old.under_way ≡ Some under → 1 ≤ client.old.begun }
    requires may { (under : UnderWayOf) (call : CallOf) → client.old.under_way ≡ Some under
        → slice_get calls.now (client.old.begun - 1) ≡ Some call → MayGoOn core.old call under.work }
    requires there { HasDeviceUnder (B.disk bank.old) client.old.under_way }
    ensures turned { Turned calls.now actor
        (turn_state core.old (B.disk bank.old) journal.old.items client.old)
        (turn_state core.new (B.disk bank.new) journal.new.items client.new) }
    ensures is { IsCore core.old }
    ensures there { HasDeviceUnder (B.disk bank.new) client.new.under_way }
    ensures bank { HasBankOf core.new (B.disk bank.new) }
    ensures lawful { Lawful (B.disk bank.old) × Lawful (B.disk bank.new) }
    ensures room { UsesRoom journal.old.room journal.new.room client.old client.new }

    // What was computed for the call under way is taken: it is not answered then that there is no memory.
    ensures taken { (under : UnderWayOf) → client.old.under_way ≡ Some under
        → FitsWork under.work (for_call (client.old.begun - 1) computed)
        → AnswersNoneWith answer.NoMemory journal.old.items journal.new.items }
{
    // That the core is one is known by a call of it.
    let _ = core.reflow();
    match &mut client.under_way {
        None => begin_next(alloc, bank, core, journal, calls, actor, client),
        Some(under_way) => {
            let number = client.begun - 1;
            let call = &calls[number];
            let made = under_way.work.group();
            let makes = under_way.work.makes_commit();
            let given = go_further(
                alloc,
                bank,
                core,
                journal,
                call,
                &mut under_way.work,
                computed.of_call(number),
            );
            let widths = core.reflow();
            match given {
                None => {
                    let at = begun_at(&under_way.work, makes, under_way.at, journal.len());
                    list_made(journal, &widths, at, under_way.work.made());
                    under_way.at = at;
                }
                Some(answer) => {
                    let at = under_way.at;
                    let entry = entry_for(call, actor, client.begun, at, answer);
                    list_answer(journal, &widths, at, made, entry);
                    client.end_call();
                }
            }
        }
    }
}
