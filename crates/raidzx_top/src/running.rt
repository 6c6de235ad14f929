// Carrying out `run` and `replay`.
ghost use Rattle.std.specs.Prelude.{◌≡◌, ◌+◌, ◌<◌, ◌≤◌, ◌↔◌, [], All, IfErr, IfOk, IsTrue, OnOk};
ghost use Rattle.client_script.specs.FromSource.{most_reads};
ghost use Rattle.client_script.specs.Script.{IsAllowed};
ghost use Rattle.raidzx_top.specs.Call.{stream_of};
ghost use Rattle.raidzx_top.specs.Running.{AnswersSo, EndsScript, EndsRun, EndsTelling, HasCarried, HasMet, IsStatusOf};
ghost use Rattle.raidzx_top.specs.Running.{IsTold, IsUnopened, ItemTells, StoppedFor};

use crate::order::Order;
use crate::outcome::Outcome;
use crate::report::{refuse, write_run};
use crate::status::Status;
use bank_trait::{Bank, Gate, Sink, Source};
use client_script::{Script, read_script};
use core_state::{Answer, Item, Journal};
use pool_live::{Host, run_pool_beside};
use schedule::{Ended, PoolRun, Ran, run_pool};
use std::alloc::Global;
use std::sync::Wait;
use std::thread::Threads;

/// What an answer may tell, or the end of a script, that the status tells too.
#[derive(Clone, Copy, Debug, PartialEq, Eq)]
pub enum Trouble {
    NoMemory,
    Limit,
    TooManyFailed,
}

fn tells(answer: &Answer, trouble: Trouble) -> bool
    ensures { IsTrue result ↔ IsTold trouble answer.now }
{
    match trouble {
        Trouble::NoMemory => matches!(answer, Answer::NoMemory),
        Trouble::Limit => matches!(answer, Answer::Limit { reached: _ }),
        Trouble::TooManyFailed => matches!(answer, Answer::TooManyFailed { out: _ }),
    }
}

fn item_tells(item: &Item, trouble: Trouble) -> bool
    ensures { IsTrue result ↔ ItemTells trouble item.now }
{
    match item {
        Item::Group(_) => false,
        Item::Call(entry) => tells(&entry.answer, trouble),
    }
}

/// Whether some call was answered with this trouble.
fn answers_so(journal: &Journal, trouble: Trouble) -> bool
    ensures { IsTrue result ↔ AnswersSo journal.now.items trouble }
{
    for item in journal.as_slice() {
        if item_tells(item, trouble) {
            return true;
        }
    }
    false
}

/// Whether calls were left unanswered for this trouble.
fn stopped_for(ran: &Ran, trouble: Trouble) -> bool
    ensures { IsTrue result ↔ StoppedFor ran.now trouble }
{
    match trouble {
        Trouble::NoMemory => matches!(ran.ended, Ended::NoMemory),
        Trouble::Limit => matches!(ran.ended, Ended::Limit),
        Trouble::TooManyFailed => false,
    }
}

/// Whether some call met this trouble.
fn met(ran: &Ran, journal: &Journal, trouble: Trouble) -> bool
    ensures { IsTrue result ↔ HasMet ran.now journal.now.items trouble }
{
    stopped_for(ran, trouble) || answers_so(journal, trouble)
}

/// The status of a script that was carried out, where its text is written.
fn status_of(ran: &Ran, journal: &Journal) -> Status
    ensures { IsStatusOf ran.now journal.now.items result }
{
    if met(ran, journal, Trouble::NoMemory) {
        Status::NoMemory
    } else if met(ran, journal, Trouble::Limit) {
        Status::Limit
    } else if met(ran, journal, Trouble::TooManyFailed) {
        Status::TooManyFailed { out: ran.out }
    } else {
        Status::Done
    }
}

/// Reads the script, and makes room in the journal for the opening's group.
fn read<S: Source>(alloc: Global, source: &mut S, journal: &mut Journal) -> Result<Script, Status>
    ensures ends { EndsScript (stream_of (S.left source.old) (S.faults source.old))
        (stream_of (S.left source.new) (S.faults source.new)) result }
    ensures items { journal.new.items ≡ journal.old.items }
    ensures room { OnOk result (1 ≤ journal.new.room) }
    ensures few_reads { S.reads source.new ≤ S.reads source.old + most_reads }
{
    let script = read_script(alloc, source)?;
    journal.reserve(1)?;
    Ok(script)
}

/// Carries a script out on the pool that the devices show.
fn carry_script<R: Threads + Wait + Sync, G: Gate + Sync, B: Bank + Send>(
    host: &Host<R, G>,
    order: Order,
    bank: B,
    script: Script,
    journal: Journal,
) -> PoolRun<B>
    requires empty { journal.items ≡ [] }
    requires room { 1 ≤ journal.room }
    requires allowed { All (λ placed. IsAllowed placed.call) script.calls }
    requires clients { script.clients ≤ 8 }
    requires actors { All (λ placed. placed.actor < script.clients) script.calls }
    ensures carried { IfOk result.ran
        (HasCarried order script (B.disk bank) (B.disk result.bank) result.journal.items) }
    ensures nothing { IfErr result.ran (λ why. result.journal.items ≡ []) }
    ensures unopened { IfErr result.ran (IsUnopened (B.disk bank) (B.disk result.bank)) }
{
    match order {
        Order::AsTheyCome { attaches } => run_pool_beside(
            host.rt, host.alloc, bank, script, attaches, host.gate, journal,
        ),
        Order::AsListed => run_pool(host.alloc, bank, &script, script.order(), journal),
    }
}

/// Writes the text of a script that was carried out. A failed write is told where neither memory nor a limit is.
fn tell<K: Sink>(out: &mut K, journal: &Journal, status: Status) -> Status
    ensures { EndsTelling (stream_of (K.held out.old) (K.faults out.old))
        (stream_of (K.held out.new) (K.faults out.new)) journal.now.items status result }
{
    if write_run(out, journal, &status).is_ok() {
        return status;
    }
    match status {
        Status::NoMemory | Status::Limit => status,
        _ => Status::SinkFault,
    }
}

/// Reads a script from a source, opens the pool that the devices show, and carries the script out on it in
/// this order. Writes what was answered, and the line of the status.
pub fn run<R: Threads + Wait + Sync, G: Gate + Sync, B: Bank + Send, S: Source, K: Sink>(
    host: &Host<R, G>,
    order: Order,
    bank: B,
    source: &mut S,
    out: &mut K,
) -> Outcome<B>
    ensures ends { EndsRun order (stream_of (S.left source.old) (S.faults source.old))
        (stream_of (S.left source.new) (S.faults source.new))
        (stream_of (K.held out.old) (K.faults out.old))
        (stream_of (K.held out.new) (K.faults out.new))
        (B.disk bank) (B.disk result.bank) result.journal.items result.status result.turns }
    ensures few_reads { S.reads source.new ≤ S.reads source.old + most_reads }
{
    let mut journal = Journal::new(host.alloc);
    let script = match read(host.alloc, source, &mut journal) {
        Ok(script) => script,
        Err(status) => return Outcome::without_turns(host.alloc, refuse(out, status), bank),
    };
    let PoolRun { ran, bank, journal } = carry_script(host, order, bank, script, journal);
    match ran {
        Ok(ran) => {
            let status = status_of(&ran, &journal);
            Outcome {
                status: tell(out, &journal, status),
                bank,
                journal,
                turns: ran.turns,
            }
        }
        Err(why) => Outcome::without_turns(host.alloc, refuse(out, Status::from(why)), bank),
    }
}
