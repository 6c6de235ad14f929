// The top call: it carries out the command that the words spell.
ghost use Rattle.std.specs.Prelude.{◌≡◌, ◌+◌, ◌≤◌, map, string_bytes};
ghost use Rattle.bank_trait.specs.Disk.{Lawful};
ghost use Rattle.client_script.specs.FromSource.{most_reads};
ghost use Rattle.raidzx_top.specs.Call.{call_of, stream_of};
ghost use Rattle.raidzx_top.specs.Served.{AsksNoScript};
ghost use Rattle.raidzx_top.specs.Making.{EndsCreate};
ghost use Rattle.raidzx_top.specs.Ending.{Ends, IsStatusOfWords};
ghost use Rattle.raidzx_top.specs.Promises.{KeepsPromises};
ghost use Rattle.raidzx_top.specs.Words.{IsSize};

use crate::looking::tell_status;
use crate::making::make_pool;
use crate::order::Order;
use crate::outcome::Outcome;
use crate::report::{refuse, write_created};
use crate::running::run;
use crate::status::Status;
use bank_trait::{Bank, Gate, Sink, Source};
use command_words::{NewPool, NoCommand, ServedCommand, read_command};
use core_open::data_rows;
use pool_live::Host;
use std::alloc::Global;
use std::sync::Wait;
use std::thread::Threads;

/// The status of words that are no command.
fn status_of(why: &NoCommand) -> Status
    ensures { IsStatusOfWords why.now result }
{
    match why {
        NoCommand::Asked(_) | NoCommand::Misspelled => Status::Usage,
        NoCommand::NoMemory => Status::NoMemory,
    }
}

fn create_pool<B: Bank, K: Sink>(bank: &mut B, made: &NewPool, out: &mut K) -> Status
    requires size { IsSize made.now.parity made.now.width }
    ensures { EndsCreate made.now (B.disk bank.old) (B.disk bank.new) (K.held out.old)
        (K.held out.new) (K.faults out.old) (K.faults out.new) result }
{
    let rows = data_rows(bank.sectors());
    let status = make_pool(bank, made);
    if status != Status::Done {
        return refuse(out, status);
    }
    match write_created(out, made, rows) {
        Ok(()) => Status::Done,
        Err(_) => Status::SinkFault,
    }
}

fn carry_out<R: Threads + Wait + Sync, G: Gate + Sync, B: Bank + Send, S: Source, K: Sink>(
    host: &Host<R, G>,
    words: &[String],
    mut bank: B,
    script: &mut S,
    out: &mut K,
) -> Outcome<B>
    ensures ends { Ends (call_of (map string_bytes words.now)
        (B.disk bank) (B.disk result.bank)
        (stream_of (S.left script.old) (S.faults script.old))
        (stream_of (S.left script.new) (S.faults script.new))
        (stream_of (K.held out.old) (K.faults out.old))
        (stream_of (K.held out.new) (K.faults out.new))
        result.status result.journal.items result.turns) }
    ensures few_reads { S.reads script.new ≤ S.reads script.old + most_reads }
    ensures unread { AsksNoScript (map string_bytes words.now)
        → S.reads script.new ≡ S.reads script.old }
{
    match read_command(host.alloc, words) {
        Ok(ServedCommand::Create(made)) => {
            let status = create_pool(&mut bank, &made, out);
            Outcome::without_turns(host.alloc, status, bank)
        }
        Ok(ServedCommand::Run { attaches }) => {
            run(host, Order::AsTheyCome { attaches }, bank, script, out)
        }
        Ok(ServedCommand::Replay) => run(host, Order::AsListed, bank, script, out),
        Ok(ServedCommand::Status) => {
            let status = tell_status(host.alloc, &mut bank, out);
            Outcome::without_turns(host.alloc, status, bank)
        }
        Err(why) => Outcome::without_turns(host.alloc, refuse(out, status_of(&why)), bank),
    }
}

/// Does nothing: that a bank's laws hold is known by this call where other threads may have it later.
fn laws_hold<B: Bank>(_bank: &B)
    ensures { Lawful (B.disk _bank.now) }
{}

/// Carries out the command that the words spell, of which the first is not looked at. The script is
/// read from a source; every line goes to a sink, those of faults too. The clients of a run have threads of their own,
/// where there are several; the one that widens the pool is one of them. They pass the gate between their turns, and
/// what it does is in no promise.
pub fn raidzx<R: Threads + Wait + Sync, B: Bank + Send, S: Source, K: Sink, G: Gate + Sync>(
    rt: &R,
    alloc: Global,
    words: &[String],
    bank: B,
    script: &mut S,
    out: &mut K,
    gate: &G,
) -> Outcome<B>
    ensures promises { KeepsPromises (call_of (map string_bytes words.now)
        (B.disk bank) (B.disk result.bank)
        (stream_of (S.left script.old) (S.faults script.old))
        (stream_of (S.left script.new) (S.faults script.new))
        (stream_of (K.held out.old) (K.faults out.old))
        (stream_of (K.held out.new) (K.faults out.new))
        result.status result.journal.items result.turns) }
    ensures few_reads { S.reads script.new ≤ S.reads script.old + most_reads }
    ensures unread { AsksNoScript (map string_bytes words.now)
        → S.reads script.new ≡ S.reads script.old }
{
    laws_hold(&bank);
    carry_out(&Host { rt, alloc, gate }, words, bank, script, out)
}
