// The command that the words are.
ghost use Rattle.std.specs.Prelude.{◌≡◌, ◌^◌, ◌<◌, ℕ, IfSome, IfNone, IfOk, IfErr, map, string_bytes};
ghost use Rattle.clap.specs.Walk.{rows_of};
ghost use Rattle.clap.specs.Matches.{found_of};
ghost use Rattle.clap.specs.Words.{subcommand_rows_of};
ghost use Rattle.command_words.specs.Words.{IsCommand, IsSize};
ghost use Rattle.command_words.specs.Served.{HasNumber, has_flag, IsServedAs, Explains, command_of};
ghost use Rattle.command_words.specs.Reading.{IsCreateOf, IsReadOf, IsReadIn, IsReadAs, Refuses};
ghost use Rattle.command_words.specs.declared.command.NewPool.{NewPool as NewPoolOf};
ghost use Rattle.command_words.specs.declared.command.ServedCommand.{ServedCommand as ServedCommandOf};

use crate::command::{NewPool, NoCommand, ServedCommand};
use crate::grammar::parse;
use crate::numbers::number;
use clap::error::ErrorKind;
use clap::{ArgMatches, Error};
use std::alloc::Global;

/// The number that is an option's value.
fn number_of(own: &ArgMatches<'_>, option: &str) -> Option<u64>
    ensures some { IfSome result (HasNumber (rows_of (found_of own.now)) option.now) }
    ensures none { IfNone result ((n : ℕ) → n < 2 ^ 64 → HasNumber (rows_of (found_of own.now)) option.now n → ⊥) }
{
    match own.get_str(option) {
        Some(text) => number(text),
        None => None,
    }
}

/// Whether a flag is there.
fn is_given(own: &ArgMatches<'_>, flag: &str) -> bool
    ensures { result ≡ has_flag (rows_of (found_of own.now)) flag.now }
{
    match own.get_str(flag) {
        Some(text) => text == "true",
        None => false,
    }
}

/// A pool with these numbers, where they are in their ranges.
fn new_pool(parity: u64, width: u64, id: u64) -> Option<NewPool>
    ensures some { IfSome result (λ made. (made.parity ≡ parity) × (made.width ≡ width) × (made.id ≡ id)
        × IsSize parity width) }
    ensures none { IfNone result (IsSize parity width → ⊥) }
{
    if parity < 1 || parity > 3 || width <= parity || width > 16 {
        return None;
    }
    Some(NewPool {
        parity: parity as u32,
        width: width as u32,
        id,
    })
}

/// The new pool that the words behind `create` ask for.
fn create(own: &ArgMatches<'_>) -> Option<NewPool>
    ensures some { IfSome result (IsCreateOf (rows_of (found_of own.now))) }
    ensures none { IfNone result ((made : NewPoolOf) → IsCreateOf (rows_of (found_of own.now)) made → ⊥) }
{
    let parity = number_of(own, "parity")?;
    let width = number_of(own, "width")?;
    let id = number_of(own, "id")?;
    new_pool(parity, width, id)
}

/// The command that a subcommand of this name is.
fn named(name: &str, own: &ArgMatches<'_>) -> Option<ServedCommand>
    ensures some { IfSome result (IsReadOf name.now (rows_of (found_of own.now))) }
    ensures none { IfNone result ((given : ServedCommandOf) → IsReadOf name.now (rows_of (found_of own.now)) given
        → ⊥) }
{
    match name {
        "create" => Some(ServedCommand::Create(create(own)?)),
        "run" => Some(ServedCommand::Run {
            attaches: is_given(own, "attach"),
        }),
        "replay" => Some(ServedCommand::Replay),
        "status" => Some(ServedCommand::Status),
        _ => None,
    }
}

/// The command that was read, if it is one.
fn command_in(matches: &ArgMatches<'_>) -> Option<ServedCommand>
    ensures some { IfSome result (IsReadIn (subcommand_rows_of matches.now)) }
    ensures none { IfNone result ((given : ServedCommandOf) → IsReadIn (subcommand_rows_of matches.now) given → ⊥) }
{
    match matches.subcommand() {
        Some((name, own)) => named(name, own),
        None => None,
    }
}

/// What an error of `clap` comes to.
fn refusal(error: Error) -> NoCommand
    ensures { Refuses error result }
{
    match error.kind() {
        ErrorKind::OutOfMemory => NoCommand::NoMemory,
        ErrorKind::DisplayHelp | ErrorKind::DisplayVersion => NoCommand::Asked(error),
        _ => NoCommand::Misspelled,
    }
}

/// The command that the words are, of which the first is not looked at; or why they are none that is carried out.
pub fn read_command(alloc: Global, words: &[String]) -> Result<ServedCommand, NoCommand>
    ensures ok { IfOk result (IsServedAs (map string_bytes words.now)) }
    ensures err { IfErr result (Explains (map string_bytes words.now)) }
    ensures spelled { (given : ServedCommandOf) → IsCommand (map string_bytes words.now) (command_of given)
        → IsReadAs given result }
{
    match parse(alloc, words) {
        Ok(matches) => match command_in(&matches) {
            Some(given) => Ok(given),
            None => Err(NoCommand::Misspelled),
        },
        Err(error) => Err(refusal(error)),
    }
}
