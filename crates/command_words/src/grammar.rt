// The grammar of the command words: one function for each subcommand.
ghost use Rattle.std.specs.Prelude.{◌≡◌, IfOk, false, map, string_bytes};
ghost use Rattle.clap.specs.Walk.{rule_of};
ghost use Rattle.clap.specs.Simple.{subcommand_of};
ghost use Rattle.clap.specs.Faults.{fault_of};
ghost use Rattle.clap.specs.Kinds.{FailsBy};
ghost use Rattle.clap.specs.Words.{subcommand_rows_of};
ghost use Rattle.command_words.specs.Grammar.{HasGrammar, required_option, optional_flag, command_words};
ghost use Rattle.command_words.specs.Grammar.{program_words, create_words, run_words, replay_words, status_words};

use crate::help;
use clap::{Arg, ArgAction, ArgMatches, Command, Error};
use std::alloc::{AllocError, Global};

/// An option that has to be there, with its value.
fn required_option<'a>(alloc: Global, name: &'a str) -> Arg<'a>
    ensures rule { rule_of result ≡ required_option name.entry.now }
    ensures local { result.global ≡ false }
{
    Arg::new(alloc, name)
        .long(name)
        .action(ArgAction::Set)
        .required(true)
}

/// A flag that may be there.
fn optional_flag<'a>(alloc: Global, name: &'a str) -> Arg<'a>
    ensures rule { rule_of result ≡ optional_flag name.entry.now }
    ensures local { result.global ≡ false }
{
    Arg::new(alloc, name).long(name).action(ArgAction::SetTrue)
}

fn create<'a>(alloc: Global) -> Result<Command<'a>, AllocError>
    ensures { IfOk result (HasGrammar create_words) }
{
    Command::new(alloc, "create")
        .override_help(help::CREATE)
        .arg(required_option(alloc, "parity"))?
        .arg(required_option(alloc, "width"))?
        .arg(required_option(alloc, "id"))
}

fn run<'a>(alloc: Global) -> Result<Command<'a>, AllocError>
    ensures { IfOk result (HasGrammar run_words) }
{
    Command::new(alloc, "run")
        .override_help(help::RUN)
        .arg(optional_flag(alloc, "attach"))
}

fn replay<'a>(alloc: Global) -> Command<'a>
    ensures { HasGrammar replay_words result }
{
    Command::new(alloc, "replay").override_help(help::REPLAY)
}

fn status<'a>(alloc: Global) -> Command<'a>
    ensures { HasGrammar status_words result }
{
    Command::new(alloc, "status").override_help(help::STATUS)
}

/// The program without its subcommands.
fn program_alone<'a>(alloc: Global) -> Command<'a>
    ensures { HasGrammar program_words result }
{
    Command::new(alloc, "raidzx")
        .version(help::VERSION)
        .override_help(help::PAGE)
        .subcommand_required(true)
}

/// The program with its subcommands.
fn program<'a>(alloc: Global) -> Result<Command<'a>, AllocError>
    ensures { IfOk result (HasGrammar command_words) }
{
    program_alone(alloc)
        .subcommand(create(alloc)?)?
        .subcommand(run(alloc)?)?
        .subcommand(replay(alloc))?
        .subcommand(status(alloc))
}

/// What `clap` reads of the words, the first of which it passes over.
pub fn parse<'a>(alloc: Global, words: &'a [String]) -> Result<ArgMatches<'a>, Error>
    ensures rows { IfOk result (λ matches.
        subcommand_rows_of matches ≡ subcommand_of command_words (map string_bytes words.entry.now)) }
    ensures kinds { FailsBy (fault_of command_words (map string_bytes words.entry.now)) result }
{
    let program = program(alloc)?;
    program.try_get_matches_from(words)
}
