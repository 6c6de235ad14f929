// A script from its bytes.
ghost use Rattle.std.specs.Prelude.{◌≡◌, ◌⊎◌, ℕ, ◌<◌, ◌≤◌, ◌∷◌, List, length, All, Ok, Err, IfOk, IfErr};
ghost use Rattle.client_script.specs.declared.meaning.Meaning.TheVariants as meaning;
ghost use Rattle.client_script.specs.declared.refused.ParseRefused.TheVariants.{Limit, NoMemory};
ghost use Rattle.client_script.specs.Lines.{Order, IsLineText, split_lines};
ghost use Rattle.client_script.specs.Script.{Script as Asked, IsAllowed, IsScript, IsFaultAt, IsOverLimit, reached_by};
ghost use Rattle.client_script.specs.Faults.{named_by as named_so_far};
ghost use Rattle.client_script.specs.Meanings.{IsMeant, actors_of};
ghost use Rattle.client_script.specs.Reading.{IsStep, IsRefusedFor, IsUnlessNoMemory, IsFaultUnlessNoMemory};

use crate::call::ScriptCall;
use crate::cut::cut;
use crate::line_fault::{LineFault, line_fault};
use crate::meaning::{Meaning, read_line};
use crate::refused::ParseRefused;
use crate::script::Script;
use std::alloc::Global;

/// Most bytes of a script.
pub const MOST_SCRIPT_BYTES: usize = 16_777_216;

/// Most clients of a script.
const MOST_CLIENTS: u8 = 8;

/// Most calls of a script.
const MOST_CALLS: usize = 10_000;

/// Reads a script.
///
/// More than 16,777,216 bytes are refused before any line is looked at; then the first line that
/// breaks a rule decides. `line` is its number, or, where no line says how many clients there are,
/// the number of lines plus one.
pub fn parse(alloc: Global, bytes: &[u8]) -> Result<Script, ParseRefused>
    ensures ok { IfOk result (IsScript bytes.now) }
    ensures err { IfErr result (IsRefusedFor bytes.now) }

    // What the calls hold, and whose they are.
    ensures allowed { IfOk result (λ script. All (λ placed. IsAllowed placed.call) script.calls) }
    ensures actors { IfOk result (λ script. (script.clients ≤ 8)
        × All (λ placed. placed.actor < script.clients) script.calls) }

    // Each answer comes wherever it is due, but for want of memory.
    ensures every_script { (script : Asked) → IsScript bytes.now script
        → IsUnlessNoMemory result (Ok script) }
    ensures every_fault { (line : ℕ) → IsFaultAt bytes.now line
        → IsFaultUnlessNoMemory result line }
    ensures every_limit { (over : IsOverLimit bytes.now)
        → IsUnlessNoMemory result (Err (Limit (reached_by bytes.now over))) }
{
    read_all(alloc, bytes)
}

fn read_all(alloc: Global, bytes: &[u8]) -> Result<Script, ParseRefused>
    ensures ok { IfOk result (IsScript bytes.now) }
    ensures err { IfErr result (IsRefusedFor bytes.now) }
{
    if bytes.len() > MOST_SCRIPT_BYTES {
        return Err(ParseRefused::Limit {
            reached: MOST_SCRIPT_BYTES as u64 + 1,
        });
    }
    let mut script = None;
    let mut rest = bytes;
    let mut number: u64 = 0;
    while !rest.is_empty() {
        let (text, below) = first_line(rest);
        number += 1;
        take_line(alloc, &mut script, number, text)?;
        rest = below;
    }
    match script {
        Some(script) => Ok(script),
        None => Err(ParseRefused::ScriptFault {
            line: number + 1,
            why: LineFault::NoClients,
        }),
    }
}

// One line more of a script. There is none above the line that says how many clients there are.
fn take_line(
    alloc: Global,
    script: &mut Option<Script>,
    number: u64,
    text: &[u8],
) -> Result<(), ParseRefused>
    ensures { IsStep number text.now script.old result script.new }
{
    match read_line(alloc, number, text)? {
        Meaning::Passed => Ok(()),
        Meaning::Clients { count } => take_clients(alloc, script, number, count),
        Meaning::Call { actor, call } => take_call(script, number, actor, call),
        Meaning::Order { letters } => take_order(script, number, letters),
        Meaning::Broken => Err(ParseRefused::ScriptFault {
            line: number,
            why: line_fault(text, named_by(script)),
        }),
    }
}

// How many clients there are, where a line has said it.
fn named_by(script: &Option<Script>) -> Option<u8>
    ensures { result ≡ named_so_far script.now }
{
    match script {
        Some(script) => Some(script.clients()),
        None => None,
    }
}

fn take_clients(
    alloc: Global,
    script: &mut Option<Script>,
    number: u64,
    count: u8,
) -> Result<(), ParseRefused>
    ensures { (text : List ℕ) → IsMeant number text (meaning.Clients count)
        → IsStep number text script.old result script.new }
{
    if script.is_some() {
        return Err(ParseRefused::ScriptFault {
            line: number,
            why: LineFault::ClientsAgain,
        });
    }
    if count == 0 {
        return Err(ParseRefused::ScriptFault {
            line: number,
            why: LineFault::ClientCount,
        });
    }
    if count > MOST_CLIENTS {
        return Err(ParseRefused::Limit {
            reached: u64::from(MOST_CLIENTS) + 1,
        });
    }
    *script = Some(Script::new(alloc, count)?);
    Ok(())
}

fn take_call(
    script: &mut Option<Script>,
    number: u64,
    actor: u8,
    call: ScriptCall,
) -> Result<(), ParseRefused>
    ensures { (text : List ℕ) → IsMeant number text (meaning.Call actor call)
        → IsStep number text script.old result script.new }
{
    let Some(script) = script else {
        return Err(ParseRefused::ScriptFault {
            line: number,
            why: LineFault::NoClients,
        });
    };
    if actor >= script.clients() {
        return Err(ParseRefused::ScriptFault {
            line: number,
            why: LineFault::NoSuchClient {
                clients: script.clients(),
            },
        });
    }
    if script.in_line_order().len() >= MOST_CALLS {
        return Err(ParseRefused::Limit {
            reached: MOST_CALLS as u64 + 1,
        });
    }
    script.push_call(actor, call)?;
    Ok(())
}

fn take_order(script: &mut Option<Script>, number: u64, letters: &[u8]) -> Result<(), ParseRefused>
    requires { All (λ letter. 97 ≤ letter) letters.now }
    ensures { (text : List ℕ) → IsLineText text (Order (actors_of letters.now))
        → IsStep number text script.old result script.new }
{
    let Some(script) = script else {
        return Err(ParseRefused::ScriptFault {
            line: number,
            why: LineFault::NoClients,
        });
    };
    for letter in letters {
        let actor = *letter - b'a';
        if actor >= script.clients() {
            return Err(ParseRefused::ScriptFault {
                line: number,
                why: LineFault::Turns,
            });
        }
        script.push_turn(actor)?;
    }
    Ok(())
}

// The first line, without its newline, and what follows it.
fn first_line(bytes: &[u8]) -> (&[u8], &[u8])
    requires { 0 < length bytes.now }
    ensures split { split_lines bytes.now ≡ result.0.now ∷ split_lines result.1.now }
    ensures less { length result.1.now < length bytes.now }
{
    match cut(bytes, b'\n') {
        Some(parts) => parts,
        None => (bytes, &[]),
    }
}
