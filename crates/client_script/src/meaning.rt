// What a line of a script means.
ghost use Rattle.std.specs.Prelude.{◌≡◌, ◌≢◌, ◌≤◌, ◌∷◌, ◌++◌, ◌↔◌, codes, IsTrue, All, IfOk};
ghost use Rattle.client_script.specs.Meanings.{IsMeant, IsSetting};

use crate::call::ScriptCall;
use crate::cut::after;
use crate::number::client_count;
use crate::words::read_words;
use std::alloc::{AllocError, Global};

#[derive(Drop)]
pub enum Meaning<'a> {
    /// An empty line or a comment.
    Passed,
    /// How many clients there are; 9 stands for all numbers above 8.
    Clients { count: u8 },
    Call { actor: u8, call: ScriptCall },
    /// Turns, by the letters of clients.
    Order { letters: &'a [u8] },
    /// Nothing that a script may say.
    Broken,
}

/// Reads the line of this number, without its newline.
pub fn read_line(alloc: Global, number: u64, text: &[u8]) -> Result<Meaning, AllocError>
    ensures { IfOk result (IsMeant number text.now) }
{
    match text {
        [] | [b'#', ..] => Ok(Meaning::Passed),
        [letter, b' ', words @ ..] => call_line(alloc, number, *letter, words),
        _ => Ok(setting(number, text)),
    }
}

// A client's letter and the words of its call.
fn call_line(alloc: Global, number: u64, letter: u8, words: &[u8]) -> Result<Meaning, AllocError>
    requires { letter ≢ 35 }
    ensures { IfOk result (IsMeant number (letter ∷ 32 ∷ words.now)) }
{
    if letter < b'a' {
        return Ok(Meaning::Broken);
    }
    match read_words(alloc, number, words)? {
        Some(call) => Ok(Meaning::Call {
            actor: letter - b'a',
            call,
        }),
        None => Ok(Meaning::Broken),
    }
}

// The number of clients, or turns.
fn setting(number: u64, text: &[u8]) -> Meaning
    requires { IsSetting text.now }
    ensures { IsMeant number text.now result }
{
    if let Some(word) = after(text, b"clients ") {
        match client_count(word) {
            Some(count) => Meaning::Clients { count },
            None => Meaning::Broken,
        }
    } else if let Some(letters) = after(text, b"order ") {
        order(number, letters)
    } else {
        Meaning::Broken
    }
}

fn order(number: u64, letters: &[u8]) -> Meaning
    ensures { IsMeant number (codes "order " ++ letters.now) result }
{
    if letters.is_empty() {
        return Meaning::Broken;
    }
    if are_letters(letters) {
        Meaning::Order { letters }
    } else {
        Meaning::Broken
    }
}

fn are_letters(letters: &[u8]) -> bool
    ensures { IsTrue result ↔ All (λ letter. 97 ≤ letter) letters.now }
{
    letters.iter().all(|letter| *letter >= b'a')
}
