// What is wrong with a line that breaks the grammar.
ghost use Rattle.std.specs.Prelude.{◌≡◌, ◌≢◌, ◌∷◌, ℕ, List, Some, None, IsTrue, IfSome, IfNone};
ghost use Rattle.client_script.specs.Lines.{Line, IsLineText};
ghost use Rattle.client_script.specs.Words.{HasNoCall};
ghost use Rattle.client_script.specs.Faults.{HasStraySpace, IsFaultOf};

use crate::call_fault::{CallFault, call_fault};
use crate::cut::after;

#[derive(Clone, Copy, Debug, PartialEq, Eq)]
pub enum LineFault {
    /// It ends with a carriage return.
    CarriageReturn,
    /// A space stands at an end, or beside another.
    StraySpace,
    /// No line says how many clients there are, and it stands where one has to.
    NoClients,
    /// It says how many clients there are, as one above it does.
    ClientsAgain,
    /// The number of clients is none.
    ClientCount,
    /// Turns that are not spelled as letters of clients, or none.
    Turns,
    /// It is nothing that begins with a letter and a space.
    NoCall,
    /// There are so many clients, and the call is none's.
    NoSuchClient { clients: u8 },
    /// It begins as a call, and this is wrong behind the letter.
    InCall { why: CallFault },
}

/// What is wrong with a line that means nothing, where so many clients were named above it.
pub fn line_fault(text: &[u8], clients: Option<u8>) -> LineFault
    requires { (line : Line) → IsLineText text.now line → ⊥ }
    ensures { IsFaultOf clients text.now result }
{
    if let [.., b'\r'] = text {
        return LineFault::CarriageReturn;
    }
    if has_stray_space(text) {
        return LineFault::StraySpace;
    }
    match clients {
        Some(clients) => fault_below(text, clients),
        None => fault_above(text),
    }
}

// What is wrong with a line where none above it names clients.
fn fault_above(text: &[u8]) -> LineFault
    requires { (line : Line) → IsLineText text.now line → ⊥ }
    ensures { IsFaultOf None text.now result }
{
    if after(text, b"clients ").is_some() {
        LineFault::ClientCount
    } else {
        LineFault::NoClients
    }
}

// What is wrong with a line below the one that names clients.
fn fault_below(text: &[u8], clients: u8) -> LineFault
    requires { (line : Line) → IsLineText text.now line → ⊥ }
    ensures { IsFaultOf (Some clients) text.now result }
{
    if after(text, b"clients ").is_some() {
        return LineFault::ClientsAgain;
    }
    if after(text, b"order ").is_some() {
        return LineFault::Turns;
    }
    match cut_letter(text) {
        Some((letter, words)) => fault_behind(letter, words, clients),
        None => LineFault::NoCall,
    }
}

// The letter that a text begins with, and what follows the space behind it.
fn cut_letter(text: &[u8]) -> Option<(u8, &[u8])>
    ensures some { IfSome result (λ parts. text.now ≡ parts.0 ∷ 32 ∷ parts.1.now) }
    ensures none { IfNone result
        ((letter : ℕ) (words : List ℕ) → text.now ≢ letter ∷ 32 ∷ words) }
{
    match text {
        [letter, b' ', words @ ..] => Some((*letter, words)),
        _ => None,
    }
}

// What is wrong with a line that begins with a letter and a space.
fn fault_behind(letter: u8, words: &[u8], clients: u8) -> LineFault
    requires { (line : Line) → IsLineText (letter ∷ 32 ∷ words.now) line → ⊥ }
    ensures { IsFaultOf (Some clients) (letter ∷ 32 ∷ words.now) result }
{
    if letter < b'a' || letter - b'a' >= clients {
        return LineFault::NoSuchClient { clients };
    }
    LineFault::InCall {
        why: call_fault(words),
    }
}

fn has_stray_space(text: &[u8]) -> bool
    ensures { IsTrue result → HasStraySpace text.now }
{
    for place in 0..text.len() {
        if text[place] == b' '
            && (place == 0 || place + 1 == text.len() || text[place + 1] == b' ')
        {
            return true;
        }
    }
    false
}
