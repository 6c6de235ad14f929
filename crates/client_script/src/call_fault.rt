// What is wrong with the words of a call.
ghost use Rattle.std.specs.Prelude.{◌≡◌, ◌≢◌, ◌++◌, ◌∷◌, ◌↔◌, ℕ, List, All, IsTrue, codes};
ghost use Rattle.client_script.specs.Words.{IsNumber, IsPattern, IsHexWords, HasNoCall};
ghost use Rattle.client_script.specs.Faults.{IsIdName, IsPutName, IsBareName, IsCallFault};

use crate::call::MOST_BYTES;
use crate::cut::cut;
use crate::number::number;

/// What is wrong behind the letter of a call.
#[derive(Clone, Copy, Debug, PartialEq, Eq)]
pub enum CallFault {
    /// The first word is no call's.
    UnknownCall,
    /// A word that is to be a number of 64 bits is none.
    Number,
    /// A put has too few words, or too many.
    PutWords,
    NoBytes,
    TooManyBytes,
    /// The digits of a put do not spell bytes.
    HexDigits,
    /// A call that has an id alone has none, or more.
    IdAlone,
    /// A sync, an attach or a copy has more than its name.
    WordAlone,
}

/// What is wrong with words that are no call's.
pub fn call_fault(words: &[u8]) -> CallFault
    requires { HasNoCall words.now }
    ensures { IsCallFault words.now result }
{
    let Some((name, rest)) = cut(words, b' ') else {
        return fault_alone(words);
    };
    if is_word(name, b"put") {
        put_fault(rest)
    } else if is_word(name, b"puthex") {
        puthex_fault(rest)
    } else if is_bare_name(name) {
        CallFault::WordAlone
    } else if is_id_name(name) {
        id_fault(name, rest)
    } else {
        CallFault::UnknownCall
    }
}

fn is_word(word: &[u8], name: &[u8]) -> bool
    ensures { IsTrue result ↔ (word.now ≡ name.now) }
{
    word == name
}

fn is_put_name(word: &[u8]) -> bool
    ensures { IsTrue result ↔ IsPutName word.now }
{
    is_word(word, b"put") || is_word(word, b"puthex")
}

fn is_id_name(word: &[u8]) -> bool
    ensures { IsTrue result ↔ IsIdName word.now }
{
    is_word(word, b"get") || is_word(word, b"sum") || is_word(word, b"free")
}

fn is_bare_name(word: &[u8]) -> bool
    ensures { IsTrue result ↔ IsBareName word.now }
{
    is_word(word, b"sync") || is_word(word, b"attach") || is_word(word, b"copy")
}

// What is wrong with one word.
fn fault_alone(word: &[u8]) -> CallFault
    requires no_space { All (λ byte. byte ≢ 32) word.now }
    requires no_call { HasNoCall word.now }
    ensures { IsCallFault word.now result }
{
    if is_put_name(word) {
        CallFault::PutWords
    } else if is_id_name(word) {
        CallFault::IdAlone
    } else {
        CallFault::UnknownCall
    }
}

// What is wrong with the rest of a put that has a pattern.
fn put_fault(rest: &[u8]) -> CallFault
    requires { (id len seed : ℕ) → IsPattern rest.now id len seed → ⊥ }
    ensures { IsCallFault (codes "put " ++ rest.now) result }
{
    let Some((_, more)) = cut(rest, b' ') else {
        return CallFault::PutWords;
    };
    let Some((len, seed)) = cut(more, b' ') else {
        return CallFault::PutWords;
    };
    let None = cut(seed, b' ') else {
        return CallFault::PutWords;
    };
    let Some(count) = number(len) else {
        return CallFault::Number;
    };
    if count == 0 {
        CallFault::NoBytes
    } else if count > MOST_BYTES {
        CallFault::TooManyBytes
    } else {
        CallFault::Number
    }
}

// What is wrong with the rest of a put that has digits.
fn puthex_fault(rest: &[u8]) -> CallFault
    requires { (id : ℕ) (bytes : List ℕ) → IsHexWords rest.now id bytes → ⊥ }
    ensures { IsCallFault (codes "puthex " ++ rest.now) result }
{
    let Some((word, digits)) = cut(rest, b' ') else {
        return CallFault::PutWords;
    };
    let Some(_) = number(word) else {
        return CallFault::Number;
    };
    if digits.len() as u64 > 2 * MOST_BYTES {
        CallFault::TooManyBytes
    } else {
        CallFault::HexDigits
    }
}

// What is wrong with the rest of a call that has an id alone.
fn id_fault(name: &[u8], rest: &[u8]) -> CallFault
    requires name { IsIdName name.now }
    requires no_id { (id : ℕ) → IsNumber rest.now id → ⊥ }
    ensures { IsCallFault (name.now ++ 32 ∷ rest.now) result }
{
    match cut(rest, b' ') {
        Some(_) => CallFault::IdAlone,
        None => CallFault::Number,
    }
}
