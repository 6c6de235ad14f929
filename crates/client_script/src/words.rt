// The words of a call after its letter.
ghost use Rattle.std.specs.Prelude.{◌≡◌, ℕ, List, Some, None, IfOk, IfSome, IfNone, MatchOption};
ghost use Rattle.core_state.specs.declared.answer.Kind.{Kind as KindOf};
ghost use Rattle.core_state.specs.declared.answer.Kind.TheVariants.{Put};
ghost use Rattle.client_script.specs.declared.call.Fill.TheVariants.{Nothing, Pattern, Hex};
ghost use Rattle.client_script.specs.Words.{IsNumber, IsPattern, IsHexWords, IsWords, HasNoCall, IsBareWord};

use crate::call::{Fill, MOST_BYTES, ScriptCall};
use crate::cut::after;
use crate::hex::hex_bytes;
use crate::number::{leading_number, number};
use core_state::{Bytes, Kind};
use std::alloc::{AllocError, Global};

/// The call that the words ask for; `line` is the number of their line.
pub fn read_words(alloc: Global, line: u64, words: &[u8]) -> Result<Option<ScriptCall>, AllocError>
    ensures { IfOk result (λ found. MatchOption found (HasNoCall words.now)
        (λ call. (call.line ≡ line) × IsWords words.now call.kind call.id call.fill)) }
{
    if let Some(rest) = after(words, b"put ") {
        Ok(pattern_call(line, rest))
    } else if let Some(rest) = after(words, b"puthex ") {
        hex_call(alloc, line, rest)
    } else if let Some(word) = after(words, b"get ") {
        Ok(id_call(line, Kind::Get, word))
    } else if let Some(word) = after(words, b"sum ") {
        Ok(id_call(line, Kind::Sum, word))
    } else if let Some(word) = after(words, b"free ") {
        Ok(id_call(line, Kind::Free, word))
    } else {
        Ok(bare_call(line, words))
    }
}

// The rest of `put`: an id, a length and a seed.
fn pattern_call(line: u64, rest: &[u8]) -> Option<ScriptCall>
    ensures some { IfSome result (λ call. (id len seed : ℕ) × IsPattern rest.now id len seed
        × (call ≡ record { line = line; kind = Put; id = Some id; fill = Pattern len seed })) }
    ensures none { IfNone result
        ((id len seed : ℕ) → IsPattern rest.now id len seed → ⊥) }
{
    let (id, rest) = leading_number(rest)?;
    let (len, rest) = leading_number(rest)?;
    let seed = number(rest)?;
    if len == 0 || len > MOST_BYTES {
        return None;
    }
    Some(ScriptCall {
        line,
        kind: Kind::Put,
        id: Some(id),
        fill: Fill::Pattern {
            len: len as u32,
            seed,
        },
    })
}

// The rest of `puthex`: an id and digits.
fn hex_call(alloc: Global, line: u64, rest: &[u8]) -> Result<Option<ScriptCall>, AllocError>
    ensures { IfOk result (λ found. MatchOption found
        ((id : ℕ) (bytes : List ℕ) → IsHexWords rest.now id bytes → ⊥)
        (λ call. (id : ℕ) × (bytes : List ℕ) × IsHexWords rest.now id bytes
        × (call ≡ record { line = line; kind = Put; id = Some id; fill = Hex bytes }))) }
{
    let Some((id, digits)) = leading_number(rest) else {
        return Ok(None);
    };
    let Some(bytes) = hex_bytes(alloc, digits)? else {
        return Ok(None);
    };
    Ok(Some(ScriptCall {
        line,
        kind: Kind::Put,
        id: Some(id),
        fill: Fill::Hex(Bytes::new(alloc, bytes)?),
    }))
}

// The rest of a call that has an id alone.
fn id_call(line: u64, kind: Kind, word: &[u8]) -> Option<ScriptCall>
    ensures some { IfSome result (λ call. (id : ℕ) × IsNumber word.now id
        × (call ≡ record { line = line; kind = kind; id = Some id; fill = Nothing })) }
    ensures none { IfNone result ((id : ℕ) → IsNumber word.now id → ⊥) }
{
    let id = number(word)?;
    Some(ScriptCall {
        line,
        kind,
        id: Some(id),
        fill: Fill::Nothing,
    })
}

// A call that is one word.
fn bare_call(line: u64, word: &[u8]) -> Option<ScriptCall>
    ensures some { IfSome result (λ call. (kind : KindOf) × IsBareWord word.now kind
        × (call ≡ record { line = line; kind = kind; id = None; fill = Nothing })) }
    ensures none { IfNone result ((kind : KindOf) → IsBareWord word.now kind → ⊥) }
{
    let kind = bare_kind(word)?;
    Some(ScriptCall {
        line,
        kind,
        id: None,
        fill: Fill::Nothing,
    })
}

fn bare_kind(word: &[u8]) -> Option<Kind>
    ensures some { IfSome result (IsBareWord word.now) }
    ensures none { IfNone result ((kind : KindOf) → IsBareWord word.now kind → ⊥) }
{
    match word {
        b"sync" => Some(Kind::Sync),
        b"attach" => Some(Kind::Attach),
        b"copy" => Some(Kind::Copy),
        _ => None,
    }
}
