// Bytes spelled as two lower-case digits each.
ghost use Rattle.std.specs.Prelude.{◌≡◌, ◌≢◌, ◌*◌, ◌/◌, ◌%◌, ◌<◌, ◌≤◌, ℕ, List, length, take, IfSome, IfNone, IfOk};
ghost use Rattle.std.specs.Prelude.{MatchOption};
ghost use Rattle.client_script.specs.Lines.{hex_digit, hex_text};
ghost use Rattle.client_script.specs.Words.{IsHex};

use crate::call::MOST_BYTES;
use crate::hex_lanes::spell_lanes;
use std::alloc::{AllocError, Global};

/// The bytes that a text spells: one at least, and not too many.
pub fn hex_bytes(alloc: Global, text: &[u8]) -> Result<Option<Vec<u8>>, AllocError>
    ensures { IfOk result (λ found. MatchOption found
        ((bytes : List ℕ) → IsHex text.now bytes → ⊥) (λ bytes. IsHex text.now bytes.items)) }
{
    if text.is_empty() || text.len() % 2 == 1 || text.len() as u64 > 2 * MOST_BYTES {
        return Ok(None);
    }
    let mut bytes = Vec::with_capacity(alloc, text.len() / 2)?;
    for place in 0..text.len() / 2 {
        let Some(byte) = hex_byte(text[2 * place], text[2 * place + 1]) else {
            return Ok(None);
        };
        bytes.push(byte)?;
    }
    Ok(Some(bytes))
}

fn hex_byte(high: u8, low: u8) -> Option<u8>
    ensures some { IfSome result
        (λ byte. (high ≡ hex_digit (byte / 16)) × (low ≡ hex_digit (byte % 16))) }
    ensures none { IfNone result ((byte : ℕ) → byte < 256 → high ≡ hex_digit (byte / 16)
        → low ≢ hex_digit (byte % 16)) }
{
    let high = hex_value(high)?;
    let low = hex_value(low)?;
    Some(high * 16 + low)
}

fn hex_value(digit: u8) -> Option<u8>
    ensures some { IfSome result (λ value. (value < 16) × (digit ≡ hex_digit value)) }
    ensures none { IfNone result ((value : ℕ) → value < 16 → digit ≢ hex_digit value) }
{
    match digit {
        b'0'..=b'9' => Some(digit - b'0'),
        b'a'..=b'f' => Some(digit - b'a' + 10),
        _ => None,
    }
}

/// Spells bytes into a place as long as their digits: 16 at once, and those left over one by one.
pub fn spell(bytes: &[u8], digits: &mut [u8])
    requires { length digits.old ≡ 2 * length bytes.now }
    ensures { digits.new ≡ hex_text bytes.now }
{
    let mut done = 0;
    while done + 16 <= bytes.len() {
        spell_lanes(bytes, done, digits);
        done += 16;
    }
    for place in done..bytes.len() {
        digits[2 * place] = digit(bytes[place] / 16);
        digits[2 * place + 1] = digit(bytes[place] % 16);
    }
}

fn digit(value: u8) -> u8
    requires { value < 16 }
    ensures { result ≡ hex_digit value }
{
    if value < 10 {
        b'0' + value
    } else {
        b'a' - 10 + value
    }
}
