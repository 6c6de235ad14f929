// Decimal numbers without sign or leading zeros.
ghost use Rattle.std.specs.Prelude.{◌≡◌, ◌+◌, ◌*◌, ◌^◌, ◌<◌, ◌≤◌, ℕ, List, IfSome, IfNone};
ghost use Rattle.std.specs.List.{list_all};
ghost use Rattle.std.specs.Char.{is_ascii_digit, digit_value};
ghost use Rattle.std.specs.Str.Parse.{AllDigits, digits_value};
ghost use Rattle.client_script.specs.Words.{IsNumber, IsLedByNumber, IsCount};

use crate::cut::cut;

/// The number that a word spells.
pub fn number(word: &[u8]) -> Option<u64>
    ensures some { IfSome result (IsNumber word.now) }
    ensures none { IfNone result ((other : ℕ) → IsNumber word.now other → ⊥) }
{
    let (first, rest) = word.split_first()?;
    if *first == b'0' && !rest.is_empty() {
        return None;
    }
    value_of(word)
}

/// The value of digits, leading zeros among them.
fn value_of(word: &[u8]) -> Option<u64>
    ensures some { IfSome result
        (λ value. AllDigits 10 word.now × (digits_value 10 word.now ≡ value)) }
    ensures fits { IfSome result (λ value. value < 2 ^ 64) }
    ensures none { IfNone result (AllDigits 10 word.now → 2 ^ 64 ≤ digits_value 10 word.now) }
{
    let mut value = 0;
    for byte in word {
        value = with_digit(value, *byte)?;
    }
    Some(value)
}

/// The value of digits with one more behind them.
fn with_digit(value: u64, byte: u8) -> Option<u64>
    ensures some { IfSome result
        (λ more. (digit_value byte < 10) × (value * 10 + digit_value byte ≡ more)) }
    ensures fits { IfSome result (λ more. more < 2 ^ 64) }
    ensures none { IfNone result
        (digit_value byte < 10 → 2 ^ 64 ≤ value * 10 + digit_value byte) }
{
    let digit = digit(byte)?;
    value.checked_mul(10)?.checked_add(digit)
}

fn digit(byte: u8) -> Option<u64>
    ensures some { IfSome result (λ value. (value < 10) × (digit_value byte ≡ value)) }
    ensures none { IfNone result (10 ≤ digit_value byte) }
{
    if byte.is_ascii_digit() {
        Some(u64::from(byte - b'0'))
    } else {
        None
    }
}

/// The number that a text begins with, and what follows the space behind it.
pub fn leading_number(text: &[u8]) -> Option<(u64, &[u8])>
    ensures some { IfSome result (λ parts. IsLedByNumber text.now parts.0 parts.1.now) }
    ensures none { IfNone result
        ((other : ℕ) (rest : List ℕ) → IsLedByNumber text.now other rest → ⊥) }
{
    let (word, rest) = cut(text, b' ')?;
    let number = number(word)?;
    Some((number, rest))
}

/// The number of clients that a word spells, 9 for all greater ones.
pub fn client_count(word: &[u8]) -> Option<u8>
    ensures some { IfSome result (IsCount word.now) }
    ensures none { IfNone result ((count : ℕ) → IsCount word.now count → ⊥) }
{
    if !is_digits(word) {
        return None;
    }
    let (first, rest) = word.split_first()?;
    if rest.is_empty() {
        Some(*first - b'0')
    } else if *first == b'0' {
        None
    } else {
        Some(9)
    }
}

fn is_digits(word: &[u8]) -> bool
    ensures { result ≡ list_all is_ascii_digit word.now }
{
    word.iter().all(|byte| byte.is_ascii_digit())
}
