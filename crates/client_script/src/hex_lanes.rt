// Sixteen bytes at once as digits, in vectors.
ghost use Rattle.std.specs.Prelude.{◌≡◌, ℕ, ◌+◌, ◌*◌, ◌<◌, ◌≤◌, ◌++◌, length, map, take};
ghost use Rattle.std.specs.Simd.Lanes.{Each1, chunk};
ghost use Rattle.client_script.specs.Lines.{hex_digit, hex_text};

use std::simd::prelude::*;

/// Spells the 16 bytes from a place on, behind the digits of the bytes before it.
#[inline(always)]
pub fn spell_lanes(bytes: &[u8], place: usize, digits: &mut [u8])
    requires bytes { place + 16 ≤ length bytes.now }
    requires digits { 2 * place + 32 ≤ length digits.old }
    ensures spelled { take (2 * place + 32) digits.new
        ≡ take (2 * place) digits.old ++ hex_text (chunk place 16 bytes.now) }
    ensures long { length digits.new ≡ length digits.old }
{
    let (front, back) = spelled(Simd::from_slice(&bytes[place..]));
    front.copy_to_slice(&mut digits[2 * place..]);
    back.copy_to_slice(&mut digits[2 * place + 16..]);
}

// The digits of the first eight bytes, and of the other eight.
#[inline(always)]
fn spelled(bytes: u8x16) -> (u8x16, u8x16)
    ensures front { length result.0 ≡ 16 }
    ensures back { length result.1 ≡ 16 }
    ensures both { result.0 ++ result.1 ≡ hex_text bytes }
{
    let high = lane_digits(bytes >> Simd::splat(4));
    let low = lane_digits(bytes & Simd::splat(15));
    high.interleave(low)
}

// The digit at each lane, out of all sixteen digits.
#[inline(always)]
fn lane_digits(values: u8x16) -> u8x16
    requires { Each1 (λ value. value < 16) values }
    ensures { result ≡ map hex_digit values }
{
    u8x16::from_array(*b"0123456789abcdef").swizzle_dyn(values)
}
