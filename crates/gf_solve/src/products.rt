// The products of many bytes with one factor, a vector at a time.
//
// A byte is the sum of its halves, so its product is the sum of two that are looked up, each among 16.
// Doubling each byte seven times would take four times as long for a column: so only the 32 products
// are made that way.

ghost use Rattle.std.specs.Prelude.{◌≡◌, ◌≢◌, ℕ, ◌+◌, ◌*◌, ◌/◌, ◌%◌, ◌^◌, ◌<◌, length, slice_index, bit_and};
ghost use Rattle.gf_parity.specs.Field.{product};

use gf_parity::lanes::{added, doubled};
use std::simd::prelude::*;

/// The low halves of bytes.
const LOW: [u8; 16] = [0, 1, 2, 3, 4, 5, 6, 7, 8, 9, 10, 11, 12, 13, 14, 15];

/// The high halves of bytes.
const HIGH: [u8; 16] = [
    0, 16, 32, 48, 64, 80, 96, 112, 128, 144, 160, 176, 192, 208, 224, 240,
];

/// The products of a factor with each low and each high half.
#[derive(Drop)]
pub struct Products {
    factor: u8,
    low: u8x16,
    high: u8x16,
    ghost low_halves: { (half : ℕ) → half < 16 → slice_index low half ≡ product factor half },
    ghost high_halves: { (half : ℕ) → half < 16
        → slice_index high half ≡ product factor (16 * half) },
}

impl Products {
    pub fn of(factor: u8) -> Products
        ensures { result.factor ≡ factor }
    {
        let low = times_each(u8x16::from_array(LOW), factor);
        let high = times_each(u8x16::from_array(HIGH), factor);
        Products { factor, low, high }
    }

    /// Each byte times the factor.
    #[inline(always)]
    pub fn times(&self, bytes: u8x16) -> u8x16
        ensures long { length result ≡ 16 }
        ensures lanes { (lane : ℕ) → lane < 16
            → slice_index result lane ≡ product self.now.factor (slice_index bytes lane) }
    {
        added(
            looked_up(self.low, bytes & u8x16::splat(15)),
            looked_up(self.high, bytes >> u8x16::splat(4)),
        )
    }
}

/// What stands in a table at the halves.
#[inline(always)]
fn looked_up(table: u8x16, halves: u8x16) -> u8x16
    requires { (lane : ℕ) → lane < 16 → slice_index halves lane < 16 }
    ensures long { length result ≡ 16 }
    ensures lanes { (lane : ℕ) → lane < 16
        → slice_index result lane ≡ slice_index table (slice_index halves lane) }
{
    table.swizzle_dyn_within::<16>(halves)
}

/// Each byte times a factor, bit by bit of the factor.
fn times_each(bytes: u8x16, factor: u8) -> u8x16
    ensures long { length result ≡ 16 }
    ensures lanes { (lane : ℕ) → lane < 16
        → slice_index result lane ≡ product factor (slice_index bytes lane) }
{
    let mut sum = u8x16::splat(0);
    for bit in 0..8u32 {
        sum = added(doubled(sum), bytes_if(bytes, factor, 7 - bit));
    }
    sum
}

/// The bytes where a factor has a bit, and else zeros.
#[inline(always)]
fn bytes_if(bytes: u8x16, factor: u8, bit: u32) -> u8x16
    requires { bit < 8 }
    ensures long { length result ≡ 16 }
    ensures has { bit_and (factor / 2 ^ bit) 1 ≡ 1 → (lane : ℕ) → lane < 16
        → slice_index result lane ≡ slice_index bytes lane }
    ensures lacks { bit_and (factor / 2 ^ bit) 1 ≢ 1 → (lane : ℕ) → lane < 16
        → slice_index result lane ≡ 0 }
{
    if (factor >> bit) & 1 == 1 {
        bytes
    } else {
        u8x16::splat(0)
    }
}
