//! Bytes of a column side by side in vectors, for those who work on many at once.
//!
//! `N` is how many bytes: 1 to 64. A machine vector has 16.

ghost use Rattle.std.specs.Prelude.{◌≡◌, ℕ, ◌+◌, ◌<◌, ◌≤◌, length, slice_index, bit_xor};
ghost use Rattle.gf_parity.specs.Field.{product};

use std::simd::prelude::*;

/// The bytes of a column from one on.
#[inline(always)]
pub fn loaded<const N: usize>(column: &[u8; 512], at: usize) -> Simd<u8, N>
    requires { at + N ≤ 512 }
    ensures long { length result ≡ N }
    ensures lanes { (lane : ℕ) → lane < N
        → slice_index result lane ≡ slice_index column.now (at + lane) }
    ensures once { (lane : ℕ) → lane < N
        → slice_index result lane ≡ product 1 (slice_index column.now (at + lane)) }
{
    Simd::from_slice(&column[at..])
}

/// Puts bytes into a column from one on; the others stay.
#[inline(always)]
pub fn store<const N: usize>(bytes: Simd<u8, N>, out: &mut [u8; 512], at: usize)
    requires { at + N ≤ 512 }
    ensures lanes { (lane : ℕ) → lane < N
        → slice_index out.new (at + lane) ≡ slice_index bytes.entry lane }
    ensures before { (place : ℕ) → place < at
        → slice_index out.new place ≡ slice_index out.old place }
    ensures after { (place : ℕ) → at + N ≤ place
        → slice_index out.new place ≡ slice_index out.old place }
{
    bytes.copy_to_slice(&mut out[at..]);
}

/// The sum of both at each lane.
#[inline(always)]
pub fn added<const N: usize>(left: Simd<u8, N>, right: Simd<u8, N>) -> Simd<u8, N>
    ensures long { length result ≡ N }
    ensures lanes { (lane : ℕ) → lane < N → slice_index result lane
        ≡ bit_xor (slice_index left.entry lane) (slice_index right.entry lane) }
{
    left ^ right
}

/// Twice each byte: a shift, and the modulus comes off where the highest bit is lost.
#[inline(always)]
pub fn doubled<const N: usize>(bytes: Simd<u8, N>) -> Simd<u8, N>
    ensures long { length result ≡ N }
    ensures lanes { (lane : ℕ) → lane < N
        → slice_index result lane ≡ product 2 (slice_index bytes.entry lane) }
{
    let lost = bytes.simd_ge(Simd::splat(128));
    (bytes << Simd::splat(1)) ^ lost.select(Simd::splat(0x1d), Simd::splat(0))
}

/// Twice each byte of a sum, and a column's bytes from one on added.
#[inline(always)]
pub fn double_and_add<const N: usize>(
    sum: Simd<u8, N>,
    column: &[u8; 512],
    at: usize,
) -> Simd<u8, N>
    requires { at + N ≤ 512 }
    ensures long { length result ≡ N }
    ensures lanes { (lane : ℕ) → lane < N → slice_index result lane
        ≡ bit_xor (product 2 (slice_index sum.entry lane))
        (product 1 (slice_index column.now (at + lane))) }
{
    added(doubled(sum), loaded(column, at))
}

/// Four times each byte of a sum, and a column's bytes from one on added.
#[inline(always)]
#[tactic(auto, using(crate::proofs::Laws::double_twice))]
pub fn quadruple_and_add<const N: usize>(
    sum: Simd<u8, N>,
    column: &[u8; 512],
    at: usize,
) -> Simd<u8, N>
    requires { at + N ≤ 512 }
    ensures long { length result ≡ N }
    ensures lanes { (lane : ℕ) → lane < N → slice_index result lane
        ≡ bit_xor (product 4 (slice_index sum.entry lane))
        (product 1 (slice_index column.now (at + lane))) }
{
    added(doubled(doubled(sum)), loaded(column, at))
}
