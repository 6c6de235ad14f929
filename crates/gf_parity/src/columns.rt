// The parity columns of a row. Each sum is taken from the left, so that no power is ever computed.
//
// An eighth of a column is made at a time, of all content columns, so that its sum stays in the
// processor's registers. `plain` has the same sums column by column.

ghost use Rattle.std.specs.Prelude.{◌≡◌, ℕ, ◌+◌, ◌<◌, ◌≤◌, length, slice_index, bit_xor};
ghost use Rattle.gf_parity.specs.Parity.{parity_column, parity_byte, bytes_at};

use crate::lanes::{added, double_and_add, loaded, quadruple_and_add, store};
use std::simd::prelude::*;

/// How many bytes are made at a time: four machine vectors, of which each waits for its own last
/// sum alone.
const WIDTH: usize = 64;

/// So many bytes of a column.
type Lanes = Simd<u8, WIDTH>;

/// The first parity column of a row's content columns: their sum.
pub fn parity_p(content: &[[u8; 512]], out: &mut [u8; 512])
    ensures { out.new ≡ parity_column 0 content.now }
{
    for part in 0..512 / WIDTH {
        store(p_from(content, part * WIDTH), out, part * WIDTH);
    }
}

/// The second parity column: from column to column the weight halves, and the last one's is 1.
pub fn parity_q(content: &[[u8; 512]], out: &mut [u8; 512])
    ensures { out.new ≡ parity_column 1 content.now }
{
    for part in 0..512 / WIDTH {
        store(q_from(content, part * WIDTH), out, part * WIDTH);
    }
}

/// The third parity column, where the weights fall by quarters.
pub fn parity_r(content: &[[u8; 512]], out: &mut [u8; 512])
    ensures { out.new ≡ parity_column 2 content.now }
{
    for part in 0..512 / WIDTH {
        store(r_from(content, part * WIDTH), out, part * WIDTH);
    }
}

/// The parity column of this number, from 0.
pub fn parity(which: u32, content: &[[u8; 512]], out: &mut [u8; 512])
    requires { which < 3 }
    ensures { out.new ≡ parity_column which content.now }
{
    match which {
        0 => parity_p(content, out),
        1 => parity_q(content, out),
        _ => parity_r(content, out),
    }
}

/// Adds a column to another. (Here lanes are no faster: the loop is made vector code as it stands.)
pub fn add(out: &mut [u8; 512], column: &[u8; 512])
    ensures { (at : ℕ) → at < 512 → slice_index out.new at
        ≡ bit_xor (slice_index out.old at) (slice_index column.now at) }
{
    for (at, byte) in column.iter().enumerate() {
        out[at] ^= *byte;
    }
}

#[inline(always)]
fn p_from(content: &[[u8; 512]], at: usize) -> Lanes
    requires { at + WIDTH ≤ 512 }
    ensures long { length result ≡ WIDTH }
    ensures lanes { (lane : ℕ) → lane < WIDTH
        → slice_index result lane ≡ parity_byte 0 (bytes_at (at + lane) content.now) }
{
    let mut sum = Lanes::splat(0);
    for column in content {
        sum = added(sum, loaded(column, at));
    }
    sum
}

#[inline(always)]
fn q_from(content: &[[u8; 512]], at: usize) -> Lanes
    requires { at + WIDTH ≤ 512 }
    ensures long { length result ≡ WIDTH }
    ensures lanes { (lane : ℕ) → lane < WIDTH
        → slice_index result lane ≡ parity_byte 1 (bytes_at (at + lane) content.now) }
{
    let mut sum = Lanes::splat(0);
    for column in content {
        sum = double_and_add(sum, column, at);
    }
    sum
}

#[inline(always)]
fn r_from(content: &[[u8; 512]], at: usize) -> Lanes
    requires { at + WIDTH ≤ 512 }
    ensures long { length result ≡ WIDTH }
    ensures lanes { (lane : ℕ) → lane < WIDTH
        → slice_index result lane ≡ parity_byte 2 (bytes_at (at + lane) content.now) }
{
    let mut sum = Lanes::splat(0);
    for column in content {
        sum = quadruple_and_add(sum, column, at);
    }
    sum
}
