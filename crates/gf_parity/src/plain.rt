//! The parity columns byte by byte, from column to column: the plain program beside the lanes.
//!
//! Its contracts are those of `columns`, and it answers the same. Nothing of the store calls it: it
//! is what a test compares with.

ghost use Rattle.std.specs.Prelude.{◌≡◌, ℕ, ◌<◌, slice_index, bit_xor};
ghost use Rattle.gf_parity.specs.Field.{product};
ghost use Rattle.gf_parity.specs.Parity.{parity_column};

use crate::{add, mul2};

/// The first parity column of a row's content columns: their sum.
pub fn parity_p(content: &[[u8; 512]], out: &mut [u8; 512])
    ensures { out.new ≡ parity_column 0 content.now }
{
    clear(out);
    for column in content {
        add(out, column);
    }
}

/// The second parity column: from column to column the weight halves, and the last one's is 1.
pub fn parity_q(content: &[[u8; 512]], out: &mut [u8; 512])
    ensures { out.new ≡ parity_column 1 content.now }
{
    clear(out);
    for column in content {
        double_and_add(out, column);
    }
}

/// The third parity column, where the weights fall by quarters.
pub fn parity_r(content: &[[u8; 512]], out: &mut [u8; 512])
    ensures { out.new ≡ parity_column 2 content.now }
{
    clear(out);
    for column in content {
        quadruple_and_add(out, column);
    }
}

fn clear(out: &mut [u8; 512])
    ensures { (at : ℕ) → at < 512 → slice_index out.new at ≡ 0 }
{
    for sum in out.iter_mut() {
        *sum = 0;
    }
}

fn double_and_add(out: &mut [u8; 512], column: &[u8; 512])
    ensures { (at : ℕ) → at < 512 → slice_index out.new at
        ≡ bit_xor (product 2 (slice_index out.old at)) (product 1 (slice_index column.now at)) }
{
    for (at, byte) in column.iter().enumerate() {
        out[at] = doubled_with(out[at], *byte);
    }
}

fn quadruple_and_add(out: &mut [u8; 512], column: &[u8; 512])
    ensures { (at : ℕ) → at < 512 → slice_index out.new at
        ≡ bit_xor (product 4 (slice_index out.old at)) (product 1 (slice_index column.now at)) }
{
    for (at, byte) in column.iter().enumerate() {
        out[at] = quadrupled_with(out[at], *byte);
    }
}

#[tactic(auto, using(crate::proofs::Laws::one_product))]
fn doubled_with(sum: u8, byte: u8) -> u8
    ensures { result ≡ bit_xor (product 2 sum) (product 1 byte) }
{
    mul2(sum) ^ byte
}

#[tactic(auto, using(crate::proofs::Laws::one_product, crate::proofs::Laws::double_twice))]
fn quadrupled_with(sum: u8, byte: u8) -> u8
    ensures { result ≡ bit_xor (product 4 sum) (product 1 byte) }
{
    mul2(mul2(sum)) ^ byte
}
