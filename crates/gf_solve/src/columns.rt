// What is done to whole columns.

ghost use Rattle.std.specs.Prelude.{◌≡◌, ◌≢◌, ℕ, ◌<◌, ◌≤◌, List, slice_index, bit_xor};
ghost use Rattle.gf_parity.specs.Field.{product};
ghost use Rattle.gf_solve.specs.Inverse.{inverse_of};
ghost use Rattle.gf_parity.specs.Parity.{parity_byte, bytes_at};

use crate::products::Products;
use gf_parity::lanes::{added, loaded, store};
use gf_parity::{add, parity};

/// How many bytes are multiplied at a time: a machine vector.
const WIDTH: usize = 16;

/// A column of zeros.
pub fn zeros() -> [u8; 512]
    ensures { (at : ℕ) → slice_index result at ≡ 0 }
{
    [0; 512]
}

/// What a parity column lacks of that of these content columns.
pub fn lack(which: u32, content: &[[u8; 512]], column: &[u8; 512]) -> [u8; 512]
    requires { which < 3 }
    ensures { (at : ℕ) → at < 512 → slice_index result at
        ≡ bit_xor (parity_byte which (bytes_at at content.now)) (slice_index column.now at) }
{
    let mut lack = [0; 512];
    parity(which, content, &mut lack);
    add(&mut lack, column);
    lack
}

/// Adds a column times a byte, of which 1 is no product.
pub fn add_times(out: &mut [u8; 512], column: &[u8; 512], factor: u8)
    ensures bytes { (at : ℕ) → at < 512 → slice_index column.now at < 256 }
    ensures value { (at : ℕ) → at < 512 → slice_index out.new at
        ≡ bit_xor (slice_index out.old at) (product factor (slice_index column.now at)) }
{
    if factor == 1 {
        add(out, column);
    } else {
        add_products(out, column, factor);
    }
}

/// Multiplies a column by a byte, of which 1 is no product.
pub fn scale(out: &mut [u8; 512], factor: u8)
    ensures bytes { (at : ℕ) → at < 512 → slice_index out.old at < 256 }
    ensures value { (at : ℕ) → at < 512
        → slice_index out.new at ≡ product factor (slice_index out.old at) }
{
    if factor != 1 {
        multiply(out, factor);
    }
}

/// Tells two columns apart: of their sum, and of the sum of the first times `x` and the second
/// times `y`, the second and the first are left. `apart` is the inverse of the sum of `x` and `y`.
pub fn split(sum: &mut [u8; 512], weighted: &mut [u8; 512], y: u8, apart: u8)
    ensures found { (x at first second : ℕ) → x < 256 → x ≢ y → apart ≡ inverse_of (bit_xor x y)
        → at < 512 → first < 256
        → slice_index sum.old at ≡ bit_xor first second
        → slice_index weighted.old at ≡ bit_xor (product x first) (product y second)
        → (slice_index weighted.new at ≡ first) × (slice_index sum.new at ≡ second) }

    // Whatever the sums are, what is left gives them.
    ensures gives { (x at : ℕ) → x < 256 → x ≢ y → apart ≡ inverse_of (bit_xor x y) → at < 512
        → (bit_xor (slice_index weighted.new at) (slice_index sum.new at)
        ≡ slice_index sum.old at)
        × (bit_xor (product x (slice_index weighted.new at)) (product y (slice_index sum.new at))
        ≡ slice_index weighted.old at) }
{
    add_times(weighted, sum, y);
    scale(weighted, apart);
    add(sum, weighted);
}

fn add_products(out: &mut [u8; 512], column: &[u8; 512], factor: u8)
    ensures { (at : ℕ) → at < 512 → slice_index out.new at
        ≡ bit_xor (slice_index out.old at) (product factor (slice_index column.now at)) }
{
    let products = Products::of(factor);
    for part in 0..512 / WIDTH {
        let bytes = products.times(loaded(column, part * WIDTH));
        store(added(loaded(out, part * WIDTH), bytes), out, part * WIDTH);
    }
}

fn multiply(out: &mut [u8; 512], factor: u8)
    ensures { (at : ℕ) → at < 512
        → slice_index out.new at ≡ product factor (slice_index out.old at) }
{
    let products = Products::of(factor);
    for part in 0..512 / WIDTH {
        let bytes = products.times(loaded(out, part * WIDTH));
        store(bytes, out, part * WIDTH);
    }
}
