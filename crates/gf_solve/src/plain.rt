//! Lost columns singled out byte by byte, each inverse by itself: the plain program beside the lanes.
//!
//! Its contracts are those of `singling`, and it answers the same. Nothing of the store calls it: it
//! is what a test compares with.

ghost use Rattle.std.specs.Prelude.{◌≡◌, ◌≢◌, ℕ, ◌<◌, slice_index, bit_xor};
ghost use Rattle.gf_parity.specs.Field.{product};
ghost use Rattle.gf_solve.specs.Weight.{weight, share, two_shares, three_shares};

use crate::field::inverse;
use crate::singling::weight;
use gf_parity::{add, mul};

/// The one column that a parity lacks, from its share.
pub fn single_out_one(which: u32, x: u8, lack: &mut [u8; 512])
    requires which { which < 3 }
    requires x { x ≢ 0 }
    ensures found { (at first : ℕ) → at < 512 → first < 256
        → slice_index lack.old at ≡ share which x first → slice_index lack.new at ≡ first }

    // Whatever the parity lacks, the column gives it.
    ensures bytes { (at : ℕ) → at < 512 → slice_index lack.new at < 256 }
    ensures gives { (at : ℕ) → at < 512
        → share which x (slice_index lack.new at) ≡ slice_index lack.old at }
{
    scale(lack, inverse(weight(which, x)));
}

/// The two columns that two parities lack: `later` becomes the first, `sooner` the second.
pub fn single_out_two(
    sooner_which: u32,
    later_which: u32,
    x: u8,
    y: u8,
    sooner: &mut [u8; 512],
    later: &mut [u8; 512],
)
    requires order { sooner_which < later_which }
    requires which { later_which < 3 }
    requires x { x ≢ 0 }
    requires y { y ≢ 0 }
    requires differ { x ≢ y }
    ensures found { (at first second : ℕ) → at < 512 → first < 256 → second < 256
        → slice_index sooner.old at ≡ two_shares sooner_which x y first second
        → slice_index later.old at ≡ two_shares later_which x y first second
        → (slice_index later.new at ≡ first) × (slice_index sooner.new at ≡ second) }

    // Whatever the parities lack, the columns give it.
    ensures bytes { (at : ℕ) → at < 512
        → (slice_index later.new at < 256) × (slice_index sooner.new at < 256) }
    ensures gives_sooner { (at : ℕ) → at < 512
        → two_shares sooner_which x y (slice_index later.new at) (slice_index sooner.new at)
        ≡ slice_index sooner.old at }
    ensures gives_later { (at : ℕ) → at < 512
        → two_shares later_which x y (slice_index later.new at) (slice_index sooner.new at)
        ≡ slice_index later.old at }
{
    let between = later_which - sooner_which;
    split(sooner, later, weight(between, x), weight(between, y));
    single_out_one(sooner_which, x, later);
    single_out_one(sooner_which, y, sooner);
}

/// The three columns that the three parities lack: `r` becomes the first, `q` the second, `p` the
/// third.
pub fn single_out_three(
    x: u8,
    y: u8,
    z: u8,
    p: &mut [u8; 512],
    q: &mut [u8; 512],
    r: &mut [u8; 512],
)
    requires x_y { x ≢ y }
    requires x_z { x ≢ z }
    requires y_z { y ≢ z }
    ensures found { (at first second third : ℕ) → at < 512 → first < 256 → second < 256 → third < 256
        → slice_index p.old at ≡ three_shares 0 x y z first second third
        → slice_index q.old at ≡ three_shares 1 x y z first second third
        → slice_index r.old at ≡ three_shares 2 x y z first second third
        → (slice_index r.new at ≡ first) × (slice_index q.new at ≡ second)
        × (slice_index p.new at ≡ third) }

    // Whatever the parities lack, the columns give it.
    ensures bytes { (at : ℕ) → at < 512 → (slice_index r.new at < 256)
        × (slice_index q.new at < 256) × (slice_index p.new at < 256) }
    ensures gives_p { (at : ℕ) → at < 512
        → three_shares 0 x y z (slice_index r.new at) (slice_index q.new at) (slice_index p.new at)
        ≡ slice_index p.old at }
    ensures gives_q { (at : ℕ) → at < 512
        → three_shares 1 x y z (slice_index r.new at) (slice_index q.new at) (slice_index p.new at)
        ≡ slice_index q.old at }
    ensures gives_r { (at : ℕ) → at < 512
        → three_shares 2 x y z (slice_index r.new at) (slice_index q.new at) (slice_index p.new at)
        ≡ slice_index r.old at }
{
    add_times(r, q, z);
    add_times(q, p, z);
    split(q, r, x, y);
    scale(r, inverse(x ^ z));
    scale(q, inverse(y ^ z));
    add(p, r);
    add(p, q);
}

/// Adds a column times a byte.
fn add_times(out: &mut [u8; 512], column: &[u8; 512], factor: u8)
    ensures bytes { (at : ℕ) → at < 512 → slice_index column.now at < 256 }
    ensures value { (at : ℕ) → at < 512 → slice_index out.new at
        ≡ bit_xor (slice_index out.old at) (product factor (slice_index column.now at)) }
{
    for (at, byte) in column.iter().enumerate() {
        out[at] ^= times(*byte, factor);
    }
}

/// Multiplies a column by a byte.
fn scale(out: &mut [u8; 512], factor: u8)
    ensures bytes { (at : ℕ) → at < 512 → slice_index out.old at < 256 }
    ensures value { (at : ℕ) → at < 512
        → slice_index out.new at ≡ product factor (slice_index out.old at) }
{
    for byte in out.iter_mut() {
        *byte = times(*byte, factor);
    }
}

/// Tells two columns apart: of their sum, and of the sum of the first times `x` and the second
/// times `y`, the second and the first are left.
fn split(sum: &mut [u8; 512], weighted: &mut [u8; 512], x: u8, y: u8)
    requires { x ≢ y }
    ensures found { (at first second : ℕ) → at < 512 → first < 256
        → slice_index sum.old at ≡ bit_xor first second
        → slice_index weighted.old at ≡ bit_xor (product x first) (product y second)
        → (slice_index weighted.new at ≡ first) × (slice_index sum.new at ≡ second) }

    // Whatever the sums are, what is left gives them.
    ensures gives { (at : ℕ) → at < 512
        → (bit_xor (slice_index weighted.new at) (slice_index sum.new at)
        ≡ slice_index sum.old at)
        × (bit_xor (product x (slice_index weighted.new at)) (product y (slice_index sum.new at))
        ≡ slice_index weighted.old at) }
{
    add_times(weighted, sum, y);
    scale(weighted, inverse(x ^ y));
    add(sum, weighted);
}

#[tactic(auto)]
fn times(byte: u8, factor: u8) -> u8
    ensures { result ≡ product factor byte }
{
    mul(byte, factor)
}
