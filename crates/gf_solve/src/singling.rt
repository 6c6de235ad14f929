// Single columns out of what parities lack of them.

ghost use Rattle.std.specs.Prelude.{◌≡◌, ◌≢◌, ℕ, ◌<◌, slice_index};
ghost use Rattle.gf_solve.specs.Inverse.{inverse_of};
ghost use Rattle.gf_solve.specs.Weight.{weight, share, two_shares, three_shares};

use crate::columns::{add_times, scale, split};
use crate::field::{inverse, inverses};
use gf_parity::{add, mul};

/// The one column that a parity lacks, from its share.
pub fn single_out_one(which: u32, x: u8, lack: &mut [u8; 512])
    requires which { which < 3 }
    requires x { x ≢ 0 }
    ensures found { (at first : ℕ) → at < 512 → first < 256
        → slice_index lack.old at ≡ share which x first → slice_index lack.new at ≡ first }

    // Whatever the parity lacks, the column gives it.
    ensures bytes { (at : ℕ) → at < 512 → slice_index lack.new at < 256 }
    ensures gives { (at : ℕ) → at < 512
        → share which x (slice_index lack.new at) ≡ slice_index lack.old at }
{
    let weight = weight(which, x);
    if weight != 1 {
        scale(lack, inverse(weight));
    }
}

/// The two columns that two parities lack: `later` becomes the first, `sooner` the second.
pub fn single_out_two(
    sooner_which: u32,
    later_which: u32,
    x: u8,
    y: u8,
    sooner: &mut [u8; 512],
    later: &mut [u8; 512],
)
    requires order { sooner_which < later_which }
    requires which { later_which < 3 }
    requires x { x ≢ 0 }
    requires y { y ≢ 0 }
    requires differ { x ≢ y }
    ensures found { (at first second : ℕ) → at < 512 → first < 256 → second < 256
        → slice_index sooner.old at ≡ two_shares sooner_which x y first second
        → slice_index later.old at ≡ two_shares later_which x y first second
        → (slice_index later.new at ≡ first) × (slice_index sooner.new at ≡ second) }

    // Whatever the parities lack, the columns give it.
    ensures bytes { (at : ℕ) → at < 512
        → (slice_index later.new at < 256) × (slice_index sooner.new at < 256) }
    ensures gives_sooner { (at : ℕ) → at < 512
        → two_shares sooner_which x y (slice_index later.new at) (slice_index sooner.new at)
        ≡ slice_index sooner.old at }
    ensures gives_later { (at : ℕ) → at < 512
        → two_shares later_which x y (slice_index later.new at) (slice_index sooner.new at)
        ≡ slice_index later.old at }
{
    let between = later_which - sooner_which;
    let first = weight(between, x);
    let second = weight(between, y);
    let (apart, over_x, over_y) = divisors(sooner_which, x, y, first ^ second);
    split(sooner, later, second, apart);
    scale(later, over_x);
    scale(sooner, over_y);
}

/// The three columns that the three parities lack: `r` becomes the first, `q` the second, `p` the
/// third.
pub fn single_out_three(
    x: u8,
    y: u8,
    z: u8,
    p: &mut [u8; 512],
    q: &mut [u8; 512],
    r: &mut [u8; 512],
)
    requires x_y { x ≢ y }
    requires x_z { x ≢ z }
    requires y_z { y ≢ z }
    ensures found { (at first second third : ℕ) → at < 512 → first < 256 → second < 256 → third < 256
        → slice_index p.old at ≡ three_shares 0 x y z first second third
        → slice_index q.old at ≡ three_shares 1 x y z first second third
        → slice_index r.old at ≡ three_shares 2 x y z first second third
        → (slice_index r.new at ≡ first) × (slice_index q.new at ≡ second)
        × (slice_index p.new at ≡ third) }

    // Whatever the parities lack, the columns give it.
    ensures bytes { (at : ℕ) → at < 512 → (slice_index r.new at < 256)
        × (slice_index q.new at < 256) × (slice_index p.new at < 256) }
    ensures gives_p { (at : ℕ) → at < 512
        → three_shares 0 x y z (slice_index r.new at) (slice_index q.new at) (slice_index p.new at)
        ≡ slice_index p.old at }
    ensures gives_q { (at : ℕ) → at < 512
        → three_shares 1 x y z (slice_index r.new at) (slice_index q.new at) (slice_index p.new at)
        ≡ slice_index q.old at }
    ensures gives_r { (at : ℕ) → at < 512
        → three_shares 2 x y z (slice_index r.new at) (slice_index q.new at) (slice_index p.new at)
        ≡ slice_index r.old at }
{
    let (x_y, x_z, y_z) = inverses(x ^ y, x ^ z, y ^ z);
    add_times(r, q, z);
    add_times(q, p, z);
    split(q, r, y, x_y);
    scale(r, x_z);
    scale(q, y_z);
    add(p, r);
    add(p, q);
}

/// The inverses of a byte, and of the weights of two points in one of the first two parities.
fn divisors(which: u32, x: u8, y: u8, apart: u8) -> (u8, u8, u8)
    requires which { which < 2 }
    requires x { x ≢ 0 }
    requires y { y ≢ 0 }
    requires apart { apart ≢ 0 }
    ensures apart { result.0 ≡ inverse_of apart }
    ensures x { result.1 ≡ inverse_of (weight which x) }
    ensures y { result.2 ≡ inverse_of (weight which y) }
{
    match which {
        0 => (inverse(apart), 1, 1),
        _ => inverses(apart, x, y),
    }
}

/// How much the column of a point counts in a parity.
pub(crate) fn weight(which: u32, point: u8) -> u8
    requires { which < 3 }
    ensures { result ≡ weight which point }
{
    match which {
        0 => 1,
        1 => point,
        _ => mul(point, point),
    }
}
