// Inverses, and the points of columns.

ghost use Rattle.std.specs.Prelude.{◌≡◌, ◌≢◌, ◌<◌};
ghost use Rattle.gf_parity.specs.Field.{product, power_of};
ghost use Rattle.gf_solve.specs.Inverse.{inverse_of};
ghost use Rattle.gf_solve.specs.Weight.{column_point};

use gf_parity::{mul, mul2};

/// The byte whose product with this one is 1: its power 2 + 4 + .. + 128.
pub fn inverse(byte: u8) -> u8
    requires { byte ≢ 0 }
    ensures value { result ≡ inverse_of byte }
    ensures inverts { product result byte ≡ 1 }
{
    let mut square = byte;
    let mut inverse = 1;
    for _step in 0..7u32 {
        square = mul(square, square);
        inverse = mul(inverse, square);
    }
    inverse
}

/// The inverses of three bytes, by that of their product, since an inverse costs more than ten
/// products.
pub fn inverses(x: u8, y: u8, z: u8) -> (u8, u8, u8)
    requires x { x ≢ 0 }
    requires y { y ≢ 0 }
    requires z { z ≢ 0 }
    ensures x { result.0 ≡ inverse_of x }
    ensures y { result.1 ≡ inverse_of y }
    ensures z { result.2 ≡ inverse_of z }
{
    let x_y = mul(x, y);
    let over_all = inverse(mul(x_y, z));
    let over_x_y = mul(over_all, z);
    (mul(over_x_y, y), mul(over_x_y, x), mul(over_all, x_y))
}

/// The point of a content column with so many columns behind it.
fn point(behind: usize) -> u8
    ensures { result ≡ power_of 2 behind }
{
    let mut point = 1;
    for _step in 0..behind {
        point = mul2(point);
    }
    point
}

/// The point of one content column of so many.
pub fn point_among(columns: usize, column: usize) -> u8
    requires { column < columns }
    ensures value { result ≡ column_point columns column }
    ensures some { result ≢ 0 }
{
    point(columns - 1 - column)
}
