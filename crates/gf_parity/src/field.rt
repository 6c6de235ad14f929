// Sums are `^`; these are the products.

ghost use Rattle.std.specs.Prelude.{◌≡◌, ℕ, ◌<◌};
ghost use Rattle.gf_parity.specs.Field.{product, double};

/// Twice a byte.
#[tactic(auto, unfolding(crate::specs::Field::double))]
pub fn mul2(byte: u8) -> u8
    ensures value { result ≡ double byte }
    ensures product { result ≡ product 2 byte }
{
    let lost = if byte < 128 { 0 } else { 0x1d };
    ((byte & 0x7f) << 1) ^ lost
}

/// The product of two bytes. Among many by the same byte, that one is best the second.
pub fn mul(left: u8, right: u8) -> u8
    ensures value { result ≡ product left right }
{
    let mut sum = 0;
    for bit in 0..8u32 {
        let part = if (right >> (7 - bit)) & 1 == 1 {
            left
        } else {
            0
        };
        sum = mul2(sum) ^ part;
    }
    sum
}
