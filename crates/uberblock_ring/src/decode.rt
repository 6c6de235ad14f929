// From bytes to the uberblock that they are.
ghost use Rattle.std.specs.Prelude.{◌≡◌, ℕ, IfNone, IfSome, Some};
ghost use Rattle.uberblock_ring.specs.Uberblock.{encoded, Uber as UberOf};
ghost use Rattle.uberblock_ring.specs.Valid.{IsRightUber, IsValidIn};

use crate::births::read_births;
use crate::header::Header;
use crate::{Uber, ring};

impl Uber {
    /// The uberblock that these bytes are in this slot of this device, if they are a valid one.
    ///
    /// Each uberblock has one spelling, so the bytes are valid exactly where they are what the
    /// uberblock that they seem to be is encoded to. Nothing is hashed before its fields are right.
    pub fn decode(bytes: &[u8; 512], device: u32, slot: u32) -> Option<Uber>
        ensures some { IfSome result (λ uber. IsValidIn uber device slot bytes.now) }
        ensures none { IfNone result ((uber : UberOf) → IsValidIn uber device slot bytes.now → ⊥) }
        ensures only { (uber : UberOf) → IsValidIn uber device slot bytes.now
            → result ≡ Some uber }
    {
        let uber = told(bytes)?;
        if !uber.is_right() || ring::slot(uber.group()) != slot {
            return None;
        }
        if uber.encode(device) != *bytes {
            return None;
        }
        Some(uber)
    }
}

/// The uberblock that these bytes are, if they are one's.
fn told(bytes: &[u8; 512]) -> Option<Uber>
    ensures only { (uber : UberOf) (device : ℕ) → IsRightUber uber
        → bytes.now ≡ encoded uber device → result ≡ Some uber }
{
    let header = Header::read(bytes);
    let reflow = header.reflow()?;
    let births = read_births(&bytes[112..304], header.births)?;
    Some(Uber::with(&header, reflow, births))
}
