// A slot that shows an uberblock.
ghost use Rattle.std.specs.Prelude.{◌^◌, ◌<◌, ◌↔◌, IfNone, IfSome, IsTrue};
ghost use Rattle.uberblock_ring.specs.Valid.{IsValidIn};
ghost use Rattle.attach_ring.specs.Ring.{IsTakenSlot, IsTakenThen};

use block_record::u32_at;
use uberblock_ring::Uber;

/// Where an uberblock tells its device's number, in bytes.
const NUMBER_AT: usize = 12;

/// An uberblock as a slot shows it, and the number of the device that it is for.
#[derive(Clone, Copy, Debug, PartialEq, Eq)]
pub struct SlotUber {
    pub number: u32,
    pub uber: Uber,
}

/// The uberblock that these bytes are in this slot, for whichever device.
pub fn uber_in_slot(bytes: &[u8; 512], slot: u32) -> Option<SlotUber>
    ensures number { IfSome result (λ slot_uber. slot_uber.number < 2 ^ 32) }
    ensures some { IfSome result (λ slot_uber. IsValidIn slot_uber.uber slot_uber.number slot bytes.now) }
    ensures none { IfNone result (IsTakenSlot slot bytes.now → ⊥) }
{
    let number = u32_at(bytes, NUMBER_AT);
    let uber = Uber::decode(bytes, number, slot)?;
    Some(SlotUber { number, uber })
}

/// Whether these bytes in this slot are an uberblock, for whichever device.
fn is_taken(bytes: &[u8; 512], slot: u32) -> bool
    ensures { IsTrue result ↔ IsTakenSlot slot bytes.now }
{
    uber_in_slot(bytes, slot).is_some()
}

/// The lowest slot that shows an uberblock, once these bytes of a slot above were read too.
pub fn lowest_taken(taken: Option<u32>, bytes: &[u8; 512], slot: u32) -> Option<u32>
    ensures { IsTakenThen taken slot bytes.now result }
{
    match taken {
        Some(lower) => Some(lower),
        None if is_taken(bytes, slot) => Some(slot),
        None => None,
    }
}
