// Where uberblocks stand.
ghost use Rattle.std.specs.Prelude.{◌≡◌, ◌<◌};
ghost use Rattle.uberblock_ring.specs.Uberblock.{ring_slots, slot_of, area_sector as first_of_area};

/// The slots of a device's ring, which are its first sectors.
pub const RING_SLOTS: u32 = 32;

/// The slot of a group.
pub fn slot(group: u64) -> u32
    ensures value { result ≡ slot_of group }
    ensures inside { result < RING_SLOTS }
{
    (group % u64::from(RING_SLOTS)) as u32
}

/// The first device sector of an index area, each of which has 64 sectors.
pub fn area_sector(area: u32) -> u64
    ensures value { result ≡ first_of_area area }
{
    64 + 64 * u64::from(area)
}
