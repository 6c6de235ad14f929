// Where the sectors of a pool stand that is on its way from three devices to four, and the bytes of each.
use bank_mem::MemBank;
use bank_trait::Bank;
use reflow_mark::{Reflow, Stand};
use std::alloc::Global;
use std::process::Abort;
use std::test::Fail;

/// The sectors of the pool.
pub const SECTORS: u64 = 192;

/// A device and a device sector.
pub type Place = (u32, u64);

/// A place in rows of so many devices, the first of them at this device sector.
fn in_rows(rt: &impl Abort, first: u64, width: u64, sector: u64) -> Place {
    assert!(rt; 0 < width && width < 16 && first < 1 << 32 && sector < 1 << 32);
    ((sector % width) as u32, first + sector / width)
}

pub fn old_place(rt: &impl Abort, sector: u64) -> Place {
    in_rows(rt, 192, 3, sector)
}

pub fn new_place(rt: &impl Abort, sector: u64) -> Place {
    in_rows(rt, 192, 4, sector)
}

/// The place at which the sector is read: in a pool at rest its rows have the width of that.
pub fn standing_place(rt: &impl Abort, reflow: &Reflow, sector: u64) -> Place {
    assert!(rt; sector < SECTORS);
    match reflow.stands(sector, 1) {
        Stand::Old => in_rows(rt, 192, u64::from(reflow.from), sector),
        Stand::Scratch => in_rows(rt, 32, 4, sector),
        Stand::New => new_place(rt, sector),
    }
}

/// The bytes of a sector: no two have the same, and none has zeros.
pub fn bytes_of(rt: &impl Abort, sector: u64) -> [u8; 512] {
    assert!(rt; sector < SECTORS);
    [(sector + 1) as u8; 512]
}

/// What the bank holds at a place.
pub fn held(rt: &impl Abort, bank: &mut MemBank, place: Place) -> Result<[u8; 512], Fail> {
    let (device, device_sector) = place;
    assert!(rt; device < bank.devices() && device_sector < bank.sectors());
    let mut bytes = [0; 512];
    bank.read(device, device_sector, &mut bytes)?;
    Ok(bytes)
}

/// Writes a sector's bytes to a place.
pub fn put(
    rt: &impl Abort,
    bank: &mut MemBank,
    place: Place,
    bytes: &[u8; 512],
) -> Result<(), Fail> {
    let (device, device_sector) = place;
    assert!(rt; device < bank.devices() && device_sector < bank.sectors());
    bank.write(device, device_sector, bytes)?;
    Ok(())
}

/// Four devices, where each sector of the pool stands at its old place.
pub fn filled_bank(rt: &impl Abort, alloc: Global) -> Result<MemBank, Fail> {
    let mut bank = MemBank::new(alloc, 4, 256)?;
    for sector in 0..SECTORS {
        let place = old_place(rt, sector);
        put(rt, &mut bank, place, &bytes_of(rt, sector))?;
    }
    Ok(bank)
}
