// New pools on banks in memory, and copies of these banks.
ghost use Rattle.std.specs.Prelude.{◌≤◌};

use bank_mem::MemBank;
use bank_trait::Bank;
use core_open::create;
use reflow_mark::{Reflow, State};
use std::alloc::Global;
use std::test::Fail;
use uberblock_ring::{Uber, slot};
use width_map::Births;

/// The calls on each device that make a pool: 32 zeros, a sync, the uberblock, a sync.
pub const MAKING: u64 = 35;

/// The calls on each device that open a new pool: 32 reads, a sync of what stands, an uberblock, a sync.
pub const OPENING: u64 = 35;

/// The reads of a ring.
pub const RING: u64 = 32;

/// So many devices of 256 sectors, on the first of which pool 9 was made.
fn bank_with_pool(alloc: Global, devices: u32, parity: u32, width: u32) -> Result<MemBank, Fail>
    requires some { 2 ≤ width }
    requires narrow { width ≤ 16 }
    requires devices { width ≤ devices }
{
    let mut bank = MemBank::new(alloc, devices, 256)?;
    create(&mut bank, parity, width, 9)?;
    Ok(bank)
}

/// Three devices on which pool 9 was made, with one parity.
pub fn bank_of_nine(alloc: Global) -> Result<MemBank, Fail> {
    bank_with_pool(alloc, 3, 1, 3)
}

/// The same, and a blank device behind them.
pub fn bank_of_nine_and_a_blank(alloc: Global) -> Result<MemBank, Fail> {
    bank_with_pool(alloc, 4, 1, 3)
}

/// The same, and two blank devices behind them.
pub fn bank_of_nine_and_two_blanks(alloc: Global) -> Result<MemBank, Fail> {
    bank_with_pool(alloc, 5, 1, 3)
}

/// Sixteen devices with pool 9, and a blank one behind them.
pub fn bank_of_sixteen_and_a_blank(alloc: Global) -> Result<MemBank, Fail> {
    bank_with_pool(alloc, 17, 1, 16)
}

/// As many devices as pool 9 is wide, which was made on them.
pub fn bank_of_width(alloc: Global, parity: u32, width: u32) -> Result<MemBank, Fail> {
    if width < 2 || 16 < width {
        return Err("no pool is so wide".into());
    }
    bank_with_pool(alloc, width, parity, width)
}

/// Writes an uberblock to its slot on a device, which has 256 sectors.
pub fn show(bank: &mut MemBank, uber: &Uber, device: u32) -> Result<(), Fail> {
    if !(uber.is_right() && device < bank.devices() && bank.sectors() == 256) {
        return Err("the uberblock has no place there".into());
    }
    bank.write(device, u64::from(slot(uber.group())), &uber.encode(device))?;
    Ok(())
}

/// How far a pool has come: where its sectors stand that lie below the mark, and the mark.
pub type Way = (State, u64);

/// Four devices with pool 9, which has one parity and was made on three of them.
pub fn bank_on_the_way(alloc: Global, way: Way) -> Result<MemBank, Fail> {
    let (state, mark) = way;
    let reflow = Reflow {
        from: 3,
        to: 4,
        rows: 64,
        mark,
        state,
    };
    let mut uber = Uber::first(9, 1, 3, 64);
    uber.set_widths(reflow, Births::first(3));
    let mut bank = MemBank::new(alloc, 4, 256)?;
    for device in 0..4 {
        show(&mut bank, &uber, device)?;
    }
    Ok(bank)
}

/// What the devices hold, where no call fails.
pub fn copy_of(alloc: Global, bank: &MemBank) -> Result<MemBank, Fail> {
    Ok(MemBank::from_images(alloc, bank.crash_at(alloc, bank.clock(), &[])?)?)
}
