// Creating a pool.
ghost use Rattle.std.specs.Prelude.{◌≡◌, ◌+◌, ◌<◌, ◌≤◌, ℕ, Some, OnOk, OnErr, IfErr};
ghost use Rattle.bank_trait.specs.Causes.{FaultCounted};
ghost use Rattle.bank_trait.specs.Disk.{Later};
ghost use Rattle.bank_trait.specs.Regions.{zero_sector, Tells, TouchesOnly};
ghost use Rattle.uberblock_ring.specs.Uberblock.{first_uber};
ghost use Rattle.reflow_mark.specs.Reflow.{IsRightReflow};
ghost use Rattle.core_state.specs.Create.{IsCreated, new_ring, rows_for};
ghost use Rattle.core_open.specs.Regions.{IsBelow, IsOn, IsOnBelow};
ghost use Rattle.core_open.specs.Failing.{HasFailed};

use crate::OpenWhy;
use bank_trait::{Bank, Failed};
use uberblock_ring::{DeviceSet, MAX_ROWS, RING_SLOTS, Uber};
use width_map::FIRST_DATA_SECTOR;

const ZEROS: [u8; 512] = [0; 512];

/// The data rows that a device of so many sectors has in a new pool, 0 where it has room for none.
pub fn data_rows(sectors: u64) -> u64
    ensures value { result ≡ rows_for sectors }
{
    sectors.saturating_sub(FIRST_DATA_SECTOR).min(MAX_ROWS)
}

/// Writes zeros to the ring of a device.
#[tactic(auto, unfolding(bank_trait::specs::Regions::zero_sector))]
fn clear_ring<B: Bank>(bank: &mut B, device: u32) -> Result<(), Failed>
    requires device { device < (B.disk bank.old).devices }
    requires sectors { 32 ≤ (B.disk bank.old).sectors }
    ensures only { TouchesOnly (IsBelow device 32) (B.disk bank.old) (B.disk bank.new) }
    ensures zeros { OnOk result (Tells (B.disk bank.old) → (slot : ℕ) → slot < 32
        → (B.disk bank.new).reads device slot ≡ Some zero_sector) }
    ensures failed { OnErr result
        (FaultCounted ((B.disk bank.old).faults device) ((B.disk bank.new).faults device)) }
{
    for slot in 0..u64::from(RING_SLOTS) {
        bank.write(device, slot, &ZEROS)?;
    }
    Ok(())
}

/// Gives a device the ring of a new pool. The zeros are synced first, so that no older uberblock comes
/// back beside the new one.
fn create_on<B: Bank>(bank: &mut B, uber: &Uber, device: u32) -> Result<(), Failed>
    requires device { device < (B.disk bank.old).devices }
    requires sectors { 32 ≤ (B.disk bank.old).sectors }
    requires rows { uber.now.reflow.rows ≤ 65536 }
    requires reflow { IsRightReflow uber.now.reflow }
    ensures only { TouchesOnly (IsOn device) (B.disk bank.old) (B.disk bank.new) }
    ensures ring { OnOk result (Tells (B.disk bank.old) → (slot : ℕ) → slot < 32
        → (B.disk bank.new).leaves (B.disk bank.new).clock device slot
        ≡ Some (new_ring uber.now device slot)) }
    ensures failed { OnErr result
        (FaultCounted ((B.disk bank.old).faults device) ((B.disk bank.new).faults device)) }
{
    clear_ring(bank, device)?;
    bank.sync(device)?;
    bank.write(device, 1, &uber.encode(device))?;
    bank.sync(device)?;
    Ok(())
}

/// Creates a pool over the first devices of a bank, device by device. What they held is overwritten.
/// The first call that fails ends it, and a stop on the way promises nothing.
pub fn create<B: Bank>(bank: &mut B, parity: u32, width: u32, pool: u64) -> Result<(), OpenWhy>
    requires some { 2 ≤ width }
    requires narrow { width ≤ 16 }
    requires devices { width ≤ (B.disk bank.old).devices }
    requires sectors { 256 ≤ (B.disk bank.old).sectors }
    ensures only { TouchesOnly (IsOnBelow width) (B.disk bank.old) (B.disk bank.new) }
    ensures created { OnOk result (Tells (B.disk bank.old) → IsCreated
        (first_uber pool parity width (rows_for (B.disk bank.old).sectors)) (B.disk bank.new)) }
    ensures cause_failed { IfErr result (HasFailed width (B.disk bank.old) (B.disk bank.new)) }
{
    let uber = Uber::first(pool, parity, width, data_rows(bank.sectors()));
    for device in 0..width {
        match create_on(bank, &uber, device) {
            Ok(()) => {}
            Err(_) => {
                let mut out = DeviceSet::empty();
                out.insert(device);
                return Err(OpenWhy::TooManyFailed { out });
            }
        }
    }
    Ok(())
}
