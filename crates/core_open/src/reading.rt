// Reading the rings of a bank's devices.
ghost use Rattle.std.specs.Prelude.{◌≡◌, ◌<◌, ◌≤◌, ◌+◌, OnOk, OnErr, IfOk, IfSome};
ghost use Rattle.std.specs.List.Sorted.{IsPermutation};
ghost use Rattle.bank_trait.specs.Causes.{FaultCounted};
ghost use Rattle.bank_trait.specs.Disk.{Image, Unchanged};
ghost use Rattle.uberblock_ring.specs.Devices.{with_device};
ghost use Rattle.uberblock_ring.specs.Valid.{IsRightUber};
ghost use Rattle.core_state.specs.Shown.{read_devices};
ghost use Rattle.core_open.specs.RingUbers.{AreByDevice, AreByGroup, AreRight, AreShown, AreTaken, HasSlotUber};
ghost use Rattle.core_open.specs.RingUbers.{IsListedFor};
ghost use Rattle.core_open.specs.Failing.{HaveFailed, MayLose};
ghost use Rattle.core_open.specs.Holds.{HoldsImage, shape_of};

use crate::ring_uber::RingUber;
use attach_ring::{SlotUber, uber_in_slot};
use bank_trait::{Bank, Failed};
use std::alloc::{AllocError, Global};
use std::cmp::Reverse;
use uberblock_ring::{DeviceSet, RING_SLOTS};

/// Devices from this number on are never read.
pub const READ_DEVICES: u32 = 16;

/// What the rings show, and the devices that failed, which aren't called again. What a silent
/// device showed before it failed may be among the uberblocks.
#[derive(Drop)]
pub struct Rings {
    pub ubers: Vec<RingUber>,
    pub silent: DeviceSet,
    /// Devices that show an uberblock, of whatever pool and for whatever device number.
    pub taken: DeviceSet,
}

/// Reads the ring of each device that may be read. The uberblocks stand by group from the greatest
/// down, and in one group by device.
pub fn read_rings<B: Bank>(alloc: Global, bank: &mut B) -> Result<Rings, AllocError>
    ensures unchanged { Unchanged (B.disk bank.old) (B.disk bank.new) }
    ensures silent { IfOk result (λ rings.
        HaveFailed (B.disk bank.old) (B.disk bank.new) rings.silent) }
    ensures right { IfOk result (λ rings.
        AreRight (read_devices (shape_of (B.disk bank.old))) rings.ubers.items) }
    ensures order { IfOk result (λ rings. AreByGroup rings.ubers.items) }
    ensures shown { IfOk result (λ rings. (image : Image) → HoldsImage (B.disk bank.old) image
        → AreShown (shape_of (B.disk bank.old)) rings.silent image
        (read_devices (shape_of (B.disk bank.old))) rings.ubers.items) }
    ensures taken { IfOk result (λ rings. (image : Image) → HoldsImage (B.disk bank.old) image
        → AreTaken (shape_of (B.disk bank.old)) rings.silent image
        (read_devices (shape_of (B.disk bank.old))) rings.taken) }
{
    let mut rings = Rings {
        ubers: Vec::new(alloc),
        silent: DeviceSet::empty(),
        taken: DeviceSet::empty(),
    };
    for device in 0..bank.devices().min(READ_DEVICES) {
        read_ring(bank, device, &mut rings)?;
    }
    sort_by_group(&mut rings.ubers)?;
    Ok(rings)
}

/// The sort is stable, so the devices of a group stay in their order.
fn sort_by_group(ubers: &mut Vec<RingUber>) -> Result<(), AllocError>
    requires order { AreByDevice ubers.old.items }
    ensures order { OnOk result (AreByGroup ubers.new.items) }
    ensures same { IsPermutation ubers.old.items ubers.new.items }
{
    ubers.sort_by_key(|ring_uber| Reverse(ring_uber.uber.group()))
}

/// Reads the ring of the next device.
fn read_ring<B: Bank>(bank: &mut B, device: u32, rings: &mut Rings) -> Result<(), AllocError>
    requires device { device < read_devices (shape_of (B.disk bank.old)) }
    requires right { AreRight device rings.old.ubers.items }
    requires order { AreByDevice rings.old.ubers.items }
    ensures unchanged { Unchanged (B.disk bank.old) (B.disk bank.new) }
    ensures silent { OnOk result (MayLose device (B.disk bank.old) (B.disk bank.new)
        rings.old.silent rings.new.silent) }
    ensures right { OnOk result (AreRight (device + 1) rings.new.ubers.items) }
    ensures order { OnOk result (AreByDevice rings.new.ubers.items) }
    ensures shown { OnOk result ((image : Image) → HoldsImage (B.disk bank.old) image
        → AreShown (shape_of (B.disk bank.old)) rings.old.silent image device rings.old.ubers.items
        → AreShown (shape_of (B.disk bank.old)) rings.new.silent image (device + 1)
        rings.new.ubers.items) }
    ensures taken { OnOk result ((image : Image) → HoldsImage (B.disk bank.old) image
        → AreTaken (shape_of (B.disk bank.old)) rings.old.silent image device rings.old.taken
        → AreTaken (shape_of (B.disk bank.old)) rings.new.silent image (device + 1)
        rings.new.taken) }
{
    for slot in 0..bank.sectors().min(u64::from(RING_SLOTS)) as u32 {
        let Ok(found) = read_slot(bank, device, slot) else {
            rings.silent.insert(device);
            return Ok(());
        };
        if let Some(ring_uber) = found {
            note(rings, device, &ring_uber)?;
        }
    }
    Ok(())
}

/// Notes an uberblock that stands in the ring of a device. One for another device isn't listed.
fn note(rings: &mut Rings, device: u32, ring_uber: &SlotUber) -> Result<(), AllocError>
    requires device { device < 64 }
    ensures silent { rings.new.silent ≡ rings.old.silent }
    ensures taken { rings.new.taken ≡ with_device rings.old.taken device }
    ensures listed { OnOk result (IsListedFor device ring_uber.now
        rings.old.ubers.items rings.new.ubers.items) }
{
    rings.taken.insert(device);
    if ring_uber.number == device {
        rings.ubers.push(RingUber {
            device,
            uber: ring_uber.uber,
        })?;
    }
    Ok(())
}

/// The uberblock in a slot, if there is a valid one, for whichever device.
fn read_slot<B: Bank>(bank: &mut B, device: u32, slot: u32) -> Result<Option<SlotUber>, Failed>
    requires device { device < read_devices (shape_of (B.disk bank.old)) }
    requires slot { slot < (B.disk bank.old).sectors }
    requires ring { slot < 32 }
    ensures unchanged { Unchanged (B.disk bank.old) (B.disk bank.new) }
    ensures failed { OnErr result
        (FaultCounted ((B.disk bank.old).faults device) ((B.disk bank.new).faults device)) }
    ensures right { IfOk result (λ found. IfSome found (λ ring_uber. IsRightUber ring_uber.uber)) }
    ensures has { IfOk result (λ found. (image : Image) → HoldsImage (B.disk bank.old) image
        → HasSlotUber image device slot found) }
{
    let mut sector = [0; 512];
    bank.read(device, u64::from(slot), &mut sector)?;
    Ok(uber_in_slot(&sector, slot))
}
