// Which devices of a pool are out when it is opened, and which lack its uberblock.
ghost use Rattle.std.specs.Prelude.{◌≡◌, ◌⊎◌, ◌^◌, ◌<◌, ◌≤◌, ◌↔◌, ℕ, true, false, IsTrue};
ghost use Rattle.uberblock_ring.specs.Devices.{has_device};
ghost use Rattle.core_open.specs.Sets.{IsBehindBy, IsBlankBy, IsNewDevice, IsOutBy, ListOut, ShowNear, ShowPool};
ghost use Rattle.core_open.specs.Sets.{StandOn};

use crate::reading::Rings;
use crate::ring_uber::RingUber;
use reflow_mark::{Reflow, State};
use uberblock_ring::{DeviceSet, Uber};

/// The devices of the pool that are out. `devices` is how many the bank has.
pub fn devices_out(devices: u32, rings: &Rings, candidates: &[RingUber], uber: &Uber) -> DeviceSet
    requires narrow { uber.now.reflow.to ≤ 16 }
    ensures below { result < 2 ^ uber.now.reflow.to }
    ensures each { (device : ℕ) → has_device result device ≡ true
        ↔ ((device < uber.now.reflow.to) × IsOutBy devices rings.now.silent rings.now.taken
        rings.now.ubers.items candidates.now uber.now device) }
{
    let mut out = DeviceSet::empty();
    for device in 0..uber.reflow().to {
        if is_out(devices, rings, candidates, uber, device) {
            out.insert(device);
        }
    }
    out
}

/// The devices in use on which no candidate stands.
pub fn devices_lacking(candidates: &[RingUber], to: u32, out: DeviceSet) -> DeviceSet
    requires narrow { to ≤ 16 }
    ensures { (device : ℕ) → has_device result device ≡ true
        ↔ ((device < to) × ((has_device out device ≡ false)
        × (StandOn candidates.now device → ⊥))) }
{
    let mut lacking = DeviceSet::empty();
    for device in 0..to {
        if is_lacking(candidates, out, device) {
            lacking.insert(device);
        }
    }
    lacking
}

fn is_lacking(candidates: &[RingUber], out: DeviceSet, device: u32) -> bool
    ensures { IsTrue result ↔ ((has_device out device ≡ false)
        × (StandOn candidates.now device → ⊥)) }
{
    !out.has(device) && !stand_on(candidates, device)
}

fn is_out(devices: u32, rings: &Rings, candidates: &[RingUber], uber: &Uber, device: u32) -> bool
    ensures { IsTrue result ↔ IsOutBy devices rings.now.silent rings.now.taken
        rings.now.ubers.items candidates.now uber.now device }
{
    list_out(candidates, device)
        || rings.silent.has(device)
        || device >= devices
        || was_away(rings, uber, device)
}

/// Whether nothing of the pool stands on a device, or nothing that is recent.
fn was_away(rings: &Rings, uber: &Uber, device: u32) -> bool
    ensures { IsTrue result ↔ (IsBlankBy rings.now.taken rings.now.ubers.items uber.now device
        ⊎ IsBehindBy rings.now.ubers.items uber.now device) }
{
    is_blank(rings, uber, device) || is_left_behind(&rings.ubers, uber, device)
}

/// Whether a device shows the pool, but missed its last groups: it is an older copy, or was away. A disk that
/// works shows at least the group that was kept, and the chosen one is at most two above that.
fn is_left_behind(ubers: &[RingUber], uber: &Uber, device: u32) -> bool
    ensures { IsTrue result ↔ IsBehindBy ubers.now uber.now device }
{
    show_pool(ubers, uber.pool(), device) && !show_near(ubers, uber.pool(), uber.group(), device)
}

fn show_near(ubers: &[RingUber], pool: u64, group: u64, device: u32) -> bool
    ensures { IsTrue result ↔ ShowNear ubers.now pool group device }
{
    ubers.iter().any(|ring_uber| {
        ring_uber.device == device
            && ring_uber.uber.pool() == pool
            && group <= ring_uber.uber.group().saturating_add(2)
    })
}

/// Whether nothing of the pool stands on a device that ought to have it. The new device of an attach need
/// not have it yet, but another pool's disk in its place isn't taken for it.
fn is_blank(rings: &Rings, uber: &Uber, device: u32) -> bool
    ensures { IsTrue result
        ↔ IsBlankBy rings.now.taken rings.now.ubers.items uber.now device }
{
    !show_pool(&rings.ubers, uber.pool(), device)
        && (!is_new_device(&uber.reflow(), device) || rings.taken.has(device))
}

/// An attach has a pool without a copied sector on its last device.
fn is_new_device(reflow: &Reflow, device: u32) -> bool
    ensures { IsTrue result ↔ IsNewDevice reflow.now device }
{
    reflow.state == State::None && device == reflow.from
}

fn list_out(ubers: &[RingUber], device: u32) -> bool
    ensures { IsTrue result ↔ ListOut ubers.now device }
{
    ubers
        .iter()
        .any(|ring_uber| ring_uber.uber.out().has(device))
}

fn stand_on(ubers: &[RingUber], device: u32) -> bool
    ensures { IsTrue result ↔ StandOn ubers.now device }
{
    ubers.iter().any(|ring_uber| ring_uber.device == device)
}

fn show_pool(ubers: &[RingUber], pool: u64, device: u32) -> bool
    ensures { IsTrue result ↔ ShowPool ubers.now pool device }
{
    ubers.iter().any(|ring_uber| ring_uber.device == device && ring_uber.uber.pool() == pool)
}
