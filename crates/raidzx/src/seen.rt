// What images show once a command has ended. These are reads alone.
ghost use Rattle.std.specs.Prelude.{◌≡◌, ◌≢◌, ◌⊎◌, ◌+◌, ◌<◌, ◌≤◌, ◌↔◌, ℕ, List, Some, IfOk, IfSome, IfNone, OnSome};
ghost use Rattle.std.specs.Prelude.{IsTrue, MatchBool, length};
ghost use Rattle.bank_trait.specs.Disk.{Image, Unchanged};
ghost use Rattle.core_open.specs.declared.why.OpenWhy.TheVariants.{NoMemory};
ghost use Rattle.core_open.specs.Holds.{HoldsImage};
ghost use Rattle.raidzx.specs.ForGood.{AllShowNoneOut, AreListedOut, AreOutForGood, IsLastBefore, out_of_group};
ghost use Rattle.raidzx.specs.Rings.{IsFirstSeen, IsNoneSeen, IsSlotUnread, LacksNoneOut, ListsNone, ShowsNoneOut};
ghost use Rattle.raidzx.specs.Rings.{ShowsNoPlace, ShowsPlace};

use bank_trait::Bank;
use core_open::{OpenWhy, find};
use core_state::{Item, Journal};
use std::alloc::{AllocError, Global};
use uberblock_ring::{DeviceSet, RING_SLOTS, Uber, slot};

/// The most images of a pool.
const MOST_PLACES: u32 = 16;

/// An image's place in a pool.
#[derive(Clone, Copy, Debug, PartialEq, Eq)]
pub struct Seen {
    pub place: u32,
    pub pool: u64,
}

/// The last group that a run has listed.
fn last_group(journal: &Journal) -> Option<u64>
    ensures { IsLastBefore journal.now.items (length journal.now.items) result }
{
    let mut last = None;
    for item in journal.as_slice() {
        if let Item::Group(group) = item {
            last = Some(group.group);
        }
    }
    last
}

/// The bytes of this slot of a device's ring.
pub fn read_slot<B: Bank>(bank: &mut B, device: u32, slot: u32) -> Option<[u8; 512]>
    requires { device < (B.disk bank.old).devices }
    ensures unchanged { Unchanged (B.disk bank.old) (B.disk bank.new) }
    ensures on_device { OnSome result (slot < (B.disk bank.old).sectors) }
    ensures bytes { IfSome result (λ read. (bytes : List ℕ)
        → (B.disk bank.old).reads device slot ≡ Some bytes → read ≡ bytes) }
    ensures none { IfNone result (IsSlotUnread (B.disk bank.old) (B.disk bank.new) device slot) }
{
    let sector = u64::from(slot);
    if sector >= bank.sectors() {
        return None;
    }
    let mut bytes = [0; 512];
    match bank.read(device, sector, &mut bytes) {
        Ok(()) => Some(bytes),
        Err(_) => None,
    }
}

/// Whether these bytes are a device's uberblock of this group, which lists no device as out.
fn lists_none(bytes: &[u8; 512], device: u32, group: u64) -> bool
    ensures { IsTrue result ↔ ListsNone bytes.now device group }
{
    match Uber::decode(bytes, device, slot(group)) {
        Some(uber) => uber.group() == group && uber.out().is_empty(),
        None => false,
    }
}

/// Whether a device shows this group, which lists no device as out.
fn shows<B: Bank>(bank: &mut B, device: u32, group: u64) -> bool
    requires { device < (B.disk bank.old).devices }
    ensures unchanged { Unchanged (B.disk bank.old) (B.disk bank.new) }
    ensures shown { MatchBool result (ShowsNoneOut (B.disk bank.old) group device)
        (LacksNoneOut (B.disk bank.old) (B.disk bank.new) group device) }
{
    match read_slot(bank, device, slot(group)) {
        Some(bytes) => lists_none(&bytes, device, group),
        None => false,
    }
}

/// Whether each device shows it.
fn all_show<B: Bank>(bank: &mut B, group: u64) -> bool
    ensures unchanged { Unchanged (B.disk bank.old) (B.disk bank.new) }
    ensures shown { MatchBool result (AllShowNoneOut (B.disk bank.old) group)
        ((device : ℕ) × (device < (B.disk bank.old).devices)
        × LacksNoneOut (B.disk bank.old) (B.disk bank.new) group device) }
{
    for device in 0..bank.devices() {
        if !shows(bank, device, group) {
            return false;
        }
    }
    true
}

/// The devices that the last group of a run lists as out, where the images show that group: no later run takes them
/// back. An error is want of memory.
pub fn out_for_good<B: Bank>(
    alloc: Global,
    bank: &mut B,
    journal: &Journal,
) -> Result<DeviceSet, AllocError>
    ensures unchanged { Unchanged (B.disk bank.old) (B.disk bank.new) }
    ensures out { IfOk result (AreOutForGood (B.disk bank.old) (B.disk bank.new) journal.now.items) }
{
    match last_group(journal) {
        Some(group) => out_by(alloc, bank, group),
        None => Ok(DeviceSet::empty()),
    }
}

/// The devices that this group lists as out, where the images show it.
fn out_by<B: Bank>(alloc: Global, bank: &mut B, group: u64) -> Result<DeviceSet, AllocError>
    ensures unchanged { Unchanged (B.disk bank.old) (B.disk bank.new) }
    ensures out { IfOk result (λ out. (image : Image) → HoldsImage (B.disk bank.old) image
        → AreListedOut (B.disk bank.old) (B.disk bank.new) image group out) }
{
    if all_show(bank, group) {
        return Ok(DeviceSet::empty());
    }
    match find(alloc, bank) {
        Ok(found) => Ok(listed_in(group, &found.uber)),
        Err(why) => none_listed(why),
    }
}

/// None are listed where nothing is there to open. Want of memory tells nothing of that.
fn none_listed(why: OpenWhy) -> Result<DeviceSet, AllocError>
    ensures { IfOk result (λ out. (out ≡ 0) × (why ≢ NoMemory)) }
{
    match why {
        OpenWhy::NoMemory => Err(AllocError),
        _ => Ok(DeviceSet::empty()),
    }
}

/// The devices that an uberblock lists as out, where it is one of this group.
fn listed_in(group: u64, uber: &Uber) -> DeviceSet
    ensures { result ≡ out_of_group group uber.now }
{
    if uber.group() == group {
        uber.out()
    } else {
        DeviceSet::empty()
    }
}

/// The first place from `first` to before `end` whose uberblock these bytes are.
fn seen_in(bytes: &[u8; 512], slot: u32, first: u32, end: u32) -> Option<Seen>
    ensures some { IfSome result (ShowsPlace bytes.now slot first end) }
    ensures none { IfNone result (ShowsNoPlace bytes.now slot first end) }
{
    for place in first..end {
        if let Some(uber) = Uber::decode(bytes, place, slot) {
            return Some(Seen {
                place,
                pool: uber.pool(),
            });
        }
    }
    None
}

/// The first uberblock in a device's ring that is one of these places.
fn first_seen<B: Bank>(bank: &mut B, device: u32, first: u32, end: u32) -> Option<Seen>
    requires { device < (B.disk bank.old).devices }
    ensures unchanged { Unchanged (B.disk bank.old) (B.disk bank.new) }
    ensures some { IfSome result (IsFirstSeen (B.disk bank.old) device first end) }
    ensures none { IfNone result (IsNoneSeen (B.disk bank.old) (B.disk bank.new) device first end) }
{
    for slot in 0..RING_SLOTS {
        let bytes = read_slot(bank, device, slot)?;
        if let Some(seen) = seen_in(&bytes, slot, first, end) {
            return Some(seen);
        }
    }
    None
}

/// The pool that a device shows in its own place, which no pool has past the last.
pub fn seen_in_place<B: Bank>(bank: &mut B, device: u32) -> Option<Seen>
    requires { device < (B.disk bank.old).devices }
    ensures unchanged { Unchanged (B.disk bank.old) (B.disk bank.new) }
    ensures some { IfSome result (IsFirstSeen (B.disk bank.old) device device (device + 1)) }
    ensures none { IfNone result ((MOST_PLACES ≤ device)
        ⊎ IsNoneSeen (B.disk bank.old) (B.disk bank.new) device device (device + 1)) }
{
    if device >= MOST_PLACES {
        return None;
    }
    first_seen(bank, device, device, device + 1)
}

/// The pool that a device shows, and in which place.
pub fn seen_anywhere<B: Bank>(bank: &mut B, device: u32) -> Option<Seen>
    requires { device < (B.disk bank.old).devices }
    ensures unchanged { Unchanged (B.disk bank.old) (B.disk bank.new) }
    ensures some { IfSome result (IsFirstSeen (B.disk bank.old) device 0 MOST_PLACES) }
    ensures none { IfNone result (IsNoneSeen (B.disk bank.old) (B.disk bank.new) device 0 MOST_PLACES) }
{
    first_seen(bank, device, 0, MOST_PLACES)
}
