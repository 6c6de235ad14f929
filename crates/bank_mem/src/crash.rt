// What a stop leaves of devices in memory.
ghost use Rattle.std.specs.Prelude.{◌≡◌, ◌<◌, ◌≤◌, ℕ, IfOk, All, length, slice_index};
ghost use Rattle.bank_mem.specs.Crash.{listed_as};
ghost use Rattle.bank_mem.specs.CrashSteps.{tear_of, torn_after, IsSyncedUpTo};
ghost use Rattle.bank_mem.specs.Record.{content, held_durably, after, called_device};
ghost use Rattle.bank_mem.specs.Sound.{AllWide, HasPlaceOf};

use crate::record::Call;
use crate::shelf;
use std::alloc::{AllocError, Global};
use std::collections::HashMap;

/// What a stop leaves in a sector that was handed bytes since its device's last sync.
#[derive(Clone, Copy, Debug, PartialEq, Eq)]
pub enum Tear {
    /// The bytes that it was handed last, also by a write that failed.
    Kept,
    /// One byte over and over.
    Filled(u8),
}

/// A sector that a stop tears, and how. It stays as it is where it was handed no bytes since its
/// device's last sync.
#[derive(Clone, Copy, Debug, PartialEq, Eq)]
pub struct Torn {
    pub device: u32,
    pub sector: u64,
    pub how: Tear,
}

/// How sectors are listed, by device and sector.
pub type Tears = HashMap<(u32, u64), Tear>;

/// How each sector is listed: as the last entry that names it says.
pub fn listed_tears(alloc: Global, torn: &[Torn]) -> Result<Tears, AllocError>
    ensures { IfOk result (λ tears. (d x : ℕ) → tear_of tears d x ≡ listed_as torn.now d x) }
{
    let mut tears = HashMap::new(alloc);
    for entry in torn {
        tears.insert((entry.device, entry.sector), entry.how)?;
    }
    Ok(tears)
}

/// Of the calls on record, how many each device's last sync covers.
pub fn last_syncs(alloc: Global, devices: u32, calls: &[Call]) -> Result<Vec<u64>, AllocError>
    requires { All (λ call. called_device call < devices) calls.now }
    ensures len { IfOk result (λ syncs. length syncs.items ≡ devices) }
    ensures syncs { IfOk result (λ syncs. (d : ℕ)
        → IsSyncedUpTo calls.now d (slice_index syncs.items d)) }
{
    let mut syncs = shelf::counters(alloc, devices)?;
    for (index, call) in calls.iter().enumerate() {
        if let Call::Sync { device, .. } = call {
            syncs[*device as usize] = index as u64 + 1;
        }
    }
    Ok(syncs)
}

/// Puts what a call leaves that a sync of its device covers.
fn put_settled(images: &mut Vec<Vec<[u8; 512]>>, call: &Call)
    requires { HasPlaceOf images.old.items call.now }
    ensures held { (d x : ℕ) → content images.new.items d x
        ≡ (after (held_durably (content images.old.items)) call.now).reads d x }
    ensures len { length images.new.items ≡ length images.old.items }
    ensures width { (n : ℕ) → AllWide images.old.items n → AllWide images.new.items n }
{
    match call {
        Call::Write {
            device,
            sector,
            bytes,
            ..
        }
        | Call::Spoil {
            device,
            sector,
            bytes,
            ..
        } => shelf::put_sector(images, *device as usize, *sector as usize, bytes),
        Call::FailedWrite { .. } | Call::Sync { .. } => {}
    }
}

/// Puts what a call leaves that no sync of its device covers.
fn put_torn(images: &mut Vec<Vec<[u8; 512]>>, call: &Call, tears: &Tears)
    requires { HasPlaceOf images.old.items call.now }
    ensures held { (d x : ℕ) → content images.new.items d x
        ≡ torn_after (tear_of tears.now) (content images.old.items) call.now d x }
    ensures len { length images.new.items ≡ length images.old.items }
    ensures width { (n : ℕ) → AllWide images.old.items n → AllWide images.new.items n }
{
    match call {
        Call::Write {
            device,
            sector,
            bytes,
            ..
        }
        | Call::FailedWrite {
            device,
            sector,
            bytes,
            ..
        } => match tears.get(&(*device, *sector)) {
            None => {}
            Some(Tear::Kept) => {
                shelf::put_sector(images, *device as usize, *sector as usize, bytes)
            }
            Some(Tear::Filled(byte)) => shelf::put_sector(
                images,
                *device as usize,
                *sector as usize,
                &shelf::filled_sector(*byte),
            ),
        },
        Call::Spoil {
            device,
            sector,
            bytes,
            ..
        } => shelf::put_sector(images, *device as usize, *sector as usize, bytes),
        Call::Sync { .. } => {}
    }
}

/// Puts what a call on record leaves at a stop; `index` is its place in the record.
pub fn put_call(
    images: &mut Vec<Vec<[u8; 512]>>,
    index: u64,
    call: &Call,
    syncs: &[u64],
    tears: &Tears,
)
    requires synced { called_device call.now < length syncs.now }
    requires placed { HasPlaceOf images.old.items call.now }
    ensures settled { index < slice_index syncs.now (called_device call.now) → (d x : ℕ)
        → content images.new.items d x
        ≡ (after (held_durably (content images.old.items)) call.now).reads d x }
    ensures torn { slice_index syncs.now (called_device call.now) ≤ index → (d x : ℕ)
        → content images.new.items d x
        ≡ torn_after (tear_of tears.now) (content images.old.items) call.now d x }
    ensures len { length images.new.items ≡ length images.old.items }
    ensures width { (n : ℕ) → AllWide images.old.items n → AllWide images.new.items n }
{
    if index < syncs[call.device() as usize] {
        put_settled(images, call);
    } else {
        put_torn(images, call, tears);
    }
}
