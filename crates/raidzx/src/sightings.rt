// What the images show before a command is carried out. These are reads alone: each ring is read once.
ghost use Rattle.std.specs.Prelude.{◌≡◌, ◌<◌, ◌≤◌, ◌↔◌, IfNone, IfOk, IfSome, IsTrue, OnOk};
ghost use Rattle.std.specs.List.{Any};
ghost use Rattle.bank_trait.specs.Disk.{Unchanged};
ghost use Rattle.raidzx.specs.Standing.{ShowsNothing};
ghost use Rattle.raidzx.specs.Places.{IsLastAt, IsLastOf, IsOfPoolAt, ShowsAtPlace};
ghost use Rattle.raidzx.specs.Seeing.{AreSeen, NotesSlot, SeesRing};

use crate::seen::read_slot;
use attach_ring::uber_in_slot;
use bank_trait::Bank;
use std::alloc::{AllocError, Global};
use uberblock_ring::{DeviceSet, RING_SLOTS, Uber};

/// Images from this place on are not looked at: no set of devices has them.
pub const LOOKED_AT: u32 = 64;

/// An uberblock in the ring of the image at this place, and the number of the disk that it is for.
#[derive(Clone, Copy, Debug, PartialEq, Eq)]
pub struct Sighting {
    pub place: u32,
    pub number: u32,
    pub uber: Uber,
}

/// All uberblocks that stand in the rings, place by place.
#[derive(Drop)]
pub struct Sightings {
    pub list: Vec<Sighting>,
    /// Places whose ring could not be read to its end.
    pub unread: DeviceSet,
}

impl Sightings {
    /// Whether the images show nothing else.
    pub fn is_same(&self, other: &Sightings) -> bool {
        self.list == other.list && self.unread == other.unread
    }
}

/// Reads the rings of the images.
#[tactic(auto, using(core_open::proofs::Unchanged::unchanged_none, core_open::proofs::Unchanged::unchanged_then))]
pub fn see<B: Bank>(alloc: Global, bank: &mut B) -> Result<Sightings, AllocError>
    ensures unchanged { Unchanged (B.disk bank.old) (B.disk bank.new) }
    ensures seen { IfOk result (AreSeen (B.disk bank.old) (B.disk bank.new)) }
{
    let mut sightings = Sightings {
        list: Vec::new(alloc),
        unread: DeviceSet::empty(),
    };
    for place in 0..bank.devices().min(LOOKED_AT) {
        see_ring(bank, place, &mut sightings)?;
    }
    Ok(sightings)
}

/// Reads the ring of the image at this place.
#[tactic(auto, using(core_open::proofs::Unchanged::unchanged_none, core_open::proofs::Unchanged::unchanged_then))]
fn see_ring<B: Bank>(bank: &mut B, place: u32, sightings: &mut Sightings) -> Result<(), AllocError>
    requires device { place < (B.disk bank.old).devices }
    requires looked_at { place < 64 }
    ensures unchanged { Unchanged (B.disk bank.old) (B.disk bank.new) }
    ensures seen { OnOk result
        (SeesRing (B.disk bank.old) (B.disk bank.new) place sightings.old sightings.new) }
{
    for slot in 0..RING_SLOTS {
        let Some(bytes) = read_slot(bank, place, slot) else {
            sightings.unread.insert(place);
            return Ok(());
        };
        note_slot(&bytes, place, slot, &mut sightings.list)?;
    }
    Ok(())
}

/// Lists the uberblock that these bytes of a slot are, if they are one.
fn note_slot(
    bytes: &[u8; 512],
    place: u32,
    slot: u32,
    list: &mut Vec<Sighting>,
) -> Result<(), AllocError>
    ensures { OnOk result (NotesSlot bytes.now place slot list.old.items list.new.items) }
{
    if let Some(found) = uber_in_slot(bytes, slot) {
        list.push(Sighting {
            place,
            number: found.number,
            uber: found.uber,
        })?;
    }
    Ok(())
}

/// The uberblock of the greatest group of this pool, else of any, in whichever place.
pub fn greatest(sightings: &[Sighting], pool: Option<u64>) -> Option<Uber> {
    let mut greatest: Option<Uber> = None;
    for sighting in sightings {
        let is_of_pool = match pool {
            Some(pool) => sighting.uber.pool() == pool,
            None => true,
        };
        if is_of_pool && is_later(&sighting.uber, &greatest) {
            greatest = Some(sighting.uber);
        }
    }
    greatest
}

/// The pool's greatest uberblock that the image at this place shows for its own number.
pub fn last_at(sightings: &[Sighting], pool: u64, place: u32) -> Option<Uber>
    ensures { IfSome result (λ last. IsLastOf sightings.now last pool place) }
{
    sightings
        .iter()
        .find(|sighting| is_last_at(sightings, *sighting, pool, place))
        .map(|sighting| sighting.uber)
}

/// Whether the image at this place shows this uberblock of the pool for its own number, and none of a greater group.
pub fn is_last_at(sightings: &[Sighting], sighting: &Sighting, pool: u64, place: u32) -> bool
    ensures { IsTrue result ↔ IsLastAt sightings.now sighting.now pool place }
{
    is_of_pool_at(sighting, pool, place)
        && sightings.iter().all(|other| is_no_later(other, pool, place, sighting.uber.group()))
}

/// Whether this is no uberblock of the pool in this place of a greater group.
fn is_no_later(sighting: &Sighting, pool: u64, place: u32, group: u64) -> bool
    ensures { IsTrue result
        ↔ (IsOfPoolAt sighting.now pool place → sighting.now.uber.group ≤ group) }
{
    !is_of_pool_at(sighting, pool, place) || sighting.uber.group() <= group
}

/// The greatest uberblock that an image shows, of whatever pool and for whatever number.
pub fn shown_at(sightings: &[Sighting], place: u32) -> Option<Sighting>
    ensures some { IfSome result (λ sighting.
        Any (λ other. (other ≡ sighting) × (other.place ≡ place)) sightings.now) }
    ensures none { IfNone result (ShowsNothing sightings.now place) }
{
    let mut last: Option<Sighting> = None;
    for sighting in sightings {
        if sighting.place == place {
            match &last {
                Some(before) if sighting.uber.group() <= before.uber.group() => {}
                _ => last = Some(*sighting),
            }
        }
    }
    last
}

fn is_later(uber: &Uber, last: &Option<Uber>) -> bool {
    match last {
        Some(last) => uber.group() > last.group(),
        None => true,
    }
}

fn is_of_pool_at(sighting: &Sighting, pool: u64, place: u32) -> bool
    ensures { IsTrue result ↔ IsOfPoolAt sighting.now pool place }
{
    sighting.place == place && sighting.number == place && sighting.uber.pool() == pool
}

/// Whether the image at this place shows the pool for its own number.
pub fn shows_at_place(sightings: &[Sighting], pool: u64, place: u32) -> bool
    ensures { IsTrue result ↔ ShowsAtPlace sightings.now pool place }
{
    sightings
        .iter()
        .any(|sighting| is_of_pool_at(sighting, pool, place))
}
