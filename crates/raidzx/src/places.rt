// Which places of a pool have the wrong image, or none.
ghost use Rattle.std.specs.Prelude.{◌≡◌, ◌<◌, ◌≤◌, ◌⊎◌, ◌↔◌, ℕ, IfSome, IsTrue, true, false};
ghost use Rattle.std.specs.List.{Any};
ghost use Rattle.uberblock_ring.specs.Devices.{has_device};
ghost use Rattle.uberblock_ring.specs.Valid.{AreAlike};
ghost use Rattle.raidzx.specs.Places.{AreListed, IsElsewhereAt, IsListedBy, IsListedByGroup, ShowsElsewhere};

use crate::sightings::{LOOKED_AT, Sighting};
use uberblock_ring::{DeviceSet, Uber, are_alike};

/// Whether the image at this place shows the pool under another number.
pub fn stands_wrong(sightings: &[Sighting], pool: u64, place: u32) -> bool
    ensures { IsTrue result ↔ ShowsElsewhere sightings.now pool place }
{
    sightings
        .iter()
        .any(|sighting| is_elsewhere_at(sighting, pool, place))
}

fn is_elsewhere_at(sighting: &Sighting, pool: u64, place: u32) -> bool
    ensures { IsTrue result ↔ IsElsewhereAt sighting.now pool place }
{
    sighting.place == place && sighting.number != place && sighting.uber.pool() == pool
}

/// What the image at this place shows of the pool under another number.
pub fn shown_elsewhere(sightings: &[Sighting], pool: u64, place: u32) -> Option<Sighting>
    ensures { IfSome result (λ sighting.
        Any (λ other. (other ≡ sighting) × IsElsewhereAt other pool place) sightings.now) }
{
    sightings
        .iter()
        .find(|sighting| is_elsewhere_at(*sighting, pool, place))
        .copied()
}

/// The places whose images show the pool under another number.
pub fn wrong_places(sightings: &[Sighting], pool: u64) -> DeviceSet
    ensures each { (place : ℕ) → has_device result place ≡ true
        ↔ ((place < 64) × ShowsElsewhere sightings.now pool place) }
{
    places_where(|place| stands_wrong(sightings, pool, place))
}

/// The places of a pool of so many disks for which no image is named, where so many are; those aside that are listed
/// as out.
pub fn unnamed_places(named: u32, disks: u32, listed: DeviceSet) -> DeviceSet
    requires few { disks ≤ 16 }
    ensures each { (place : ℕ) → has_device result place ≡ true
        ↔ ((place < disks) × ((named ≤ place) × (has_device listed place ≡ false))) }
{
    places_where(|place| place < disks && is_unnamed(named, listed, place))
}

fn is_unnamed(named: u32, listed: DeviceSet, place: u32) -> bool
    ensures { IsTrue result ↔ ((named ≤ place) × (has_device listed place ≡ false)) }
{
    place >= named && !listed.has(place)
}

/// The disks that the group of this uberblock lists as out, as the images show it.
pub fn listed_out(sightings: &[Sighting], uber: &Uber) -> DeviceSet
    ensures { AreListed sightings.now uber.now result }
{
    places_where(|place| is_listed_out(sightings, uber, place))
}

/// Whether the group of this uberblock lists the disk of this place as out, as the images show it.
fn is_listed_out(sightings: &[Sighting], uber: &Uber, place: u32) -> bool
    ensures { IsTrue result ↔ IsListedByGroup sightings.now uber.now place }
{
    uber.out().has(place) || is_listed_by_any(sightings, uber, place)
}

fn is_listed_by_any(sightings: &[Sighting], uber: &Uber, place: u32) -> bool
    ensures { IsTrue result
        ↔ Any (λ sighting. IsListedBy sighting uber.now place) sightings.now }
{
    sightings
        .iter()
        .any(|sighting| is_listed_by(sighting, uber, place))
}

fn is_listed_by(sighting: &Sighting, uber: &Uber, place: u32) -> bool
    ensures { IsTrue result ↔ IsListedBy sighting.now uber.now place }
{
    sighting.uber.out().has(place)
        && sighting.number == sighting.place
        && are_alike(&sighting.uber, uber)
}

/// The places at which a test says so.
#[tactic(auto, using(crate::proofs::Tested::tested))]
pub fn places_where<F: Fn(u32) -> bool>(test: F) -> DeviceSet
    requires { F.IsAlwaysCallable test }
    ensures has { (place : ℕ) → has_device result place ≡ true
        → (place < 64) × F.post test place true }
    ensures lacks { (place : ℕ) → place < 64 → has_device result place ≡ false
        → F.post test place false }
{
    let mut places = DeviceSet::empty();
    for place in 0..LOOKED_AT {
        if test(place) {
            places.insert(place);
        }
    }
    places
}

/// The places of one set and those of another.
#[tactic(auto, using(crate::proofs::Together::in_both))]
pub fn both(one: DeviceSet, other: DeviceSet) -> DeviceSet
    ensures each { (place : ℕ) → has_device result place ≡ true
        ↔ ((has_device one place ≡ true) ⊎ (has_device other place ≡ true)) }
{
    DeviceSet::from_bits(one.bits() | other.bits())
}
