// Which images show another pool than the one that is opened, or another pool of its id.
ghost use Rattle.std.specs.Prelude.{◌≡◌, ◌<◌, ◌⊎◌, ◌↔◌, ℕ, IsTrue, true, false};
ghost use Rattle.uberblock_ring.specs.Devices.{has_device};
ghost use Rattle.raidzx.specs.Lives.{Agree, AreOfOneLife, ShowsOtherLife};
ghost use Rattle.raidzx.specs.Places.{ArePlacesOf, AsManyShow, IsOfRivalAt, ShowsOtherPool};

use crate::places::{both, places_where};
use crate::sightings::{Sighting, is_last_at, shows_at_place};
use uberblock_ring::{DeviceSet, Uber};
use width_map::Birth;

/// The places whose images show this pool, each at its number.
fn places_of(sightings: &[Sighting], pool: u64) -> DeviceSet
    ensures { ArePlacesOf sightings.now pool result }
{
    places_where(|place| shows_at_place(sightings, pool, place))
}

/// Whether at least as many images show another pool, each at its number, as this one.
fn as_many_show(sightings: &[Sighting], pool: u64, other: u64) -> bool
    ensures { IsTrue result ↔ AsManyShow sightings.now pool other }
{
    places_of(sightings, pool).len() <= places_of(sightings, other).len()
}

fn is_of_rival_at(sightings: &[Sighting], sighting: &Sighting, pool: u64, place: u32) -> bool
    ensures { IsTrue result ↔ IsOfRivalAt sightings.now sighting.now pool place }
{
    sighting.place == place
        && sighting.number == place
        && sighting.uber.pool() != pool
        && as_many_show(sightings, pool, sighting.uber.pool())
}

/// Whether the image at this place shows another pool at its number, that as many images show as this one.
fn shows_other_pool(sightings: &[Sighting], pool: u64, place: u32) -> bool
    ensures { IsTrue result ↔ ShowsOtherPool sightings.now pool place }
{
    sightings.iter().any(|sighting| is_of_rival_at(sightings, sighting, pool, place))
}

/// The places whose images show another pool, each at its number, that as many images show as this one.
fn rival_places(sightings: &[Sighting], pool: u64) -> DeviceSet
    ensures each { (place : ℕ) → has_device result place ≡ true
        ↔ ((place < 64) × ShowsOtherPool sightings.now pool place) }
{
    places_where(|place| shows_other_pool(sightings, pool, place))
}

/// Whether two uberblocks of one id can be of one pool: its parity and its rows stay, and its widths grow.
pub fn are_of_one_life(one: &Uber, other: &Uber) -> bool
    ensures { IsTrue result ↔ AreOfOneLife one.now other.now }
{
    one.parity() == other.parity()
        && one.reflow().rows == other.reflow().rows
        && agree(one.births().as_slice(), other.births().as_slice())
}

/// Whether one list of births goes on where the other ends.
fn agree(one: &[Birth], other: &[Birth]) -> bool
    ensures { IsTrue result ↔ Agree one.now other.now }
{
    let shared = one.len().min(other.len());
    one[..shared] == other[..shared]
}

/// Whether the image at this place shows another pool of this one's id, and is not listed as out.
pub fn is_of_another_life(
    sightings: &[Sighting],
    uber: &Uber,
    listed: DeviceSet,
    place: u32,
) -> bool
    ensures { IsTrue result ↔ ((has_device listed place ≡ false)
        × ShowsOtherLife sightings.now uber.now place) }
{
    !listed.has(place) && shows_other_life(sightings, uber, place)
}

fn shows_other_life(sightings: &[Sighting], uber: &Uber, place: u32) -> bool
    ensures { IsTrue result ↔ ShowsOtherLife sightings.now uber.now place }
{
    sightings.iter().any(|sighting| {
        is_last_at(sightings, sighting, uber.pool(), place)
            && !are_of_one_life(&sighting.uber, uber)
    })
}

/// The places whose images show another pool of this one's id. Those that are listed as out aside: a pool goes on
/// without them.
fn other_life_places(sightings: &[Sighting], uber: &Uber, listed: DeviceSet) -> DeviceSet
    ensures each { (place : ℕ) → has_device result place ≡ true ↔ ((place < 64)
        × ((has_device listed place ≡ false) × ShowsOtherLife sightings.now uber.now place)) }
{
    places_where(|place| is_of_another_life(sightings, uber, listed, place))
}

/// The places whose images show another pool, or another life of this one, so that it is not sure which is meant.
pub fn other_places(sightings: &[Sighting], uber: &Uber, listed: DeviceSet) -> DeviceSet
    ensures each { (place : ℕ) → has_device result place ≡ true ↔ ((place < 64)
        × (ShowsOtherPool sightings.now uber.now.pool place
        ⊎ ((has_device listed place ≡ false) × ShowsOtherLife sightings.now uber.now place))) }
{
    both(
        rival_places(sightings, uber.pool()),
        other_life_places(sightings, uber, listed),
    )
}
