// What the image at a place is to the pool that is opened.
ghost use Rattle.std.specs.Prelude.{◌≡◌, ◌+◌, ◌<◌, ◌↔◌, IsTrue};
ghost use Rattle.raidzx.specs.Places.{IsLastOf};
ghost use Rattle.raidzx.specs.Standing.{IsAboutToJoin, IsSo};

use crate::lives::is_of_another_life;
use crate::places::{listed_out, shown_elsewhere, unnamed_places};
use crate::sightings::{Sighting, Sightings, last_at, shown_at};
use core_open::Found;
use reflow_mark::State;
use uberblock_ring::{DeviceSet, Uber};

/// The most disks of a pool.
const MOST_DISKS: u32 = 16;

/// What the image at a place is to the pool.
#[derive(Clone, Copy, Debug, PartialEq, Eq)]
pub enum Standing {
    InUse,
    /// It shows the pool under the number of another place.
    Elsewhere(Sighting),
    /// It shows another pool of the same id.
    OtherLife(Uber),
    /// It missed what was synced after this group.
    LeftBehind { last: u64 },
    /// The pool's group lists it as out.
    Out,
    /// It shows another pool.
    Foreign(Sighting),
    /// It shows no pool.
    Blank,
    /// It is being attached, and holds nothing yet.
    Joining,
    /// It could not be opened, or not be read.
    Unread,
    /// No word names it.
    Unnamed,
}

/// What is known of a pool where it would be opened.
#[derive(Clone, Copy, Debug)]
pub struct Known {
    /// How many images are named.
    pub named: u32,
    /// The uberblock that an opening chooses.
    pub uber: Uber,
    /// The places that its group lists as out.
    pub listed: DeviceSet,
    /// The places that are out at an opening.
    pub out: DeviceSet,
}

impl Known {
    ghost use Rattle.std.specs.Prelude.{◌≡◌, ◌↔◌, ℕ, IsTrue, true};
    ghost use Rattle.raidzx.specs.Places.{AreListed};
    ghost use Rattle.raidzx.specs.Standing.{IsAboutToJoin};
    ghost use Rattle.uberblock_ring.specs.Devices.{has_device};
    ghost use Rattle.raidzx.specs.Unnamed.{IsUnnamed};

    /// What an opening would find of a pool.
    pub fn by_found(named: u32, sightings: &Sightings, found: &Found) -> Known
        ensures named { result.named ≡ named }
        ensures uber { result.uber ≡ found.now.uber }
        ensures listed { AreListed sightings.now.list.items found.now.uber result.listed }
        ensures out { result.out ≡ found.now.out }
    {
        Known {
            named,
            uber: found.uber,
            listed: listed_out(&sightings.list, &found.uber),
            out: found.out,
        }
    }

    /// What is likely of a pool that a look does not choose, by the greatest uberblock of it.
    pub fn by_greatest(named: u32, sightings: &Sightings, uber: &Uber) -> Known
        ensures named { result.named ≡ named }
        ensures uber { result.uber ≡ uber.now }
        ensures listed { AreListed sightings.now.list.items uber.now result.listed }
        ensures out { result.out ≡ result.listed }
    {
        let listed = listed_out(&sightings.list, uber);
        Known {
            named,
            uber: *uber,
            listed,
            out: listed,
        }
    }

    /// How many disks the pool has.
    pub fn disks(&self) -> u32
        ensures { result ≡ self.now.uber.reflow.to }
    {
        self.uber.reflow().to
    }

    /// The places of the pool for which no image is named.
    pub fn unnamed(&self) -> DeviceSet
        ensures each { (place : ℕ) → has_device result place ≡ true ↔ IsUnnamed self.now place }
    {
        unnamed_places(self.named, self.disks().min(MOST_DISKS), self.listed)
    }

    /// Whether this is the place of a disk that is being attached, and of which nothing was copied.
    fn is_joining(&self, place: u32) -> bool
        ensures { IsTrue result ↔ IsAboutToJoin self.now place }
    {
        let reflow = self.uber.reflow();
        reflow.state == State::None && reflow.from < reflow.to && place == reflow.from
    }
}

/// What the image at this place is.
pub fn standing_of(sightings: &Sightings, known: &Known, place: u32) -> Standing
    ensures { IsSo sightings.now known.now place result }
{
    if place >= known.named {
        return Standing::Unnamed;
    }
    let list = &sightings.list;
    let pool = known.uber.pool();
    if let Some(sighting) = shown_elsewhere(list, pool, place) {
        return Standing::Elsewhere(sighting);
    }
    match last_at(list, pool, place) {
        Some(last) => standing_by(sightings, known, place, last),
        None => standing_without(sightings, known, place),
    }
}

/// What an image is that shows the pool in its place, and this group of it at last.
fn standing_by(sightings: &Sightings, known: &Known, place: u32, last: Uber) -> Standing
    requires { IsLastOf sightings.now.list.items last known.now.uber.pool place }
    ensures { IsSo sightings.now known.now place result }
{
    if is_of_another_life(&sightings.list, &known.uber, known.listed, place) {
        return Standing::OtherLife(last);
    }
    if place >= known.disks() {
        return Standing::Foreign(Sighting {
            place,
            number: place,
            uber: last,
        });
    }
    if is_behind(last.group(), known.uber.group()) {
        return Standing::LeftBehind { last: last.group() };
    }
    if known.listed.has(place) {
        return Standing::Out;
    }
    if known.out.has(place) || sightings.unread.has(place) {
        return Standing::Unread;
    }
    Standing::InUse
}

/// What an image is that doesn't show the pool.
fn standing_without(sightings: &Sightings, known: &Known, place: u32) -> Standing
    ensures { IsSo sightings.now known.now place result }
{
    match shown_at(&sightings.list, place) {
        Some(sighting) => Standing::Foreign(sighting),
        None if sightings.unread.has(place) => Standing::Unread,
        None if known.is_joining(place) => Standing::Joining,
        None => Standing::Blank,
    }
}

/// Whether a disk that shows this group at last is out of a pool of this group: one that works is at most two behind.
pub fn is_behind(last: u64, group: u64) -> bool
    ensures { IsTrue result ↔ (last + 2 < group) }
{
    last.saturating_add(2) < group
}
