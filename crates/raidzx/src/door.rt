// Whether a command that changes a pool is let in: a slip in the words must cost no disk.
ghost use Rattle.std.specs.Prelude.{◌≡◌, ◌≢◌, ◌<◌, ◌↔◌, ℕ, IfOk, IsTrue, false, true};
ghost use Rattle.std.specs.List.{All};
ghost use Rattle.bank_trait.specs.Disk.{Unchanged};
ghost use Rattle.uberblock_ring.specs.Devices.{count_of, has_device};
ghost use Rattle.core_open.specs.declared.why.OpenWhy.TheVariants.{NoMemory};
ghost use Rattle.raidzx.specs.declared.door.Pool.TheVariants.{Chosen};
ghost use Rattle.raidzx.specs.declared.standing.Known.{Known as KnownOf};
ghost use Rattle.raidzx.specs.Refused.{AreRefused, IsAmiss};
ghost use Rattle.raidzx.specs.PlainlyWell.{IsInPlace, IsUpToDate, IsPlainlyWell};
ghost use Rattle.raidzx.specs.Seeing.{AreSeen};
ghost use Rattle.raidzx.specs.Surveyed.{FindsNone, FindsPool, IsPoolOf, ToldAsNone};

use crate::lives::{are_of_one_life, other_places};
use crate::places::{both, wrong_places};
use crate::sightings::{Sighting, Sightings, greatest, last_at, see};
use crate::standing::{Known, is_behind};
use bank_trait::Bank;
use block_record::IndexEntry;
use core_open::{Found, OpenWhy, find};
use std::alloc::{AllocError, Global};
use uberblock_ring::{DeviceSet, Uber};

/// The pool that images show.
#[derive(Clone, Copy, Debug)]
pub enum Pool {
    /// An opening chooses it.
    Chosen(Known),
    /// An opening chooses none, or too many of its disks are out; this is the pool that most images show.
    Likely(Known),
    /// None is shown, or all is plainly well.
    Untold,
}

/// What was seen of the images at the start.
#[derive(Drop)]
pub struct Survey {
    pub sightings: Sightings,
    pub pool: Pool,
    /// The blocks of the pool that an opening chooses.
    pub entries: Vec<IndexEntry>,
}

/// Looks at the images, by reads alone. Each ring is read once, and once more to choose, unless all is plainly well and
/// not everything is asked for.
#[tactic(auto, using(core_open::proofs::Unchanged::unchanged_none, core_open::proofs::Unchanged::unchanged_then))]
pub fn look_around<B: Bank>(
    alloc: Global,
    bank: &mut B,
    asks_all: bool,
) -> Result<Survey, AllocError>
    ensures unchanged { Unchanged (B.disk bank.old) (B.disk bank.new) }
    ensures seen { IfOk result (λ survey.
        AreSeen (B.disk bank.old) (B.disk bank.new) survey.sightings) }
    ensures chosen { IfOk result (FindsPool (B.disk bank.old) (B.disk bank.new)) }
    ensures none { IfOk result (FindsNone (B.disk bank.old) (B.disk bank.new) asks_all) }
{
    let named = bank.devices();
    let sightings = see(alloc, bank)?;
    if !asks_all && is_plainly_well(&sightings, named) {
        return Ok(Survey {
            sightings,
            pool: Pool::Untold,
            entries: Vec::new(alloc),
        });
    }
    match find(alloc, bank) {
        Ok(found) => Ok(surveyed(alloc, named, sightings, found)),
        Err(why) => unsurveyed(alloc, named, sightings, why),
    }
}

/// The pool is what was found, unless too many of its disks are out.
fn surveyed(alloc: Global, named: u32, sightings: Sightings, found: Found) -> Survey
    ensures chosen { (known : KnownOf) → result.pool ≡ Chosen known
        → IsPoolOf found named result known }
    ensures none { ToldAsNone result.pool → found.uber.parity < count_of found.out }
    ensures sightings { result.sightings ≡ sightings }
{
    if found.has_too_many_out() {
        return likely(alloc, named, sightings);
    }
    let pool = Pool::Chosen(Known::by_found(named, &sightings, &found));
    Survey {
        sightings,
        pool,
        entries: found.entries,
    }
}

/// Nothing was found to open. Want of memory tells nothing of the images.
fn unsurveyed(
    alloc: Global,
    named: u32,
    sightings: Sightings,
    why: OpenWhy,
) -> Result<Survey, AllocError>
    ensures none { IfOk result (λ survey. ToldAsNone survey.pool × (why ≢ NoMemory)) }
    ensures sightings { IfOk result (λ survey. survey.sightings ≡ sightings) }
{
    match why {
        OpenWhy::NoMemory => Err(AllocError),
        _ => Ok(likely(alloc, named, sightings)),
    }
}

/// The pool that most images show, which is not found by an opening.
fn likely(alloc: Global, named: u32, sightings: Sightings) -> Survey
    ensures none { ToldAsNone result.pool }
    ensures sightings { result.sightings ≡ sightings }
{
    let pool = likely_pool(&sightings, named);
    Survey {
        sightings,
        pool,
        entries: Vec::new(alloc),
    }
}

/// The pool that most images show, in whichever place.
fn likely_pool(sightings: &Sightings, named: u32) -> Pool
    ensures { ToldAsNone result }
{
    match greatest(&sightings.list, most_shown(&sightings.list)) {
        Some(uber) => Pool::Likely(Known::by_greatest(named, sightings, &uber)),
        None => Pool::Untold,
    }
}

fn most_shown(sightings: &[Sighting]) -> Option<u64> {
    let mut most = 0;
    let mut pool = None;
    for sighting in sightings {
        let count = count_showing(sightings, sighting.uber.pool());
        if count > most {
            most = count;
            pool = Some(sighting.uber.pool());
        }
    }
    pool
}

/// How many images show a pool, in whichever place.
fn count_showing(sightings: &[Sighting], pool: u64) -> u32 {
    let mut places = DeviceSet::empty();
    for sighting in sightings {
        if sighting.uber.pool() == pool && sighting.place < 64 {
            places.insert(sighting.place);
        }
    }
    places.len()
}

/// Whether each image that is read shows one pool, in its place and none of it left behind, and each disk of the pool
/// has one.
fn is_plainly_well(sightings: &Sightings, named: u32) -> bool
    ensures { IsTrue result → IsPlainlyWell sightings.now named }
{
    if sightings.list.is_empty() {
        return true;
    }
    match greatest(&sightings.list, None) {
        Some(uber) => all_show(&sightings.list, &uber, named) && all_are_near(sightings, &uber),
        None => false,
    }
}

fn all_show(sightings: &[Sighting], uber: &Uber, named: u32) -> bool
    ensures { IsTrue result ↔ All (λ sighting. IsInPlace sighting uber.now named) sightings.now }
{
    sightings
        .iter()
        .all(|sighting| is_in_place(sighting, uber, named))
}

/// Whether this is an uberblock of this one's pool, in its place, and names no more disks than are named.
fn is_in_place(sighting: &Sighting, uber: &Uber, named: u32) -> bool
    ensures { IsTrue result ↔ IsInPlace sighting.now uber.now named }
{
    sighting.number == sighting.place
        && sighting.uber.pool() == uber.pool()
        && sighting.uber.reflow().to <= named
        && are_of_one_life(&sighting.uber, uber)
}

/// Whether no image of the pool that is read was left behind.
fn all_are_near(sightings: &Sightings, uber: &Uber) -> bool
    ensures { IsTrue result → (place : ℕ) → place < uber.now.reflow.to
        → has_device sightings.now.unread place ≡ false
        → IsUpToDate sightings.now.list.items uber.now place }
{
    for place in 0..uber.reflow().to {
        if !sightings.unread.has(place) && !is_near(&sightings.list, uber, place) {
            return false;
        }
    }
    true
}

fn is_near(sightings: &[Sighting], uber: &Uber, place: u32) -> bool
    ensures { IsTrue result → IsUpToDate sightings.now uber.now place }
{
    match last_at(sightings, uber.pool(), place) {
        Some(last) => !is_behind(last.group(), uber.group()),
        None => false,
    }
}

/// The places for which a command that changes a pool is refused. There are none where no pool would be opened.
pub fn refused_places(survey: &Survey) -> DeviceSet
    ensures { AreRefused survey.now result }
{
    match &survey.pool {
        Pool::Chosen(known) => amiss_places(&survey.sightings.list, known),
        _ => DeviceSet::empty(),
    }
}

/// Those whose images stand wrong, those that no word names, and those whose images may be of the pool that is meant.
fn amiss_places(sightings: &[Sighting], known: &Known) -> DeviceSet
    ensures each { (place : ℕ) → has_device result place ≡ true
        ↔ ((place < 64) × IsAmiss sightings.now known.now place) }
{
    both(
        both(wrong_places(sightings, known.uber.pool()), known.unnamed()),
        other_places(sightings, &known.uber, known.listed),
    )
}
