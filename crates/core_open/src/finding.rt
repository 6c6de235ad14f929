// How an opening finds its pool.
ghost use Rattle.std.specs.Prelude.{◌≡◌, ◌<◌, ◌↔◌, [], All, Contains, IfErr, IfOk, IsTrue, OnErr};
ghost use Rattle.bank_trait.specs.Disk.{Disk, Image, Unchanged};
ghost use Rattle.uberblock_ring.specs.Devices.{IsWithin};
ghost use Rattle.uberblock_ring.specs.Valid.{IsRightUber};
ghost use Rattle.core_state.specs.Shown.{Shape, read_devices};
ghost use Rattle.core_open.specs.Candidates.{AreChosen, FirstFits, FirstHasRoom, FirstIsGiven, IsIndexFor};
ghost use Rattle.core_open.specs.RingUbers.{AreByGroup, AreRight, AreShown, AreTaken};
ghost use Rattle.core_open.specs.Failing.{HaveFailed, HaveFailedSince};
ghost use Rattle.core_open.specs.Finding.{FitsOpening, IsFindCause, IsFoundIn, IsNothingFound};
ghost use Rattle.core_open.specs.Holds.{HoldsImage, shape_of};
ghost use Rattle.core_open.specs.Lacking.{IsFirstGiver};

use crate::OpenWhy;
use crate::candidates::Candidates;
use crate::choice::choose;
use crate::out::{devices_lacking, devices_out};
use crate::reading::{Rings, read_rings};
use crate::stopped::Stopped;
use bank_trait::Bank;
use block_record::IndexEntry;
use std::alloc::Global;
use uberblock_ring::{DeviceSet, Uber};

/// What an opening found: the chosen uberblock, the lowest device that shows it as a candidate, and
/// its index.
#[derive(Debug, Drop)]
pub struct Found {
    /// Devices that failed. They weren't called again.
    pub silent: DeviceSet,
    pub device: u32,
    pub uber: Uber,
    pub entries: Vec<IndexEntry>,
    /// The first device that gives the index page.
    pub giver: u32,
    /// Devices of the pool that are out.
    pub out: DeviceSet,
    /// Devices in use that show no candidate of the chosen group.
    pub lacks_uber: DeviceSet,
}

impl Found {
    ghost use Rattle.uberblock_ring.specs.Devices.{count_of};

    /// Whether more devices are out than there are parities.
    pub fn has_too_many_out(&self) -> bool
        ensures { IsTrue result ↔ (self.now.uber.parity < count_of self.now.out) }
    {
        self.out.exceeds(self.uber.parity())
    }
}

/// Finds what a pool is to be opened with, by reads alone. A device that fails isn't called again,
/// and the choice is made among the others. Whether too many are out is left to the caller, and so
/// is the limit of groups.
pub fn find<B: Bank>(alloc: Global, bank: &mut B) -> Result<Found, OpenWhy>
    ensures found { IfOk result (λ found. (image : Image) → HoldsImage (B.disk bank.old) image
        → IsFoundIn (shape_of (B.disk bank.old)) image found) }
    ensures right { IfOk result (λ found. IsRightUber found.uber) }
    ensures index { IfOk result (λ found. IsIndexFor found.uber found.entries.items) }
    ensures fits { IfOk result (FitsOpening (B.disk bank.old)) }
    ensures given { IfOk result (λ found. IsFirstGiver (B.disk bank.old)
        found.silent found.uber found.entries.items found.giver) }
    ensures silent { IfOk result (λ found.
        HaveFailed (B.disk bank.old) (B.disk bank.new) found.silent) }
    ensures cause { IfErr result (IsFindCause (B.disk bank.old) (B.disk bank.new)) }
    ensures unchanged { Unchanged (B.disk bank.old) (B.disk bank.new) }
{
    let mut rings = read_rings(alloc, bank)?;
    let candidates = choose_anew(alloc, bank, &mut rings)?;
    conclude(bank.devices(), &rings, candidates)
}

/// The choice among the devices that answer to its end: it is made anew after each that fails.
fn choose_anew<B: Bank>(
    alloc: Global,
    bank: &mut B,
    rings: &mut Rings,
) -> Result<Candidates, OpenWhy>
    requires right { AreRight 16 rings.old.ubers.items }
    requires order { AreByGroup rings.old.ubers.items }
    ensures ubers { rings.new.ubers.items ≡ rings.old.ubers.items }
    ensures taken { rings.new.taken ≡ rings.old.taken }
    ensures within { IsWithin rings.old.silent rings.new.silent }
    ensures silent { HaveFailedSince (B.disk bank.old) (B.disk bank.new)
        rings.old.silent rings.new.silent }
    ensures unchanged { Unchanged (B.disk bank.old) (B.disk bank.new) }
    ensures listed { IfOk result (λ candidates.
        All (Contains rings.old.ubers.items) candidates.ubers.items) }
    ensures first { IfOk result (λ candidates.
        FirstFits candidates.ubers.items candidates.entries.items) }
    ensures room { IfOk result (λ candidates.
        FirstHasRoom (B.disk bank.old).sectors candidates.ubers.items) }
    ensures given { IfOk result (λ candidates. FirstIsGiven (B.disk bank.old) rings.new.silent
        candidates.ubers.items candidates.entries.items candidates.giver) }
    ensures chosen { IfOk result (λ candidates. (image : Image)
        → HoldsImage (B.disk bank.old) image
        → AreShown (shape_of (B.disk bank.old)) rings.new.silent image
        (read_devices (shape_of (B.disk bank.old))) rings.old.ubers.items
        → AreChosen (shape_of (B.disk bank.old)) rings.new.silent image
        candidates.ubers.items candidates.entries.items) }
    ensures cause { IfErr result (λ why. why ≡ OpenWhy.NoMemory) }
{
    loop {
        match choose(alloc, bank, rings) {
            Ok(candidates) => return Ok(candidates),
            Err(Stopped::Failed { device }) => rings.silent.insert(device),
            Err(Stopped::NoMemory) => return Err(OpenWhy::NoMemory),
        }
    }
}

/// What is found with these candidates of the chosen group on a bank of so many devices.
fn conclude(devices: u32, rings: &Rings, candidates: Candidates) -> Result<Found, OpenWhy>
    requires right { AreRight 16 rings.now.ubers.items }
    requires listed { All (Contains rings.now.ubers.items) candidates.ubers.items }
    requires first { FirstFits candidates.ubers.items candidates.entries.items }
    ensures found { IfOk result (λ found. (shape : Shape) (image : Image)
        → shape.devices ≡ devices
        → AreShown shape rings.now.silent image (read_devices shape) rings.now.ubers.items
        → AreTaken shape rings.now.silent image (read_devices shape) rings.now.taken
        → AreChosen shape rings.now.silent image
        candidates.ubers.items candidates.entries.items
        → IsFoundIn shape image found) }
    ensures right { IfOk result (λ found. IsRightUber found.uber) }
    ensures index { IfOk result (λ found. IsIndexFor found.uber found.entries.items) }
    ensures fits { IfOk result (λ found. (disk : Disk) → disk.devices ≡ devices
        → FirstHasRoom disk.sectors candidates.ubers.items → FitsOpening disk found) }
    ensures given { IfOk result (λ found. (disk : Disk) → FirstIsGiven disk rings.now.silent
        candidates.ubers.items candidates.entries.items candidates.giver
        → IsFirstGiver disk found.silent found.uber found.entries.items found.giver) }
    ensures silent { IfOk result (λ found. found.silent ≡ rings.now.silent) }
    ensures none { OnErr result (candidates.ubers.items ≡ []) }
    ensures cause { IfErr result (IsNothingFound rings.now.silent) }
{
    let Candidates {
        ubers,
        entries,
        giver,
    } = candidates;
    let Some(first) = ubers.first() else {
        return Err(nothing_found(rings.silent));
    };
    let uber = first.uber;
    let out = devices_out(devices, rings, &ubers, &uber);
    let lacks_uber = devices_lacking(&ubers, uber.reflow().to, out);
    Ok(Found {
        silent: rings.silent,
        device: first.device,
        uber,
        entries,
        giver,
        out,
        lacks_uber,
    })
}

/// Why there is nothing to open, where these devices failed.
fn nothing_found(silent: DeviceSet) -> OpenWhy
    ensures { IsNothingFound silent result }
{
    if silent.is_empty() {
        OpenWhy::NotPool
    } else {
        OpenWhy::TooManyFailed { out: silent }
    }
}
