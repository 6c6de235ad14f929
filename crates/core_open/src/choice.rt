// Which uberblock a pool is opened with.
ghost use Rattle.std.specs.Prelude.{◌≡◌, ◌↔◌, All, Contains, IfErr, IfOk, IsTrue, false};
ghost use Rattle.bank_trait.specs.Disk.{Image, Unchanged};
ghost use Rattle.uberblock_ring.specs.Devices.{has_device};
ghost use Rattle.core_state.specs.Shown.{read_devices};
ghost use Rattle.core_open.specs.Candidates.{AreChosen, AreNewest, FirstFits, FirstHasRoom, FirstIsGiven};
ghost use Rattle.core_open.specs.RingUbers.{AreByGroup, AreRight, AreShown};
ghost use Rattle.core_open.specs.Failing.{HasStopped};
ghost use Rattle.core_open.specs.Holds.{HoldsImage, shape_of};

use crate::candidates::Candidates;
use crate::reading::Rings;
use crate::ring_uber::RingUber;
use crate::stopped::Stopped;
use crate::votes::choose_pool;
use bank_trait::Bank;
use std::alloc::Global;
use uberblock_ring::DeviceSet;

/// The candidates of the chosen group, by device; the first is the chosen one. There are none where
/// the devices that aren't silent choose no pool, or show no candidate of it.
pub fn choose<B: Bank>(alloc: Global, bank: &mut B, rings: &Rings) -> Result<Candidates, Stopped>
    requires right { AreRight 16 rings.now.ubers.items }
    requires order { AreByGroup rings.now.ubers.items }
    ensures unchanged { Unchanged (B.disk bank.old) (B.disk bank.new) }
    ensures stopped { IfErr result
        (HasStopped rings.now.silent (B.disk bank.old) (B.disk bank.new)) }
    ensures listed { IfOk result (λ candidates.
        All (Contains rings.now.ubers.items) candidates.ubers.items) }
    ensures first { IfOk result (λ candidates.
        FirstFits candidates.ubers.items candidates.entries.items) }
    ensures room { IfOk result (λ candidates.
        FirstHasRoom (B.disk bank.old).sectors candidates.ubers.items) }
    ensures given { IfOk result (λ candidates. FirstIsGiven (B.disk bank.old) rings.now.silent
        candidates.ubers.items candidates.entries.items candidates.giver) }
    ensures chosen { IfOk result (λ candidates. (image : Image)
        → HoldsImage (B.disk bank.old) image
        → AreShown (shape_of (B.disk bank.old)) rings.now.silent image
        (read_devices (shape_of (B.disk bank.old))) rings.now.ubers.items
        → AreChosen (shape_of (B.disk bank.old)) rings.now.silent image
        candidates.ubers.items candidates.entries.items) }
{
    match choose_pool(alloc, rings)? {
        Some(pool) => newest_candidates(alloc, bank, rings, pool),
        None => Ok(Candidates::none(alloc)),
    }
}

/// The pool's candidates of the greatest group that has any. Groups are looked at from the greatest
/// down.
fn newest_candidates<B: Bank>(
    alloc: Global,
    bank: &mut B,
    rings: &Rings,
    pool: u64,
) -> Result<Candidates, Stopped>
    requires right { AreRight 16 rings.now.ubers.items }
    requires order { AreByGroup rings.now.ubers.items }
    ensures unchanged { Unchanged (B.disk bank.old) (B.disk bank.new) }
    ensures stopped { IfErr result
        (HasStopped rings.now.silent (B.disk bank.old) (B.disk bank.new)) }
    ensures listed { IfOk result (λ candidates.
        All (Contains rings.now.ubers.items) candidates.ubers.items) }
    ensures first { IfOk result (λ candidates.
        FirstFits candidates.ubers.items candidates.entries.items) }
    ensures room { IfOk result (λ candidates.
        FirstHasRoom (B.disk bank.old).sectors candidates.ubers.items) }
    ensures given { IfOk result (λ candidates. FirstIsGiven (B.disk bank.old) rings.now.silent
        candidates.ubers.items candidates.entries.items candidates.giver) }
    ensures newest { IfOk result (λ candidates. (image : Image)
        → HoldsImage (B.disk bank.old) image
        → AreShown (shape_of (B.disk bank.old)) rings.now.silent image
        (read_devices (shape_of (B.disk bank.old))) rings.now.ubers.items
        → AreNewest (shape_of (B.disk bank.old)) rings.now.silent image pool
        candidates.ubers.items candidates.entries.items) }
{
    let mut candidates = Candidates::none(alloc);
    for ring_uber in &rings.ubers {
        if candidates.are_of_another_group(ring_uber) {
            return Ok(candidates);
        }
        if !is_open(ring_uber, pool, rings.silent) {
            continue;
        }
        candidates.consider(alloc, bank, ring_uber, rings.silent)?;
    }
    Ok(candidates)
}

/// Whether an uberblock is of the pool, on a device that isn't silent.
fn is_open(ring_uber: &RingUber, pool: u64, silent: DeviceSet) -> bool
    ensures { IsTrue result ↔ ((ring_uber.now.uber.pool ≡ pool)
        × (has_device silent ring_uber.now.device ≡ false)) }
{
    ring_uber.uber.pool() == pool && !silent.has(ring_uber.device)
}
