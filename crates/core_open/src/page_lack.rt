// Which devices in use lack an index page.
ghost use Rattle.std.specs.Prelude.{◌≡◌, ◌<◌, ◌≤◌, ◌^◌, ◌==◌, min, IfOk, OnErr};
ghost use Rattle.bank_trait.specs.Causes.{FaultCounted};
ghost use Rattle.bank_trait.specs.Disk.{Unchanged};
ghost use Rattle.uberblock_ring.specs.Devices.{IsWithin};
ghost use Rattle.uberblock_ring.specs.Valid.{IsRightUber};
ghost use Rattle.core_open.specs.Failing.{HaveFailedSince};
ghost use Rattle.core_open.specs.Lacking.{AreLacking, GivesOrLacks, HasAllBut, IsFirstGiver};
ghost use Rattle.core_open.specs.Pages.{IsGivenPage};

use crate::index_page::holds_page;
use bank_trait::{Bank, Failed};
use block_record::IndexEntry;
use uberblock_ring::{DeviceSet, Uber};

/// The devices in use that don't give the index page of these entries. Those behind the first that
/// gives it are asked, each once; one whose read fails is out from then on.
pub(crate) fn devices_without_page<B: Bank>(
    bank: &mut B,
    uber: &Uber,
    entries: &[IndexEntry],
    giver: u32,
    out: &mut DeviceSet,
) -> DeviceSet
    requires right { IsRightUber uber.now }
    requires given { IsFirstGiver (B.disk bank.old) out.old uber.now entries.now giver }
    requires sectors { 192 ≤ (B.disk bank.old).sectors }
    requires devices { HasAllBut (B.disk bank.old) uber.now.reflow.to out.old }
    requires below { out.old < 2 ^ uber.now.reflow.to }
    ensures unchanged { Unchanged (B.disk bank.old) (B.disk bank.new) }
    ensures below { out.new < 2 ^ uber.now.reflow.to }
    ensures within { IsWithin out.old out.new }
    ensures out { HaveFailedSince (B.disk bank.old) (B.disk bank.new) out.old out.new }
    ensures lacks { AreLacking (B.disk bank.old) uber.now entries.now
        uber.now.reflow.to out.new result }
{
    let mut lacking = DeviceSet::empty();
    for device in 0..uber.reflow().to {
        if out.has(device) {
            continue;
        }
        match gives_page(bank, uber, entries, giver, device) {
            Ok(true) => {}
            Ok(false) => lacking.insert(device),
            Err(_) => out.insert(device),
        }
    }
    lacking
}

/// Whether a device gives the index page of these entries, which `giver` gives. Up to that first giver
/// none is read again; behind it the bytes of each are compared with the entries' page, which is known
/// to have the recorded digest.
fn gives_page<B: Bank>(
    bank: &mut B,
    uber: &Uber,
    entries: &[IndexEntry],
    giver: u32,
    device: u32,
) -> Result<bool, Failed>
    requires right { IsRightUber uber.now }
    requires given { IsGivenPage (B.disk bank.old) uber.now giver entries.now }
    requires before { device ≤ giver
        → GivesOrLacks (B.disk bank.old) uber.now device entries.now (device == giver) }
    requires device { device < min (B.disk bank.old).devices 16 }
    requires sectors { 192 ≤ (B.disk bank.old).sectors }
    ensures gives { IfOk result (GivesOrLacks (B.disk bank.old) uber.now device entries.now) }
    ensures failed { OnErr result
        (FaultCounted ((B.disk bank.old).faults device) ((B.disk bank.new).faults device)) }
    ensures unchanged { Unchanged (B.disk bank.old) (B.disk bank.new) }
{
    if device <= giver {
        return Ok(device == giver);
    }
    holds_page(bank, uber, entries, device)
}
