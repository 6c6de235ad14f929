// Opening a pool.
ghost use Rattle.std.specs.Prelude.{◌≡◌, ◌+◌, ◌^◌, ◌<◌, ◌≤◌, IfErr, IfOk};
ghost use Rattle.bank_trait.specs.Disk.{Image};
ghost use Rattle.bank_trait.specs.Regions.{TouchesOnly};
ghost use Rattle.block_record.specs.Page.{IsIndex};
ghost use Rattle.uberblock_ring.specs.Devices.{count_of};
ghost use Rattle.uberblock_ring.specs.Uberblock.{max_group};
ghost use Rattle.uberblock_ring.specs.Valid.{IsRightUber};
ghost use Rattle.core_commit.specs.Ran.{FitsBank};
ghost use Rattle.core_state.specs.Committing.{point_of};
ghost use Rattle.core_commit.specs.Spared.{SparesData};
ghost use Rattle.core_open.specs.Candidates.{IsIndexFor};
ghost use Rattle.core_open.specs.Causes.{AreOutOf, IsOpenCause};
ghost use Rattle.core_open.specs.Failing.{HaveFailed};
ghost use Rattle.core_open.specs.Finding.{FitsOpening};
ghost use Rattle.core_open.specs.Holds.{HoldsImage, shape_of};
ghost use Rattle.core_open.specs.Lacking.{IsFirstGiver};
ghost use Rattle.core_open.specs.Opens.{EndsRenewal, HasBank, IsForMemory, IsOpenedWith, IsWithinBelow, LeavesBank};
ghost use Rattle.core_open.specs.Opens.{LeavesOthers, OpeningKeeps, RenewsChoice, WritesInOrder};
ghost use Rattle.core_open.specs.OpensFound.{OpensFound};
ghost use Rattle.core_open.specs.Regions.{IsOnBelow};

use crate::OpenWhy;
use crate::finding::{Found, find};
use crate::page_lack::devices_without_page;
use bank_trait::Bank;
use block_record::IndexEntry;
use core_commit::spread;
use std::alloc::Global;
use uberblock_ring::{DeviceSet, MAX_GROUP, Uber};

/// What a pool was opened with: the uberblock of the group that the opening wrote, and its index.
#[derive(Drop)]
pub struct Opened {
    pub uber: Uber,
    pub entries: Vec<IndexEntry>,
    /// Devices that failed while the pool was looked for. They weren't called again.
    pub silent: DeviceSet,
    /// Devices of the pool that are out.
    pub out: DeviceSet,
}

/// Brings the chosen group to the devices in use that lack it, and then writes the uberblock of the group
/// two above it to each: its index page stands already. Gives that uberblock.
fn renew<B: Bank>(
    bank: &mut B,
    uber: &Uber,
    entries: &[IndexEntry],
    lack_page: DeviceSet,
    lack_uber: DeviceSet,
    out: &mut DeviceSet,
) -> Result<Uber, OpenWhy>
    requires right { IsRightUber uber.now }
    requires limit { uber.now.group + 2 ≤ max_group }
    requires index { IsIndex entries.now }
    requires fits { FitsBank uber.now entries.now out.old (B.disk bank.old) }
    requires below { out.old < 2 ^ uber.now.reflow.to }
    ensures below { out.new < 2 ^ uber.now.reflow.to }
    ensures ends { EndsRenewal uber.now entries.now lack_page lack_uber
        (point_of out.old (B.disk bank.old)) (point_of out.new (B.disk bank.new)) result }
{
    if spread(bank, uber, entries, lack_page, lack_uber, out).is_err() {
        return Err(OpenWhy::TooManyFailed { out: *out });
    }
    let mut renewed = *uber;
    renewed.set_group(uber.group() + 2);
    renewed.set_out(*out);
    let every = DeviceSet::from_bits(u64::MAX);
    if spread(bank, &renewed, entries, DeviceSet::empty(), every, out).is_err() {
        return Err(OpenWhy::TooManyFailed { out: *out });
    }
    Ok(renewed)
}

/// Opens a pool with what was found.
fn open_found<B: Bank>(bank: &mut B, found: Found) -> Result<Opened, OpenWhy>
    requires right { IsRightUber found.uber }
    requires index { IsIndexFor found.uber found.entries.items }
    requires fits { FitsOpening (B.disk bank.old) found }
    requires given { IsFirstGiver (B.disk bank.old) found.silent found.uber
        found.entries.items found.giver }
    ensures opens { OpensFound found (B.disk bank.old) (B.disk bank.new) result }
{
    if found.uber.group() > MAX_GROUP - 2 {
        return Err(OpenWhy::Limit { group: MAX_GROUP });
    }
    if found.has_too_many_out() {
        return Err(OpenWhy::TooManyFailed { out: found.out });
    }
    let mut out = found.out;
    let lack_page = devices_without_page(bank, &found.uber, &found.entries, found.giver, &mut out);
    let uber = renew(
        bank,
        &found.uber,
        &found.entries,
        lack_page,
        found.lacks_uber,
        &mut out,
    )?;
    Ok(Opened {
        uber,
        entries: found.entries,
        silent: found.silent,
        out,
    })
}

/// Opens the pool that the devices show: the greatest group that they give is brought to those that lack
/// it, and a group that renews it is written, two above. Answers `Limit` where there is no such number,
/// before it looks whether too many devices are out.
pub fn open<B: Bank>(alloc: Global, bank: &mut B) -> Result<Opened, OpenWhy>
    ensures right { IfOk result (λ opened. IsRightUber opened.uber) }
    ensures index { IfOk result (λ opened. IsIndexFor opened.uber opened.entries.items) }
    ensures silent { IfOk result (λ opened.
        HaveFailed (B.disk bank.old) (B.disk bank.new) opened.silent) }
    ensures missed { IfOk result (λ opened.
        IsWithinBelow opened.uber.reflow.to opened.silent opened.uber.out) }
    ensures renews { IfOk result (λ opened. (image : Image) → HoldsImage (B.disk bank.old) image
        → RenewsChoice (shape_of (B.disk bank.old)) opened.silent image
        opened.uber opened.entries.items) }
    ensures out { IfOk result (λ opened. AreOutOf (B.disk bank.old) (B.disk bank.new)
        opened.silent opened.uber opened.out) }
    ensures spares { IfOk result (λ opened. SparesData (point_of opened.out (B.disk bank.old))
        (point_of opened.out (B.disk bank.new))) }
    ensures few { IfOk result (λ opened. count_of opened.out ≤ opened.uber.parity) }
    ensures below { IfOk result (λ opened. opened.out < 2 ^ opened.uber.reflow.to) }
    ensures bank { IfOk result (λ opened.
        HasBank opened.uber opened.out (B.disk bank.new)) }
    ensures group { IfOk result (λ opened. 3 ≤ opened.uber.group) }
    ensures kept { IfOk result (λ opened. IsOpenedWith opened.uber opened.entries.items
        opened.silent opened.out (B.disk bank.old) (B.disk bank.new)) }
    ensures since { IfOk result (λ opened. OpeningKeeps opened.silent
        opened.uber.out (B.disk bank.old) (B.disk bank.new)) }
    ensures cause { IfErr result (IsOpenCause (B.disk bank.old) (B.disk bank.new)) }
    ensures untouched { IfErr result (λ why.
        LeavesBank why (B.disk bank.old) (B.disk bank.new)) }
    ensures opens { IfErr result (IsForMemory (B.disk bank.old) (B.disk bank.new)) }

    // The chosen group is written to devices that lack it, and nothing else until the uberblock that renews it.
    ensures writes { IfOk result (λ opened. WritesInOrder (B.disk bank.old) (B.disk bank.new)
        opened.silent opened.uber) }

    // No device is touched but those of the pool.
    ensures only { IfOk result (λ opened. TouchesOnly (IsOnBelow opened.uber.reflow.to)
        (B.disk bank.old) (B.disk bank.new)) }
    ensures others { LeavesOthers (B.disk bank.old) (B.disk bank.new) }
{
    let found = find(alloc, bank)?;
    open_found(bank, found)
}
