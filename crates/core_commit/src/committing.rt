// The device calls of a commit, and of bringing a group to devices that lack it.
ghost use Rattle.std.specs.Prelude.{◌≡◌, ◌↔◌, ◌+◌, ◌*◌, ◌^◌, ◌<◌, ◌≤◌, [], All, Some, None, false, length, take, drop};
ghost use Rattle.std.specs.Prelude.{slice_get, IfSome, IsTrue, OnOk, OnErr};
ghost use Rattle.bank_trait.specs.Disk.{Wrote};
ghost use Rattle.block_record.specs.Page.{index_page, page_sectors, IsIndex};
ghost use Rattle.uberblock_ring.specs.Devices.{has_device, count_of};
ghost use Rattle.uberblock_ring.specs.Uberblock.{area_sector};
ghost use Rattle.uberblock_ring.specs.Valid.{IsRightUber};
ghost use Rattle.commit_job.specs.declared.call.CommitCall.{CommitCall as CallOf};
ghost use Rattle.commit_job.specs.Stages.{device_of, calls_left};
ghost use Rattle.core_commit.specs.Spread.{SpreadKeeps};
ghost use Rattle.core_commit.specs.Ran.{HasMade, MadeOne, Ran, IsCallInPool, FitsBank, IsSigning, index_part};
ghost use Rattle.core_state.specs.Committing.{point_of};
ghost use Rattle.core_commit.specs.Spared.{SparesData, HaveGoneOut, TouchesGroup, StopsInTime};
ghost use Rattle.core_commit.specs.Writing.{IsSpreadOf, WritesOnly};

use bank_trait::{Bank, Failed};
use block_record::{IndexEntry, index_sector};
use commit_job::{Commit, CommitCall};
use uberblock_ring::{DeviceSet, Uber, area_sector, slot};

/// Writes a sector of the index page to a device: from `page`, where it stands encoded, and else from the entries.
pub(crate) fn write_part<B: Bank>(
    bank: &mut B,
    uber: &Uber,
    entries: &[IndexEntry],
    page: Option<&[u8]>,
    device: u32,
    part: u64,
) -> Result<(), Failed>
    requires right { IsRightUber uber.now }
    requires index { IsIndex entries.now }
    requires counted { length entries.now ≡ uber.now.count }
    requires page { IfSome page (λ bytes. bytes.now ≡ index_page entries.now) }
    requires sectors { 192 ≤ (B.disk bank.old).sectors }
    requires device { device < (B.disk bank.old).devices }
    requires part { part < page_sectors uber.now.count }
    ensures { Wrote (B.disk bank.old) (B.disk bank.new) device (area_sector uber.now.area + part)
        (index_part entries.now part) result }
{
    let device_sector = area_sector(uber.area()) + part;
    match page {
        Some(bytes) => bank.write(device, device_sector, sector_of(bytes, part)),
        None => bank.write(device, device_sector, &index_sector(entries, part)),
    }
}

/// One sector of whole ones, counted from 0, where it stands among them.
fn sector_of(bytes: &[u8], part: u64) -> &[u8; 512]
    requires inside { 512 * part + 512 ≤ length bytes.now }
    ensures value { result.now ≡ take 512 (drop (512 * part) bytes.now) }
{
    let start = 512 * part as usize;
    let Some(sector) = bytes[start..start + 512].as_array::<512>() else {
        unreachable!();
    };
    sector
}

/// Makes one call. `page` is the index page, where it stands encoded.
fn call_bank<B: Bank>(
    bank: &mut B,
    uber: &Uber,
    entries: &[IndexEntry],
    page: Option<&[u8]>,
    call: CommitCall,
) -> Result<(), Failed>
    requires right { IsRightUber uber.now }
    requires index { IsIndex entries.now }
    requires counted { length entries.now ≡ uber.now.count }
    requires page { IfSome page (λ bytes. bytes.now ≡ index_page entries.now) }
    requires sectors { 192 ≤ (B.disk bank.old).sectors }
    requires device { device_of call < (B.disk bank.old).devices }
    requires inside { IsCallInPool uber.now call }
    ensures { HasMade uber.now entries.now call (B.disk bank.old) (B.disk bank.new) result }
{
    match call {
        CommitCall::IndexWrite { device, part } => {
            write_part(bank, uber, entries, page, device, part)
        }
        CommitCall::UberWrite { device } => {
            bank.write(device, u64::from(slot(uber.group())), &uber.encode(device))
        }
        CommitCall::BaseSync { device } => bank.sync(device),
        CommitCall::UberSync { device } => bank.sync(device),
    }
}

/// Makes one call, and puts its device out where it fails. `page` is the index page, where it stands
/// encoded.
pub(crate) fn make<B: Bank>(
    bank: &mut B,
    uber: &Uber,
    entries: &[IndexEntry],
    page: Option<&[u8]>,
    call: CommitCall,
    out: &mut DeviceSet,
)
    requires right { IsRightUber uber.now }
    requires index { IsIndex entries.now }
    requires page { IfSome page (λ bytes. bytes.now ≡ index_page entries.now) }
    requires fits { FitsBank uber.now entries.now out.old (B.disk bank.old) }
    requires inside { IsCallInPool uber.now call }
    requires in_use { has_device out.old (device_of call) ≡ false }
    requires below { out.old < 2 ^ uber.now.reflow.to }
    ensures made { MadeOne uber.now entries.now call (point_of out.old (B.disk bank.old))
        (point_of out.new (B.disk bank.new)) }
    ensures one { count_of out.new ≤ count_of out.old + 1 }
    ensures fits { FitsBank uber.now entries.now out.new (B.disk bank.new) }
    ensures below { out.new < 2 ^ uber.now.reflow.to }
{
    if call_bank(bank, uber, entries, page, call).is_err() {
        out.insert(call.device());
    }
}

/// Whether a call writes an uberblock of the group, or syncs one.
pub(crate) fn is_signing(call: CommitCall) -> bool
    ensures { IsTrue result ↔ IsSigning call }
{
    match call {
        CommitCall::IndexWrite { .. } | CommitCall::BaseSync { .. } => false,
        CommitCall::UberWrite { .. } | CommitCall::UberSync { .. } => true,
    }
}

/// The next call, unless more devices are out than there are parities: none is called then.
fn next_call(calls: &Commit, out: DeviceSet, parity: u32) -> Option<CommitCall>
    ensures some { (call : CallOf) → result ≡ Some call
        → slice_get (calls_left out calls.now) 0 ≡ Some call }
    ensures few { (call : CallOf) → result ≡ Some call → count_of out ≤ parity }
    ensures none { result ≡ None → count_of out ≤ parity → calls_left out calls.now ≡ [] }
{
    if out.exceeds(parity) {
        return None;
    }
    calls.next(out)
}

/// Makes all calls that are left, unless more devices go out than there are parities.
fn make_all<B: Bank>(
    bank: &mut B,
    uber: &Uber,
    entries: &[IndexEntry],
    calls: &mut Commit,
    out: &mut DeviceSet,
)
    requires right { IsRightUber uber.now }
    requires index { IsIndex entries.now }
    requires fits { FitsBank uber.now entries.now out.old (B.disk bank.old) }
    requires inside { All (IsCallInPool uber.now) calls.old }
    requires below { out.old < 2 ^ uber.now.reflow.to }
    ensures ran { Ran uber.now entries.now calls.old (point_of out.old (B.disk bank.old))
        calls.new (point_of out.new (B.disk bank.new)) }
    ensures touches { TouchesGroup uber.now (point_of out.old (B.disk bank.old))
        (point_of out.new (B.disk bank.new)) }
    ensures stops { StopsInTime uber.now.parity (point_of out.old (B.disk bank.old))
        (point_of out.new (B.disk bank.new)) }
    ensures ends { count_of out.new ≤ uber.now.parity → calls_left out.new calls.new ≡ [] }
    ensures below { out.new < 2 ^ uber.now.reflow.to }
{
    while let Some(call) = next_call(calls, *out, uber.parity()) {
        let _ = calls.advance(*out);
        make(bank, uber, entries, None, call, out);
    }
}

/// More devices are out than there are parities.
#[derive(Clone, Copy, Debug, PartialEq, Eq)]
pub struct TooManyOut;

/// Brings a group that some devices have to those that lack its index page or its uberblock, and syncs
/// each device. A device whose call fails goes out; once more are out than there are parities, none is
/// called.
pub fn spread<B: Bank>(
    bank: &mut B,
    uber: &Uber,
    entries: &[IndexEntry],
    lack_page: DeviceSet,
    lack_uber: DeviceSet,
    out: &mut DeviceSet,
) -> Result<(), TooManyOut>
    requires right { IsRightUber uber.now }
    requires index { IsIndex entries.now }
    requires fits { FitsBank uber.now entries.now out.old (B.disk bank.old) }
    requires below { out.old < 2 ^ uber.now.reflow.to }
    ensures below { out.new < 2 ^ uber.now.reflow.to }
    ensures ok { OnOk result (count_of out.new ≤ uber.now.parity) }
    ensures err { OnErr result (uber.now.parity < count_of out.new) }
    ensures gone { HaveGoneOut (point_of out.old (B.disk bank.old)) out.old
        (point_of out.new (B.disk bank.new)) }
    ensures spares { SparesData (point_of out.old (B.disk bank.old))
        (point_of out.new (B.disk bank.new)) }
    ensures touches { TouchesGroup uber.now (point_of out.old (B.disk bank.old))
        (point_of out.new (B.disk bank.new)) }
    ensures stops { StopsInTime uber.now.parity (point_of out.old (B.disk bank.old))
        (point_of out.new (B.disk bank.new)) }
    ensures writes { WritesOnly (IsSpreadOf uber.now entries.now lack_page lack_uber out.old)
        (B.disk bank.old) (B.disk bank.new) }
    ensures keeps { SpreadKeeps uber.now entries.now lack_page lack_uber
        (point_of out.old (B.disk bank.old)) (point_of out.new (B.disk bank.new)) result }
{
    let mut calls = Commit::spread(uber.reflow().to, uber.count(), lack_page, lack_uber);
    make_all(bank, uber, entries, &mut calls, out);
    if out.exceeds(uber.parity()) {
        return Err(TooManyOut);
    }
    Ok(())
}
