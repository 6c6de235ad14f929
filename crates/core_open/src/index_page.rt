// An uberblock's index page, read from a device.
ghost use Rattle.std.specs.Prelude.{◌≡◌, ◌↔◌, ◌+◌, ◌*◌, ◌<◌, ◌≤◌, ℕ, List, length, min, IfOk, IfNone, IfSome, IsErrOf};
ghost use Rattle.std.specs.Prelude.{IsTrue, OnErr};
ghost use Rattle.bank_trait.specs.Causes.{FaultCounted};
ghost use Rattle.bank_trait.specs.Disk.{Unchanged};
ghost use Rattle.block_record.specs.declared.entry.IndexEntry.{IndexEntry as EntryOf};
ghost use Rattle.block_record.specs.Page.{index_page, page_sectors as sectors_of_page, IsIndex};
ghost use Rattle.uberblock_ring.specs.Valid.{IsRightUber};
ghost use Rattle.core_open.specs.declared.index_page.PageFault.TheVariants as fault;
ghost use Rattle.core_open.specs.Pages.{page_piece, AreDeviceSectors, IsComparedPage, IsGivenPage, IsNotGiven};
ghost use Rattle.core_open.specs.Pages.{IsRecordedPage};

use bank_trait::{Bank, Failed};
use block_record::{IndexEntry, IndexRefused, index_sector, page_sectors, read_index};
use sha2::{Digest, Sha256};
use std::alloc::{AllocError, Global};
use uberblock_ring::{Uber, area_sector};

/// Why a page could not be read.
#[derive(Clone, Copy, Debug, PartialEq, Eq)]
pub(crate) enum PageFault {
    Failed,
    NoMemory,
}

impl From<Failed> for PageFault {
    ghost from_gives = { λ _ why. why ≡ fault.Failed };

    fn from(_error: Failed) -> PageFault {
        PageFault::Failed
    }
}

impl From<AllocError> for PageFault {
    ghost from_gives = { λ _ why. why ≡ fault.NoMemory };

    fn from(_error: AllocError) -> PageFault {
        PageFault::NoMemory
    }
}

/// The entries of an uberblock's index page, where the device gives it.
///
/// Each sector is read once, up to the first that fails; the page of an empty index has none. The
/// bytes are taken for entries only where their digest is the recorded one.
pub(crate) fn read_page<B: Bank>(
    alloc: Global,
    bank: &mut B,
    uber: &Uber,
    device: u32,
) -> Result<Option<Vec<IndexEntry>>, PageFault>
    requires right { IsRightUber uber.now }
    requires device { device < min (B.disk bank.old).devices 16 }
    requires sectors { 192 ≤ (B.disk bank.old).sectors }
    ensures some { IfOk result (λ page. IfSome page (λ entries.
        IsGivenPage (B.disk bank.old) uber.now device entries.items)) }
    ensures none { IfOk result (λ page. IfNone page
        (IsNotGiven (B.disk bank.old) uber.now device)) }
    ensures failed { IsErrOf result PageFault.Failed
        → FaultCounted ((B.disk bank.old).faults device) ((B.disk bank.new).faults device) }
    ensures unchanged { Unchanged (B.disk bank.old) (B.disk bank.new) }
{
    let first = area_sector(uber.area());
    let count = page_sectors(uber.count() as usize);
    let page = read_sectors(alloc, bank, device, first, count)?;
    let entries = recorded_entries(alloc, uber, &page)?;
    Ok(entries)
}

/// So many sectors of a device, from one on, all before its data rows.
fn read_sectors<B: Bank>(
    alloc: Global,
    bank: &mut B,
    device: u32,
    first: u64,
    count: u64,
) -> Result<Vec<u8>, PageFault>
    requires device { device < (B.disk bank.old).devices }
    requires before_data { first + count ≤ 192 }
    requires sectors { 192 ≤ (B.disk bank.old).sectors }
    ensures ok { IfOk result (λ bytes.
        AreDeviceSectors (B.disk bank.old) device first count bytes.items) }
    ensures failed { IsErrOf result PageFault.Failed
        → FaultCounted ((B.disk bank.old).faults device) ((B.disk bank.new).faults device) }
    ensures unchanged { Unchanged (B.disk bank.old) (B.disk bank.new) }
{
    let mut bytes = Vec::with_capacity(alloc, 512 * count as usize)?;
    let mut sector = [0; 512];
    for part in 0..count {
        bank.read(device, first + part, &mut sector)?;
        bytes.extend_from_slice(&sector)?;
    }
    Ok(bytes)
}

/// The entries of these bytes, where they are the page that the uberblock records.
fn recorded_entries(
    alloc: Global,
    uber: &Uber,
    bytes: &[u8],
) -> Result<Option<Vec<IndexEntry>>, AllocError>
    requires few { uber.now.count ≤ 512 }
    requires whole { length bytes.now ≡ 512 * sectors_of_page uber.now.count }
    ensures some { IfOk result (λ page. IfSome page (λ entries.
        IsRecordedPage uber.now bytes.now entries.items)) }
    ensures none { IfOk result (λ page. IfNone page ((entries : List EntryOf)
        → IsRecordedPage uber.now bytes.now entries → ⊥)) }
{
    if Sha256::digest(bytes) != uber.digest() {
        return Ok(None);
    }
    match read_index(alloc, bytes, uber.count()) {
        Ok(entries) => Ok(Some(entries)),
        Err(IndexRefused::BadIndex { .. }) => Ok(None),
        Err(IndexRefused::NoMemory) => Err(AllocError),
    }
}

/// Whether the sectors of an uberblock's index page on a device are the page of these entries.
///
/// Each sector is read once, up to the first that fails, and compared with that sector of the entries'
/// page. Entries have one page, so no digest is computed: where some device gives these entries, their
/// page has the recorded digest, and other bytes are no page of them whatever their digest is.
pub(crate) fn holds_page<B: Bank>(
    bank: &mut B,
    uber: &Uber,
    entries: &[IndexEntry],
    device: u32,
) -> Result<bool, Failed>
    requires right { IsRightUber uber.now }
    requires index { IsIndex entries.now }
    requires counted { length entries.now ≡ uber.now.count }
    requires device { device < (B.disk bank.old).devices }
    requires sectors { 192 ≤ (B.disk bank.old).sectors }
    ensures compared { IfOk result
        (IsComparedPage (B.disk bank.old) uber.now device entries.now) }
    ensures failed { OnErr result
        (FaultCounted ((B.disk bank.old).faults device) ((B.disk bank.new).faults device)) }
    ensures unchanged { Unchanged (B.disk bank.old) (B.disk bank.new) }
{
    let first = area_sector(uber.area());
    let mut same = true;
    let mut sector = [0; 512];
    for part in 0..page_sectors(entries.len()) {
        bank.read(device, first + part, &mut sector)?;
        same = stays_same(same, &sector, entries, part);
    }
    Ok(same)
}

/// Whether a sector is this one of the entries' page, counted from 0, where those before it were the same.
fn stays_same(so_far: bool, sector: &[u8; 512], entries: &[IndexEntry], part: u64) -> bool
    requires index { IsIndex entries.now }
    requires few { length entries.now ≤ 512 }
    requires part { part < sectors_of_page (length entries.now) }
    ensures { IsTrue result
        ↔ (IsTrue so_far × (sector.now ≡ page_piece (index_page entries.now) part)) }
{
    so_far && *sector == index_sector(entries, part)
}
