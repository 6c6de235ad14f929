// Which uberblocks of rings are candidates.
ghost use Rattle.std.specs.Prelude.{◌≡◌, ◌≢◌, ◌⊎◌, ◌↔◌, ◌+◌, ◌<◌, ◌≤◌, ◌++◌, ◌∷◌, [], Some, slice_get, IfErr, IfOk};
ghost use Rattle.std.specs.Prelude.{IfSome, IsTrue, OnOk};
ghost use Rattle.bank_trait.specs.Disk.{Image, Unchanged};
ghost use Rattle.uberblock_ring.specs.Valid.{AreAlike, IsRightUber};
ghost use Rattle.core_state.specs.Shown.{read_devices};
ghost use Rattle.core_open.specs.declared.ring_uber.RingUber.{RingUber as RingUberOf};
ghost use Rattle.core_open.specs.Candidates.{FirstFits, FirstHas, FirstHasRoom, FirstIsGiven, IsConsidered};
ghost use Rattle.core_open.specs.Candidates.{IsGivenIndex, IsIndexChoice, IsIndexFor};
ghost use Rattle.core_open.specs.Failing.{HasStopped, HasStoppedOn};
ghost use Rattle.core_open.specs.Holds.{HoldsImage, shape_of};
ghost use Rattle.core_open.specs.Lacking.{IsFirstGiver};
ghost use Rattle.core_open.specs.Pages.{IsGivenPage};

use crate::fitting::is_fitting;
use crate::index_page::{PageFault, read_page};
use crate::reading::READ_DEVICES;
use crate::ring_uber::RingUber;
use crate::stopped::Stopped;
use bank_trait::Bank;
use block_record::IndexEntry;
use std::alloc::{AllocError, Global};
use uberblock_ring::{DeviceSet, Uber, are_alike};
use width_map::FIRST_DATA_SECTOR;

/// The index of an uberblock, and the first device that gives its page.
#[derive(Drop)]
pub struct GivenIndex {
    pub device: u32,
    pub entries: Vec<IndexEntry>,
}

/// Candidates of one group, by device, and the index of the first with the first device that gives
/// its page.
#[derive(Drop)]
pub struct Candidates {
    pub ubers: Vec<RingUber>,
    pub entries: Vec<IndexEntry>,
    pub giver: u32,
}

impl Candidates {
    pub fn none(alloc: Global) -> Candidates
        ensures ubers { result.ubers.items ≡ [] }
        ensures entries { result.entries.items ≡ [] }
    {
        Candidates {
            ubers: Vec::new(alloc),
            entries: Vec::new(alloc),
            giver: 0,
        }
    }

    /// Whether there are any, of another group than this uberblock's.
    pub fn are_of_another_group(&self, ring_uber: &RingUber) -> bool
        ensures { IsTrue result ↔ ((first : RingUberOf)
            × (slice_get self.now.ubers.items 0 ≡ Some first)
            × (first.uber.group ≢ ring_uber.now.uber.group)) }
    {
        match self.ubers.first() {
            Some(first) => first.uber.group() != ring_uber.uber.group(),
            None => false,
        }
    }

    /// Adds an uberblock if it is a candidate. An uberblock that differs from the first one's in its out
    /// set alone has the same index, which is not read again.
    pub fn consider<B: Bank>(
        &mut self,
        alloc: Global,
        bank: &mut B,
        ring_uber: &RingUber,
        silent: DeviceSet,
    ) -> Result<(), Stopped>
        requires right { IsRightUber ring_uber.now.uber }
        requires first { FirstFits self.old.ubers.items self.old.entries.items }
        requires room { FirstHasRoom (B.disk bank.old).sectors self.old.ubers.items }
        requires given { FirstIsGiven (B.disk bank.old) silent
            self.old.ubers.items self.old.entries.items self.old.giver }
        ensures unchanged { Unchanged (B.disk bank.old) (B.disk bank.new) }
        ensures stopped { IfErr result (HasStopped silent (B.disk bank.old) (B.disk bank.new)) }
        ensures given { OnOk result (FirstIsGiven (B.disk bank.old) silent
            self.new.ubers.items self.new.entries.items self.new.giver) }
        ensures first { OnOk result (FirstFits self.new.ubers.items self.new.entries.items) }
        ensures room { OnOk result
            (FirstHasRoom (B.disk bank.old).sectors self.new.ubers.items) }
        ensures considered { OnOk result ((image : Image) → HoldsImage (B.disk bank.old) image
            → FirstHas (shape_of (B.disk bank.old)) silent image
            self.old.ubers.items self.old.entries.items
            → IsConsidered (shape_of (B.disk bank.old)) silent image ring_uber.now
            self.old.ubers.items self.new.ubers.items
            × FirstHas (shape_of (B.disk bank.old)) silent image
            self.new.ubers.items self.new.entries.items) }
        ensures ubers { OnOk result ((self.new.ubers.items ≡ self.old.ubers.items)
            ⊎ (self.new.ubers.items ≡ self.old.ubers.items ++ ring_uber.now ∷ [])) }
    {
        if self.first_is_alike(&ring_uber.uber) {
            self.ubers.push(*ring_uber)?;
            return Ok(());
        }
        if let Some(index) = find_index(alloc, bank, &ring_uber.uber, silent)? {
            self.add(ring_uber, index)?;
        }
        Ok(())
    }

    /// Adds an uberblock, and takes its index where it is the first.
    fn add(&mut self, ring_uber: &RingUber, index: GivenIndex) -> Result<(), AllocError>
        ensures ubers { OnOk result (
            self.new.ubers.items ≡ self.old.ubers.items ++ ring_uber.now ∷ []) }
        ensures first { self.old.ubers.items ≡ [] → self.new.entries.items ≡ index.entries.items }
        ensures giver { self.old.ubers.items ≡ [] → self.new.giver ≡ index.device }
        ensures others { self.old.ubers.items ≢ []
            → self.new.entries.items ≡ self.old.entries.items }
        ensures same { self.old.ubers.items ≢ [] → self.new.giver ≡ self.old.giver }
    {
        if self.ubers.is_empty() {
            self.entries = index.entries;
            self.giver = index.device;
        }
        self.ubers.push(*ring_uber)?;
        Ok(())
    }

    fn first_is_alike(&self, uber: &Uber) -> bool
        ensures { IsTrue result ↔ ((first : RingUberOf)
            × (slice_get self.now.ubers.items 0 ≡ Some first)
            × AreAlike first.uber uber.now) }
    {
        match self.ubers.first() {
            Some(first) => are_alike(&first.uber, uber),
            None => false,
        }
    }
}

/// The index of an uberblock: that of the first page that a device gives and which fits. Silent
/// devices aren't asked.
pub fn find_index<B: Bank>(
    alloc: Global,
    bank: &mut B,
    uber: &Uber,
    silent: DeviceSet,
) -> Result<Option<GivenIndex>, Stopped>
    requires right { IsRightUber uber.now }
    ensures unchanged { Unchanged (B.disk bank.old) (B.disk bank.new) }
    ensures stopped { IfErr result (HasStopped silent (B.disk bank.old) (B.disk bank.new)) }
    ensures fits { IfOk result (λ found. IfSome found (λ index.
        IsIndexFor uber.now index.entries.items)) }
    ensures given { IfOk result (λ found. IfSome found (λ index.
        IsFirstGiver (B.disk bank.old) silent uber.now index.entries.items index.device)) }
    ensures room { IfOk result (λ found. IfSome found (λ _.
        192 + uber.now.reflow.rows ≤ (B.disk bank.old).sectors)) }
    ensures found { IfOk result (λ found. (image : Image) → HoldsImage (B.disk bank.old) image
        → IsIndexChoice (shape_of (B.disk bank.old)) silent image uber.now found) }
{
    if bank.sectors() < FIRST_DATA_SECTOR + uber.reflow().rows {
        return Ok(None);
    }
    for device in 0..bank.devices().min(READ_DEVICES) {
        if silent.has(device) {
            continue;
        }
        if let Some(entries) = give_index(alloc, bank, uber, device)? {
            return Ok(Some(GivenIndex { device, entries }));
        }
    }
    Ok(None)
}

/// The index that a device gives, where it fits the uberblock.
fn give_index<B: Bank>(
    alloc: Global,
    bank: &mut B,
    uber: &Uber,
    device: u32,
) -> Result<Option<Vec<IndexEntry>>, Stopped>
    requires right { IsRightUber uber.now }
    requires device { device < read_devices (shape_of (B.disk bank.old)) }
    requires sectors { 192 ≤ (B.disk bank.old).sectors }
    ensures unchanged { Unchanged (B.disk bank.old) (B.disk bank.new) }
    ensures stopped { IfErr result (HasStoppedOn device (B.disk bank.old) (B.disk bank.new)) }
    ensures given { IfOk result (λ found. IfSome found (λ entries.
        IsGivenPage (B.disk bank.old) uber.now device entries.items)) }
    ensures fits { IfOk result (λ found. IfSome found (λ entries.
        IsIndexFor uber.now entries.items)) }
    ensures found { IfOk result (λ found. (image : Image) → HoldsImage (B.disk bank.old) image
        → IsGivenIndex (shape_of (B.disk bank.old)) image uber.now device found) }
{
    match read_page(alloc, bank, uber, device) {
        Ok(None) => Ok(None),
        Ok(Some(entries)) => {
            if is_fitting(alloc, uber, &entries)? {
                Ok(Some(entries))
            } else {
                Ok(None)
            }
        }
        Err(PageFault::Failed) => Err(Stopped::Failed { device }),
        Err(PageFault::NoMemory) => Err(Stopped::NoMemory),
    }
}
