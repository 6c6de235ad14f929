// A bank of devices in memory.
ghost use Rattle.std.specs.Prelude.{◌≡◌, ◌≢◌, ◌<◌, ◌≤◌, ◌^◌, ◌++◌, [], ◌∷◌, ℕ, List, IfOk, Err, OnOk, OnErr, length};
ghost use Rattle.std.specs.Prelude.{Some, None, Contains};
ghost use Rattle.bank_mem.specs.Sound.{LeadsTo, AllWide, AllPlaced};

use crate::crash::{self, Torn};
use crate::plan::Plan;
use crate::record::{self, Call};
use crate::refused::ImagesRefused;
use crate::shelf;
use bank_trait::{Bank, Failed};
use std::alloc::{AllocError, Global};

#[derive(Drop)]
pub struct MemBank {
    sectors: u64,
    first: Vec<Vec<[u8; 512]>>,
    present: Vec<Vec<[u8; 512]>>,
    calls: Vec<Call>,
    plan: Plan,
    ghost same: { LeadsTo first.items calls.items present.items },
    ghost wide: { AllWide present.items sectors },
    ghost as_many: { length first.items ≡ length present.items },
    ghost as_wide: { AllWide first.items sectors },
    ghost placed: { AllPlaced (length present.items) sectors calls.items },
    ghost counted: { length plan.faults.items ≡ length present.items },
    ghost few: { length present.items < 2 ^ 32 },
}

impl MemBank {
    ghost use Rattle.bank_mem.specs.Record.{blank};
    ghost use Rattle.bank_mem.specs.MemBank.{mem_disk, made_on, listed_calls, listed_starts};

    /// Devices that hold zeros, all of it on the disk, of which no call fails.
    pub fn new(alloc: Global, devices: u32, sectors: u64) -> Result<MemBank, AllocError>
        ensures devices { IfOk result (λ b. (mem_disk b).devices ≡ devices) }
        ensures sectors { IfOk result (λ b. (mem_disk b).sectors ≡ sectors) }
        ensures reads { IfOk result (λ b. (d x : ℕ)
            → (mem_disk b).reads d x ≡ blank devices sectors d x) }
        ensures leaves { IfOk result (λ b. (d x : ℕ)
            → (mem_disk b).leaves (mem_disk b).clock d x ≡ blank devices sectors d x) }
        ensures faults { IfOk result (λ b. (d : ℕ) → (mem_disk b).faults d ≡ 0) }
        ensures made { IfOk result (λ b. (d : ℕ) → made_on b d ≡ 0) }
        ensures listed { IfOk result (λ b. listed_calls b ≡ []) }
        ensures starts { IfOk result (λ b. listed_starts b ≡ []) }
    {
        let first = shelf::blank_shelf(alloc, devices, sectors)?;
        let present = shelf::blank_shelf(alloc, devices, sectors)?;
        let faults = shelf::counters(alloc, devices)?;
        let made = shelf::counters(alloc, devices)?;
        let plan = Plan {
            total: 0,
            made,
            faults,
            fails: Vec::new(alloc),
            starts: Vec::new(alloc),
        };
        Ok(MemBank {
            sectors,
            first,
            present,
            calls: Vec::new(alloc),
            plan,
        })
    }

    /// Lets these calls fail besides, each by its device and its number on it, from 0.
    pub fn fail_at(&mut self, calls: &[(u32, u64)]) -> Result<(), AllocError>
        ensures ok { OnOk result (listed_calls self.new ≡ listed_calls self.old ++ calls.now) }
        ensures err { OnErr result (listed_calls self.new ≡ listed_calls self.old) }
        ensures same { mem_disk self.new ≡ mem_disk self.old }
        ensures made { (d : ℕ) → made_on self.new d ≡ made_on self.old d }
        ensures starts { listed_starts self.new ≡ listed_starts self.old }
    {
        self.plan.fails.extend_from_slice(calls)
    }

    /// Lets all calls on this device fail from this number on, counted on it from 0.
    pub fn fail_from(&mut self, device: u32, call: u64) -> Result<(), AllocError>
        ensures ok { OnOk result
            (listed_starts self.new ≡ listed_starts self.old ++ (device, call) ∷ []) }
        ensures err { OnErr result (listed_starts self.new ≡ listed_starts self.old) }
        ensures same { mem_disk self.new ≡ mem_disk self.old }
        ensures made { (d : ℕ) → made_on self.new d ≡ made_on self.old d }
        ensures listed { listed_calls self.new ≡ listed_calls self.old }
    {
        self.plan.starts.push((device, call))?;
        Ok(())
    }
}

impl MemBank {
    ghost use Rattle.bank_mem.specs.Record.{content};
    ghost use Rattle.bank_mem.specs.MemBank.{mem_disk, made_on, listed_calls, listed_starts};

    /// Devices that hold what these images hold, sector by sector, all of it on the disk, of which
    /// no call fails.
    pub fn from_images(alloc: Global, images: Vec<Vec<[u8; 512]>>) -> Result<MemBank, ImagesRefused>
        ensures devices { IfOk result (λ b. (mem_disk b).devices ≡ length images.items) }
        ensures sectors { IfOk result (λ b. AllWide images.items (mem_disk b).sectors) }
        ensures reads { IfOk result (λ b. (d x : ℕ)
            → (mem_disk b).reads d x ≡ content images.items d x) }
        ensures leaves { IfOk result (λ b. (d x : ℕ)
            → (mem_disk b).leaves (mem_disk b).clock d x ≡ content images.items d x) }
        ensures faults { IfOk result (λ b. (d : ℕ) → (mem_disk b).faults d ≡ 0) }
        ensures made { IfOk result (λ b. (d : ℕ) → made_on b d ≡ 0) }
        ensures listed { IfOk result (λ b. listed_calls b ≡ []) }
        ensures starts { IfOk result (λ b. listed_starts b ≡ []) }

        ensures cause_unequal { result ≡ Err ImagesRefused.Unequal → (n : ℕ)
            → AllWide images.items n → ⊥ }
        ensures cause_many { result ≡ Err ImagesRefused.TooMany → 2 ^ 32 ≤ length images.items }
    {
        if images.len() as u64 > u32::MAX as u64 {
            return Err(ImagesRefused::TooMany);
        }
        let devices = images.len() as u32;
        let sectors = match images.first() {
            Some(row) => row.len() as u64,
            None => 0,
        };
        if !shelf::is_wide(&images, sectors) {
            return Err(ImagesRefused::Unequal);
        }
        let first = shelf::copy_shelf(alloc, &images)?;
        let plan = Plan {
            total: 0,
            made: shelf::counters(alloc, devices)?,
            faults: shelf::counters(alloc, devices)?,
            fails: Vec::new(alloc),
            starts: Vec::new(alloc),
        };
        Ok(MemBank {
            sectors,
            first,
            present: images,
            calls: Vec::new(alloc),
            plan,
        })
    }
}

impl MemBank {
    ghost use Rattle.bank_mem.specs.Record.{filled};
    ghost use Rattle.bank_mem.specs.Spoiled.{Spoiled};
    ghost use Rattle.bank_mem.specs.MemBank.{mem_disk, made_on, listed_calls, listed_starts};

    /// Sets all bytes of a sector to this one, on the disk, as a sector that rots there. It is no
    /// call, raises no count of faults, and takes memory for its record.
    pub fn spoil(&mut self, device: u32, sector: u64, byte: u8) -> Result<(), AllocError>
        requires device { device < (mem_disk self.old).devices }
        requires sector { sector < (mem_disk self.old).sectors }
        ensures ok { OnOk result
            (Spoiled (mem_disk self.old) (mem_disk self.new) device sector (filled byte)) }
        ensures err { OnErr result (mem_disk self.new ≡ mem_disk self.old) }
        ensures faults { (d : ℕ) → (mem_disk self.new).faults d ≡ (mem_disk self.old).faults d }
        ensures made { (d : ℕ) → made_on self.new d ≡ made_on self.old d }
        ensures listed { listed_calls self.new ≡ listed_calls self.old }
        ensures starts { listed_starts self.new ≡ listed_starts self.old }
    {
        let number = self.plan.total;
        let bytes = shelf::filled_sector(byte);
        let call = Call::Spoil {
            number,
            device,
            sector,
            bytes,
        };
        self.calls.push(call)?;
        shelf::put_sector(&mut self.present, device as usize, sector as usize, &bytes);
        Ok(())
    }
}

impl MemBank {
    ghost use Rattle.bank_trait.specs.Disk.{Fits};
    ghost use Rattle.bank_mem.specs.Record.{content, filled};
    ghost use Rattle.bank_mem.specs.MemBank.{mem_disk};
    ghost use Rattle.bank_mem.specs.declared.crash.Tear.TheVariants.{Kept, Filled};
    ghost use Rattle.bank_mem.specs.Crash.{listed_as, held_at_sync, handed_last, image_of};

    /// How many writes, syncs and spoils are on record.
    pub fn clock(&self) -> u64
        ensures { result ≡ (mem_disk self.now).clock }
    {
        self.calls.len() as u64
    }

    /// What a stop after so many of the calls on record leaves, or after all of them where they are
    /// fewer. A sector that was handed bytes since its device's last sync is torn as it is listed,
    /// by the last entry that names it; one that is not listed holds what it held at that sync.
    pub fn crash_at(
        &self,
        alloc: Global,
        call: u64,
        torn: &[Torn],
    ) -> Result<Vec<Vec<[u8; 512]>>, AllocError>
        ensures devices { IfOk result (λ images.
            length images.items ≡ (mem_disk self.now).devices) }
        ensures sectors { IfOk result (λ images.
            AllWide images.items (mem_disk self.now).sectors) }
        ensures may_leave { IfOk result (λ images.
            Fits ((mem_disk self.now).leaves call) (image_of images.items)) }
        ensures could { IfOk result (λ images. (d x : ℕ) → d < (mem_disk self.now).devices
            → x < (mem_disk self.now).sectors
            → ((byte : ℕ) → listed_as torn.now d x ≢ Some (Filled byte))
            → Contains ((mem_disk self.now).could call d x) (image_of images.items d x)) }
        ensures others { IfOk result (λ images. (d x : ℕ) → listed_as torn.now d x ≡ None
            → content images.items d x ≡ held_at_sync ((mem_disk self.now).could call d x)) }
        ensures kept { IfOk result (λ images. (d x : ℕ) → listed_as torn.now d x ≡ Some Kept
            → content images.items d x ≡ handed_last ((mem_disk self.now).could call d x)) }
        ensures filled { IfOk result (λ images. (d x byte : ℕ) → d < (mem_disk self.now).devices
            → x < (mem_disk self.now).sectors → listed_as torn.now d x ≡ Some (Filled byte)
            → (mem_disk self.now).leaves call d x ≡ None
            → image_of images.items d x ≡ filled byte) }
    {
        let until = (call as usize).min(self.calls.len());
        let record = &self.calls[..until];
        let syncs = crash::last_syncs(alloc, self.present.len() as u32, record)?;
        let tears = crash::listed_tears(alloc, torn)?;
        let mut images = shelf::copy_shelf(alloc, &self.first)?;
        for (index, entry) in record.iter().enumerate() {
            crash::put_call(&mut images, index as u64, entry, &syncs, &tears);
        }
        Ok(images)
    }
}

impl Bank for MemBank {
    ghost use Rattle.bank_trait.specs.Causes.{FaultCounted, FailedOnce, counted_on};
    ghost use Rattle.bank_trait.specs.Disk.{Unchanged, Wrote, Synced};
    ghost use Rattle.bank_mem.specs.MemBank.{mem_disk, made_on, SamePlan, FailsNext};
    ghost use Rattle.bank_mem.specs.Laws.{lawful};

    ghost disk = { mem_disk };

    ghost lawful = { λ b. lawful b.sectors b.first.items b.present.items b.calls.items b.plan.faults.items b.same };

    fn devices(&self) -> u32 {
        self.present.len() as u32
    }

    fn sectors(&self) -> u64 {
        self.sectors
    }

    /// A read fails where it is listed, and nowhere else.
    fn read(&mut self, device: u32, sector: u64, into: &mut [u8; 512]) -> Result<(), Failed>
        requires device { device < (mem_disk self.old).devices }
        requires sector { sector < (mem_disk self.old).sectors }
        ensures bytes { OnOk result ((bytes : List ℕ)
            → (mem_disk self.old).reads device sector ≡ Some bytes → into.new ≡ bytes) }
        ensures failed { OnErr result
            (FaultCounted ((mem_disk self.old).faults device) ((mem_disk self.new).faults device)) }
        ensures unchanged { Unchanged (mem_disk self.old) (mem_disk self.new) }
        ensures listed { OnOk result (FailsNext self.old device → ⊥) }
        ensures only_listed { OnErr result (FailsNext self.old device) }
        ensures once { OnErr result
            (FailedOnce (mem_disk self.old).faults (mem_disk self.new).faults device) }
        ensures well { OnOk result (mem_disk self.new ≡ mem_disk self.old) }
        ensures made { (d : ℕ) → made_on self.new d ≡ counted_on (made_on self.old) device d }
        ensures plan { SamePlan self.old self.new }
    {
        if self.plan.fails_now(device) {
            return Err(Failed);
        }
        let row = &self.present[device as usize];
        *into = row[sector as usize];
        Ok(())
    }

    /// A write fails where it is listed, and else only where its record finds no memory.
    fn write(&mut self, device: u32, sector: u64, from: &[u8; 512]) -> Result<(), Failed>
        requires device { device < (mem_disk self.old).devices }
        requires sector { sector < (mem_disk self.old).sectors }
        ensures wrote { Wrote (mem_disk self.old) (mem_disk self.new) device sector from.now result }
        ensures listed { OnOk result (FailsNext self.old device → ⊥) }
        ensures made { (d : ℕ) → made_on self.new d ≡ counted_on (made_on self.old) device d }
        ensures plan { SamePlan self.old self.new }
    {
        let number = self.plan.total;
        if self.plan.fails_now(device) {
            let torn = Call::FailedWrite {
                number,
                device,
                sector,
                bytes: *from,
            };
            record::note(&mut self.calls, torn);
            return Err(Failed);
        }
        let call = Call::Write {
            number,
            device,
            sector,
            bytes: *from,
        };
        if self.calls.push(call).is_err() {
            self.plan.count_fault(device);
            return Err(Failed);
        }
        shelf::put_sector(&mut self.present, device as usize, sector as usize, from);
        Ok(())
    }

    /// A sync fails where it is listed, and else only where its record finds no memory.
    fn sync(&mut self, device: u32) -> Result<(), Failed>
        requires { device < (mem_disk self.old).devices }
        ensures synced { Synced (mem_disk self.old) (mem_disk self.new) device result }
        ensures listed { OnOk result (FailsNext self.old device → ⊥) }
        ensures made { (d : ℕ) → made_on self.new d ≡ counted_on (made_on self.old) device d }
        ensures plan { SamePlan self.old self.new }
    {
        let number = self.plan.total;
        if self.plan.fails_now(device) {
            return Err(Failed);
        }
        if self.calls.push(Call::Sync { number, device }).is_err() {
            self.plan.count_fault(device);
            return Err(Failed);
        }
        Ok(())
    }
}
