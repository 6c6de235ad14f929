// Sectors side by side that were read in one call.
ghost use Rattle.std.specs.Prelude.{◌≡◌, ◌+◌, ◌-◌, ◌*◌, ◌/◌, ◌%◌, ◌^◌, ◌<◌, ◌≤◌, ℕ, length, max, IsTrue, IfOk, OnOk};
ghost use Rattle.std.specs.Prelude.{◌↔◌, List, Some, OnErr};
ghost use Rattle.file_bank.specs.Row.{GivesRow};

use crate::row_file::{MOST_IN_ROW, RowFile};
use bank_trait::Failed;
use std::alloc::{AllocError, Global};

/// At most 64 sectors, for which there is room from the start on.
#[derive(Drop)]
pub struct ReadPiece {
    sectors: Vec<[u8; 512]>,
    /// The sector that the first of them is.
    first: u64,
    /// From this sector on they are as they stand in the file,
    from: u64,
    /// and up to this one, which is not there.
    end: u64,
    ghost room: { length sectors.items ≡ 64 },
    ghost begins: { first ≤ from },
    ghost ends: { end ≤ first + 64 },
}

/// Reads so many sectors in one call, from this one on, to the front of a list.
fn read_front<F: RowFile>(
    file: &mut F,
    sector: u64,
    list: &mut [[u8; 512]],
    count: usize,
) -> Result<(), Failed>
    requires some { 0 < count }
    requires most { count ≤ 64 }
    requires room { count ≤ length list.old }
    requires fits { 512 * (sector + count) < 2 ^ 64 }
    requires inside { 512 * (sector + count) ≤ (F.contents file.old).length }
    ensures len { length list.new ≡ length list.old }
    ensures bytes { OnOk result (GivesRow (F.contents file.old) sector count list.new) }
    ensures same { F.contents file.new ≡ F.contents file.old }
    ensures uncounted { F.faults file.new ≡ F.faults file.old }
    ensures begun { F.begun_with file.new ≡ F.begun_with file.old }
{
    file.read_row(sector * 512, &mut list[..count])
}

impl ReadPiece {
    ghost use Rattle.std.specs.Prelude.{◌⊎◌, take, drop};
    ghost use Rattle.file_bank.specs.ReadPiece.{HoldsNone, HoldsSector, IsOf, sector_in};

    /// Nothing is there.
    pub fn new(alloc: Global) -> Result<ReadPiece, AllocError>
        ensures { IfOk result HoldsNone }
    {
        let mut sectors = Vec::with_capacity(alloc, MOST_IN_ROW)?;
        for _sector in 0..MOST_IN_ROW {
            sectors.push([0; 512])?;
        }
        Ok(ReadPiece {
            sectors,
            first: 0,
            from: 0,
            end: 0,
        })
    }

    /// Whether a sector is there.
    pub fn has(&self, sector: u64) -> bool
        ensures { IsTrue result ↔ HoldsSector self.now sector }
    {
        self.from <= sector && sector < self.end
    }

    /// Reads of a sector that is there.
    pub fn read(&self, offset: u64, into: &mut [u8])
        requires there { HoldsSector self.now (offset / 512) }
        requires one { offset % 512 + length into.old ≤ 512 }
        ensures len { length into.new ≡ length into.old }
        ensures bytes { (bytes : List ℕ) → sector_in self.now (offset / 512) ≡ Some bytes
            → into.new ≡ take (length into.new) (drop (offset % 512) bytes) }
    {
        let sector = &self.sectors[(offset / 512 - self.first) as usize];
        let from = (offset % 512) as usize;
        into.copy_from_slice(&sector[from..from + into.len()]);
    }

    /// Forgets all.
    pub fn clear(&mut self)
        ensures { HoldsNone self.new }
    {
        self.restart_at(0);
    }

    /// Forgets all behind a sync that failed, which may have changed what stands in the file.
    pub fn clear_if_failed(&mut self, outcome: Result<(), Failed>)
        ensures cleared { OnErr outcome (HoldsNone self.new) }
        ensures same { OnOk outcome (self.new ≡ self.old) }
    {
        if outcome.is_err() {
            self.clear();
        }
    }

    /// Forgets all, and begins at this sector.
    fn restart_at(&mut self, sector: u64)
        ensures first { self.new.first ≡ sector }
        ensures from { self.new.from ≡ sector }
        ensures end { self.new.end ≡ sector }
    {
        self.first = sector;
        self.from = sector;
        self.end = sector;
    }

    /// Forgets so many sectors from this one on, and those before them.
    pub fn forget(&mut self, sector: u64, count: u64)
        requires { sector + count < 2 ^ 64 }
        ensures beside { (x : ℕ) → HoldsSector self.new x → HoldsSector self.old x
            × ((x < sector) ⊎ (sector + count ≤ x)) }
        ensures same { (x : ℕ) → sector_in self.new x ≡ sector_in self.old x }
    {
        if sector < self.end {
            self.from = self.from.max(sector + count);
        }
    }

    /// Reads so many sectors in one call, from this one on. Where that fails nothing is there.
    pub fn fill<F: RowFile>(
        &mut self,
        file: &mut F,
        sector: u64,
        count: usize,
    ) -> Result<(), Failed>
        requires some { 0 < count }
        requires most { count ≤ 64 }
        requires fits { 512 * (sector + count) < 2 ^ 64 }
        requires inside { 512 * (sector + count) ≤ (F.contents file.old).length }
        ensures right { IsOf (F.contents file.old) self.new }
        ensures same { F.contents file.new ≡ F.contents file.old }
        ensures uncounted { F.faults file.new ≡ F.faults file.old }
        ensures begun { F.begun_with file.new ≡ F.begun_with file.old }
    {
        self.restart_at(sector);
        read_front(file, sector, &mut self.sectors, count)?;
        self.end = sector + count as u64;
        Ok(())
    }
}
