// Sectors side by side that were written and are not handed over yet.
ghost use Rattle.std.specs.Prelude.{◌≡◌, ◌+◌, ◌-◌, ◌*◌, ◌/◌, ◌%◌, ◌⊎◌, ◌^◌, ◌<◌, ◌≤◌, ℕ, List, [], ◌∷◌, ◌++◌, length};
ghost use Rattle.std.specs.Prelude.{drop, false, IsTrue, IfOk, take, get_or};
ghost use Rattle.std.specs.Vec.{vec_capacity};
ghost use Rattle.file_bank.specs.Row.{AllWhole, GivesPiece, kept_row, kept_sector};
ghost use Rattle.file_bank.specs.RowProps.{whole_prop};

use crate::row_file::MOST_IN_ROW;
use std::alloc::{AllocError, Global};
use std::slice::from_ref;

/// At most 64 sectors, for which there is room from the start on.
#[derive(Drop)]
pub struct KeptRow {
    /// The sector that the first of them is.
    pub first: u64,
    /// When each was written.
    pub moments: Vec<u64>,
    pub sectors: Vec<[u8; 512]>,
    ghost paired: { length moments.items ≡ length sectors.items },
    ghost few: { length sectors.items ≤ 64 },
    ghost moments_fit: { 64 ≤ vec_capacity moments },
    ghost sectors_fit: { 64 ≤ vec_capacity sectors },
    ghost fits: { first + length sectors.items ≤ 2 ^ 55 },
    ghost whole: { AllWhole (kept_row moments.items sectors.items) } by { whole_prop
        (kept_row moments.items sectors.items) },
}

/// Drops so many items from the front.
fn drop_first<T: Drop>(list: &mut Vec<T>, count: usize)
    requires { count ≤ length list.old.items }
    ensures items { list.new.items ≡ drop count list.old.items }
    ensures capacity { vec_capacity list.new ≡ vec_capacity list.old }
{
    list.drain(..count);
}

/// Puts a sector behind the others, for which there is room: copied once, from where it stands to its place.
fn push_copied(sectors: &mut Vec<[u8; 512]>, bytes: &[u8; 512])
    requires { length sectors.old.items < vec_capacity sectors.old }
    ensures items { sectors.new.items ≡ sectors.old.items ++ bytes.now ∷ [] }
    ensures capacity { vec_capacity sectors.old ≤ vec_capacity sectors.new }
{
    let Ok(()) = sectors.extend_from_slice(from_ref(bytes)) else {
        unreachable!();
    };
}

impl KeptRow {
    ghost use Rattle.file_bank.specs.KeptRow.{sectors_kept};

    pub fn new(alloc: Global) -> Result<KeptRow, AllocError>
        ensures len { IfOk result (λ kept. length kept.sectors.items ≡ 0) }
        ensures row { IfOk result (λ kept. sectors_kept kept ≡ []) }
        ensures first { IfOk result (λ kept. kept.first ≡ 0) }
    {
        Ok(KeptRow {
            first: 0,
            moments: Vec::with_capacity(alloc, MOST_IN_ROW)?,
            sectors: Vec::with_capacity(alloc, MOST_IN_ROW)?,
        })
    }

    /// Whether one more sector may be kept, and this is the one behind the others.
    pub fn goes_on_at(&self, sector: u64) -> bool
        ensures next { IsTrue result → sector ≡ self.now.first + length self.now.sectors.items }
        ensures few { IsTrue result → length self.now.sectors.items < 64 }
    {
        self.sectors.len() < MOST_IN_ROW && sector == self.first + self.sectors.len() as u64
    }

    /// Whether a sector is kept.
    pub fn has(&self, sector: u64) -> bool
        ensures kept { IsTrue result → (self.now.first ≤ sector)
            × (sector < self.now.first + length self.now.sectors.items) }
        ensures beside { result ≡ false → (sector < self.now.first)
            ⊎ (self.now.first + length self.now.sectors.items ≤ sector) }
    {
        self.first <= sector && sector - self.first < self.sectors.len() as u64
    }

    /// Reads of a sector that is kept.
    pub fn read(&self, offset: u64, into: &mut [u8])
        requires from { self.now.first ≤ offset / 512 }
        requires to { offset / 512 < self.now.first + length self.now.sectors.items }
        requires one { offset % 512 + length into.old ≤ 512 }
        ensures len { length into.new ≡ length into.old }
        ensures bytes { GivesPiece self.now.sectors.items (offset / 512 - self.now.first) (offset % 512) into.new }
    {
        let sector = &self.sectors[(offset / 512 - self.first) as usize];
        let from = (offset % 512) as usize;
        into.copy_from_slice(&sector[from..from + into.len()]);
    }

    /// Keeps one more sector behind the others.
    pub fn push(&mut self, moment: u64, bytes: &[u8; 512])
        requires few { length self.old.sectors.items < 64 }
        requires fits { self.old.first + length self.old.sectors.items < 2 ^ 55 }
        ensures first { self.new.first ≡ self.old.first }
        ensures len { length self.new.sectors.items ≡ length self.old.sectors.items + 1 }
        ensures row { sectors_kept self.new ≡ sectors_kept self.old ++ kept_sector moment bytes.now ∷ [] }
    {
        self.moments.push_reserved(moment);
        push_copied(&mut self.sectors, bytes);
    }

    /// Leaves those behind the first ones.
    pub fn drop_front(&mut self, count: usize)
        requires { count ≤ length self.old.sectors.items }
        ensures first { self.new.first ≡ self.old.first + count }
        ensures len { length self.new.sectors.items + count ≡ length self.old.sectors.items }
        ensures row { sectors_kept self.new ≡ drop count (sectors_kept self.old) }
    {
        drop_first(&mut self.moments, count);
        drop_first(&mut self.sectors, count);
        self.first += count as u64;
    }

    /// Keeps nothing, and begins at this sector.
    pub fn restart_at(&mut self, sector: u64)
        requires { sector < 2 ^ 55 }
        ensures first { self.new.first ≡ sector }
        ensures row { sectors_kept self.new ≡ [] }
        ensures len { length self.new.sectors.items ≡ 0 }
    {
        self.moments.clear();
        self.sectors.clear();
        self.first = sector;
    }
}
