// A file in memory.
ghost use Rattle.std.specs.Prelude.{◌≡◌, ◌*◌, ◌<◌, ◌≤◌, ◌^◌, ℕ, List, Some, IfOk, length, max, slice_get, replicate};
ghost use Rattle.bank_trait.specs.Regions.{zero_sector};
ghost use Rattle.file_bank.specs.Record.{AllBy, LeadsToSectors};

use crate::block_file::{BlockFile, ReadFault};
use crate::record::{Call, Plan};
use crate::row_file::RowFile;
use bank_trait::Failed;
use std::alloc::{AllocError, Global};

/// It gives what was written, in pieces, and fails where it is told to. A call that fails changes nothing.
#[derive(Drop)]
pub struct MemFile {
    first: Vec<[u8; 512]>,
    present: Vec<[u8; 512]>,
    calls: Vec<Call>,
    /// The moment of the last call on record.
    last: u64,
    /// The most bytes that a read gives, one at least.
    piece: usize,
    plan: Plan,
    slow: bool,
    /// A sync was begun, and nothing was written since.
    begun: bool,
    ghost few: { length present.items < 2 ^ 32 },
    ghost by: { AllBy last calls.items },
    ghost same: { LeadsToSectors first.items last calls.items present.items },
    ghost some: { 1 ≤ piece },
    ghost whole: { (x : ℕ) (bytes : List ℕ) → slice_get present.items x ≡ Some bytes
        → length bytes ≡ 512 },
}

/// Sectors of zeros.
#[tactic(auto, unfolding(bank_trait::specs::Regions::zero_sector))]
fn blank(alloc: Global, sectors: u32) -> Result<Vec<[u8; 512]>, AllocError>
    ensures { IfOk result (λ all. all.items ≡ replicate sectors zero_sector) }
{
    let mut all = Vec::new(alloc);
    for _sector in 0..sectors {
        all.push([0; 512])?;
    }
    Ok(all)
}

impl MemFile {
    ghost use Rattle.file_bank.specs.MemFile.{file_of, listed_calls_of, calls_made, faults_of, piece_of};

    /// A file of zeros, all of it on the disk. The calls of these numbers, from 0, fail, and a read gives
    /// at most `piece` bytes, and one at least.
    pub fn new(
        alloc: Global,
        sectors: u32,
        piece: usize,
        fails: &[u64],
    ) -> Result<MemFile, AllocError>
        ensures reads { IfOk result (λ file. (x : ℕ)
            → (file_of file).reads x ≡ slice_get (replicate sectors zero_sector) x) }
        ensures leaves { IfOk result (λ file. (x : ℕ)
            → (file_of file).leaves 0 x ≡ slice_get (replicate sectors zero_sector) x) }
        ensures length { IfOk result (λ file. (file_of file).length ≡ 512 * sectors) }
        ensures fresh { IfOk result (λ file. (file_of file).last ≡ 0) }
        ensures faults { IfOk result (λ file. faults_of file ≡ 0) }
        ensures made { IfOk result (λ file. calls_made file ≡ 0) }
        ensures listed { IfOk result (λ file. listed_calls_of file ≡ fails.now) }
        ensures piece { IfOk result (λ file. piece_of file ≡ max piece 1) }
    {
        Ok(MemFile {
            first: blank(alloc, sectors)?,
            present: blank(alloc, sectors)?,
            calls: Vec::new(alloc),
            last: 0,
            piece: piece.max(1),
            plan: Plan {
                made: 0,
                faults: 0,
                fails: Vec::from_slice(alloc, fails)?,
            },
            slow: false,
            begun: false,
        })
    }

    /// The same file, whose syncs are said to take long.
    pub fn slow(mut self) -> MemFile
        ensures same { file_of result ≡ file_of self }
        ensures faults { faults_of result ≡ faults_of self }
        ensures made { calls_made result ≡ calls_made self }
        ensures listed { listed_calls_of result ≡ listed_calls_of self }
        ensures piece { piece_of result ≡ piece_of self }
    {
        self.slow = true;
        self
    }
}

impl BlockFile for MemFile {
    ghost use Rattle.std.specs.Prelude.{◌+◌, ◌/◌, ◌%◌, ◌≤◌, OnOk, OnErr, min};
    ghost use Rattle.bank_trait.specs.Causes.{counted};
    ghost use Rattle.file_bank.specs.BlockFile.{CountsFault, GivesBytes, Written, Settled};
    ghost use Rattle.file_bank.specs.MemFile.{file_begun, file_of, faults_of, piece_of, calls_made, OneCallMade};
    ghost use Rattle.file_bank.specs.MemFile.{FailsNextOn};
    ghost use Rattle.file_bank.specs.MemLaws.{lawful};
    ghost use Rattle.file_bank.specs.Row.{TellsSame, kept_sector, with_sector};

    ghost contents = { file_of };

    ghost faults = { faults_of };

    ghost lawful = { λ file. lawful file.first.items file.present.items file.calls.items
        file.last file.by file.same file.whole };

    fn length(&self) -> u64 {
        self.present.len() as u64 * 512
    }

    fn last_moment(&self) -> u64 {
        self.last
    }

    /// A read fails where it is listed, and nowhere else.
    fn read_at(&mut self, offset: u64, into: &mut [u8]) -> Result<usize, ReadFault>
        requires some { 0 < length into.old }
        requires one { offset % 512 + length into.old ≤ 512 }
        requires inside { offset + length into.old ≤ (file_of self.old).length }
        ensures bound { IfOk result (λ count. (1 ≤ count) × (count ≤ length into.new)) }
        ensures bytes { IfOk result (λ count. GivesBytes (file_of self.old) offset count into.new) }
        ensures same { file_of self.new ≡ file_of self.old }
        ensures counts { CountsFault (faults_of self.old) (faults_of self.new) result }
        ensures count { IfOk result (λ count. count ≡ min (length into.old) (piece_of self.old)) }
        ensures listed { OnOk result (FailsNextOn self.old → ⊥) }
        ensures only_listed { OnErr result (FailsNextOn self.old) }
        ensures made { OneCallMade self.old self.new }
        ensures begun { file_begun self.new ≡ file_begun self.old }
    {
        if self.plan.fails_now() {
            return Err(ReadFault::Failed);
        }
        let sector = &self.present[(offset / 512) as usize];
        let from = (offset % 512) as usize;
        let count = into.len().min(self.piece);
        into[..count].copy_from_slice(&sector[from..from + count]);
        Ok(count)
    }

    /// A write fails where it is listed, and else only where its record finds no memory.
    fn write_at(&mut self, moment: u64, offset: u64, from: &[u8; 512]) -> Result<(), Failed>
        requires whole { offset % 512 ≡ 0 }
        requires inside { offset + 512 ≤ (file_of self.old).length }
        requires later { (file_of self.old).last < moment }
        ensures written { Written (file_of self.old) (file_of self.new) moment (offset / 512) from.now result }
        ensures counts { CountsFault (faults_of self.old) (faults_of self.new) result }
        ensures listed { OnOk result (FailsNextOn self.old → ⊥) }
        ensures made { OneCallMade self.old self.new }
        ensures exact { OnOk result (TellsSame (with_sector (file_of self.old) (offset / 512)
            (kept_sector moment from.now)) (file_of self.new)) }
        ensures last { OnOk result ((file_of self.new).last ≡ moment) }
        ensures none { OnErr result (file_of self.new ≡ file_of self.old) }
    {
        self.begun = false;
        if self.plan.fails_now() {
            return Err(Failed);
        }
        let sector = offset / 512;
        let bytes = *from;
        if self
            .calls
            .push(Call::Write {
                moment,
                sector,
                bytes,
            })
            .is_err()
        {
            self.plan.count_fault();
            return Err(Failed);
        }
        self.last = moment;
        self.present[sector as usize] = bytes;
        Ok(())
    }

    /// A sync fails where it is listed, and else only where its record finds no memory.
    fn sync(&mut self, moment: u64) -> Result<(), Failed>
        requires { (file_of self.old).last < moment }
        ensures settled { Settled (file_of self.old) (file_of self.new) moment result }
        ensures counts { CountsFault (faults_of self.old) (faults_of self.new) result }
        ensures listed { OnOk result (FailsNextOn self.old → ⊥) }
        ensures made { OneCallMade self.old self.new }
    {
        self.begun = false;
        if self.plan.fails_now() {
            return Err(Failed);
        }
        if self.calls.push(Call::Sync { moment }).is_err() {
            self.plan.count_fault();
            return Err(Failed);
        }
        self.last = moment;
        Ok(())
    }
}

/// A row is written sector by sector, and each of these calls has its number. It is read in one call.
impl RowFile for MemFile {
    ghost use Rattle.file_bank.specs.MemFile.{file_begun, file_of, faults_of};
    ghost use Rattle.file_bank.specs.MemLaws.{lawful};

    ghost contents = { file_of };

    ghost faults = { faults_of };

    ghost begun_with = { file_begun };

    ghost lawful = { λ file. lawful file.first.items file.present.items file.calls.items
        file.last file.by file.same file.whole };

    fn length(&self) -> u64 {
        BlockFile::length(self)
    }

    fn last_moment(&self) -> u64 {
        self.last
    }

    fn read_at(&mut self, offset: u64, into: &mut [u8]) -> Result<usize, ReadFault> {
        BlockFile::read_at(self, offset, into)
    }

    /// None comes where the call is listed, or where a read gives fewer bytes.
    fn read_row(&mut self, offset: u64, into: &mut [[u8; 512]]) -> Result<(), Failed> {
        if self.plan.is_next_listed() || self.piece < into.len() * 512 {
            return Err(Failed);
        }
        let from = (offset / 512) as usize;
        into.copy_from_slice(&self.present[from..from + into.len()]);
        Ok(())
    }

    fn write_row(&mut self, offset: u64, moments: &[u64], row: &[[u8; 512]]) -> Result<(), usize> {
        for index in 0..row.len() {
            let place = offset + index as u64 * 512;
            if self.write_at(moments[index], place, &row[index]).is_err() {
                return Err(index);
            }
        }
        Ok(())
    }

    fn sync(&mut self, moment: u64) -> Result<(), Failed> {
        BlockFile::sync(self, moment)
    }

    fn is_slow(&self) -> bool {
        self.slow
    }

    fn begin_sync(&mut self) -> bool {
        self.begun = self.slow;
        self.slow
    }

    /// It is a call with a number, which fails where it is listed.
    fn end_late_sync(&mut self, _moment: u64) -> Result<(), Failed> {
        if self.plan.fails_now() {
            return Err(Failed);
        }
        Ok(())
    }
}
