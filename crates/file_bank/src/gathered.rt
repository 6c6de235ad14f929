// A file whose writes are kept until several that lie side by side are handed over together.
ghost use Rattle.std.specs.Prelude.{◌≡◌, ◌+◌, ◌*◌, ◌/◌, ◌%◌, ◌^◌, ◌<◌, ◌≤◌, ℕ, List, [], length, false, true};
ghost use Rattle.std.specs.Prelude.{OnOk, OnErr, IfOk, Option, Some, None};
ghost use Rattle.file_bank.specs.declared.gathered.Begun.TheVariants.{Whole};
ghost use Rattle.file_bank.specs.BlockFile.{CountsFault, GivesBytes, Written, Settled};
ghost use Rattle.file_bank.specs.KeptRow.{sectors_kept};
ghost use Rattle.file_bank.specs.Row.{AllKeptBy, HasRisingMoments, TellsSame};
ghost use Rattle.file_bank.specs.RowProps.{kept_by_prop, rising_prop};

use crate::block_file::{BlockFile, ReadFault, count_call};
use crate::kept_row::KeptRow;
use crate::read_ahead::ReadAhead;
use crate::row_file::RowFile;
use bank_trait::Failed;
use std::alloc::{AllocError, Global};

/// What was handed over since a sync was begun early.
#[derive(Clone, Copy)]
enum Begun {
    /// Nothing: it makes all durable that the file below holds.
    Whole,
    Late,
}

/// A write is kept. What is kept is handed over before a write elsewhere, before the 65th sector, and before a sync.
/// Where that fails the file is stuck: what was not handed over stays kept, and each later write and sync fails.
#[derive(Drop)]
pub struct Gathered<F: RowFile> {
    file: F,
    kept: KeptRow,
    /// The moment of the last write or sync.
    last: u64,
    stuck: bool,
    /// The sync that was begun early, where one has not ended.
    begun: Option<Begun>,
    faults: u64,
    ghost paced: { (F.contents file).last ≤ last },
    ghost by: { AllKeptBy last (sectors_kept kept) } by { kept_by_prop last (sectors_kept kept) },
    ghost rising: { stuck ≡ false
        → HasRisingMoments (F.contents file).last (sectors_kept kept) } by { λ one other i free.
            rising_prop (F.contents file).last (sectors_kept kept) (one free) (other free) i },
    ghost inside: { 512 * (kept.first + length kept.sectors.items) ≤ (F.contents file).length },
    ghost begun_with: { begun ≡ Some Whole → F.begun_with file ≡ Some (F.contents file) },
}

impl<F: RowFile> Gathered<F> {
    ghost use Rattle.file_bank.specs.Gathered.{FailsBelow, told_of, gathered_faults, faults_below, is_stuck};
    ghost use Rattle.file_bank.specs.Gathered.{not_handed_over};

    /// A file of which nothing is kept. Only here may memory lack: there is room for all that will be kept.
    pub fn new(alloc: Global, file: F) -> Result<Gathered<F>, AllocError>
    where
        F: Drop,
        ensures same { IfOk result (λ held. TellsSame (F.contents file) (told_of F.contents held)) }
        ensures faults { IfOk result (λ held. gathered_faults held ≡ 0) }
        ensures below { IfOk result (λ held. faults_below F.faults held ≡ F.faults file) }
        ensures free { IfOk result (λ held. is_stuck held ≡ false) }
        ensures none { IfOk result (λ held. not_handed_over held ≡ []) }
    {
        let kept = KeptRow::new(alloc)?;
        let last = file.last_moment();
        Ok(Gathered {
            file,
            kept,
            last,
            stuck: false,
            begun: None,
            faults: 0,
        })
    }

    /// Hands over what is kept. Where that fails what was not handed over stays kept, and the file is stuck.
    fn hand_over(&mut self) -> Result<(), Failed>
        requires free { self.old.stuck ≡ false }
        ensures same { TellsSame (told_of F.contents self.old) (told_of F.contents self.new) }
        ensures last { self.new.last ≡ self.old.last }
        ensures faults { self.new.faults ≡ self.old.faults }
        ensures emptied { OnOk result (sectors_kept self.new.kept ≡ []) }
        ensures free { OnOk result (self.new.stuck ≡ false) }
        ensures stuck { OnErr result (self.new.stuck ≡ true) }
        ensures below { CountsFault (F.faults self.old.file) (F.faults self.new.file) result }
        ensures begun { self.old.begun ≡ None → self.new.begun ≡ None }
    {
        if self.kept.sectors.is_empty() {
            return Ok(());
        }
        self.begun = self.begun.map(|_| Begun::Late);
        let first = self.kept.first;
        match self
            .file
            .write_row(first * 512, &self.kept.moments, &self.kept.sectors)
        {
            Ok(()) => {
                self.kept.restart_at(first);
                Ok(())
            }
            Err(count) => {
                self.stuck = true;
                self.kept.drop_front(count);
                Err(Failed)
            }
        }
    }

    /// Makes room for a sector: hands over what it does not lie behind.
    fn make_room(&mut self, sector: u64) -> Result<(), Failed>
        requires free { self.old.stuck ≡ false }
        requires fits { sector < 2 ^ 55 }
        requires inside { 512 * sector + 512 ≤ (told_of F.contents self.old).length }
        ensures same { TellsSame (told_of F.contents self.old) (told_of F.contents self.new) }
        ensures last { self.new.last ≡ self.old.last }
        ensures faults { self.new.faults ≡ self.old.faults }
        ensures free { OnOk result (self.new.stuck ≡ false) }
        ensures stuck { OnErr result (self.new.stuck ≡ true) }
        ensures next { OnOk result (sector ≡ self.new.kept.first + length self.new.kept.sectors.items) }
        ensures few { OnOk result (length self.new.kept.sectors.items < 64) }
        ensures below { CountsFault (F.faults self.old.file) (F.faults self.new.file) result }
    {
        if self.kept.goes_on_at(sector) {
            return Ok(());
        }
        self.hand_over()?;
        self.kept.restart_at(sector);
        Ok(())
    }

    /// Keeps one more sector behind the others.
    fn keep(&mut self, moment: u64, sector: u64, from: &[u8; 512])
        requires free { self.old.stuck ≡ false }
        requires later { self.old.last < moment }
        requires next { sector ≡ self.old.kept.first + length self.old.kept.sectors.items }
        requires few { length self.old.kept.sectors.items < 64 }
        requires fits { sector < 2 ^ 55 }
        requires inside { 512 * sector + 512 ≤ (told_of F.contents self.old).length }
        ensures written { Written (told_of F.contents self.old) (told_of F.contents self.new) moment sector
            from.now (Ok tt) }
        ensures faults { self.new.faults ≡ self.old.faults }
        ensures free { self.new.stuck ≡ false }
        ensures below { F.faults self.new.file ≡ F.faults self.old.file }
    {
        self.kept.push(moment, from);
        self.last = moment;
    }

    fn write_kept(&mut self, moment: u64, sector: u64, from: &[u8; 512]) -> Result<(), Failed>
        requires later { self.old.last < moment }
        requires fits { sector < 2 ^ 55 }
        requires inside { 512 * sector + 512 ≤ (told_of F.contents self.old).length }
        ensures written { Written (told_of F.contents self.old) (told_of F.contents self.new) moment sector
            from.now result }
        ensures faults { self.new.faults ≡ self.old.faults }
        ensures below { FailsBelow self.old.stuck self.new.stuck (F.faults self.old.file)
            (F.faults self.new.file) result }
        ensures stuck { OnErr result (self.new.stuck ≡ true) }
    {
        if self.stuck {
            return Err(Failed);
        }
        self.make_room(sector)?;
        self.keep(moment, sector, from);
        Ok(())
    }

    fn sync_all(&mut self, moment: u64) -> Result<(), Failed>
        requires later { self.old.last < moment }
        ensures settled { Settled (told_of F.contents self.old) (told_of F.contents self.new) moment result }
        ensures faults { self.new.faults ≡ self.old.faults }
        ensures below { FailsBelow self.old.stuck self.new.stuck (F.faults self.old.file)
            (F.faults self.new.file) result }
        ensures emptied { OnOk result (sectors_kept self.new.kept ≡ []) }
    {
        if self.stuck {
            return Err(Failed);
        }
        self.hand_over()?;
        self.last = moment;
        match self.begun.take() {
            None => self.file.sync(moment),
            Some(Begun::Whole) => self.file.end_sync(moment),
            Some(Begun::Late) => {
                self.file.end_late_sync(moment)?;
                self.file.sync(moment)
            }
        }
    }

    /// Hands over what is kept and begins a sync, where it is worth it.
    fn begin(&mut self) -> Result<(), Failed>
        requires free { self.old.stuck ≡ false }
        requires none { self.old.begun ≡ None }
        ensures same { TellsSame (told_of F.contents self.old) (told_of F.contents self.new) }
        ensures last { self.new.last ≡ self.old.last }
        ensures faults { self.new.faults ≡ self.old.faults }
        ensures stuck { OnErr result (self.new.stuck ≡ true) }
        ensures free { OnOk result (self.new.stuck ≡ false) }
        ensures below { CountsFault (F.faults self.old.file) (F.faults self.new.file) result }
    {
        self.hand_over()?;
        if self.file.begin_sync() {
            self.begun = Some(Begun::Whole);
        }
        Ok(())
    }

    /// Hands over what is kept, at the end of a run. Nothing that is told changes.
    pub fn finish(&mut self) -> Result<(), Failed>
        ensures same { TellsSame (told_of F.contents self.old) (told_of F.contents self.new) }
        ensures last { (told_of F.contents self.new).last ≡ (told_of F.contents self.old).last }
        ensures counts { CountsFault (gathered_faults self.old) (gathered_faults self.new) result }
        ensures below { FailsBelow (is_stuck self.old) (is_stuck self.new) (faults_below F.faults self.old)
            (faults_below F.faults self.new) result }
        ensures emptied { OnOk result (not_handed_over self.new ≡ []) }
    {
        let outcome = if self.stuck {
            Err(Failed)
        } else {
            self.hand_over()
        };
        count_call(&mut self.faults, outcome)
    }
}

impl<F: RowFile> Gathered<ReadAhead<F>> {
    ghost use Rattle.file_bank.specs.Gathered.{told_of, gathered_faults};
    ghost use Rattle.file_bank.specs.ReadAhead.{RemembersNone, ahead_contents};

    /// Forgets what was read, so that each sector that is not kept is asked of the file again.
    pub fn forget_reads(&mut self)
        ensures same { told_of (ahead_contents F.contents) self.new
            ≡ told_of (ahead_contents F.contents) self.old }
        ensures faults { gathered_faults self.new ≡ gathered_faults self.old }
        ensures none { RemembersNone self.new.file }
    {
        self.file.forget();
    }
}

impl<F: RowFile> BlockFile for Gathered<F> {
    ghost use Rattle.file_bank.specs.Gathered.{CountsStuck, FailsBelow, told_of, gathered_faults, faults_below};
    ghost use Rattle.file_bank.specs.Gathered.{is_stuck, not_handed_over};
    ghost use Rattle.file_bank.specs.RowLaws.{gathered_lawful};

    ghost contents = { told_of F.contents };

    ghost faults = { gathered_faults };

    ghost lawful = { λ held. gathered_lawful (F.contents held.file) held.kept.first (sectors_kept held.kept) held.last
        (F.lawful held.file) held.kept.whole held.paced held.by };

    fn length(&self) -> u64 {
        self.file.length()
    }

    fn last_moment(&self) -> u64 {
        self.last
    }

    /// A read hands nothing over. It gives what is kept, and else what the file gives.
    fn read_at(&mut self, offset: u64, into: &mut [u8]) -> Result<usize, ReadFault>
        requires some { 0 < length into.old }
        requires one { offset % 512 + length into.old ≤ 512 }
        requires inside { offset + length into.old ≤ (told_of F.contents self.old).length }
        ensures bound { IfOk result (λ count. (1 ≤ count) × (count ≤ length into.new)) }
        ensures bytes { IfOk result (λ count. GivesBytes (told_of F.contents self.old) offset count into.new) }
        ensures same { told_of F.contents self.new ≡ told_of F.contents self.old }
        ensures counts { CountsFault (gathered_faults self.old) (gathered_faults self.new) result }
        ensures below { CountsFault (faults_below F.faults self.old) (faults_below F.faults self.new) result }
        ensures kept { not_handed_over self.new ≡ not_handed_over self.old }
        ensures stuck { is_stuck self.new ≡ is_stuck self.old }
    {
        if self.kept.has(offset / 512) {
            self.kept.read(offset, into);
            return Ok(into.len());
        }
        let outcome = self.file.read_at(offset, into);
        count_call(&mut self.faults, outcome)
    }

    /// A write fails where the file is stuck, and else only where what is kept was not handed over.
    fn write_at(&mut self, moment: u64, offset: u64, from: &[u8; 512]) -> Result<(), Failed>
        requires whole { offset % 512 ≡ 0 }
        requires inside { offset + 512 ≤ (told_of F.contents self.old).length }
        requires later { (told_of F.contents self.old).last < moment }
        ensures written { Written (told_of F.contents self.old) (told_of F.contents self.new) moment (offset / 512)
            from.now result }
        ensures counts { CountsFault (gathered_faults self.old) (gathered_faults self.new) result }
        ensures below { FailsBelow (is_stuck self.old) (is_stuck self.new) (faults_below F.faults self.old)
            (faults_below F.faults self.new) result }
        ensures stuck { OnErr result (is_stuck self.new ≡ true) }
    {
        let outcome = self.write_kept(moment, offset / 512, from);
        count_call(&mut self.faults, outcome)
    }

    /// A sync hands over first. It fails where the file is stuck, and else only where that or the sync of the file
    /// below fails.
    fn sync(&mut self, moment: u64) -> Result<(), Failed>
        requires { (told_of F.contents self.old).last < moment }
        ensures settled { Settled (told_of F.contents self.old) (told_of F.contents self.new) moment result }
        ensures counts { CountsFault (gathered_faults self.old) (gathered_faults self.new) result }
        ensures below { FailsBelow (is_stuck self.old) (is_stuck self.new) (faults_below F.faults self.old)
            (faults_below F.faults self.new) result }
        ensures emptied { OnOk result (not_handed_over self.new ≡ []) }
    {
        let outcome = self.sync_all(moment);
        count_call(&mut self.faults, outcome)
    }

    fn has_begun_sync(&self) -> bool {
        self.begun.is_some()
    }

    /// Where syncs take long, and none was begun, what is kept is handed over and a sync is begun. Where the hand-over
    /// fails the file is stuck, and its next sync fails.
    fn begin_sync(&mut self)
        ensures same { TellsSame (told_of F.contents self.old) (told_of F.contents self.new) }
        ensures last { (told_of F.contents self.new).last ≡ (told_of F.contents self.old).last }
        ensures faults { gathered_faults self.new ≡ gathered_faults self.old }
        ensures below { CountsStuck (is_stuck self.old) (is_stuck self.new) (faults_below F.faults self.old)
            (faults_below F.faults self.new) }
    {
        if !self.stuck && self.begun.is_none() && self.file.is_slow() {
            let _ = self.begin();
        }
    }
}
