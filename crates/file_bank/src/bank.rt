// A bank over files, one for each device.
ghost use Rattle.std.specs.Prelude.{◌≡◌, ◌<◌, ◌≤◌, ◌^◌, ℕ, length, max, slice_index};
ghost use Rattle.file_bank.specs.Files.{CountsCall, IsLongest, all_shown, longer, shown};

use crate::block_file::BlockFile;
use crate::gathered::Gathered;
use crate::opened::{finish_file, forget_file};
use crate::read_ahead::ReadAhead;
use crate::row_file::RowFile;
use crate::slot::{
    SECTOR_BYTES, begin_sync_of, has_begun_sync, read_sector, sync_file, write_sector,
};
use bank_trait::{Bank, Failed};

/// A file that could not be opened fails all its calls, and so does a sector past a file's end: no file
/// grows. A write or sync is counted by one clock over all files.
#[derive(Drop)]
pub struct FileBank<F: BlockFile> {
    files: Vec<Option<F>>,
    faults: Vec<u64>,
    sectors: u64,
    clock: u64,
    ghost counted: { length faults.items ≡ length files.items },
    ghost few: { length files.items < 2 ^ 32 },
    ghost paced: { (device : ℕ) → (all_shown F.contents files.items device).last ≤ clock },
}

/// Counts a call by its outcome.
fn note(faults: &mut Vec<u64>, device: usize, outcome: Result<(), Failed>)
    requires { device < length faults.old.items }
    ensures counts { CountsCall (slice_index faults.old.items) (slice_index faults.new.items) device
        outcome }
    ensures len { length faults.new.items ≡ length faults.old.items }
{
    if outcome.is_err() {
        faults[device] = faults[device].saturating_add(1);
    }
}

/// How many whole sectors the longest has, where one more file is looked at.
fn with_file<F: BlockFile>(longest: Option<u64>, file: &Option<F>) -> Option<u64>
    ensures { result ≡ longer F.contents longest file.now }
{
    match file {
        Some(file) => Some((file.length() / SECTOR_BYTES).max(longest.unwrap_or(0))),
        None => longest,
    }
}

/// How many whole sectors the longest file has; none where none was opened.
fn longest_of<F: BlockFile>(files: &[Option<F>]) -> Option<u64>
    ensures { IsLongest F.contents files.now (length files.now) result }
{
    let mut longest = None;
    for file in files {
        longest = with_file(longest, file);
    }
    longest
}

/// The last moment of a call on one more file.
fn later_of<F: BlockFile>(latest: u64, file: &Option<F>) -> u64
    ensures { result ≡ max latest (shown F.contents file.now).last }
{
    match file {
        Some(file) => latest.max(file.last_moment()),
        None => latest,
    }
}

/// A moment that no call on these files is later than.
fn latest_of<F: BlockFile>(files: &[Option<F>]) -> u64
    ensures { (device : ℕ) → (all_shown F.contents files.now device).last ≤ result }
{
    let mut latest = 0;
    for file in files {
        latest = later_of(latest, file);
    }
    latest
}

impl<F: BlockFile> FileBank<F> {
    ghost use Rattle.std.specs.Prelude.{◌↔◌};
    ghost use Rattle.bank_trait.specs.Causes.{NoneFailed};
    ghost use Rattle.bank_trait.specs.Disk.{Unchanged};
    ghost use Rattle.file_bank.specs.FileBank.{LacksFile, disk_of, file_faults};
    ghost use Rattle.file_bank.specs.Files.{HasLongestSectors, all_faults, as_bank};

    /// The bank has as many sectors as the longest file has whole ones, at most `most`; where none could
    /// be opened `most`, so that calls are made, and fail. Its clock goes on from the files' last moment.
    pub fn new(files: Vec<Option<F>>, faults: Vec<u64>, most: u64) -> FileBank<F>
        requires counted { length faults.items ≡ length files.items }
        requires few { length files.items < 2 ^ 32 }
        ensures sectors { HasLongestSectors F.contents files.items most (disk_of F.contents result).sectors }
        ensures disk { disk_of F.contents result ≡ as_bank (length files.items)
            (disk_of F.contents result).sectors (all_shown F.contents files.items)
            (slice_index faults.items) (disk_of F.contents result).clock }
        ensures file_faults { file_faults F.faults result ≡ all_faults F.faults files.items }
    {
        let sectors = longest_of(&files).unwrap_or(most).min(most);
        let clock = latest_of(&files);
        FileBank {
            files,
            faults,
            sectors,
            clock,
        }
    }

    /// May begin a sync of a device, which its next sync ends.
    fn begin_sync(&mut self, number: usize)
        requires { number < length self.old.files.items }
        ensures unchanged { Unchanged (disk_of F.contents self.old) (disk_of F.contents self.new) }
        ensures counts { NoneFailed (disk_of F.contents self.old).faults (disk_of F.contents self.new).faults }
        ensures file_faults { NoneFailed (file_faults F.faults self.old) (file_faults F.faults self.new) }
        ensures lacks { (device : ℕ) → LacksFile self.new device ↔ LacksFile self.old device }
    {
        begin_sync_of(&mut self.files[number]);
    }

    /// Where the sync of this device was not begun before, a round of syncs begins with it: those of the others may be
    /// begun, so that they take their time beside this one. A device of which a call has failed is left alone.
    fn begin_round(&mut self, first: usize)
        requires { first < length self.old.files.items }
        ensures unchanged { Unchanged (disk_of F.contents self.old) (disk_of F.contents self.new) }
        ensures counts { NoneFailed (disk_of F.contents self.old).faults (disk_of F.contents self.new).faults }
        ensures file_faults { NoneFailed (file_faults F.faults self.old) (file_faults F.faults self.new) }
        ensures lacks { (device : ℕ) → LacksFile self.new device ↔ LacksFile self.old device }
    {
        if has_begun_sync(&self.files[first]) {
            return;
        }
        for number in 0..self.files.len() {
            if number != first && self.faults[number] == 0 {
                self.begin_sync(number);
            }
        }
    }

    /// How many calls on a device have failed, places past its file's end too.
    pub fn faults(&self, device: u32) -> u64
        requires { device < (disk_of F.contents self.now).devices }
        ensures { result ≡ (disk_of F.contents self.now).faults device }
    {
        self.faults[device as usize]
    }
}

impl<F: RowFile> FileBank<Gathered<F>> {
    ghost use Rattle.std.specs.Prelude.{◌≢◌, None, slice_index_or};
    ghost use Rattle.bank_trait.specs.Disk.{Unchanged};
    ghost use Rattle.file_bank.specs.FileBank.{HasHandedOver, disk_of};
    ghost use Rattle.file_bank.specs.Gathered.{told_of};

    fn finish_device(&mut self, number: usize)
        requires { number < length self.old.files.items }
        ensures unchanged { Unchanged (disk_of (told_of F.contents) self.old)
            (disk_of (told_of F.contents) self.new) }
        ensures len { length self.new.files.items ≡ length self.old.files.items }
        ensures handed { slice_index self.old.faults.items number ≡ 0
            → HasHandedOver self.new number }
        ensures others { (device : ℕ) → device ≢ number → slice_index_or self.new.files.items device None
            ≡ slice_index_or self.old.files.items device None }
        ensures counts { (device : ℕ) → device ≢ number
            → slice_index self.new.faults.items device ≡ slice_index self.old.faults.items device }
    {
        if self.faults[number] > 0 {
            return;
        }
        let outcome = finish_file(&mut self.files[number]);
        note(&mut self.faults, number, outcome);
    }

    /// Hands over what is kept of each device of which no call has failed, at the end of a run. Where that fails it
    /// is counted.
    pub fn finish(&mut self)
        ensures unchanged { Unchanged (disk_of (told_of F.contents) self.old)
            (disk_of (told_of F.contents) self.new) }
        ensures handed { (device : ℕ) → device < (disk_of (told_of F.contents) self.old).devices
            → (disk_of (told_of F.contents) self.old).faults device ≡ 0 → HasHandedOver self.new device }
    {
        for number in 0..self.files.len() {
            self.finish_device(number);
        }
    }
}

impl<F: RowFile> FileBank<Gathered<ReadAhead<F>>> {
    ghost use Rattle.std.specs.Prelude.{◌≢◌, None, slice_index_or};
    ghost use Rattle.bank_trait.specs.Disk.{Unchanged};
    ghost use Rattle.file_bank.specs.FileBank.{disk_of};
    ghost use Rattle.file_bank.specs.Gathered.{told_of};
    ghost use Rattle.file_bank.specs.ReadAhead.{HasForgotten, ahead_contents};

    fn forget_device(&mut self, number: usize)
        requires { number < length self.old.files.items }
        ensures unchanged { Unchanged (disk_of (told_of (ahead_contents F.contents)) self.old)
            (disk_of (told_of (ahead_contents F.contents)) self.new) }
        ensures len { length self.new.files.items ≡ length self.old.files.items }
        ensures forgotten { HasForgotten (slice_index_or self.new.files.items number None) }
        ensures others { (device : ℕ) → device ≢ number → slice_index_or self.new.files.items device None
            ≡ slice_index_or self.old.files.items device None }
    {
        forget_file(&mut self.files[number]);
    }

    /// Forgets what was read of each device, so that a second look asks the files again.
    pub fn forget_reads(&mut self)
        ensures unchanged { Unchanged (disk_of (told_of (ahead_contents F.contents)) self.old)
            (disk_of (told_of (ahead_contents F.contents)) self.new) }
        ensures forgotten { (device : ℕ) → device < (disk_of (told_of (ahead_contents F.contents)) self.old).devices
            → HasForgotten (slice_index_or self.new.files.items device None) }
    {
        for number in 0..self.files.len() {
            self.forget_device(number);
        }
    }
}

impl<F: BlockFile> Bank for FileBank<F> {
    ghost use Rattle.std.specs.Prelude.{◌≢◌, ◌⊎◌, List, Some, OnOk, OnErr};
    ghost use Rattle.bank_trait.specs.Causes.{FaultCounted, FailedOnce};
    ghost use Rattle.bank_trait.specs.Disk.{Unchanged, Wrote, Synced};
    ghost use Rattle.file_bank.specs.FileBank.{LacksFile, LacksMoment, LacksSector, disk_of, file_faults};
    ghost use Rattle.file_bank.specs.Files.{HasFileCause, OtherCountsStay};
    ghost use Rattle.file_bank.specs.Lawful.{all_lawful, joined_lawful};

    ghost disk = { disk_of F.contents };

    ghost lawful = { λ b. joined_lawful (length b.files.items) b.sectors
        (all_shown F.contents b.files.items) (slice_index b.faults.items) b.clock
        (all_lawful F.contents F.lawful b.files.items) b.paced };

    fn devices(&self) -> u32 {
        self.files.len() as u32
    }

    fn sectors(&self) -> u64 {
        self.sectors
    }

    /// A read fails where the file lacks the sector, and else only where the file's count of faults rose.
    fn read(&mut self, device: u32, sector: u64, into: &mut [u8; 512]) -> Result<(), Failed>
        requires device { device < (disk_of F.contents self.old).devices }
        requires sector { sector < (disk_of F.contents self.old).sectors }
        ensures bytes { OnOk result ((bytes : List ℕ)
            → (disk_of F.contents self.old).reads device sector ≡ Some bytes → into.new ≡ bytes) }
        ensures failed { OnErr result (FaultCounted ((disk_of F.contents self.old).faults device)
            ((disk_of F.contents self.new).faults device)) }
        ensures unchanged { Unchanged (disk_of F.contents self.old) (disk_of F.contents self.new) }
        ensures once { OnErr result (FailedOnce (disk_of F.contents self.old).faults
            (disk_of F.contents self.new).faults device) }
        ensures well { OnOk result (disk_of F.contents self.new ≡ disk_of F.contents self.old) }
        ensures cause { HasFileCause (LacksSector F.contents self.old device sector)
            (file_faults F.faults self.old device) (file_faults F.faults self.new device) result }
        ensures others { OtherCountsStay (file_faults F.faults self.old)
            (file_faults F.faults self.new) device }
    {
        let number = device as usize;
        let outcome = read_sector(&mut self.files[number], sector, into);
        note(&mut self.faults, number, outcome);
        outcome
    }

    /// A write fails where the file lacks the sector or no moment is left, and else only where the file's
    /// count of faults rose.
    fn write(&mut self, device: u32, sector: u64, from: &[u8; 512]) -> Result<(), Failed>
        requires device { device < (disk_of F.contents self.old).devices }
        requires sector { sector < (disk_of F.contents self.old).sectors }
        ensures wrote { Wrote (disk_of F.contents self.old) (disk_of F.contents self.new) device sector
            from.now result }
        ensures cause { HasFileCause (LacksMoment self.old ⊎ LacksSector F.contents self.old device sector)
            (file_faults F.faults self.old device) (file_faults F.faults self.new device) result }
        ensures others { OtherCountsStay (file_faults F.faults self.old)
            (file_faults F.faults self.new) device }
    {
        let number = device as usize;
        let Some(moment) = self.clock.checked_add(1) else {
            note(&mut self.faults, number, Err(Failed));
            return Err(Failed);
        };
        self.clock = moment;
        let outcome = write_sector(&mut self.files[number], moment, sector, from);
        note(&mut self.faults, number, outcome);
        outcome
    }

    /// A sync fails where the file could not be opened or no moment is left, and else only where the file's
    /// count of faults rose. Syncs of other devices may be begun beside it.
    fn sync(&mut self, device: u32) -> Result<(), Failed>
        requires { device < (disk_of F.contents self.old).devices }
        ensures synced { Synced (disk_of F.contents self.old) (disk_of F.contents self.new) device result }
        ensures cause { HasFileCause (LacksMoment self.old ⊎ LacksFile self.old device)
            (file_faults F.faults self.old device) (file_faults F.faults self.new device) result }
        ensures others { OtherCountsStay (file_faults F.faults self.old)
            (file_faults F.faults self.new) device }
    {
        let number = device as usize;
        self.begin_round(number);
        let Some(moment) = self.clock.checked_add(1) else {
            note(&mut self.faults, number, Err(Failed));
            return Err(Failed);
        };
        self.clock = moment;
        let outcome = sync_file(&mut self.files[number], moment);
        note(&mut self.faults, number, outcome);
        outcome
    }
}
