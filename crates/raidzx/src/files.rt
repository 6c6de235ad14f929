// Images as files.
ghost use Rattle.std.specs.Prelude.{◌≡◌, ◌↔◌, ◌*◌, ◌/◌, ◌≤◌, min, IfErr, IfOk, IsOk};
ghost use Rattle.std.specs.IoError.{error_kind};
ghost use Rattle.std.specs.declared.io.ErrorKind.TheVariants as kind;
ghost use Rattle.file_bank.specs.declared.block_file.ReadFault.TheVariants.{Interrupted};

use crate::pace::Pace;
use crate::told::{Told, sync_beside};
use bank_trait::Failed;
use file_bank::{ReadFault, RowFile, SECTOR_BYTES, count_call};
use raidzx_top::MOST_SECTORS;
use std::alloc::{AllocError, Global};
use std::fs::File;
use std::io::{self, ErrorKind};
use std::os::unix::fs::FileExt;
use std::sync::{Arc, Wait};
use std::thread::Threads;
use std::time::{Clock, Instant};

/// What syncs of images take of the runtime: threads beside which they are made, waits for their ends, and a clock by
/// which it is seen whether they take long.
pub trait SyncRuntime: Threads + Wait + Clock + Drop {}

impl<R: Threads + Wait + Clock + Drop> SyncRuntime for R {}

/// An open file, and how many whole sectors of it may be used.
#[derive(Drop)]
pub struct Image {
    file: File,
    sectors: u64,
    ghost few: { sectors ≤ 65_728 },
}

impl Image {
    ghost use Rattle.raidzx.specs.Images.{image_sectors};

    /// A file of so many bytes: its whole sectors are used, as far as a device may have them.
    pub fn new(file: File, bytes: u64) -> Image
        ensures sectors { image_sectors result ≡ min (bytes / 512) 65_728 }
    {
        Image {
            file,
            sectors: (bytes / SECTOR_BYTES).min(MOST_SECTORS),
        }
    }

    pub fn sectors(&self) -> u64
        ensures { result ≡ image_sectors self.now }
    {
        self.sectors
    }
}

/// An image as a file of a bank, with the runtime that its syncs take.
#[derive(Drop)]
pub struct ImageFile<R> {
    rt: R,
    image: Image,
    /// How many calls on it have failed.
    faults: u64,
    /// Something may have been written since its last sync was made or begun, also by an earlier run.
    is_written: bool,
    /// A sync was begun that has not ended.
    is_begun: bool,
    told: Arc<Told>,
    /// That of all images of its bank.
    pace: Arc<Pace>,
}

impl<R: SyncRuntime> ImageFile<R> {
    ghost use Rattle.raidzx.specs.Images.{image_contents, image_faults, image_sectors};

    pub fn new(
        rt: R,
        alloc: Global,
        image: Image,
        pace: Arc<Pace>,
    ) -> Result<ImageFile<R>, AllocError>
        ensures length { IfOk result (λ file. (image_contents file).length ≡ 512 * image_sectors image) }
        ensures faults { IfOk result (λ file. image_faults file ≡ 0) }
    {
        Ok(ImageFile {
            rt,
            image,
            faults: 0,
            is_written: true,
            is_begun: false,
            told: Arc::new(alloc, Told::new())?,
            pace,
        })
    }

    /// A sync that is made here and now, and measured.
    fn sync_now(&mut self) -> Result<(), Failed>
        ensures same { image_contents self.new ≡ image_contents self.old }
        ensures uncounted { image_faults self.new ≡ image_faults self.old }
    {
        self.is_written = false;
        let began = Instant::now(&self.rt).ok();
        let outcome = self.image.file.sync_data();
        self.pace.note_since(&self.rt, began);
        outcome.map_err(|_| Failed)
    }

    /// Waits for the end of the sync that was begun, if one was, and tells how it went.
    fn end_begun(&mut self) -> Result<(), Failed>
        ensures same { image_contents self.new ≡ image_contents self.old }
        ensures uncounted { image_faults self.new ≡ image_faults self.old }
    {
        if !self.is_begun {
            return Ok(());
        }
        self.is_begun = false;
        self.told.wait(&self.rt)
    }
}

/// A file that is there gives no clause of what it holds, so nothing is told of it: what these calls do is
/// trusted, and all that is made of them is proved in `file_bank`. Of syncs that are begun early this is trusted: that
/// one which ended well has made durable all that was written before it was begun, and that one which failed is told at
/// the call that ends it.
impl<R: SyncRuntime> RowFile for ImageFile<R> {
    ghost use Rattle.file_bank.specs.Lawful.{untold_lawful};
    ghost use Rattle.raidzx.specs.Images.{image_begun, image_contents, image_faults, image_sectors};

    ghost contents = { image_contents };

    ghost faults = { image_faults };

    ghost begun_with = { image_begun };

    ghost lawful = { λ file. untold_lawful (512 * image_sectors file.image) };

    fn length(&self) -> u64 {
        self.image.sectors * SECTOR_BYTES
    }

    fn last_moment(&self) -> u64 {
        0
    }

    fn read_at(&mut self, offset: u64, into: &mut [u8]) -> Result<usize, ReadFault> {
        let outcome = match self.image.file.read_at(into, offset) {
            Ok(0) => Err(ReadFault::Failed),
            Ok(count) => Ok(count),
            Err(error) => Err(fault_of(error)),
        };
        count_call(&mut self.faults, outcome)
    }

    /// A call that is interrupted or moves a part has failed too.
    fn read_row(&mut self, offset: u64, into: &mut [[u8; 512]]) -> Result<(), Failed> {
        let bytes = into.as_flattened_mut();
        let wanted = bytes.len();
        match self.image.file.read_at(bytes, offset) {
            Ok(count) if count == wanted => Ok(()),
            _ => Err(Failed),
        }
    }

    /// A call that is interrupted or moves a part is gone on with.
    fn write_row(&mut self, offset: u64, _moments: &[u64], row: &[[u8; 512]]) -> Result<(), usize> {
        self.is_written = true;
        let outcome = self.image.file.write_all_at(row.as_flattened(), offset);
        count_call(&mut self.faults, all_or_none(outcome))
    }

    /// A sync that was begun ends before it, and where that one failed this one has: the system may tell a failure once
    /// alone.
    fn sync(&mut self, _moment: u64) -> Result<(), Failed> {
        let begun = self.end_begun();
        let outcome = self.sync_now();
        count_call(&mut self.faults, begun.and(outcome))
    }

    fn is_slow(&self) -> bool {
        self.pace.is_slow()
    }

    /// Where nothing was written since the last sync there is nothing to begin, and its sync takes no time.
    fn begin_sync(&mut self) -> bool {
        if self.is_begun || !self.is_written {
            return false;
        }
        if !sync_beside(&self.rt, &self.image.file, &self.told) {
            return false;
        }
        self.is_written = false;
        self.is_begun = true;
        true
    }

    fn end_sync(&mut self, _moment: u64) -> Result<(), Failed> {
        let outcome = self.end_begun();
        count_call(&mut self.faults, outcome)
    }

    fn end_late_sync(&mut self, _moment: u64) -> Result<(), Failed> {
        let outcome = self.end_begun();
        count_call(&mut self.faults, outcome)
    }
}

/// How many sectors came through before one failed cannot be known, so none is told: all of them stay kept above.
fn all_or_none(outcome: io::Result<()>) -> Result<(), usize>
    ensures ok { IsOk result ↔ IsOk outcome }
    ensures none { IfErr result (λ count. count ≡ 0) }
{
    match outcome {
        Ok(()) => Ok(()),
        Err(_) => Err(0),
    }
}

fn fault_of(error: io::Error) -> ReadFault
    ensures { result ≡ Interrupted ↔ error_kind error ≡ kind.Interrupted }
{
    match error.kind() {
        ErrorKind::Interrupted => ReadFault::Interrupted,
        _ => ReadFault::Failed,
    }
}
