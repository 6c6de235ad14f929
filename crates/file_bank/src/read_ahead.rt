// A file of which reads that follow one another are served from one read of several sectors.
ghost use Rattle.std.specs.Prelude.{◌≡◌, ◌+◌, ◌*◌, ◌/◌, ◌%◌, ◌<◌, ◌≤◌, ℕ, length, IfOk};
ghost use Rattle.file_bank.specs.ReadPiece.{IsOf};

use crate::block_file::ReadFault;
use crate::read_piece::ReadPiece;
use crate::row_file::{MOST_IN_ROW, RowFile};
use crate::slot::SECTOR_BYTES;
use bank_trait::Failed;
use std::alloc::{AllocError, Global};

/// A read of the sector behind the one that was read last, or of one at a multiple of 64, where rings and index pages
/// begin, reads up to 64 sectors in one call, and those behind it are served from them. Where that call fails, nobody
/// is told: the sector that was asked for is read alone, and so are those behind it for as long.
#[derive(Drop)]
pub struct ReadAhead<F: RowFile> {
    file: F,
    piece: ReadPiece,
    /// The sector behind the one that was read last.
    next: Option<u64>,
    /// So many reads are made alone.
    alone: u64,
    ghost right: { IsOf (F.contents file) piece },
}

impl<F: RowFile> ReadAhead<F> {
    ghost use Rattle.file_bank.specs.ReadAhead.{RemembersNone, ahead_begun, ahead_contents, ahead_faults};

    /// A file of which nothing was read. Only here may memory lack.
    pub fn new(alloc: Global, file: F) -> Result<ReadAhead<F>, AllocError>
    where
        F: Drop,
        ensures same { IfOk result (λ ahead. ahead_contents F.contents ahead ≡ F.contents file) }
        ensures faults { IfOk result (λ ahead. ahead_faults F.faults ahead ≡ F.faults file) }
        ensures none { IfOk result RemembersNone }
    {
        Ok(ReadAhead {
            file,
            piece: ReadPiece::new(alloc)?,
            next: None,
            alone: 0,
        })
    }

    /// Forgets what was read, so that each sector is asked of the file again.
    pub fn forget(&mut self)
        ensures same { ahead_contents F.contents self.new ≡ ahead_contents F.contents self.old }
        ensures faults { ahead_faults F.faults self.new ≡ ahead_faults F.faults self.old }
        ensures begun { ahead_begun F.begun_with self.new ≡ ahead_begun F.begun_with self.old }
        ensures none { RemembersNone self.new }
    {
        self.piece.clear();
        self.next = None;
    }

    /// Whether the sectors behind this one are likely to be asked for next.
    fn is_of_row(&self, sector: u64) -> bool {
        self.next == Some(sector) || sector % MOST_IN_ROW as u64 == 0
    }

    /// Reads several sectors where those behind this one are likely to be asked for, and it is not there yet.
    fn look_ahead(&mut self, sector: u64)
        ensures same { F.contents self.new.file ≡ F.contents self.old.file }
        ensures faults { F.faults self.new.file ≡ F.faults self.old.file }
        ensures begun { F.begun_with self.new.file ≡ F.begun_with self.old.file }
    {
        if !self.is_of_row(sector) || self.piece.has(sector) {
            return;
        }
        if self.alone > 0 {
            self.alone -= 1;
            return;
        }
        let left = (self.file.length() / SECTOR_BYTES).saturating_sub(sector);
        let count = left.min(MOST_IN_ROW as u64);
        if count > 0
            && self
                .piece
                .fill(&mut self.file, sector, count as usize)
                .is_err()
        {
            self.alone = count;
        }
    }
}

impl<F: RowFile> RowFile for ReadAhead<F> {
    ghost use Rattle.file_bank.specs.ReadAhead.{ahead_begun, ahead_contents, ahead_faults};

    ghost contents = { ahead_contents F.contents };

    ghost faults = { ahead_faults F.faults };

    ghost begun_with = { ahead_begun F.begun_with };

    ghost lawful = { λ ahead. F.lawful ahead.file };

    fn length(&self) -> u64 {
        self.file.length()
    }

    fn last_moment(&self) -> u64 {
        self.file.last_moment()
    }

    fn read_at(&mut self, offset: u64, into: &mut [u8]) -> Result<usize, ReadFault> {
        let sector = offset / 512;
        self.look_ahead(sector);
        self.next = Some(sector + 1);
        if self.piece.has(sector) {
            self.piece.read(offset, into);
            return Ok(into.len());
        }
        self.file.read_at(offset, into)
    }

    fn read_row(&mut self, offset: u64, into: &mut [[u8; 512]]) -> Result<(), Failed> {
        self.file.read_row(offset, into)
    }

    fn write_row(&mut self, offset: u64, moments: &[u64], row: &[[u8; 512]]) -> Result<(), usize> {
        self.piece.forget(offset / 512, row.len() as u64);
        self.file.write_row(offset, moments, row)
    }

    fn sync(&mut self, moment: u64) -> Result<(), Failed> {
        let outcome = self.file.sync(moment);
        self.piece.clear_if_failed(outcome);
        outcome
    }

    fn is_slow(&self) -> bool {
        self.file.is_slow()
    }

    fn begin_sync(&mut self) -> bool {
        self.file.begin_sync()
    }

    fn end_sync(&mut self, moment: u64) -> Result<(), Failed> {
        let outcome = self.file.end_sync(moment);
        self.piece.clear_if_failed(outcome);
        outcome
    }

    fn end_late_sync(&mut self, moment: u64) -> Result<(), Failed> {
        let outcome = self.file.end_late_sync(moment);
        self.piece.clear_if_failed(outcome);
        outcome
    }
}
