// A file that takes and gives several sectors side by side in one call.
ghost use Rattle.std.specs.Prelude.{◌≡◌, ◌+◌, ◌*◌, ◌/◌, ◌%◌, ◌<◌, ◌≤◌, ℕ, Option, Some, None, length, IfOk, OnOk};
ghost use Rattle.std.specs.Prelude.{OnErr, IsTrue};
ghost use Rattle.file_bank.specs.BlockFile.{Contents, CountsFault, GivesBytes, Settled, LawfulFile};
ghost use Rattle.file_bank.specs.Row.{GivesRow, HandedOver, HasRisingMoments, kept_row};

use crate::block_file::ReadFault;
use bank_trait::Failed;

/// The most sectors that one call takes or gives.
pub const MOST_IN_ROW: usize = 64;

/// One file, written and read several sectors at a time. Each sector of a write has a moment of its own, which may be
/// long past: no other call that changes this file came between.
pub trait RowFile {
    /// What the file holds and what a crash may leave of it.
    ghost contents: { Self → Contents };

    /// How often a call has failed or was interrupted.
    ghost faults: { Self → ℕ };

    /// What it held when a sync was begun that has not ended. A write may make it anything.
    ghost begun_with: { Self → Option Contents } = { λ file. None };

    /// In bytes. No call changes it.
    fn length(&self) -> u64
        ensures { result ≡ (contents self.now).length };

    /// Of the last write or sync that may have changed something; 0 where there was none.
    fn last_moment(&self) -> u64
        ensures { result ≡ (contents self.now).last };

    /// Gives the first bytes that are asked for, as many as came at once, and one at least.
    fn read_at(&mut self, offset: u64, into: &mut [u8]) -> Result<usize, ReadFault>
        requires some { 0 < length into.old }
        requires one { offset % 512 + length into.old ≤ 512 }
        requires inside { offset + length into.old ≤ (contents self.old).length }
        ensures bound { IfOk result (λ count. (1 ≤ count) × (count ≤ length into.new)) }
        ensures bytes { IfOk result (λ count. GivesBytes (contents self.old) offset count into.new) }
        ensures same { contents self.new ≡ contents self.old }
        ensures begun { begun_with self.new ≡ begun_with self.old }
        ensures counts { CountsFault (faults self.old) (faults self.new) result };

    /// Gives whole sectors side by side, or fails, which is no fault: nobody asked for all of them, and who asked for
    /// one of them asks for it alone.
    fn read_row(&mut self, offset: u64, into: &mut [[u8; 512]]) -> Result<(), Failed>
        requires whole { offset % 512 ≡ 0 }
        requires some { 0 < length into.old }
        requires most { length into.old ≤ 64 }
        requires inside { offset + 512 * length into.old ≤ (contents self.old).length }
        ensures bytes { OnOk result (GivesRow (contents self.old) (offset / 512) (length into.old) into.new) }
        ensures same { contents self.new ≡ contents self.old }
        ensures begun { begun_with self.new ≡ begun_with self.old }
        ensures uncounted { faults self.new ≡ faults self.old };

    /// Writes whole sectors side by side, each with its moment, or fails and tells how many of them it has written,
    /// from the first on.
    fn write_row(&mut self, offset: u64, moments: &[u64], row: &[[u8; 512]]) -> Result<(), usize>
        requires whole { offset % 512 ≡ 0 }
        requires some { 0 < length row.now }
        requires most { length row.now ≤ 64 }
        requires paired { length moments.now ≡ length row.now }
        requires inside { offset + 512 * length row.now ≤ (contents self.old).length }
        requires rising { HasRisingMoments (contents self.old).last (kept_row moments.now row.now) }
        ensures handed { HandedOver (contents self.old) (contents self.new) (offset / 512)
            (kept_row moments.now row.now) result }
        ensures counts { CountsFault (faults self.old) (faults self.new) result };

    /// Makes all that is read durable, or fails.
    fn sync(&mut self, moment: u64) -> Result<(), Failed>
        requires { (contents self.old).last < moment }
        ensures settled { Settled (contents self.old) (contents self.new) moment result }
        ensures counts { CountsFault (faults self.old) (faults self.new) result };

    /// Whether its syncs take so long that it is worth a thread to begin one early.
    fn is_slow(&self) -> bool {
        false
    }

    /// Begins a sync, beside other calls, and tells whether it did. How that sync goes is told where it is ended.
    fn begin_sync(&mut self) -> bool
        ensures same { contents self.new ≡ contents self.old }
        ensures faults { faults self.new ≡ faults self.old }
        ensures begun { IsTrue result → begun_with self.new ≡ Some (contents self.old) }
    {
        false
    }

    /// Ends the sync that was begun. Nothing was written since, so it does what `sync` does.
    fn end_sync(&mut self, moment: u64) -> Result<(), Failed>
        requires later { (contents self.old).last < moment }
        requires begun { begun_with self.old ≡ Some (contents self.old) }
        ensures settled { Settled (contents self.old) (contents self.new) moment result }
        ensures counts { CountsFault (faults self.old) (faults self.new) result }
    {
        self.sync(moment)
    }

    /// Ends a sync that was begun before something was written: that it went well makes nothing durable. One that
    /// fails is told here, for the system may tell it once alone.
    fn end_late_sync(&mut self, moment: u64) -> Result<(), Failed>
        requires { (contents self.old).last < moment }
        ensures same { OnOk result (contents self.new ≡ contents self.old) }
        ensures settled { OnErr result (Settled (contents self.old) (contents self.new) moment result) }
        ensures counts { CountsFault (faults self.old) (faults self.new) result }
    {
        Ok(())
    }

    ghost lawful: { (file : Self) → LawfulFile (contents file) };
}
