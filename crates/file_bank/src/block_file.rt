// A file of sectors of 512 bytes.
ghost use Rattle.std.specs.Prelude.{◌≡◌, ◌+◌, ◌/◌, ◌%◌, ◌<◌, ◌≤◌, ℕ, length, IfOk};
ghost use Rattle.file_bank.specs.BlockFile.{Contents, CountsFault, GivesBytes, Written, Settled, LawfulFile};
ghost use Rattle.file_bank.specs.Row.{TellsSame};

use bank_trait::Failed;

/// Why a read gave no bytes.
#[derive(Clone, Copy, Debug, PartialEq, Eq)]
pub enum ReadFault {
    /// It may be made again.
    Interrupted,
    Failed,
}

/// One file, read in pieces of a sector and written a sector at a time. A write or sync is handed its
/// moment: whoever makes the calls on several files counts them all by one clock.
pub trait BlockFile {
    /// What the file holds and what a crash may leave of it.
    ghost contents: { Self → Contents };

    /// How often a call has failed or was interrupted.
    ghost faults: { Self → ℕ };

    /// In bytes. No call changes it.
    fn length(&self) -> u64
        ensures { result ≡ (contents self.now).length };

    /// Of the last write or sync that may have changed something; 0 where there was none.
    fn last_moment(&self) -> u64
        ensures { result ≡ (contents self.now).last };

    /// Gives the first bytes that are asked for, as many as came at once, and one at least.
    fn read_at(&mut self, offset: u64, into: &mut [u8]) -> Result<usize, ReadFault>
        requires some { 0 < length into.old }
        requires one { offset % 512 + length into.old ≤ 512 }
        requires inside { offset + length into.old ≤ (contents self.old).length }
        ensures bound { IfOk result (λ count. (1 ≤ count) × (count ≤ length into.new)) }
        ensures bytes { IfOk result (λ count. GivesBytes (contents self.old) offset count into.new) }
        ensures same { contents self.new ≡ contents self.old }
        ensures counts { CountsFault (faults self.old) (faults self.new) result };

    /// Writes a whole sector, or fails.
    fn write_at(&mut self, moment: u64, offset: u64, from: &[u8; 512]) -> Result<(), Failed>
        requires whole { offset % 512 ≡ 0 }
        requires inside { offset + 512 ≤ (contents self.old).length }
        requires later { (contents self.old).last < moment }
        ensures written { Written (contents self.old) (contents self.new) moment (offset / 512) from.now result }
        ensures counts { CountsFault (faults self.old) (faults self.new) result };

    /// Makes all that is read durable, or fails.
    fn sync(&mut self, moment: u64) -> Result<(), Failed>
        requires { (contents self.old).last < moment }
        ensures settled { Settled (contents self.old) (contents self.new) moment result }
        ensures counts { CountsFault (faults self.old) (faults self.new) result };

    /// Whether a sync was begun that has not ended.
    fn has_begun_sync(&self) -> bool {
        false
    }

    /// May begin to make durable what is read, beside other calls. Nothing that is told changes: how it goes is told
    /// by the next `sync`.
    fn begin_sync(&mut self)
        ensures same { TellsSame (contents self.old) (contents self.new) }
        ensures last { (contents self.new).last ≡ (contents self.old).last }
        ensures faults { faults self.new ≡ faults self.old }
    {}

    ghost lawful: { (file : Self) → LawfulFile (contents file) };
}

/// Counts a call by its outcome, as each call of a `BlockFile` is counted.
pub fn count_call<T, E>(faults: &mut u64, outcome: Result<T, E>) -> Result<T, E>
    ensures counts { CountsFault faults.old faults.new result }
    ensures same { result ≡ outcome }
{
    if outcome.is_err() {
        *faults = faults.saturating_add(1);
    }
    outcome
}
