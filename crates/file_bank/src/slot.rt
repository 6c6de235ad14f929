// One sector of one file, which may not have been opened.
ghost use Rattle.std.specs.Prelude.{◌≡◌, ◌⊎◌, ◌<◌, ◌≤◌, ◌+◌, ◌*◌, ◌/◌, ◌%◌, List, ℕ, Some, None, IfOk, IfErr, OnOk};
ghost use Rattle.std.specs.Prelude.{◌↔◌, OnErr, take};
ghost use Rattle.bank_trait.specs.Causes.{FaultCounted, HasCause};
ghost use Rattle.file_bank.specs.BlockFile.{Written, Settled};
ghost use Rattle.file_bank.specs.Files.{FileEndsBefore, HasFileCause, faults_shown, shown};
ghost use Rattle.file_bank.specs.Row.{TellsSame};

use crate::block_file::{BlockFile, ReadFault};
use bank_trait::Failed;

/// The bytes of a sector.
pub const SECTOR_BYTES: u64 = 512;

/// The byte that a sector begins at, where the file has the whole of it.
fn offset_of(length: u64, sector: u64) -> Result<u64, Failed>
    ensures begins { IfOk result (λ offset. offset ≡ 512 * sector) }
    ensures inside { IfOk result (λ offset. offset + 512 ≤ length) }
    ensures outside { OnErr result (length < 512 * sector + 512) }
{
    if sector < length / SECTOR_BYTES {
        Ok(sector * SECTOR_BYTES)
    } else {
        Err(Failed)
    }
}

/// Reads on from where a sector is filled, and tells up to where it is filled then. A read that was
/// interrupted fills nothing.
fn read_more<F: BlockFile>(
    file: &mut F,
    start: u64,
    filled: usize,
    into: &mut [u8; 512],
) -> Result<usize, Failed>
    requires room { filled < 512 }
    requires whole { start % 512 ≡ 0 }
    requires inside { start + 512 ≤ (F.contents file.old).length }
    ensures bound { IfOk result (λ now. now ≤ 512) }
    ensures front { IfOk result (λ now. (bytes : List ℕ)
        → (F.contents file.old).reads (start / 512) ≡ Some bytes
        → take filled into.old ≡ take filled bytes → take now into.new ≡ take now bytes) }
    ensures same { F.contents file.new ≡ F.contents file.old }
    ensures cause { HasCause (F.faults file.old) (F.faults file.new) result }
    ensures goes_on { IfOk result (λ now. (filled < now)
        ⊎ FaultCounted (F.faults file.old) (F.faults file.new)) }
{
    match file.read_at(start + filled as u64, &mut into[filled..]) {
        Ok(count) => Ok(filled + count),
        Err(ReadFault::Interrupted) => Ok(filled),
        Err(ReadFault::Failed) => Err(Failed),
    }
}

/// Reads a sector: it goes on until all of it is there.
fn read_whole<F: BlockFile>(file: &mut F, sector: u64, into: &mut [u8; 512]) -> Result<(), Failed>
    ensures bytes { OnOk result ((bytes : List ℕ)
        → (F.contents file.old).reads sector ≡ Some bytes → into.new ≡ bytes) }
    ensures same { F.contents file.new ≡ F.contents file.old }
    ensures cause { HasFileCause (FileEndsBefore (F.contents file.old) sector)
        (F.faults file.old) (F.faults file.new) result }
{
    let start = offset_of(file.length(), sector)?;
    let mut filled = 0;
    for _turn in 0..u64::MAX {
        filled = read_more(file, start, filled, into)?;
        if filled == 512 {
            return Ok(());
        }
    }
    Err(Failed)
}

/// Reads a sector, where the file is there and has it.
pub fn read_sector<F: BlockFile>(
    file: &mut Option<F>,
    sector: u64,
    into: &mut [u8; 512],
) -> Result<(), Failed>
    ensures bytes { OnOk result ((bytes : List ℕ)
        → (shown F.contents file.old).reads sector ≡ Some bytes → into.new ≡ bytes) }
    ensures same { shown F.contents file.new ≡ shown F.contents file.old }
    ensures cause { HasFileCause (FileEndsBefore (shown F.contents file.old) sector)
        (faults_shown F.faults file.old) (faults_shown F.faults file.new) result }
{
    match file {
        Some(file) => read_whole(file, sector, into),
        None => Err(Failed),
    }
}

/// Writes a sector, where the file is there and has it; makes no call else.
pub fn write_sector<F: BlockFile>(
    file: &mut Option<F>,
    moment: u64,
    sector: u64,
    from: &[u8; 512],
) -> Result<(), Failed>
    requires { (shown F.contents file.old).last < moment }
    ensures written { Written (shown F.contents file.old) (shown F.contents file.new) moment sector
        from.now result }
    ensures cause { HasFileCause (FileEndsBefore (shown F.contents file.old) sector)
        (faults_shown F.faults file.old) (faults_shown F.faults file.new) result }
{
    match file {
        Some(file) => write_whole(file, moment, sector, from),
        None => Err(Failed),
    }
}

fn write_whole<F: BlockFile>(
    file: &mut F,
    moment: u64,
    sector: u64,
    from: &[u8; 512],
) -> Result<(), Failed>
    requires { (F.contents file.old).last < moment }
    ensures written { Written (F.contents file.old) (F.contents file.new) moment sector from.now result }
    ensures cause { HasFileCause (FileEndsBefore (F.contents file.old) sector)
        (F.faults file.old) (F.faults file.new) result }
{
    let offset = offset_of(file.length(), sector)?;
    file.write_at(moment, offset, from)
}

/// Syncs a file, where it is there.
pub fn sync_file<F: BlockFile>(file: &mut Option<F>, moment: u64) -> Result<(), Failed>
    requires { (shown F.contents file.old).last < moment }
    ensures settled { Settled (shown F.contents file.old) (shown F.contents file.new) moment result }
    ensures cause { HasFileCause (file.old ≡ None)
        (faults_shown F.faults file.old) (faults_shown F.faults file.new) result }
{
    match file {
        Some(file) => file.sync(moment),
        None => Err(Failed),
    }
}

/// Whether a sync of a file was begun that has not ended.
pub fn has_begun_sync<F: BlockFile>(file: &Option<F>) -> bool {
    match file {
        Some(file) => file.has_begun_sync(),
        None => false,
    }
}

/// May begin a sync of a file, where it is there.
pub fn begin_sync_of<F: BlockFile>(file: &mut Option<F>)
    ensures same { TellsSame (shown F.contents file.old) (shown F.contents file.new) }
    ensures last { (shown F.contents file.new).last ≡ (shown F.contents file.old).last }
    ensures faults { faults_shown F.faults file.new ≡ faults_shown F.faults file.old }
    ensures lacks { file.new ≡ None ↔ file.old ≡ None }
{
    if let Some(file) = file {
        file.begin_sync();
    }
}
