// A bank over files in memory: a short one, one that could not be opened, and a long one.
ghost use Rattle.std.specs.Prelude.{◌↔◌, ◌<◌, IsTrue};

use bank_trait::{Bank, Failed};
use file_bank::{BlockFile, FileBank, Gathered, MemFile, ReadFault, count_call};
use std::alloc::{AllocError, Global};
use std::test::Fail;

const SHORT: u64 = 64;

const LONG: u64 = 40_001;

/// A file of which every other read is interrupted, the first one too.
#[derive(Drop)]
struct Interrupted<F: BlockFile> {
    inner: F,
    goes_on: bool,
    faults: u64,
}

impl<F: BlockFile> BlockFile for Interrupted<F> {
    ghost contents = { λ file. F.contents file.inner };

    ghost faults = { λ file. file.faults };

    ghost lawful = { λ file. F.lawful file.inner };

    fn length(&self) -> u64 {
        self.inner.length()
    }

    fn last_moment(&self) -> u64 {
        self.inner.last_moment()
    }

    fn read_at(&mut self, offset: u64, into: &mut [u8]) -> Result<usize, ReadFault> {
        self.goes_on = !self.goes_on;
        let outcome = if self.goes_on {
            Err(ReadFault::Interrupted)
        } else {
            self.inner.read_at(offset, into)
        };
        count_call(&mut self.faults, outcome)
    }

    fn write_at(&mut self, moment: u64, offset: u64, from: &[u8; 512]) -> Result<(), Failed> {
        let outcome = self.inner.write_at(moment, offset, from);
        count_call(&mut self.faults, outcome)
    }

    fn sync(&mut self, moment: u64) -> Result<(), Failed> {
        let outcome = self.inner.sync(moment);
        count_call(&mut self.faults, outcome)
    }
}

/// The calls of the long file that fail are listed, from 0; a read gives at most `piece` bytes.
fn three_files(
    alloc: Global,
    piece: usize,
    fails: &[u64],
) -> Result<FileBank<MemFile>, AllocError> {
    let mut files = Vec::new(alloc);
    files.push(Some(MemFile::new(alloc, SHORT as u32, piece, &[])?))?;
    files.push(None)?;
    files.push(Some(MemFile::new(alloc, LONG as u32, piece, fails)?))?;
    let faults = vec![in alloc; 0; 3]?;
    Ok(FileBank::new(files, faults, 65_728))
}

fn has_place<B: Bank>(bank: &B, device: u32, sector: u64) -> bool
    ensures { IsTrue result ↔ (device < (B.disk bank.now).devices)
        × (sector < (B.disk bank.now).sectors) }
{
    device < bank.devices() && sector < bank.sectors()
}

/// What a read gives; a place that the bank has not fails too.
fn read<B: Bank>(bank: &mut B, device: u32, sector: u64) -> Result<[u8; 512], Failed> {
    let mut into = [0xff; 512];
    if !has_place(bank, device, sector) {
        return Err(Failed);
    }
    bank.read(device, sector, &mut into)?;
    Ok(into)
}

fn write<B: Bank>(bank: &mut B, device: u32, sector: u64, byte: u8) -> Result<(), Failed> {
    if !has_place(bank, device, sector) {
        return Err(Failed);
    }
    bank.write(device, sector, &[byte; 512])
}

fn sync<B: Bank>(bank: &mut B, device: u32) -> Result<(), Failed> {
    if !has_place(bank, device, 0) {
        return Err(Failed);
    }
    bank.sync(device)
}

/// Two files whose syncs are begun early. The calls of the second that fail are listed, from 0.
fn slow_files(alloc: Global, fails: &[u64]) -> Result<FileBank<Gathered<MemFile>>, AllocError> {
    let mut files = Vec::new(alloc);
    let first = MemFile::new(alloc, 4, 512, &[])?.slow();
    files.push(Some(Gathered::new(alloc, first)?))?;
    let second = MemFile::new(alloc, 4, 512, fails)?.slow();
    files.push(Some(Gathered::new(alloc, second)?))?;
    let faults = vec![in alloc; 0; 2]?;
    Ok(FileBank::new(files, faults, 65_728))
}

/// How often each of the three devices has failed; `u64::MAX` where there is none.
fn faults<F: BlockFile>(bank: &FileBank<F>) -> [u64; 3] {
    let mut counts = [u64::MAX; 3];
    for device in 0..3 {
        if has_place(bank, device, 0) {
            counts[device as usize] = bank.faults(device);
        }
    }
    counts
}

#[test]
fn far_sectors_are_sectors_of_their_own(rt: HostRuntime) -> Result<(), Fail> {
    let mut bank = three_files(rt.alloc(), 512, &[])?;
    assert_eq!(rt; (bank.devices(), bank.sectors()), (3, LONG));
    let places = [
        (0, 0, 1),
        (0, 63, 2),
        (2, 0, 3),
        (2, 7_232, 4),
        (2, 32_768, 5),
        (2, 40_000, 6),
    ];
    for (device, sector, byte) in places {
        assert!(rt; write(&mut bank, device, sector, byte).is_ok());
    }
    for (device, sector, byte) in places {
        assert_eq!(rt;
            read(&mut bank, device, sector),
            Ok([byte; 512]),
            "{device} {sector}"
        );
    }
    assert_eq!(rt; read(&mut bank, 2, 1), Ok([0; 512]));
    assert_eq!(rt; faults(&bank), [0; 3]);
    Ok(())
}

#[test]
fn a_call_that_fails_is_told_and_counted_once(rt: HostRuntime) -> Result<(), Fail> {
    let mut bank = three_files(rt.alloc(), 512, &[0])?;
    assert!(rt; write(&mut bank, 2, 9, 7).is_err());
    assert_eq!(rt; faults(&bank), [0, 0, 1]);
    assert_eq!(rt; read(&mut bank, 2, 9), Ok([0; 512]));

    let mut bank = three_files(rt.alloc(), 512, &[1])?;
    assert!(rt; write(&mut bank, 2, 9, 7).is_ok() && sync(&mut bank, 2).is_err());
    assert_eq!(rt; faults(&bank), [0, 0, 1]);
    assert!(rt; sync(&mut bank, 2).is_ok());

    let mut bank = three_files(rt.alloc(), 512, &[2])?;
    assert!(rt; write(&mut bank, 2, 9, 7).is_ok() && sync(&mut bank, 2).is_ok());
    assert!(rt; read(&mut bank, 2, 9).is_err());
    assert_eq!(rt; faults(&bank), [0, 0, 1]);
    assert_eq!(rt; read(&mut bank, 2, 9), Ok([7; 512]));
    assert_eq!(rt; faults(&bank), [0, 0, 1]);
    Ok(())
}

#[test]
fn a_sector_that_comes_in_pieces_is_put_together(rt: HostRuntime) -> Result<(), Fail> {
    let mut bank = three_files(rt.alloc(), 100, &[9])?;
    assert!(rt; write(&mut bank, 2, 40_000, 7).is_ok());
    assert_eq!(rt; read(&mut bank, 2, 40_000), Ok([7; 512]));
    assert!(rt;
        read(&mut bank, 2, 40_000).is_err(),
        "the third piece fails"
    );
    assert_eq!(rt; faults(&bank), [0, 0, 1]);
    assert_eq!(rt; read(&mut bank, 2, 40_000), Ok([7; 512]));

    let mut bank = three_files(rt.alloc(), 0, &[])?;
    assert_eq!(rt;
        read(&mut bank, 2, 0),
        Ok([0; 512]),
        "a byte comes at least"
    );
    assert_eq!(rt; faults(&bank), [0; 3]);
    Ok(())
}

#[test]
fn a_place_past_a_files_end_fails_and_nothing_grows(rt: HostRuntime) -> Result<(), Fail> {
    let mut bank = three_files(rt.alloc(), 512, &[])?;
    assert!(rt; write(&mut bank, 0, SHORT, 7).is_err());
    assert!(rt; read(&mut bank, 0, SHORT).is_err());
    assert_eq!(rt; faults(&bank), [2, 0, 0]);
    assert_eq!(rt; read(&mut bank, 0, SHORT - 1), Ok([0; 512]));
    assert_eq!(rt; read(&mut bank, 2, SHORT), Ok([0; 512]));
    assert_eq!(rt; bank.sectors(), LONG);

    assert!(rt; write(&mut bank, 1, 0, 7).is_err() && sync(&mut bank, 1).is_err());
    assert!(rt; read(&mut bank, 1, 0).is_err());
    assert_eq!(rt;
        faults(&bank),
        [2, 3, 0],
        "a file that is not there fails all calls"
    );
    Ok(())
}

#[test]
fn a_read_that_is_interrupted_goes_on(rt: HostRuntime) -> Result<(), Fail> {
    let alloc = rt.alloc();
    let inner = MemFile::new(alloc, 4, 200, &[])?;
    let mut files = Vec::new(alloc);
    files.push(Some(Interrupted {
        inner,
        goes_on: false,
        faults: 0,
    }))?;
    let faults = vec![in alloc; 0; 1]?;
    let mut bank = FileBank::new(files, faults, 65_728);
    assert!(rt; write(&mut bank, 0, 3, 7).is_ok());
    assert_eq!(rt; read(&mut bank, 0, 3), Ok([7; 512]));
    assert!(rt; has_place(&bank, 0, 0));
    assert_eq!(rt; bank.faults(0), 0);
    Ok(())
}

#[test]
fn a_sync_that_is_begun_early_is_told_by_its_own_device(rt: HostRuntime) -> Result<(), Fail> {
    // Writes behind the begin, the call of the second file that fails, and how its sync goes. Its first call is the
    // write that the begin hands over, and what is written behind it is handed over by one call more.
    let rows = [
        (false, None, Ok(())),
        (false, Some(1), Err(Failed)),
        (true, None, Ok(())),
        (true, Some(2), Err(Failed)),
    ];
    for (writes_on, fails, outcome) in rows {
        let mut bank = slow_files(rt.alloc(), fails.as_slice())?;
        assert!(rt; write(&mut bank, 0, 0, 1).is_ok() && write(&mut bank, 1, 0, 2).is_ok());
        assert_eq!(rt; sync(&mut bank, 0), Ok(()));
        if writes_on {
            assert!(rt; write(&mut bank, 1, 2, 3).is_ok());
        }
        assert_eq!(rt; sync(&mut bank, 1), outcome, "{writes_on} {fails:?}");
        let failed = u64::from(outcome.is_err());
        assert_eq!(rt; faults(&bank), [0, failed, u64::MAX]);
        assert_eq!(rt; read(&mut bank, 1, 0), Ok([2; 512]));
        assert_eq!(rt; sync(&mut bank, 1), Ok(()), "it is told once");
    }
    Ok(())
}
