// A pool on files in memory, beside one on a bank in memory: both tell and hold the same.
ghost use Rattle.std.specs.Prelude.{◌↔◌, ◌<◌, IsTrue};

use crate::calls::{MAKE_NINE, REPLAY, RUN, STATUS, words_of};
use bank_mem::{MemBank, MemSink, MemSource};
use bank_trait::{Bank, Failed};
use file_bank::{FileBank, MemFile};
use pool_live::OpenGate;
use raidzx_top::{Outcome, Status, raidzx};
use std::alloc::{AllocError, Global};
use std::process::Abort;
use std::sync::Wait;
use std::test::Fail;
use std::thread::Threads;
use test_pools::banks::MAKING;

const SECTORS: u32 = 256;

/// The most bytes that a read of a file gives: a sector comes in three pieces.
const PIECE: usize = 200;

/// Words and the script that they read: a replay on a new pool, each call whole, a run that reads it back, and a look.
const CALLS: [(&str, &[u8]); 4] = [
    (MAKE_NINE, b""),
    (
        REPLAY,
        b"clients 2\na put 7 1500 5\nb get 7\nb put 8 3 1\na sync\nb free 8\na sync\n",
    ),
    (RUN, b"clients 1\na get 7\na sum 8\n"),
    (STATUS, b""),
];

/// What a command told and left.
#[derive(Drop)]
struct Left<B> {
    status: Status,
    text: MemSink,
    bank: B,
}

/// A file of zeros. One that fails does so at each call once the pool is made.
fn file(alloc: Global, fails: bool) -> Result<MemFile, AllocError> {
    let mut later = Vec::new(alloc);
    if fails {
        for call in MAKING..2_000 {
            later.push(call)?;
        }
    }
    MemFile::new(alloc, SECTORS, PIECE, later.as_slice())
}

/// Three files, of which this one fails.
fn three_files(alloc: Global, failing: Option<u32>) -> Result<FileBank<MemFile>, AllocError> {
    let mut files = Vec::new(alloc);
    files.push(Some(file(alloc, failing == Some(0))?))?;
    files.push(Some(file(alloc, failing == Some(1))?))?;
    files.push(Some(file(alloc, failing == Some(2))?))?;
    let faults = vec![in alloc; 0; 3]?;
    Ok(FileBank::new(files, faults, u64::from(SECTORS)))
}

/// Carries out these words over a bank and a script.
fn carried_out<R: Threads + Wait + Sync, B: Bank + Drop + Send>(
    rt: &R,
    alloc: Global,
    words: &str,
    bank: B,
    script: &[u8],
) -> Result<Left<B>, Fail> {
    let words = words_of(alloc, words)?;
    let mut source = MemSource::new(alloc, script, &[])?;
    let mut text = MemSink::with_room(alloc, 1 << 16, &[])?;
    let Outcome {
        status,
        bank,
        journal: _,
        turns: _,
    } = raidzx(
        rt,
        alloc,
        words.as_slice(),
        bank,
        &mut source,
        &mut text,
        &OpenGate,
    );
    Ok(Left { status, text, bank })
}

fn has_place<B: Bank>(bank: &B, device: u32, sector: u64) -> bool
    ensures { IsTrue result ↔ (device < (B.disk bank.now).devices)
        × (sector < (B.disk bank.now).sectors) }
{
    device < bank.devices() && sector < bank.sectors()
}

/// What a read gives; a place that the bank has not fails too.
fn read<B: Bank>(bank: &mut B, device: u32, sector: u64) -> Result<[u8; 512], Failed> {
    let mut into = [0; 512];
    if !has_place(bank, device, sector) {
        return Err(Failed);
    }
    bank.read(device, sector, &mut into)?;
    Ok(into)
}

/// Carries out the calls over both banks, and compares what they tell, and each sector behind each.
fn both_tell_the_same<R: Abort + Threads + Wait + Sync>(
    rt: &R,
    alloc: Global,
    files: FileBank<MemFile>,
    memory: MemBank,
) -> Result<(), Fail> {
    let mut files = files;
    let mut memory = memory;
    for (words, script) in CALLS {
        let over_files = carried_out(rt, alloc, words, files, script)?;
        let over_memory = carried_out(rt, alloc, words, memory, script)?;
        assert!(rt; over_files.status == over_memory.status);
        assert!(rt; over_files.text.as_slice() == over_memory.text.as_slice());
        files = over_files.bank;
        memory = over_memory.bank;
        for device in 0..3 {
            for sector in 0..u64::from(SECTORS) {
                let on_file = read(&mut files, device, sector);
                assert!(rt;
                    on_file == read(&mut memory, device, sector),
                    "{words}: {device} {sector}"
                );
            }
        }
    }
    Ok(())
}

#[test]
fn a_pool_on_files_tells_and_holds_what_one_in_memory_does(rt: HostRuntime) -> Result<(), Fail> {
    let alloc = rt.alloc();
    let files = three_files(alloc, None)?;
    let memory = MemBank::new(alloc, 3, u64::from(SECTORS))?;
    both_tell_the_same(&rt, alloc, files, memory)
}

#[test]
fn a_file_that_fails_is_told_as_a_device_that_does(rt: HostRuntime) -> Result<(), Fail> {
    let alloc = rt.alloc();
    for failing in 0..3 {
        let files = three_files(alloc, Some(failing))?;
        let mut memory = MemBank::new(alloc, 3, u64::from(SECTORS))?;
        memory.fail_from(failing, MAKING)?;
        both_tell_the_same(&rt, alloc, files, memory)?;
    }
    Ok(())
}
