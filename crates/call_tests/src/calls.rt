// Calls over banks in memory, what they tell, and what they leave in a sector.
use bank_mem::{MemBank, MemSink, MemSource};
use bank_trait::{Bank, Gate};
use pool_live::OpenGate;
use raidzx_top::{Outcome, Status, raidzx};
use std::alloc::{AllocError, Global};
use std::process::Abort;
use std::sync::Wait;
use std::test::Fail;
use std::thread::Threads;

/// Makes pool 9 on three devices.
pub const MAKE_NINE: &str = "raidzx create --parity 1 --width 3 --id 9";

pub const RUN: &str = "raidzx run";

pub const RUN_AND_ATTACH: &str = "raidzx run --attach";

pub const REPLAY: &str = "raidzx replay";

pub const STATUS: &str = "raidzx status";

/// What a call told and left.
#[derive(Drop)]
pub struct Told {
    pub status: Status,
    pub text: MemSink,
    pub bank: MemBank,
    /// How many items its journal has.
    pub items: usize,
    pub turns: u64,
}

/// The words of a text, which spaces part.
pub fn words_of(alloc: Global, text: &str) -> Result<Vec<String>, AllocError> {
    let mut words = Vec::new(alloc);
    for word in text.split(' ') {
        words.push(String::from_str(alloc, word)?)?;
    }
    Ok(words)
}

/// Carries out these words over a bank, a source of a script and a sink, with a gate between the turns of its threads.
fn call_through<R: Threads + Wait + Sync, G: Gate + Sync>(
    rt: &R,
    alloc: Global,
    gate: &G,
    words: &str,
    bank: MemBank,
    source: MemSource,
    sink: MemSink,
) -> Result<Told, Fail> {
    let words = words_of(alloc, words)?;
    let mut source = source;
    let mut text = sink;
    let Outcome {
        status,
        bank,
        journal,
        turns,
    } = raidzx(
        rt,
        alloc,
        words.as_slice(),
        bank,
        &mut source,
        &mut text,
        gate,
    );
    let items = journal.as_slice().len();
    Ok(Told {
        status,
        text,
        bank,
        items,
        turns,
    })
}

/// Carries out these words over a bank, a source of a script and a sink.
pub fn call_with<R: Threads + Wait + Sync>(
    rt: &R,
    alloc: Global,
    words: &str,
    bank: MemBank,
    source: MemSource,
    sink: MemSink,
) -> Result<Told, Fail> {
    call_through(rt, alloc, &OpenGate, words, bank, source, sink)
}

/// Carries out these words over a bank and a script, with a gate, where source and sink don't fail.
pub fn call_held_up<R: Threads + Wait + Sync, G: Gate + Sync>(
    rt: &R,
    alloc: Global,
    gate: &G,
    words: &str,
    bank: MemBank,
    script: &[u8],
) -> Result<Told, Fail> {
    let source = MemSource::new(alloc, script, &[])?;
    let sink = MemSink::with_room(alloc, 1 << 20, &[])?;
    call_through(rt, alloc, gate, words, bank, source, sink)
}

/// Carries out these words over a bank and a script, where source and sink don't fail.
pub fn call<R: Threads + Wait + Sync>(
    rt: &R,
    alloc: Global,
    words: &str,
    bank: MemBank,
    script: &[u8],
) -> Result<Told, Fail> {
    call_held_up(rt, alloc, &OpenGate, words, bank, script)
}

/// Carries out these words, which tell this and are done, and gives the bank that they leave.
pub fn carry_out<R: Abort + Threads + Wait + Sync>(
    rt: &R,
    alloc: Global,
    words: &str,
    bank: MemBank,
    script: &[u8],
    text: &[u8],
) -> Result<MemBank, Fail> {
    let told = call(rt, alloc, words, bank, script)?;
    assert_eq!(rt; told.text.as_slice(), text);
    assert_eq!(rt; told.status, Status::Done);
    Ok(told.bank)
}

/// What stands in a device sector.
pub fn sector_of(rt: &impl Abort, bank: &mut MemBank, device: u32, sector: u64) -> [u8; 512] {
    let mut bytes = [1; 512];
    assert!(rt; device < bank.devices() && sector < bank.sectors());
    assert_eq!(rt; bank.read(device, sector, &mut bytes), Ok(()));
    bytes
}
