// Pools on their way from three devices to four, and from where their blocks are read.
use bank_mem::MemBank;
use bank_trait::Bank;
use reflow_mark::State;
use std::alloc::Global;
use std::process::Abort;
use std::test::Fail;
use test_pools::banks::{Way, bank_of_nine, bank_on_the_way, copy_of};
use test_pools::runs::run;
use uberblock_ring::DeviceSet;

/// How many blocks of two content sectors are put. With their parity and a spare one they take four sectors each,
/// and the first begins at sector 2.
const BLOCKS: u64 = 47;

/// A device and a device sector.
type Place = (u32, u64);

/// What lies below 128 stands in the scratch area.
const SCRATCH: Way = (State::Valid, 128);

/// What lies below 128 stands at its new places.
const NEW: Way = (State::Moved, 128);

/// Puts a block of one content sector, and behind it those of two. Each has other bytes.
fn puts(alloc: Global) -> Result<Vec<u8>, Fail> {
    let mut script = Vec::from_slice(alloc, b"clients 1\na put 0 512 0\n")?;
    for id in 1..BLOCKS + 1 {
        let line = format!(in alloc; "a put {id} 1000 {id}\n")?;
        script.extend_from_slice(line.as_bytes())?;
    }
    script.extend_from_slice(b"a sync\n")?;
    Ok(script)
}

/// Reads all blocks.
fn reads(alloc: Global) -> Result<Vec<u8>, Fail> {
    let mut script = Vec::from_slice(alloc, b"clients 1\n")?;
    for id in 0..BLOCKS + 1 {
        let line = format!(in alloc; "a get {id}\n")?;
        script.extend_from_slice(line.as_bytes())?;
    }
    Ok(script)
}

/// The same devices once all blocks were put.
fn filled(alloc: Global, bank: MemBank) -> Result<MemBank, Fail> {
    let mut bank = bank;
    let told = run(alloc, &mut bank, puts(alloc)?.as_slice())?;
    if told.out() != Some(DeviceSet::empty()) {
        return Err("a device is out".into());
    }
    Ok(bank)
}

#[test]
fn a_pool_on_its_way_reads_what_one_at_rest_reads_also_without_a_device(
    rt: HostRuntime,
) -> Result<(), Fail> {
    let alloc = rt.alloc();
    let reads = reads(alloc)?;
    let mut at_rest = filled(alloc, bank_of_nine(alloc)?)?;
    let wanted = run(alloc, &mut at_rest, reads.as_slice())?;
    // Each of the bytes is told by two digits.
    assert!(rt; wanted.text.as_slice().len() > 47 * 2000);
    for way in [(State::None, 0), SCRATCH, NEW, (State::Moved, 167)] {
        let bank = filled(alloc, bank_on_the_way(alloc, way)?)?;
        for failing in 0..5 {
            let mut left = copy_of(alloc, &bank)?;
            left.fail_from(failing, 0)?;
            let told = run(alloc, &mut left, reads.as_slice())?;
            assert_eq!(rt;
                told.text.as_slice(),
                wanted.text.as_slice(),
                "{way:?} without {failing}"
            );
        }
    }
    Ok(())
}

/// The places of a content sector of block 31, which ends below the mark, of block 32, across it, and of block 33,
/// behind it, which has none in the scratch area.
const OLD_31: Place = (0, 192 + 41);

const SCRATCH_31: Place = (3, 32 + 30);

const NEW_31: Place = (3, 192 + 30);

const OLD_32: Place = (1, 192 + 42);

const SCRATCH_32: Place = (3, 32 + 31);

const NEW_32: Place = (3, 192 + 31);

const OLD_33: Place = (2, 192 + 43);

const NEW_33: Place = (3, 192 + 32);

/// The place of the content sector behind it, where it stands.
const SCRATCH_31_NEXT: Place = (0, 32 + 31);

const NEW_31_NEXT: Place = (0, 192 + 31);

const OLD_32_NEXT: Place = (2, 192 + 42);

const OLD_33_NEXT: Place = (0, 192 + 44);

/// Whether a block is told to be damaged where these places are spoiled. Else its bytes are told, as they are where one
/// of its columns is wrong.
fn is_damaged_by(
    rt: &impl Abort,
    alloc: Global,
    bank: &MemBank,
    block: u64,
    places: [Place; 2],
) -> Result<bool, Fail> {
    let mut left = copy_of(alloc, bank)?;
    for (device, device_sector) in places {
        assert!(rt; device < left.devices() && device_sector < left.sectors());
        left.spoil(device, device_sector, 0xff)?;
    }
    let script = format!(in alloc; "clients 1\na sum {block}\n")?;
    let told = run(alloc, &mut left, script.as_bytes())?;
    let damaged = format!(in alloc; "0 group 6 after 0\n1 a.1 sum {block} at 1 damaged\n")?;
    let read = format!(in alloc; "0 group 6 after 0\n1 a.1 sum {block} at 1 length 1000 sha ")?;
    let is_damaged = told.text.as_slice() == damaged.as_bytes();
    assert!(rt; is_damaged || told.text.as_slice().starts_with(read.as_bytes()));
    Ok(is_damaged)
}

#[test]
fn a_block_is_read_from_where_it_stands_and_nowhere_else(rt: HostRuntime) -> Result<(), Fail> {
    let alloc = rt.alloc();
    // (how far the pool has come, the block, where it stands, where its next column does, its other places)
    let rows: [(Way, u64, Place, Place, &[Place]); 6] = [
        (SCRATCH, 31, SCRATCH_31, SCRATCH_31_NEXT, &[OLD_31, NEW_31]),
        (SCRATCH, 32, OLD_32, OLD_32_NEXT, &[SCRATCH_32, NEW_32]),
        (SCRATCH, 33, OLD_33, OLD_33_NEXT, &[NEW_33]),
        (NEW, 31, NEW_31, NEW_31_NEXT, &[OLD_31, SCRATCH_31]),
        (NEW, 32, OLD_32, OLD_32_NEXT, &[SCRATCH_32, NEW_32]),
        (NEW, 33, OLD_33, OLD_33_NEXT, &[NEW_33]),
    ];
    for (way, block, stands, next, others) in rows {
        let bank = filled(alloc, bank_on_the_way(alloc, way)?)?;
        assert!(rt;
            is_damaged_by(&rt, alloc, &bank, block, [stands, next])?,
            "{block} of {way:?}"
        );
        for other in others {
            assert!(rt;
                !is_damaged_by(&rt, alloc, &bank, block, [*other, next])?,
                "{block} of {way:?} at {other:?}"
            );
        }
    }
    Ok(())
}
