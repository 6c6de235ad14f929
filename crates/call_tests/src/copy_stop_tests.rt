// A stop in the drain of a copy: what is read then, and what is copied on, also without a device.
use crate::calls::{REPLAY, RUN, STATUS, call, sector_of};
use bank_mem::{MemBank, Tear, Torn};
use sha2::{Digest, Sha256};
use std::alloc::{AllocError, Global};
use std::process::Abort;
use std::sync::Wait;
use std::test::Fail;
use std::thread::Threads;
use test_pools::banks::{bank_of_nine_and_a_blank, copy_of};
use test_pools::plans::pattern;
use test_pools::runs::run;

/// How many blocks of one sector are put, with their parity at sectors 0 to 125, and the length of the one behind them,
/// which takes 126 to 129.
const SMALL: u64 = 63;

const LONGER: u64 = 1024;

/// The turns of a fill, of a commit on four devices with an index of eight sectors, and of the put of the longer block,
/// which is written to five places once the fill is recorded.
const FILL_TURNS: u64 = 2 * 128 + 2;

const COMMIT_TURNS: u64 = 4 * (8 + 3) + 2;

const PUT_TURNS: u64 = 5 + 2;

/// Writes and syncs of the opening, the fill, the copy's commit, the put and a sync's commit: what comes before the
/// drain.
const BEFORE_DRAIN: u64 = 4 * 3 + 128 + 4 * (8 + 3) + 5 + 4 * (8 + 3);

/// Puts the small blocks, and attaches a device.
fn puts(alloc: Global) -> Result<Vec<u8>, AllocError> {
    let mut script = Vec::from_slice(alloc, b"clients 1\n")?;
    for id in 0..SMALL {
        let line = format!(in alloc; "a put {id} 512 {id}\n")?;
        script.extend_from_slice(line.as_bytes())?;
    }
    script.extend_from_slice(b"a sync\na attach\n")?;
    Ok(script)
}

/// Copies, and puts and syncs the longer block behind the commit that records the fill.
fn copies(alloc: Global) -> Result<Vec<u8>, AllocError> {
    let mut script = Vec::from_slice(alloc, b"clients 2\na copy\n")?;
    let line = format!(in alloc; "b put {SMALL} {LONGER} {SMALL}\nb sync\norder ")?;
    script.extend_from_slice(line.as_bytes())?;
    for _turn in 0..FILL_TURNS + COMMIT_TURNS {
        script.push(b'a')?;
    }
    for _turn in 0..PUT_TURNS + COMMIT_TURNS {
        script.push(b'b')?;
    }
    script.push(b'\n')?;
    Ok(script)
}

const COPIES_TOLD: &[u8] = b"0 group 7 after 0
1 group 8 after 1
2 b.1 put 63 ok
3 group 9 after 3
4 b.2 sync group 9
5 group 10 after 5
6 group 11 after 6
7 group 12 after 7
8 a.1 copy done width 4
";

/// Copies on, and sums all blocks.
fn sums(alloc: Global) -> Result<Vec<u8>, AllocError> {
    let mut script = Vec::from_slice(alloc, b"clients 1\na copy\n")?;
    for id in 0..SMALL + 1 {
        let line = format!(in alloc; "a sum {id}\n")?;
        script.extend_from_slice(line.as_bytes())?;
    }
    Ok(script)
}

/// What the sums are told from this item on.
fn sums_told(alloc: Global, first: u64, text: &mut Vec<u8>) -> Result<(), AllocError> {
    for id in 0..SMALL + 1 {
        let item = first.wrapping_add(id);
        let number = id + 2;
        let len = if id < SMALL { 512 } else { LONGER };
        let line = format!(in alloc; "{item} a.{number} sum {id} at {item} length {len} sha ")?;
        text.extend_from_slice(line.as_bytes())?;
        for byte in Sha256::digest(pattern(alloc, len, id)?.as_slice()) {
            let digits = format!(in alloc; "{byte:02x}")?;
            text.extend_from_slice(digits.as_bytes())?;
        }
        text.push(b'\n')?;
    }
    Ok(())
}

/// All sectors of four devices, torn so.
pub fn all_sectors(alloc: Global, how: Tear) -> Result<Vec<Torn>, AllocError> {
    let mut torn = Vec::new(alloc);
    for device in 0..4 {
        for sector in 0..256 {
            torn.push(Torn {
                device,
                sector,
                how,
            })?;
        }
    }
    Ok(torn)
}

const IN_DRAIN: &[u8] = b"pool 9 parity 1 rows 64 group 9
width 3 to 4 mark 128 state valid
births 0:3
out none
blocks 64
";

/// The pool that is copied, and how many calls are on record before its drain.
fn copied_pool<R: Abort + Threads + Wait + Sync>(
    rt: &R,
    alloc: Global,
) -> Result<(MemBank, u64), Fail> {
    let told = call(
        rt,
        alloc,
        RUN,
        bank_of_nine_and_a_blank(alloc)?,
        puts(alloc)?.as_slice(),
    )?;
    let drain = told.bank.clock().wrapping_add(BEFORE_DRAIN);
    let told = call(rt, alloc, REPLAY, told.bank, copies(alloc)?.as_slice())?;
    assert_eq!(rt; told.text.as_slice(), COPIES_TOLD);
    Ok((told.bank, drain))
}

#[test]
fn a_stop_in_the_drain_loses_nothing_and_pauses_a_copy_without_a_device(
    rt: HostRuntime,
) -> Result<(), Fail> {
    let alloc = rt.alloc();
    let (bank, drain) = copied_pool(&rt, alloc)?;
    let sums = sums(alloc)?;
    let none = Vec::new(alloc);
    let kept = all_sectors(alloc, Tear::Kept)?;
    let filled = all_sectors(alloc, Tear::Filled(0xa5))?;
    for torn in [&none, &kept, &filled] {
        let images = bank.crash_at(alloc, drain.wrapping_add(10), torn.as_slice())?;
        let told = call(
            &rt,
            alloc,
            STATUS,
            MemBank::from_images(alloc, images)?,
            b"",
        )?;
        assert_eq!(rt; told.text.as_slice(), IN_DRAIN);
        for failing in 0..5 {
            let mut left = copy_of(alloc, &told.bank)?;
            left.fail_from(failing, 0)?;
            let read = run(alloc, &mut left, sums.as_slice())?;
            let mut wanted = Vec::from_slice(alloc, b"0 group 11 after 0\n")?;
            if failing < 4 {
                let line = format!(in alloc; "1 a.1 copy paused {failing}\n")?;
                wanted.extend_from_slice(line.as_bytes())?;
                sums_told(alloc, 2, &mut wanted)?;
            } else {
                let groups = b"1 group 12 after 1\n2 group 13 after 2\n3 group 14 after 3\n";
                wanted.extend_from_slice(groups)?;
                wanted.extend_from_slice(b"4 a.1 copy done width 4\n")?;
                sums_told(alloc, 5, &mut wanted)?;
            }
            assert_eq!(rt;
                read.text.as_slice(),
                wanted.as_slice(),
                "without {failing}"
            );
        }
    }
    Ok(())
}

#[test]
fn the_tenth_write_of_the_drain_is_that_of_its_tenth_sector(rt: HostRuntime) -> Result<(), Fail> {
    let alloc = rt.alloc();
    let (bank, drain) = copied_pool(&rt, alloc)?;
    let kept = all_sectors(alloc, Tear::Kept)?;
    for (calls, is_written) in [(9, false), (10, true)] {
        let images = bank.crash_at(alloc, drain.wrapping_add(calls), kept.as_slice())?;
        let mut left = MemBank::from_images(alloc, images)?;
        // Sector 9 has its place in the scratch area on device 1 in row 2, and so has its new place.
        let scratch = sector_of(&rt, &mut left, 1, 32 + 2);
        let new = sector_of(&rt, &mut left, 1, 192 + 2);
        assert_eq!(rt; new == scratch, is_written, "after {calls} calls");
    }
    Ok(())
}
