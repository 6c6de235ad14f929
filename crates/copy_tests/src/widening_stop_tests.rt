// What is read after a stop on the way from width 3 to width 4.
use crate::attached::{MIXED, are_read, attached_pool};
use crate::pool_on_bank::PoolOnBank;
use crate::stops::{all_sectors, bank_at};
use bank_mem::{MemBank, Tear, Torn};
use bank_trait::Bank;
use reflow_mark::Reflow;
use std::alloc::Global;
use std::io::Print;
use std::process::Abort;
use std::test::Fail;

/// What was done before each round of the way, and behind the last: a job and a commit by turns.
const DONE: [&str; 9] = [
    "attached",
    "filled",
    "valid",
    "drained",
    "moved",
    "copied to 167",
    "the mark at 167",
    "copied to the end",
    "widened",
];

/// A pool that was widened, and the writes and syncs on record before its first round and behind each.
fn widened_pool(alloc: Global) -> Result<(PoolOnBank, [u64; 9]), Fail> {
    let mut pool = attached_pool(alloc, &MIXED)?;
    let mut clocks = [pool.bank.clock(); 9];
    for round in 0..8 {
        pool.round(alloc)?;
        clocks[round + 1] = pool.bank.clock();
    }
    if pool.core.reflow() != Reflow::at_rest(4, 64) {
        return Err("a pool is not widened".into());
    }
    Ok((pool, clocks))
}

/// Whether each block is read from what a stop left while this device fails. Where there is none of this number, none
/// fails.
fn is_read_without(alloc: Global, left: &MemBank, failing: u32) -> Result<bool, Fail> {
    let mut bank = bank_at(alloc, left, 0, &[])?;
    bank.fail_from(failing, 0)?;
    let mut again = PoolOnBank::open(alloc, bank)?;
    are_read(alloc, &mut again, &MIXED)
}

/// The first of the devices, or the number behind the last, without which a block is not read after a stop behind so
/// many writes and syncs.
fn not_read_without(
    alloc: Global,
    bank: &MemBank,
    call: u64,
    torn: &[Torn],
) -> Result<Option<u32>, Fail> {
    let left = bank_at(alloc, bank, call, torn)?;
    for failing in 0..5 {
        if !is_read_without(alloc, &left, failing)? {
            return Ok(Some(failing));
        }
    }
    Ok(None)
}

/// Stops before a round, behind each of its writes and syncs, and so behind it. Where a block is not read behind a
/// stop, says at which.
fn stop_in_round(rt: &(impl Abort + Print), alloc: Global, round: usize) -> Result<(), Fail> {
    assert!(rt; round < 8);
    let (from, to) = (DONE[round], DONE[round + 1]);
    let (pool, clocks) = widened_pool(alloc)?;
    let lost = Vec::new(alloc);
    let kept = all_sectors(alloc, Tear::Kept)?;
    let filled = all_sectors(alloc, Tear::Filled(0xa5))?;
    for (torn, how) in [(&lost, "lost"), (&kept, "kept"), (&filled, "filled")] {
        for call in clocks[round]..clocks[round + 1].saturating_add(1) {
            match not_read_without(alloc, &pool.bank, call, torn.as_slice()) {
                Ok(failing) => assert!(rt;
                    failing.is_none(),
                    "from {from} to {to}: {call}, {how}, without {failing:?}"
                ),
                Err(fail) => {
                    let _ = println!(rt; "from {from} to {to}: {call}, {how}");
                    return Err(fail);
                }
            }
        }
    }
    Ok(())
}

#[test]
fn blocks_are_read_after_a_stop_in_the_fill(rt: HostRuntime) -> Result<(), Fail> {
    stop_in_round(&rt, rt.alloc(), 0)
}

#[test]
fn blocks_are_read_after_a_stop_in_the_commit_behind_the_fill(rt: HostRuntime) -> Result<(), Fail> {
    stop_in_round(&rt, rt.alloc(), 1)
}

#[test]
fn blocks_are_read_after_a_stop_in_the_drain(rt: HostRuntime) -> Result<(), Fail> {
    stop_in_round(&rt, rt.alloc(), 2)
}

#[test]
fn blocks_are_read_after_a_stop_in_the_commit_behind_the_drain(
    rt: HostRuntime,
) -> Result<(), Fail> {
    stop_in_round(&rt, rt.alloc(), 3)
}

#[test]
fn blocks_are_read_after_a_stop_in_the_first_chunk(rt: HostRuntime) -> Result<(), Fail> {
    stop_in_round(&rt, rt.alloc(), 4)
}

#[test]
fn blocks_are_read_after_a_stop_in_the_commit_behind_the_first_chunk(
    rt: HostRuntime,
) -> Result<(), Fail> {
    stop_in_round(&rt, rt.alloc(), 5)
}

#[test]
fn blocks_are_read_after_a_stop_in_the_last_chunk(rt: HostRuntime) -> Result<(), Fail> {
    stop_in_round(&rt, rt.alloc(), 6)
}

#[test]
fn blocks_are_read_after_a_stop_in_the_last_commit(rt: HostRuntime) -> Result<(), Fail> {
    stop_in_round(&rt, rt.alloc(), 7)
}
