// Jobs and commits of a pool that is being widened, beside the calls of a client.
use crate::attached::{are_read, block_bytes, copied_pool};
use crate::pool_on_bank::{CLIENT, COPIER, PoolOnBank, Round};
use crate::rounds::at_mark;
use crate::sectors::{Place, held, new_place, old_place};
use crate::stops::copy_of;
use bank_trait::Bank;
use core_turns::JobBegin;
use reflow_copier::Job;
use reflow_mark::State;
use std::alloc::Global;
use std::process::Abort;
use std::test::Fail;

/// Two rounds fill the scratch area and record that.
const FILLED: u64 = 2;

/// Two more drain it and record that: what lies below 128 stands at its new places.
const MOVED: u64 = 4;

/// One more copies the sectors 128 to 166.
const COPIED: u64 = 5;

/// So many blocks of 512 bytes, which take two sectors each, and then these.
fn lengths(alloc: Global, small: u64, others: &[u64]) -> Result<Vec<u64>, Fail> {
    let mut lengths = Vec::new(alloc);
    for _ in 0..small {
        lengths.push(512)?;
    }
    lengths.extend_from_slice(others)?;
    Ok(lengths)
}

#[test]
fn a_second_job_waits_for_the_first(rt: HostRuntime) -> Result<(), Fail> {
    let alloc = rt.alloc();
    let lengths = lengths(alloc, 65, &[])?;
    let mut pool = copied_pool(alloc, lengths.as_slice(), MOVED)?;
    let JobBegin::More(run) = pool.core.job_begin(alloc, COPIER) else {
        return Err("no job is due".into());
    };
    let JobBegin::Busy { by } = pool.core.job_begin(alloc, CLIENT) else {
        return Err("no job is in the way".into());
    };
    assert_eq!(rt; by, COPIER);
    assert!(rt; matches!(pool.end_job(run)?, Round::Copied(_)));
    Ok(())
}

/// A whole put. While it is under way a job is to wait for it.
fn put_before_a_job(
    alloc: Global,
    pool: &mut PoolOnBank,
    id: u64,
    bytes: &[u8],
) -> Result<(), Fail> {
    let run = pool.begin_put(alloc, id, bytes)?;
    match pool.who_is_in_the_way(alloc) {
        Some(CLIENT) => pool.end_put(run),
        _ => Err("the put is not in the way of a job".into()),
    }
}

/// The job that the next round carries out.
fn next_job(alloc: Global, pool: &mut PoolOnBank) -> Result<Job, Fail> {
    match pool.round(alloc)? {
        Round::Copied(job) => Ok(job),
        _ => Err("no job is carried out".into()),
    }
}

/// Whether the first sector of these bytes stands at this place.
fn begin_at(
    rt: &impl Abort,
    alloc: Global,
    pool: &PoolOnBank,
    bytes: &[u8],
    place: Place,
) -> Result<bool, Fail> {
    let mut left = copy_of(alloc, &pool.bank)?;
    let first = held(rt, &mut left, place)?;
    Ok(bytes.starts_with(&first))
}

#[test]
fn a_job_waits_for_a_put(rt: HostRuntime) -> Result<(), Fail> {
    let alloc = rt.alloc();
    let before = lengths(alloc, 65, &[])?;
    let behind = lengths(alloc, 65, &[3_072])?;
    let mut pool = copied_pool(alloc, before.as_slice(), MOVED)?;
    assert_eq!(rt; pool.core.reflow(), at_mark(128, State::Moved));
    // It takes the sectors 130 to 139. The first is of parity, and the last holds nothing.
    let bytes = block_bytes(alloc, 65, 3_072)?;
    let clock = pool.bank.clock();
    put_before_a_job(alloc, &mut pool, 65, bytes.as_slice())?;
    assert_eq!(rt; pool.bank.clock(), clock.saturating_add(9));
    let (old, new) = (old_place(&rt, 131), new_place(&rt, 131));
    assert!(rt; begin_at(&rt, alloc, &pool, bytes.as_slice(), old)?);
    assert_eq!(rt;
        next_job(alloc, &mut pool)?,
        Job::Chunk { lo: 128, hi: 167 }
    );
    assert!(rt; begin_at(&rt, alloc, &pool, bytes.as_slice(), new)?);
    assert!(rt; are_read(alloc, &mut pool, behind.as_slice())?);
    Ok(())
}

#[test]
fn a_commit_stops_before_what_a_read_holds(rt: HostRuntime) -> Result<(), Fail> {
    let alloc = rt.alloc();
    // (blocks of 512 bytes, those behind them, which of all is under way, the mark that is recorded)
    let rows: [(u64, &[u64], Option<u64>, u64); 3] = [
        (65, &[3_072, 1_024], None, 167),
        (65, &[3_072, 1_024], Some(66), 140),
        (63, &[1_024], Some(63), 128),
    ];
    for (small, others, read, mark) in rows {
        let lengths = lengths(alloc, small, others)?;
        let mut pool = copied_pool(alloc, lengths.as_slice(), COPIED)?;
        if let Some(id) = read {
            // The read is never ended.
            let _run = pool.begin_get(alloc, id)?;
        }
        assert_eq!(rt;
            pool.commit(alloc)?,
            at_mark(mark, State::Moved),
            "{read:?}"
        );
        assert!(rt; are_read(alloc, &mut pool, lengths.as_slice())?, "{read:?}");
    }
    Ok(())
}

/// Where the sectors of the block stand that lies across the end of the scratch area, each at two places or at one,
/// and where they stand at width 4.
const ACROSS: [(&[Place], Place); 3] = [
    (&[(0, 234), (2, 63)], (2, 223)),
    (&[(1, 234), (3, 63)], (3, 223)),
    (&[(2, 234)], (0, 224)),
];

/// Whether the block's sectors, its parity and its two columns, stand at these places.
fn stand_at(
    rt: &impl Abort,
    alloc: Global,
    pool: &PoolOnBank,
    bytes: &[u8],
    places: [&[Place]; 3],
) -> Result<bool, Fail> {
    assert!(rt; bytes.len() == 1024);
    let mut left = copy_of(alloc, &pool.bank)?;
    let mut columns = [[0; 512]; 3];
    for at in 0..512 {
        columns[0][at] = bytes[at] ^ bytes[512 + at];
        columns[1][at] = bytes[at];
        columns[2][at] = bytes[512 + at];
    }
    for (column, places) in columns.iter().zip(places.iter()) {
        for place in *places {
            if held(rt, &mut left, *place)? != *column {
                return Ok(false);
            }
        }
    }
    Ok(true)
}

#[test]
fn a_put_across_the_scratch_area_is_written_where_both_jobs_read_it(
    rt: HostRuntime,
) -> Result<(), Fail> {
    let alloc = rt.alloc();
    let lengths = lengths(alloc, 63, &[])?;
    let mut pool = copied_pool(alloc, lengths.as_slice(), FILLED)?;
    assert_eq!(rt; pool.core.reflow(), at_mark(128, State::Valid));
    // It takes the sectors 126 to 129, of which the last holds nothing.
    let bytes = block_bytes(alloc, 63, 1024)?;
    let clock = pool.bank.clock();
    pool.put(alloc, 63, bytes.as_slice())?;
    assert_eq!(rt; pool.bank.clock(), clock.saturating_add(5));
    let [(one, _), (two, _), (three, _)] = ACROSS;
    assert!(rt; stand_at(&rt, alloc, &pool, bytes.as_slice(), [one, two, three])?);
    for _ in FILLED..COPIED + 1 {
        pool.round(alloc)?;
    }
    assert_eq!(rt; pool.core.reflow(), at_mark(167, State::Moved));
    let [(_, one), (_, two), (_, three)] = ACROSS;
    assert!(rt;
        stand_at(
            &rt,
            alloc,
            &pool,
            bytes.as_slice(),
            [&[one], &[two], &[three]]
        )?
    );
    assert!(rt; pool.get(alloc, 63)?.as_slice() == bytes.as_slice());
    Ok(())
}
