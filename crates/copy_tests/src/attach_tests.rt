// A device is attached to a pool, or not.
use crate::attached::{MIXED, are_read, attached_pool, pool_of_three};
use crate::pool_on_bank::PoolOnBank;
use crate::rounds::at_mark;
use crate::sectors::put;
use crate::stops::{all_sectors, bank_at};
use bank_mem::Tear;
use bank_trait::Bank;
use core_state::Answer;
use reflow_mark::{Reflow, State};
use std::alloc::Global;
use std::process::Abort;
use std::test::Fail;
use uberblock_ring::slot;

/// The device that is attached.
const NEW: u32 = 3;

/// The first call of an attach on it: an opening has read each slot of its ring.
const FIRST: u64 = 32;

/// The call that reads its last data sector. Its page is written then, and it is synced.
const LAST_READ: u64 = FIRST + 32;

#[test]
fn a_device_is_attached(rt: HostRuntime) -> Result<(), Fail> {
    let alloc = rt.alloc();
    let mut pool = attached_pool(alloc, &MIXED)?;
    assert_eq!(rt; pool.core.reflow(), at_mark(0, State::None));
    assert!(rt; are_read(alloc, &mut pool, &MIXED)?);
    let mut again = PoolOnBank::open(alloc, pool.bank)?;
    assert_eq!(rt; again.core.reflow(), at_mark(0, State::None));
    assert!(rt; again.core.out().is_empty());
    assert!(rt; are_read(alloc, &mut again, &MIXED)?);
    Ok(())
}

/// What an attach to this pool is answered.
fn told_by(alloc: Global, pool: PoolOnBank) -> Result<Answer, Fail> {
    let mut pool = pool;
    pool.attach(alloc)
}

/// A pool whose device of this number was out when its last group was made.
fn pool_without(alloc: Global, device: u32) -> Result<PoolOnBank, Fail> {
    let mut pool = pool_of_three(alloc, 4, &MIXED)?;
    pool.fail(device)?;
    pool.commit(alloc)?;
    Ok(pool)
}

/// A pool that was opened beside a fourth device which shows the pool's last uberblock, for a device of this number;
/// and the slot that shows it.
fn pool_beside(rt: &impl Abort, alloc: Global, number: u32) -> Result<(PoolOnBank, u32), Fail> {
    let pool = pool_of_three(alloc, 4, &MIXED)?;
    let uber = pool.last_uber(rt, alloc)?;
    assert!(rt; uber.is_right());
    let place = slot(uber.group());
    let mut bank = pool.bank;
    put(rt, &mut bank, (NEW, u64::from(place)), &uber.encode(number))?;
    let pool = PoolOnBank::open(alloc, bank)?;
    Ok((pool, place))
}

#[test]
fn no_device_is_attached_to_such_pools(rt: HostRuntime) -> Result<(), Fail> {
    let alloc = rt.alloc();
    let told = told_by(alloc, attached_pool(alloc, &MIXED)?)?;
    assert!(rt; matches!(&told, Answer::Expanding { to: 4 }));
    let told = told_by(alloc, pool_of_three(alloc, 3, &MIXED)?)?;
    assert!(rt;
        matches!(
            &told,
            Answer::NoDevice {
                devices: 3,
                width: 3
            }
        )
    );
    let told = told_by(alloc, pool_without(alloc, 1)?)?;
    assert!(rt; matches!(&told, Answer::DeviceOut { device: 1 }));
    Ok(())
}

#[test]
fn a_device_that_shows_an_uberblock_is_taken(rt: HostRuntime) -> Result<(), Fail> {
    let alloc = rt.alloc();
    // for whichever device it is
    for number in [0, NEW] {
        let (pool, place) = pool_beside(&rt, alloc, number)?;
        let told = told_by(alloc, pool)?;
        assert!(rt;
            matches!(&told, Answer::Taken { slot } if *slot == place),
            "{number}"
        );
    }
    Ok(())
}

/// A pool to which no device was attached, since this call of the new one failed.
fn pool_refusing(rt: &impl Abort, alloc: Global, call: u64) -> Result<PoolOnBank, Fail> {
    let mut pool = pool_of_three(alloc, 4, &MIXED)?;
    pool.bank.fail_at(&[(NEW, call)])?;
    let told = pool.attach(alloc)?;
    assert!(rt;
        matches!(&told, Answer::NewDeviceFailed { device: 3 }),
        "{call}"
    );
    Ok(pool)
}

#[test]
fn a_new_device_that_fails_before_it_joins_is_none_of_the_pool(
    rt: HostRuntime,
) -> Result<(), Fail> {
    let alloc = rt.alloc();
    // the first slot, the last data sector, the page, and the sync behind it
    for call in [FIRST, LAST_READ, LAST_READ + 1, LAST_READ + 2] {
        let mut pool = pool_refusing(&rt, alloc, call)?;
        assert_eq!(rt; pool.core.reflow(), Reflow::at_rest(3, 64), "{call}");
        assert!(rt; pool.core.out().is_empty(), "{call}");
        // Another may be tried at once.
        let told = pool.attach(alloc)?;
        assert!(rt;
            matches!(&told, Answer::Attached { width: 4, group: _ }),
            "{call}"
        );
        assert!(rt; are_read(alloc, &mut pool, &MIXED)?, "{call}");
    }
    Ok(())
}

#[test]
fn it_does_not_join_while_a_device_is_out(rt: HostRuntime) -> Result<(), Fail> {
    let alloc = rt.alloc();
    let mut pool = pool_of_three(alloc, 4, &MIXED)?;
    pool.fail(1)?;
    let told = pool.attach(alloc)?;
    assert!(rt; matches!(&told, Answer::DeviceOut { device: 1 }));
    assert_eq!(rt; pool.core.reflow(), Reflow::at_rest(3, 64));
    assert!(rt; are_read(alloc, &mut pool, &MIXED)?);
    Ok(())
}

#[test]
fn blocks_are_read_after_a_stop_in_an_attach(rt: HostRuntime) -> Result<(), Fail> {
    let alloc = rt.alloc();
    let mut pool = pool_of_three(alloc, 4, &MIXED)?;
    let begun = pool.bank.clock();
    let told = pool.attach(alloc)?;
    assert!(rt; matches!(&told, Answer::Attached { width: 4, group: _ }));
    let none = Vec::new(alloc);
    let kept = all_sectors(alloc, Tear::Kept)?;
    let filled = all_sectors(alloc, Tear::Filled(0xa5))?;
    for torn in [&none, &kept, &filled] {
        for call in begun..pool.bank.clock() + 1 {
            let failing = (call % 5) as u32;
            let mut left = bank_at(alloc, &pool.bank, call, torn.as_slice())?;
            left.fail_from(failing, 0)?;
            let mut again = PoolOnBank::open(alloc, left)?;
            assert!(rt;
                are_read(alloc, &mut again, &MIXED)?,
                "{call}, without {failing}"
            );
        }
    }
    Ok(())
}
