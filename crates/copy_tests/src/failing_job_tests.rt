// Jobs during which devices fail.
use crate::attached::{MIXED, are_read, copied_pool};
use crate::pool_on_bank::{COPIER, PoolOnBank, Round};
use crate::rounds::at_mark;
use core_state::Answer;
use core_turns::JobBegin;
use reflow_mark::State;
use std::alloc::Global;
use std::test::Fail;

/// Rounds until what lies below 128 stands at its new places.
const MOVED: u64 = 4;

#[test]
fn a_job_is_given_up_where_a_device_fails(rt: HostRuntime) -> Result<(), Fail> {
    let alloc = rt.alloc();
    for failing in 0..4 {
        let mut pool = copied_pool(alloc, &MIXED, MOVED)?;
        pool.fail(failing)?;
        assert!(rt;
            matches!(pool.round(alloc)?, Round::GivenUp(None)),
            "{failing}"
        );
        let JobBegin::Done(Answer::Paused { device }) = pool.core.job_begin(alloc, COPIER) else {
            return Err("a job is begun while a device is out".into());
        };
        assert_eq!(rt; device, failing);
        // The front is where it was.
        assert_eq!(rt;
            pool.commit(alloc)?,
            at_mark(128, State::Moved),
            "{failing}"
        );
        assert!(rt; are_read(alloc, &mut pool, &MIXED)?, "{failing}");
    }
    Ok(())
}

/// What a job is answered that is given up behind the turn of a read with which too many devices are out.
fn told_given_up(alloc: Global, pool: &mut PoolOnBank) -> Result<Option<Answer>, Fail> {
    let JobBegin::More(run) = pool.core.job_begin(alloc, COPIER) else {
        return Err("no job is due".into());
    };
    pool.meet_failures(alloc, 0)?;
    if pool.core.out().is_empty() {
        return Err("no device is out".into());
    }
    Ok(pool.core.job_give_up(&run))
}

/// What the next round is answered at once.
fn told_at_once(alloc: Global, pool: &mut PoolOnBank) -> Result<Answer, Fail> {
    match pool.core.job_begin(alloc, COPIER) {
        JobBegin::Done(answer) => Ok(answer),
        _ => Err("a round is not answered at once".into()),
    }
}

#[test]
fn a_job_is_given_up_where_too_many_devices_failed(rt: HostRuntime) -> Result<(), Fail> {
    let alloc = rt.alloc();
    for (one, other) in [(0, 1), (0, 2), (0, 3), (1, 2), (1, 3), (2, 3)] {
        let mut pool = copied_pool(alloc, &MIXED, MOVED)?;
        pool.fail(one)?;
        pool.fail(other)?;
        let both = 1 << one | 1 << other;
        let told = told_given_up(alloc, &mut pool)?;
        assert!(rt;
            matches!(&told, Some(Answer::TooManyFailed { out }) if *out == both),
            "{one} and {other}"
        );
        let told = told_at_once(alloc, &mut pool)?;
        assert!(rt;
            matches!(&told, Answer::TooManyFailed { out } if *out == both),
            "{one} and {other}"
        );
    }
    Ok(())
}
