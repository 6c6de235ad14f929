// Worked rows of runs of sectors.
use range_locks::Locks;
use space_alloc::{Space, TakeRefused};
use std::test::Fail;

const X: u8 = 8;

// Blocks of two sectors.
#[test]
fn a_freed_run_is_reused_once_its_group_is_answered(rt: HostRuntime) -> Result<(), Fail> {
    let locks = Locks::new(rt.alloc());
    let mut space = Space::new(rt.alloc(), 192);
    assert_eq!(rt; space.take_lowest(2, &locks), Ok(0));
    let freed = space.take_lowest(2, &locks)?;
    space.hold_until(freed, 2, 4);
    assert_eq!(rt; (freed, space.take_lowest(2, &locks)), (2, Ok(4)));
    space.synced(3);
    assert_eq!(rt; space.take_lowest(2, &locks), Ok(6));
    space.synced(4);
    assert_eq!(rt; space.take_lowest(2, &locks), Ok(2));
    Ok(())
}

#[test]
fn what_a_reader_holds_is_not_reused(rt: HostRuntime) -> Result<(), Fail> {
    let mut locks = Locks::new(rt.alloc());
    let mut space = Space::new(rt.alloc(), 192);
    let freed = space.take_lowest(2, &locks)?;
    space.drop_run(freed, 2);
    assert!(rt; freed == 0 && locks.hold_shared(0, 2, 0).is_ok());
    assert_eq!(rt; space.take_lowest(2, &locks), Ok(2));
    Ok(())
}

#[test]
fn a_run_below_an_exclusive_hold_is_passed_by(rt: HostRuntime) -> Result<(), Fail> {
    let mut locks = Locks::new(rt.alloc());
    let mut space = Space::new(rt.alloc(), 140);
    assert!(rt; locks.hold_exclusive(0, 128, X).is_ok());
    assert_eq!(rt; space.take_lowest(12, &locks), Ok(128));
    assert_eq!(rt;
        space.take_lowest(3, &locks),
        Err(TakeRefused::Busy { by: X })
    );
    assert_eq!(rt;
        space.take_lowest(129, &locks),
        Err(TakeRefused::NoSpace { sectors: 129 })
    );
    space.enlarge(143);
    assert_eq!(rt; space.take_lowest(3, &locks), Ok(140));
    Ok(())
}

#[test]
fn a_full_pool_has_no_space(rt: HostRuntime) -> Result<(), Fail> {
    let locks = Locks::new(rt.alloc());
    let mut space = Space::new(rt.alloc(), 192);
    for block in 0..96 {
        assert_eq!(rt; space.take_lowest(2, &locks), Ok(2 * block));
    }
    assert_eq!(rt;
        space.take_lowest(2, &locks),
        Err(TakeRefused::NoSpace { sectors: 2 })
    );
    space.enlarge(1026);
    for block in 96..512 {
        assert_eq!(rt; space.take_lowest(2, &locks), Ok(2 * block));
    }
    assert_eq!(rt; space.take_lowest(2, &locks), Ok(1024));
    Ok(())
}

#[test]
fn a_claimed_run_is_taken(rt: HostRuntime) -> Result<(), Fail> {
    let locks = Locks::new(rt.alloc());
    let mut space = Space::new(rt.alloc(), 10);
    space.claim(4, 2)?;
    assert_eq!(rt; space.take_lowest(4, &locks), Ok(0));
    assert_eq!(rt; space.take_lowest(4, &locks), Ok(6));
    Ok(())
}
