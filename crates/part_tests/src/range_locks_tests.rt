// Worked rows of holds.
ghost use Rattle.std.specs.Prelude.{◌≡◌, ◌<◌, ◌≤◌};

use range_locks::{Hold, HoldKind, LockRefused, Locks, Steps};
use std::marker::Brand;
use std::sync::ledger::{Blank, Ledger};

const A: u8 = 0;

const B: u8 = 1;

const X: u8 = 8;

#[test]
fn a_hold_in_the_way_is_named(rt: HostRuntime) {
    let mut locks = Locks::new(rt.alloc());
    let first = locks.hold_exclusive(0, 128, X);
    let kind = HoldKind::Exclusive;
    assert_eq!(rt;
        first,
        Ok(Hold {
            lo: 0,
            hi: 128,
            actor: X,
            kind
        })
    );
    assert_eq!(rt;
        locks.hold_shared(126, 130, A),
        Err(LockRefused::Busy { by: X })
    );
    let second = locks.hold_shared(128, 132, B);
    let kind = HoldKind::Shared;
    assert_eq!(rt;
        second,
        Ok(Hold {
            lo: 128,
            hi: 132,
            actor: B,
            kind
        })
    );
    assert_eq!(rt;
        locks.hold_exclusive(130, 140, X),
        Err(LockRefused::Busy { by: B })
    );
    let (shared, exclusive) = locks.as_slices();
    assert_eq!(rt; (shared.len(), exclusive.len()), (1, 1));
}

#[test]
fn of_several_in_the_way_the_lowest_is_named(rt: HostRuntime) {
    let mut locks = Locks::new(rt.alloc());
    for (lo, hi, actor) in [(20, 30, 2), (10, 16, 4), (10, 12, 3)] {
        assert!(rt; lo < hi && locks.hold_shared(lo, hi, actor).is_ok());
    }
    assert_eq!(rt;
        locks.hold_exclusive(0, 40, X),
        Err(LockRefused::Busy { by: 3 })
    );
    assert_eq!(rt;
        locks.hold_exclusive(14, 40, X),
        Err(LockRefused::Busy { by: 4 })
    );
    assert!(rt; locks.blocker(16, 20, HoldKind::Exclusive).is_none());
}

#[test]
fn shared_holds_are_told(rt: HostRuntime) {
    let mut locks = Locks::new(rt.alloc());
    let Ok(hold) = locks.hold_shared(128, 132, B) else {
        panic!(rt; "the first hold was refused");
    };
    assert_eq!(rt; locks.first_shared_from(0), Some(128));
    assert_eq!(rt; locks.first_shared_from(128), Some(128));
    assert_eq!(rt; locks.first_shared_from(129), None);
    for (sector, wanted) in [(128, false), (129, true), (131, true), (132, false)] {
        assert_eq!(rt; locks.straddles(sector), wanted, "at {sector}");
    }
    locks.end(hold);
    let (shared, exclusive) = locks.as_slices();
    assert!(rt; shared.is_empty() && exclusive.is_empty());
    assert!(rt; locks.hold_exclusive(0, 256, X).is_ok());
}

/// So many steps were counted, and no more.
fn within<L: Ledger>(steps: &Steps<L>, most: u64)
    requires { steps.now ≤ most }
{}

/// A reader is granted beside a thousand readers and one writer in twelve steps, and then another writer.
fn beside_a_thousand<L: Ledger>(locks: &mut Locks, blank: Blank) -> Option<(Hold, Hold)>
    requires name { blank.name ≡ L.name }
    requires parts { blank.parts ≡ L.parts }
    requires some { 0 < blank.parts }
{
    let (shared, exclusive) = locks.as_slices();
    if shared.len() != 1000 || exclusive.len() != 1 {
        return None;
    }
    let mut steps = Steps::<L>::new(blank);
    let reader = locks.try_shared(5000, 5010, B, &mut steps).ok()?;
    within(&steps, 12);
    let writer = locks.try_exclusive(30_000, 40_000, B, &mut steps).ok()?;
    Some((reader, writer))
}

#[test]
fn a_reader_is_granted_beside_a_thousand_in_twelve_steps(rt: HostRuntime) {
    let mut locks = Locks::new(rt.alloc());
    for reader in 0..1000 {
        assert!(rt; locks.hold_shared(10 * reader, 10 * reader + 10, A).is_ok());
    }
    assert!(rt; locks.hold_exclusive(10_000, 20_000, X).is_ok());
    let granted = beside_a_thousand::<Brand>(&mut locks, Blank::new(1));
    assert!(rt; granted.is_some());
    assert_eq!(rt; locks.first_shared_from(4991), Some(5000));
}
