// Worked rows of what a commit records: a pool of 64 rows on its way from 3 devices to 4.
use crate::reflows::at_mark;
use mark_choice::{choose, held_range};
use range_locks::Locks;
use reflow_mark::{Reflow, State};

const CLIENT: u8 = 0;

const JOB: u8 = 8;

#[test]
fn the_mark_goes_to_the_front_but_never_past_a_shared_hold(rt: HostRuntime) {
    let before = at_mark(128, State::Moved);
    // (a shared hold, the mark)
    for (lo, hi, mark) in [
        (192, 200, 167),
        (140, 144, 140),
        (126, 130, 128),
        (126, 128, 167),
    ] {
        let mut locks = Locks::new(rt.alloc());
        assert!(rt; lo < hi && locks.hold_shared(lo, hi, CLIENT).is_ok());
        let chosen = choose(&before, 167, &locks);
        assert_eq!(rt; chosen, at_mark(mark, State::Moved), "beside {lo} to {hi}");
        assert_eq!(rt;
            held_range(&before, &chosen),
            (128, mark),
            "beside {lo} to {hi}"
        );
    }
}

#[test]
fn with_no_hold_the_mark_goes_to_the_front(rt: HostRuntime) {
    let before = at_mark(128, State::Moved);
    let locks = Locks::new(rt.alloc());
    for done in [128, 129, 167, 191] {
        let chosen = choose(&before, done, &locks);
        assert_eq!(rt; chosen, at_mark(done, State::Moved));
        assert_eq!(rt; held_range(&before, &chosen), (128, done));
    }
}

#[test]
fn at_the_end_the_pool_has_the_new_width(rt: HostRuntime) {
    let before = at_mark(167, State::Moved);
    let mut locks = Locks::new(rt.alloc());
    let chosen = choose(&before, 192, &locks);
    assert_eq!(rt; chosen, Reflow::at_rest(4, 64));
    assert_eq!(rt; held_range(&before, &chosen), (167, 192));
    assert!(rt; locks.hold_shared(191, 192, CLIENT).is_ok());
    let chosen = choose(&before, 192, &locks);
    assert_eq!(rt; chosen, at_mark(191, State::Moved));
}

#[test]
fn the_scratch_area_is_passed_once_it_is_whole_and_nobody_holds_its_sectors(rt: HostRuntime) {
    let steps = [
        (at_mark(0, State::None), at_mark(128, State::Valid)),
        (at_mark(128, State::Valid), at_mark(128, State::Moved)),
    ];
    for (before, after) in steps {
        let mut locks = Locks::new(rt.alloc());
        assert_eq!(rt; choose(&before, 127, &locks), before);
        assert_eq!(rt; choose(&before, 128, &locks), after);
        assert_eq!(rt; held_range(&before, &after), (0, 128));
        assert_eq!(rt; held_range(&before, &before), (0, 0));
        assert!(rt; locks.hold_exclusive(128, 192, JOB).is_ok());
        assert_eq!(rt; choose(&before, 128, &locks), after);
        assert!(rt; locks.hold_shared(127, 128, CLIENT).is_ok());
        assert_eq!(rt; choose(&before, 128, &locks), before);
    }
}

#[test]
fn without_an_expansion_nothing_changes(rt: HostRuntime) {
    let rest = Reflow::at_rest(3, 64);
    let locks = Locks::new(rt.alloc());
    for done in [0, 96, 128] {
        assert_eq!(rt; choose(&rest, done, &locks), rest);
    }
}
