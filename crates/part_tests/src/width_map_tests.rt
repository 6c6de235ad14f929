// Worked rows of places, births and limits.
use width_map::{Birth, Births, Place, limit, place, width_at};

#[test]
fn a_sector_goes_round_the_devices(rt: HostRuntime) {
    assert_eq!(rt; place(3, 7), Place { device: 1, row: 2 });
    assert_eq!(rt; place(4, 7), Place { device: 3, row: 1 });
    assert_eq!(rt; place(3, 128), Place { device: 2, row: 42 });
    assert_eq!(rt; place(4, 128), Place { device: 0, row: 32 });
}

#[test]
fn a_copy_stops_short_of_the_row_below_the_mark(rt: HostRuntime) {
    for (mark, wanted) in [(128, 167), (12, 13), (11, 11), (1, 0)] {
        assert!(rt; mark < 1 << 54);
        assert_eq!(rt; limit(3, mark), wanted, "at mark {mark}");
    }
}

#[test]
fn the_last_sector_below_the_limit_takes_an_old_place_below_the_mark(rt: HostRuntime) {
    assert_eq!(rt; place(4, 166), Place { device: 2, row: 41 });
    assert_eq!(rt; place(3, 125), place(4, 166));
}

#[test]
fn a_wider_birth_counts_from_its_group_on(rt: HostRuntime) {
    let mut births = Births::first(3);
    births.add(18);
    for (group, wanted) in [(0, 3), (19, 3), (20, 4), (21, 4)] {
        assert_eq!(rt; width_at(&births, group), wanted, "in group {group}");
    }
}

#[test]
fn a_table_has_one_to_sixteen_births(rt: HostRuntime) {
    let births = [Birth { group: 7, width: 3 }; 17];
    assert!(rt; Births::from_slice(&births[..0]).is_none());
    assert!(rt; Births::from_slice(&births).is_none());
    let Some(table) = Births::from_slice(&births[..16]) else {
        panic!(rt; "sixteen births were refused");
    };
    assert_eq!(rt; table.as_slice(), &births[..16]);
}
