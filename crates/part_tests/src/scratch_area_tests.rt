// One sector's way through the scratch area.
use reflow_mark::{Reflow, State};
use scratch_area::{
    FIRST_SCRATCH_SECTOR, drain_move, fill_move, new_place, old_place, scratch_place,
};
use width_map::Place;

#[test]
fn the_first_sectors_go_by_way_of_the_scratch_rows(rt: HostRuntime) {
    let reflow = Reflow {
        from: 3,
        to: 4,
        rows: 64,
        mark: 128,
        state: State::Valid,
    };
    let old = Place { device: 0, row: 42 };
    let wider = Place { device: 2, row: 31 };
    assert_eq!(rt; old_place(&reflow, 126), old);
    assert_eq!(rt; new_place(&reflow, 126), wider);
    assert_eq!(rt; scratch_place(4, 126), wider);
    assert_eq!(rt; fill_move(&reflow, 126), (old, wider));
    assert_eq!(rt; drain_move(&reflow, 126), (wider, wider));
    assert_eq!(rt; FIRST_SCRATCH_SECTOR + wider.row, 63);
}
