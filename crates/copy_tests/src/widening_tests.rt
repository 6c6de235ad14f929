// A pool is widened from its first job to its last commit.
use crate::rounds::{at_mark, round};
use crate::sectors::{SECTORS, bytes_of, filled_bank, held, new_place, standing_place};
use bank_mem::MemBank;
use reflow_mark::{Reflow, State};
use std::process::Abort;
use std::test::Fail;

/// Whether each sector is read at the place where the reflow has it stand.
fn is_read_whole(rt: &impl Abort, bank: &mut MemBank, reflow: &Reflow) -> Result<bool, Fail> {
    for sector in 0..SECTORS {
        let place = standing_place(rt, reflow, sector);
        if held(rt, bank, place)? != bytes_of(rt, sector) {
            return Ok(false);
        }
    }
    Ok(true)
}

#[test]
fn a_pool_is_widened_job_by_job(rt: HostRuntime) -> Result<(), Fail> {
    let alloc = rt.alloc();
    let mut bank = filled_bank(&rt, alloc)?;
    let mut way = (at_mark(0, State::None), 0);
    // a job and a commit by turns: the reflow behind each, and the front
    let wanted = [
        (at_mark(0, State::None), 128),
        (at_mark(128, State::Valid), 0),
        (at_mark(128, State::Valid), 128),
        (at_mark(128, State::Moved), 128),
        (at_mark(128, State::Moved), 167),
        (at_mark(167, State::Moved), 167),
        (at_mark(167, State::Moved), 192),
        (Reflow::at_rest(4, 64), 0),
    ];
    for behind in wanted {
        way = round(&rt, alloc, &mut bank, way)?;
        assert_eq!(rt; way, behind);
        assert!(rt; is_read_whole(&rt, &mut bank, &way.0)?, "behind {behind:?}");
    }
    for sector in 0..SECTORS {
        let place = new_place(&rt, sector);
        assert!(rt;
            held(&rt, &mut bank, place)? == bytes_of(&rt, sector),
            "sector {sector}"
        );
    }
    Ok(())
}
