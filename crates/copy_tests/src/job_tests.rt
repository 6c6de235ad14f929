// A job's run from its first call to its last, and one whose read fails.
use crate::rounds::{at_mark, begun, carry_out, turn};
use crate::sectors::{bytes_of, filled_bank, held, new_place, old_place, put};
use bank_mem::MemBank;
use reflow_copier::Job;
use reflow_mark::State;
use std::test::Fail;

#[test]
fn a_job_makes_one_read_and_one_write_a_sector(rt: HostRuntime) -> Result<(), Fail> {
    let alloc = rt.alloc();
    let mut bank = filled_bank(&rt, alloc)?;
    let written = bank.clock();
    let Some(mut run) = begun(&rt, alloc, (at_mark(128, State::Moved), 128))? else {
        return Err("no job is due".into());
    };
    assert_eq!(rt; run.job(), Job::Chunk { lo: 128, hi: 167 });
    carry_out(&rt, &mut bank, &mut run, 2 * 39);
    assert_eq!(rt; bank.clock(), written.saturating_add(39));
    for sector in 128..167 {
        let place = new_place(&rt, sector);
        assert!(rt;
            held(&rt, &mut bank, place)? == bytes_of(&rt, sector),
            "sector {sector}"
        );
    }
    Ok(())
}

#[test]
fn a_failed_read_leaves_nothing_to_write(rt: HostRuntime) -> Result<(), Fail> {
    let alloc = rt.alloc();
    let mut bank = MemBank::new(alloc, 4, 256)?;
    let (source, target) = (old_place(&rt, 128), new_place(&rt, 128));
    put(&rt, &mut bank, target, &[7; 512])?;
    bank.fail_at(&[(source.0, 0)])?;
    let written = bank.clock();
    let Some(mut run) = begun(&rt, alloc, (at_mark(128, State::Moved), 128))? else {
        return Err("no job is due".into());
    };
    let out = turn(&rt, &mut bank, &mut run);
    assert!(rt; source == (2, 234) && out.bits() == 1 << 2);
    assert!(rt; !run.is_done() && bank.clock() == written);
    assert!(rt; held(&rt, &mut bank, target)? == [7; 512]);
    Ok(())
}
