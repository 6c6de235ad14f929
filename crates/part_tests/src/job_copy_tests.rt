// Worked rows of a job's calls, one by one to its end.
use crate::reflows::at_mark;
use core_copy::{due_job, next_call, sector_of_call};
use reflow_copier::{CallKind, JobCall};
use reflow_mark::State;

#[test]
fn a_job_that_is_due_ends_behind_the_write_of_its_last_sector(rt: HostRuntime) {
    // (a state, its mark, the front; how many calls there are, and where the last one writes)
    let jobs = [
        (State::None, 0, 0, 256, 3, 63),
        (State::Valid, 128, 0, 256, 3, 223),
        (State::Moved, 128, 128, 78, 2, 233),
        (State::Moved, 167, 167, 50, 3, 239),
    ];
    for (state, mark, done, calls, device, device_sector) in jobs {
        assert!(rt; mark < 1 << 54 && done < 1 << 54 && 0 < calls && calls < 1 << 54);
        let reflow = at_mark(mark, state);
        let Some(job) = due_job(&reflow, done) else {
            assert!(rt; false, "no job is due in {state:?} at {done}");
            continue;
        };
        let end = job.end(&reflow);
        assert!(rt; job.begin() <= end && end < 1 << 54);
        let last = JobCall {
            kind: CallKind::Write,
            device,
            device_sector,
        };
        assert_eq!(rt;
            next_call(&job, &reflow, calls - 1),
            Some(last),
            "of {job:?}"
        );
        assert!(rt; next_call(&job, &reflow, calls).is_none(), "of {job:?}");
        assert_eq!(rt; sector_of_call(&job, calls), end, "of {job:?}");
    }
}
