// Worked rows of the copier's jobs.
use crate::reflows::at_mark;
use reflow_copier::{CHUNK_SECTORS, CallKind, Job, JobCall, next_job};
use reflow_mark::{Reflow, State};

#[test]
fn a_job_is_due_where_no_commit_has_to_come_first(rt: HostRuntime) {
    let jobs = [
        (State::None, 0, 0, Some(Job::Fill)),
        (State::None, 0, 128, None),
        (State::Valid, 128, 0, Some(Job::Drain)),
        (State::Valid, 128, 128, None),
        (
            State::Moved,
            128,
            128,
            Some(Job::Chunk { lo: 128, hi: 167 }),
        ),
        (State::Moved, 128, 167, None),
        (
            State::Moved,
            167,
            167,
            Some(Job::Chunk { lo: 167, hi: 192 }),
        ),
    ];
    for (state, mark, done, wanted) in jobs {
        assert!(rt; mark < 1 << 54 && done < 1 << 54);
        let job = next_job(&at_mark(mark, state), done);
        assert_eq!(rt; job, wanted, "in {state:?} at {done}");
    }
    assert!(rt; next_job(&Reflow::at_rest(3, 64), 0).is_none());
}

#[test]
fn a_chunk_is_64_sectors_at_most(rt: HostRuntime) {
    let reflow = Reflow {
        from: 3,
        to: 4,
        rows: 1024,
        mark: 1024,
        state: State::Moved,
    };
    let chunk = Job::Chunk {
        lo: 1024,
        hi: 1024 + CHUNK_SECTORS,
    };
    assert_eq!(rt; next_job(&reflow, 1024), Some(chunk));
}

#[test]
fn a_job_reads_and_writes_by_turns(rt: HostRuntime) {
    let reflow = at_mark(128, State::Moved);
    let jobs = [
        (Job::Chunk { lo: 128, hi: 167 }, 76, CallKind::Read, 1, 247),
        (Job::Chunk { lo: 128, hi: 167 }, 77, CallKind::Write, 2, 233),
        (Job::Fill, 252, CallKind::Read, 0, 234),
        (Job::Fill, 253, CallKind::Write, 2, 63),
        (Job::Drain, 252, CallKind::Read, 2, 63),
        (Job::Drain, 253, CallKind::Write, 2, 223),
    ];
    for (job, at, kind, device, device_sector) in jobs {
        let (begin, end) = (job.begin(), job.end(&reflow));
        assert!(rt; begin < end && end < 1 << 54 && at < 2 * (end - begin));
        let wanted = JobCall {
            kind,
            device,
            device_sector,
        };
        assert_eq!(rt; job.next(&reflow, at), wanted, "call {at} of {job:?}");
    }
}
