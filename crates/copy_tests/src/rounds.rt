// Jobs and choices of a pool on its way from three devices to four, carried out on a bank in memory.
ghost use Rattle.std.specs.Prelude.{◌≡◌, IfOk, IfSome};
ghost use Rattle.core_copy.specs.JobRun.{HoldsRead};

use bank_mem::MemBank;
use bank_trait::Bank;
use core_copy::{JobRun, due_job, front_behind};
use mark_choice::choose;
use range_locks::Locks;
use reflow_copier::Job;
use reflow_mark::{Reflow, State};
use std::alloc::Global;
use std::process::Abort;
use std::test::Fail;
use uberblock_ring::DeviceSet;

/// How far a widening has come: its reflow, and its front.
pub type Way = (Reflow, u64);

/// Widths 3 to 4 over 64 data rows.
pub fn at_mark(mark: u64, state: State) -> Reflow {
    Reflow {
        from: 3,
        to: 4,
        rows: 64,
        mark,
        state,
    }
}

/// The job that is due, before its first call.
#[tactic(auto, using(core_copy::proofs::Fronts::job_some))]
pub fn begun(rt: &impl Abort, alloc: Global, way: Way) -> Result<Option<JobRun>, Fail>
    ensures to { IfOk result (λ due. IfSome due (λ run. run.reflow.to ≡ 4)) }
    ensures rows { IfOk result (λ due. IfSome due (λ run. run.reflow.rows ≡ 64)) }
    ensures read { IfOk result (λ due. IfSome due (λ run. HoldsRead run)) }
{
    let (reflow, done) = way;
    assert!(rt; reflow.from == 3 && reflow.to == 4 && reflow.rows == 64);
    assert!(rt; reflow.is_right() && reflow.mark < 1 << 54 && done < 1 << 54);
    match due_job(&reflow, done) {
        Some(job) => Ok(Some(JobRun::new(alloc, &reflow, job)?)),
        None => Ok(None),
    }
}

/// Makes a call of a run that is not done, while no device is out. Gives the devices that are out then.
pub fn turn(rt: &impl Abort, bank: &mut MemBank, run: &mut JobRun) -> DeviceSet
    requires to { run.old.reflow.to ≡ 4 }
    requires rows { run.old.reflow.rows ≡ 64 }
    requires read { HoldsRead run.old }
    ensures to { run.new.reflow.to ≡ 4 }
    ensures rows { run.new.reflow.rows ≡ 64 }
    ensures read { result ≡ 0 → HoldsRead run.new }
{
    assert!(rt; bank.devices() == 4 && bank.sectors() == 256 && !run.is_done());
    let mut out = DeviceSet::empty();
    run.step(bank, &mut out);
    out
}

/// Carries a run out whose job has this many calls: none of them fails, and it is done behind the last.
pub fn carry_out(rt: &impl Abort, bank: &mut MemBank, run: &mut JobRun, calls: u64)
    requires to { run.old.reflow.to ≡ 4 }
    requires rows { run.old.reflow.rows ≡ 64 }
    requires read { HoldsRead run.old }
{
    for _ in 0..calls {
        let out = turn(rt, bank, run);
        assert!(rt; out.is_empty());
    }
    assert!(rt; run.is_done());
}

/// The calls of a job: a read and a write a sector.
fn calls_of(rt: &impl Abort, job: &Job, reflow: &Reflow) -> u64 {
    let (begin, end) = (job.begin(), job.end(reflow));
    assert!(rt; begin < end && end < 1 << 54);
    2 * (end - begin)
}

/// A round: the job that is due, or where none is, the choice of a commit, and the front behind it.
pub fn round(rt: &impl Abort, alloc: Global, bank: &mut MemBank, way: Way) -> Result<Way, Fail> {
    let (reflow, done) = way;
    if let Some(mut run) = begun(rt, alloc, way)? {
        let job = run.job();
        carry_out(rt, bank, &mut run, calls_of(rt, &job, &reflow));
        return Ok((reflow, job.end(&reflow)));
    }
    assert!(rt; reflow.rows == 64);
    let chosen = choose(&reflow, done, &Locks::new(alloc));
    Ok((chosen, front_behind(&reflow, done, &chosen)))
}
