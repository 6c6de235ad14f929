// Which job comes next, and which of its calls.
ghost use Rattle.std.specs.Prelude.{◌≡◌, ◌+◌, ◌/◌, ◌<◌, ◌≤◌, ◌^◌, IfNone, IfSome, nat_lt};
ghost use Rattle.reflow_copier.specs.declared.job.CallKind.TheVariants as kind;
ghost use Rattle.reflow_copier.specs.Jobs.{job_begin, job_end, next_job_of};
ghost use Rattle.core_state.specs.JobTurns.{MayRun};
ghost use Rattle.shadow_write.specs.Band.{IsFrontOf, IsWidening};
ghost use Rattle.core_copy.specs.Progress.{CopiesSector, IsSource, IsTarget, call_behind, call_count};

use reflow_copier::{Job, JobCall, next_job};
use reflow_mark::Reflow;

/// The job that is due where the present state has copied up to the sector `done`, as `next_job` gives it.
///
/// None where a commit has to come first, or where no expansion runs.
#[tactic(auto, using(crate::proofs::Due::due_may_run, crate::proofs::Due::due_front))]
pub fn due_job(reflow: &Reflow, done: u64) -> Option<Job>
    requires some { 0 < reflow.now.from }
    requires rows { reflow.now.rows ≤ 65536 }
    requires mark_fits { reflow.now.mark < 2 ^ 54 }
    requires done_fits { done < 2 ^ 54 }
    ensures value { result ≡ next_job_of reflow.now done }

    // It may run, and the front that it leaves is one that may be.
    ensures may_run { IfSome result (λ job. MayRun reflow.now done job) }
    ensures front { IsWidening reflow.now → IsFrontOf reflow.now done
        → IfSome result (λ job. IsFrontOf reflow.now (job_end reflow.now job)) }
{
    next_job(reflow, done)
}

/// The sector that the job's call of this number is about, from 0: each has a read and a write.
pub fn sector_of_call(job: &Job, number: u64) -> u64
    requires fits { job_begin job.now + number / 2 < 2 ^ 64 }
    ensures value { result ≡ job_begin job.now + number / 2 }
{
    job.begin() + number / 2
}

/// Whether the job has a call left behind so many that were made.
pub(crate) fn has_call_left(job: &Job, reflow: &Reflow, made: u64) -> bool
    ensures { result ≡ nat_lt made (call_count reflow.now job.now) }
{
    made / 2 < job.end(reflow).saturating_sub(job.begin())
}

/// The job's call behind so many that were made; none where it has come to its end.
#[tactic(auto, using(crate::proofs::Due::call_inside, crate::proofs::Due::call_places, crate::proofs::Due::calls_end))]
pub fn next_call(job: &Job, reflow: &Reflow, made: u64) -> Option<JobCall>
    requires from_some { 0 < reflow.now.from }
    requires from_wide { reflow.now.from ≤ 64 }
    requires to_some { 0 < reflow.now.to }
    requires to_wide { reflow.now.to ≤ 64 }
    requires fits { job_end reflow.now job.now < 2 ^ 54 }
    ensures value { result ≡ call_behind reflow.now job.now made }

    // It is about a sector of the job, and reads or writes it where the job does. Where none is left, the job has
    // come to its end.
    ensures inside { IfSome result (λ _. CopiesSector reflow.now job.now (job_begin job.now + made / 2)) }
    ensures read { IfSome result (λ call. call.kind ≡ kind.Read
        → IsSource reflow.now job.now (job_begin job.now + made / 2) call.device call.device_sector) }
    ensures write { IfSome result (λ call. call.kind ≡ kind.Write
        → IsTarget reflow.now job.now (job_begin job.now + made / 2) call.device call.device_sector) }
    ensures end { IfNone result (job_begin job.now ≤ job_end reflow.now job.now
        → made ≤ call_count reflow.now job.now → job_begin job.now + made / 2 ≡ job_end reflow.now job.now) }
{
    if has_call_left(job, reflow, made) {
        Some(job.next(reflow, made))
    } else {
        None
    }
}
