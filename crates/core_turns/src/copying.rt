// Copy jobs, turn by turn.
ghost use Rattle.std.specs.Prelude.{◌≡◌, ◌≢◌, ◌<◌, ◌↔◌, IsTrue, false};
ghost use Rattle.core_state.specs.Outs.{OnlyFailedGoOut};
ghost use Rattle.core_state.specs.Committing.{point_of};
ghost use Rattle.core_copy.specs.Progress.{call_count};
ghost use Rattle.core_turns.specs.Core.{IsCore, at_disk, HasBankOf};
ghost use Rattle.core_turns.specs.Copying.{BeginsJob, DropsJob, EndsJob, IsDue, IsGivenUpFor, IsJobOf, StepsJob};
ghost use Rattle.core_turns.specs.UnderWay.{TurnGoesOn};

use crate::Core;
use crate::turn::too_many;
use bank_trait::Bank;
use core_copy::{JobRun, due_job};
use core_state::Answer;
use range_locks::{Hold, LockRefused};
use reflow_copier::Job;
use std::alloc::Global;

/// A copy job under way. It holds the sectors that it copies alone.
#[derive(Drop)]
pub struct CopyRun {
    hold: Hold,
    job: JobRun,
}

/// What the first turn of a round of a copy comes to: a job begins, finds another's hold in its way, is not due
/// before a commit, or there is nothing to copy. Where a commit is due it is no turn.
#[derive(Drop)]
pub enum JobBegin {
    More(CopyRun),
    Busy { by: u8 },
    CommitDue,
    Done(Answer),
}

impl CopyRun {
    /// Whether all sectors were copied. The job is ended then.
    pub fn is_done(&self) -> bool
        ensures value { IsTrue result ↔ (self.now.job.made ≡ call_count self.now.job.reflow self.now.job.job) }
        ensures left { result ≡ false → self.now.job.made < call_count self.now.job.reflow self.now.job.job }
    {
        self.job.is_done()
    }

    /// Whose job it is.
    pub(crate) fn actor(&self) -> u8
        ensures { result ≡ self.now.hold.actor }
    {
        self.hold.actor
    }

    /// The sectors that are copied.
    pub fn job(&self) -> Job
        ensures { result ≡ self.now.job.job }
    {
        self.job.job()
    }
}

impl Core {
    /// The first turn of a round of a copy: begins the job that is due, if one is, and holds its sectors alone. None is
    /// begun while a device is out. Where memory is short nothing is held.
    pub fn job_begin(&mut self, alloc: Global, actor: u8) -> JobBegin
        ensures begins { BeginsJob self.old self.new actor result }
        ensures is { IsCore self.old }
    {
        if self.has_too_many_out() {
            return JobBegin::Done(too_many(self.out));
        }
        let reflow = self.uber.reflow();
        if reflow.from == reflow.to {
            return JobBegin::Done(Answer::Completed { width: reflow.to });
        }
        if let Some(device) = self.out.lowest() {
            return JobBegin::Done(Answer::Paused { device });
        }
        if let Some(by) = self.copying {
            return JobBegin::Busy { by };
        }
        let Some(job) = due_job(&reflow, self.done) else {
            return JobBegin::CommitDue;
        };
        self.hold_job(alloc, job, actor)
    }

    /// The next device call of a job: reads a sector, or writes it. A device whose call fails is out from then on, and
    /// the job is given up with its next turn.
    pub fn job_step<B: Bank>(&mut self, bank: &mut B, run: &mut CopyRun)
        requires of { IsJobOf self.old run.old }
        requires whole { self.old.pool.out ≡ 0 }
        requires left { run.old.job.made < call_count run.old.job.reflow run.old.job.job }
        requires bank { HasBankOf self.old (B.disk bank.old) }
        ensures steps { StepsJob (at_disk self.old (B.disk bank.old)) run.old
            (at_disk self.new (B.disk bank.new)) run.new }
        ensures of { IsJobOf self.new run.new }
        ensures goes_on { TurnGoesOn (at_disk self.old (B.disk bank.old))
            (at_disk self.new (B.disk bank.new)) }
        ensures bank { HasBankOf self.new (B.disk bank.new) }
        ensures out { OnlyFailedGoOut (point_of self.old.pool.out (B.disk bank.old))
            (point_of self.new.pool.out (B.disk bank.new)) }
    {
        self.make_job_call(bank, run);
    }

    /// The last turn of a job that has copied all its sectors: the front is behind them.
    pub fn job_end(&mut self, run: &CopyRun)
        requires of { IsJobOf self.old run.now }
        requires whole { self.old.pool.out ≡ 0 }
        requires all { run.now.job.made ≡ call_count run.now.job.reflow run.now.job.job }
        ensures { EndsJob self.old self.new run.now }
    {
        let reflow = self.uber.reflow();
        self.done = run.job.job().end(&reflow);
        self.locks.end(run.hold);
        self.copying = None;
    }

    /// The last turn of a job while a device is out: the front stays where it is. Tells which devices are out where
    /// they are too many.
    pub fn job_give_up(&mut self, run: &CopyRun) -> Option<Answer>
        requires of { IsJobOf self.old run.now }
        requires lost { self.old.pool.out ≢ 0 }
        ensures drops { DropsJob self.old self.new run.now }
        ensures tells { IsGivenUpFor self.old result }
    {
        self.locks.end(run.hold);
        self.copying = None;
        if self.has_too_many_out() {
            return Some(too_many(self.out));
        }
        None
    }

    fn hold_job(&mut self, alloc: Global, job: Job, actor: u8) -> JobBegin
        requires due { IsDue self.old job }
        ensures { BeginsJob self.old self.new actor result }
    {
        let reflow = self.uber.reflow();
        let Ok(run) = JobRun::new(alloc, &reflow, job) else {
            return JobBegin::Done(Answer::NoMemory);
        };
        match self
            .locks
            .hold_exclusive(job.begin(), job.end(&reflow), actor)
        {
            Ok(hold) => {
                self.copying = Some(actor);
                JobBegin::More(CopyRun { hold, job: run })
            }
            Err(LockRefused::Busy { by }) => JobBegin::Busy { by },
            Err(LockRefused::NoMemory) => JobBegin::Done(Answer::NoMemory),
        }
    }

    fn make_job_call<B: Bank>(&mut self, bank: &mut B, run: &mut CopyRun)
        requires of { IsJobOf self.old run.old }
        requires whole { self.old.pool.out ≡ 0 }
        requires left { run.old.job.made < call_count run.old.job.reflow run.old.job.job }
        requires bank { HasBankOf self.old (B.disk bank.old) }
        ensures is { IsCore self.old }
        ensures steps { StepsJob (at_disk self.old (B.disk bank.old)) run.old
            (at_disk self.new (B.disk bank.new)) run.new }
        ensures of { IsJobOf self.new run.new }
    {
        run.job.step(bank, &mut self.out);
    }
}
