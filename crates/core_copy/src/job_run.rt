// A copy job that makes one device call a step, so that other calls may come between.
ghost use Rattle.std.specs.Prelude.{◌≡◌, ◌^◌, ◌<◌, ◌≤◌, ◌↔◌, IfOk, IsTrue, false};
ghost use Rattle.core_state.specs.Committing.{point_of};
ghost use Rattle.core_state.specs.Outs.{OnlyFailedGoOut};
ghost use Rattle.core_state.specs.PoolBank.{HasPool};
ghost use Rattle.core_copy.specs.Progress.{call_behind, call_count};
ghost use Rattle.core_copy.specs.JobRun.{HoldsRead, JobMayBegin, JobSteps, begun_run};

use crate::calling::make;
use crate::job_plan::has_call_left;
use crate::next_call;
use bank_trait::Bank;
use reflow_copier::{Job, JobCall};
use reflow_mark::Reflow;
use std::alloc::{AllocError, Global};
use std::marker::Model;
use uberblock_ring::DeviceSet;

/// A job under way.
#[derive(Drop)]
pub struct JobRun {
    run: Box<CopiedSoFar>,
}

/// The device calls that it has made, and what it has read of its present sector.
#[derive(Drop)]
struct CopiedSoFar {
    reflow: Reflow,
    job: Job,
    made: u64,
    /// Whether `bytes` is what was read of it; else they mean nothing.
    has_read: bool,
    /// They are read and written where they stand.
    bytes: [u8; 512],
}

impl Model for JobRun {
    ghost use Rattle.core_state.specs.SpotReads.{given_by};
    ghost use Rattle.core_copy.specs.JobRun.{IsJobRun, JobRun as JobRunOf};

    ghost Value = { JobRunOf };

    ghost view = { λ run. record {
      reflow = run.run.value.reflow;
      job = run.run.value.job;
      made = run.run.value.made;
      read = given_by run.run.value.has_read run.run.value.bytes;
    } };

    ghost invariant = { λ run. IsJobRun (record {
      reflow = run.run.value.reflow;
      job = run.run.value.job;
      made = run.run.value.made;
      read = given_by run.run.value.has_read run.run.value.bytes;
    }) };
}

impl JobRun {
    /// A job that has made no call.
    pub fn new(alloc: Global, reflow: &Reflow, job: Job) -> Result<JobRun, AllocError>
        requires may_begin { JobMayBegin reflow.now job }
        ensures value { IfOk result (λ run. run ≡ begun_run reflow.now job) }
    {
        let begun = CopiedSoFar {
            reflow: *reflow,
            job,
            made: 0,
            has_read: false,
            bytes: [0; 512],
        };
        Ok(JobRun {
            run: Box::new(alloc, begun)?,
        })
    }

    /// The next call; none where all were made.
    fn next(&self) -> Option<JobCall>
        ensures value { result ≡ call_behind self.now.reflow self.now.job self.now.made }
    {
        next_call(&self.run.job, &self.run.reflow, self.run.made)
    }

    /// Whether all calls were made.
    pub fn is_done(&self) -> bool
        ensures value { IsTrue result ↔ (self.now.made ≡ call_count self.now.reflow self.now.job) }
        ensures left { result ≡ false → self.now.made < call_count self.now.reflow self.now.job }
    {
        !has_call_left(&self.run.job, &self.run.reflow, self.run.made)
    }

    /// The job that the run makes the calls of.
    pub fn job(&self) -> Job
        ensures value { result ≡ self.now.job }
    {
        self.run.job
    }

    /// Makes the next call: reads the present sector, or writes what was read of it. A device whose call
    /// fails is out from then on, and the job is to be given up.
    pub fn step<B: Bank>(&mut self, bank: &mut B, out: &mut DeviceSet)
        requires left { self.old.made < call_count self.old.reflow self.old.job }
        requires whole { out.old ≡ 0 }
        requires read { HoldsRead self.old }
        requires bank { HasPool self.old.reflow out.old (B.disk bank.old) }
        ensures steps { JobSteps self.old (point_of out.old (B.disk bank.old))
            self.new (point_of out.new (B.disk bank.new)) }
        ensures out { OnlyFailedGoOut (point_of out.old (B.disk bank.old))
            (point_of out.new (B.disk bank.new)) }
        ensures below { out.new < 2 ^ self.old.reflow.to }

        // While no device is out, the read before each write has come off.
        ensures read { out.new ≡ 0 → HoldsRead self.new }
    {
        let Some(call) = self.next() else {
            return;
        };
        let run = &mut *self.run;
        run.has_read = make(bank, call, run.has_read, &mut run.bytes, out);
        run.made += 1;
    }
}
