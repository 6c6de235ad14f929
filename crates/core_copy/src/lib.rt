//! The copying of sectors onto a device that was added: jobs, their device calls, and the front that they leave.
//!
//! A job (Fill, Drain or a chunk) reads a sector of the pool where it is right, and writes it where no group that a
//! stop may leave asks for anything: such a write is spare (`specs/Around.antt`). One call is a step, so that other
//! calls may come between (`JobRun`, `specs/JobRun.antt`). A device whose call fails is out from then on, and a job
//! makes no call while a device is out. What a job keeps of each cell on its way: `specs/Progress.antt`,
//! `specs/Holding.antt`. What a commit that moves the mark asks for is right already, and where the front is behind its
//! answer: `specs/Behind.antt`. Stands on `reflow_copier`, `mark_choice` and `core_state`.
#![tactic(auto)]

mod calling;
mod front;
mod job_plan;
mod job_run;

pub use front::front_behind;
pub use job_plan::{due_job, next_call, sector_of_call};
pub use job_run::JobRun;
