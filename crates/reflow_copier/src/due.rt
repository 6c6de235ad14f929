// Which job is due.
ghost use Rattle.std.specs.Prelude.{◌≡◌, ◌<◌, ◌≤◌, ◌^◌};
ghost use Rattle.reflow_copier.specs.Jobs.{next_chunk_of, next_job_of};

use crate::Job;
use reflow_mark::{Reflow, State};
use width_map::limit;

/// Sectors of a chunk at most.
pub const CHUNK_SECTORS: u64 = 64;

/// The job that is due while the present phase has copied up to `done`.
///
/// None where a commit has to come first, or where no expansion runs.
pub fn next_job(reflow: &Reflow, done: u64) -> Option<Job>
    requires some { 0 < reflow.now.from }
    requires rows { reflow.now.rows ≤ 65536 }
    requires mark_fits { reflow.now.mark < 2 ^ 54 }
    requires done_fits { done < 2 ^ 54 }
    ensures value { result ≡ next_job_of reflow.now done }
{
    match reflow.state {
        State::None if reflow.expands() && done == 0 => Some(Job::Fill),
        State::Valid if done == 0 => Some(Job::Drain),
        State::Moved => next_chunk(reflow, done),
        _ => None,
    }
}

fn next_chunk(reflow: &Reflow, done: u64) -> Option<Job>
    requires some { 0 < reflow.now.from }
    requires rows { reflow.now.rows ≤ 65536 }
    requires mark_fits { reflow.now.mark < 2 ^ 54 }
    requires done_fits { done < 2 ^ 54 }
    ensures value { result ≡ next_chunk_of reflow.now done }
{
    let hi = limit(reflow.from, reflow.mark)
        .min(reflow.sectors())
        .min(done + CHUNK_SECTORS);
    if done < hi {
        Some(Job::Chunk { lo: done, hi })
    } else {
        None
    }
}
