// A job of the copier, and the device calls that it makes.
ghost use Rattle.std.specs.Prelude.{◌≡◌, ◌+◌, ◌-◌, ◌*◌, ◌<◌, ◌≤◌, ◌^◌};
ghost use Rattle.reflow_copier.specs.Jobs.{job_begin, job_end, source_of, target_of, job_call_of};

use reflow_mark::Reflow;
use scratch_area::{FIRST_SCRATCH_SECTOR, drain_move, fill_move, new_place, old_place};
use width_map::{FIRST_DATA_SECTOR, Place};

/// Fill and Drain take the sectors that go through the scratch area, `Chunk` those from `lo` to
/// below `hi`.
#[derive(Clone, Copy, Debug, PartialEq, Eq)]
pub enum Job {
    Fill,
    Drain,
    Chunk { lo: u64, hi: u64 },
}

/// What a device is asked for.
#[derive(Clone, Copy, Debug, PartialEq, Eq)]
pub enum CallKind {
    Read,
    Write,
    Sync,
}

/// A device call that a job makes next.
#[derive(Clone, Copy, Debug, PartialEq, Eq)]
pub struct JobCall {
    pub kind: CallKind,
    pub device: u32,
    pub device_sector: u64,
}

/// The first device sector of an area's rows, and a place in them.
type Spot = (u64, Place);

impl Job {
    /// The first sector that the job copies.
    pub fn begin(&self) -> u64
        ensures value { result ≡ job_begin self.now }
    {
        match self {
            Job::Fill | Job::Drain => 0,
            Job::Chunk { lo, .. } => *lo,
        }
    }

    /// The sector after the last that the job copies.
    pub fn end(&self, reflow: &Reflow) -> u64
        ensures value { result ≡ job_end reflow.now self.now }
    {
        match self {
            Job::Fill | Job::Drain => reflow.scratch_end(),
            Job::Chunk { hi, .. } => *hi,
        }
    }

    /// The job's device call of this number, from 0: by turns a read and a write, sector by sector.
    pub fn next(&self, reflow: &Reflow, at: u64) -> JobCall
        requires from_some { 0 < reflow.now.from }
        requires from_wide { reflow.now.from ≤ 64 }
        requires to_some { 0 < reflow.now.to }
        requires to_wide { reflow.now.to ≤ 64 }
        requires fits { job_end reflow.now self.now < 2 ^ 54 }
        requires within { at < 2 * (job_end reflow.now self.now - job_begin self.now) }
        ensures value { result ≡ job_call_of reflow.now self.now at }
    {
        let sector = self.begin() + at / 2;
        if at % 2 == 0 {
            call_at(CallKind::Read, self.source(reflow, sector))
        } else {
            call_at(CallKind::Write, self.target(reflow, sector))
        }
    }

    /// Where a sector is read.
    fn source(&self, reflow: &Reflow, sector: u64) -> Spot
        requires from_some { 0 < reflow.now.from }
        requires from_wide { reflow.now.from ≤ 64 }
        requires to_some { 0 < reflow.now.to }
        requires to_wide { reflow.now.to ≤ 64 }
        ensures value { result ≡ source_of reflow.now self.now sector }
    {
        match self {
            Job::Fill => (FIRST_DATA_SECTOR, fill_move(reflow, sector).0),
            Job::Drain => (FIRST_SCRATCH_SECTOR, drain_move(reflow, sector).0),
            Job::Chunk { .. } => (FIRST_DATA_SECTOR, old_place(reflow, sector)),
        }
    }

    /// Where it is written.
    fn target(&self, reflow: &Reflow, sector: u64) -> Spot
        requires from_some { 0 < reflow.now.from }
        requires from_wide { reflow.now.from ≤ 64 }
        requires to_some { 0 < reflow.now.to }
        requires to_wide { reflow.now.to ≤ 64 }
        ensures value { result ≡ target_of reflow.now self.now sector }
    {
        match self {
            Job::Fill => (FIRST_SCRATCH_SECTOR, fill_move(reflow, sector).1),
            Job::Drain => (FIRST_DATA_SECTOR, drain_move(reflow, sector).1),
            Job::Chunk { .. } => (FIRST_DATA_SECTOR, new_place(reflow, sector)),
        }
    }
}

fn call_at(kind: CallKind, spot: Spot) -> JobCall
    requires fits { spot.0 + spot.1.row < 2 ^ 64 }
    ensures device { result.device ≡ spot.1.device }
    ensures device_sector { result.device_sector ≡ spot.0 + spot.1.row }
    ensures kind { result.kind ≡ kind }
{
    let (first, place) = spot;
    JobCall {
        kind,
        device: place.device,
        device_sector: first + place.row,
    }
}
