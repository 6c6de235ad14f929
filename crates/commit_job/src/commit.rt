// A commit on its way.
ghost use Rattle.std.specs.Prelude.{◌≡◌, ◌<◌, ◌≤◌, drop, length, slice_get};
ghost use Rattle.commit_job.specs.Plan.{left_from, whole_of, IsDueAt, IsSmall};
ghost use Rattle.commit_job.specs.Stages.{after_next, calls_left, spread_of, plan_of, signing_of};

use crate::CommitCall;
use crate::plan::{Meant, Plan};
use std::marker::Model;
use uberblock_ring::DeviceSet;

/// The device calls that a commit has still to make. Contracts see them as a list.
#[derive(Drop)]
pub struct Commit {
    plan: Plan,
    place: u64,
}

impl Model for Commit {
    ghost use Rattle.std.specs.Prelude.{◌≤◌, List};
    ghost use Rattle.commit_job.specs.declared.call.CommitCall.{CommitCall};

    ghost Value = { List CommitCall };

    ghost use Rattle.commit_job.specs.Plan.{left_from, IsSmall};

    ghost view = { λ commit. left_from commit.plan commit.place };

    ghost invariant = { λ commit. IsSmall commit.plan commit.place };
}

impl Commit {
    /// All calls of a group with so many index entries, over so many devices.
    pub fn new(devices: u32, count: u32) -> Commit
        requires devices { devices ≤ 64 }
        requires count { count ≤ 512 }
        ensures value { result ≡ plan_of devices count }
    {
        Commit {
            plan: Plan {
                devices,
                count,
                meant: Meant::All,
            },
            place: 0,
        }
    }

    /// What brings a group that is there already: its index page to the devices that lack it, its
    /// uberblock to those that lack that, and a sync of each device.
    pub fn spread(devices: u32, count: u32, page: DeviceSet, uber: DeviceSet) -> Commit
        requires devices { devices ≤ 64 }
        requires count { count ≤ 512 }
        ensures value { result ≡ spread_of devices count page uber }
    {
        Commit {
            plan: Plan {
                devices,
                count,
                meant: Meant::Spread { page, uber },
            },
            place: 0,
        }
    }

    /// The second half alone, over so many devices: an uberblock to each, then a sync of each.
    pub fn signing(devices: u32) -> Commit
        requires devices { devices ≤ 64 }
        ensures value { result ≡ signing_of devices }
    {
        // The whole plan of an empty index begins with a sync of each device, and the second half follows.
        let plan = Plan {
            devices,
            count: 0,
            meant: Meant::All,
        };
        Commit {
            plan,
            place: u64::from(devices),
        }
    }

    /// The next call, where these devices are out.
    pub fn next(&self, out: DeviceSet) -> Option<CommitCall>
        ensures value { result ≡ slice_get (calls_left out self.now) 0 }
    {
        let place = next_place(&self.plan, self.place, out);
        if place < self.plan.len() {
            Some(self.plan.call_at(place))
        } else {
            None
        }
    }

    /// The next call, which is then made: what is left are the calls behind it.
    ///
    /// A device that fails at the call goes out after this, and is passed over from then on.
    pub fn advance(&mut self, out: DeviceSet) -> Option<CommitCall>
        ensures value { result ≡ slice_get (calls_left out self.old) 0 }
        ensures left { self.new ≡ after_next out self.old }
        ensures rest { calls_left out self.new ≡ drop 1 (calls_left out self.old) }
    {
        let plan = self.plan;
        let place = next_place(&plan, self.place, out);
        if place < plan.len() {
            self.place = place + 1;
            Some(plan.call_at(place))
        } else {
            self.place = place;
            None
        }
    }
}

/// The place of the first call from one on that is to be made, or the end.
fn next_place(plan: &Plan, first: u64, out: DeviceSet) -> u64
    requires small { IsSmall plan.now first }
    ensures small { IsSmall plan.now result }
    ensures due { result < length (whole_of plan.now)
        → IsDueAt plan.now out result }
    ensures left { calls_left out (left_from plan.now first)
        ≡ calls_left out (left_from plan.now result) }
    ensures after { after_next out (left_from plan.now first)
        ≡ after_next out (left_from plan.now result) }
{
    for place in first..plan.len() {
        if plan.is_due(plan.call_at(place), out) {
            return place;
        }
    }
    plan.len()
}
