// The whole plan of a commit, by the numbers of its calls.
ghost use Rattle.std.specs.Prelude.{◌≡◌, ◌≤◌, ◌<◌, ◌+◌, ◌*◌, ◌/◌, ◌%◌, ◌&&◌, length, not, Some, slice_get};
ghost use Rattle.block_record.specs.Page.{page_sectors};
ghost use Rattle.uberblock_ring.specs.Devices.{has_device};
ghost use Rattle.commit_job.specs.Plan.{is_meant, whole_of};
ghost use Rattle.commit_job.specs.Stages.{device_of, plan_of};

use crate::CommitCall;
use block_record::page_sectors;
use uberblock_ring::DeviceSet;

/// Which calls of the whole plan are to be made: all, or those that bring a group to the devices that lack it.
#[derive(Clone, Copy, Debug, PartialEq, Eq)]
pub enum Meant {
    All,
    Spread { page: DeviceSet, uber: DeviceSet },
}

/// The calls over `devices` devices of a group with `count` index entries.
#[derive(Clone, Copy, Debug, PartialEq, Eq)]
pub struct Plan {
    pub devices: u32,
    pub count: u32,
    pub meant: Meant,
}

impl Plan {
    /// How many calls the whole plan has.
    pub fn len(&self) -> u64
        requires devices { self.now.devices ≤ 64 }
        requires count { self.now.count ≤ 512 }
        ensures value { result ≡ length (whole_of self.now) }
    {
        self.devices as u64 * (page_sectors(self.count as usize) + 3)
    }

    /// The call at a place.
    pub fn call_at(&self, place: u64) -> CommitCall
        requires devices { self.now.devices ≤ 64 }
        requires count { self.now.count ≤ 512 }
        requires inside { place < length (whole_of self.now) }
        ensures value { slice_get (whole_of self.now) place ≡ Some result }
    {
        let sectors = page_sectors(self.count as usize);
        let devices = self.devices as u64;
        let writes = devices * sectors;
        if place < writes {
            return CommitCall::IndexWrite {
                device: (place / sectors) as u32,
                part: place % sectors,
            };
        }
        let behind = place - writes;
        let device = (behind % devices) as u32;
        let stage = behind / devices;
        if stage == 0 {
            CommitCall::BaseSync { device }
        } else if stage == 1 {
            CommitCall::UberWrite { device }
        } else {
            CommitCall::UberSync { device }
        }
    }

    /// Whether a call is to be made where these devices are out.
    pub fn is_due(&self, call: CommitCall, out: DeviceSet) -> bool
        ensures value { result ≡ (is_meant self.now.meant call
            && not (has_device out (device_of call))) }
    {
        let is_meant = match self.meant {
            Meant::All => true,
            Meant::Spread { page, uber } => match call {
                CommitCall::IndexWrite { device, .. } => page.has(device),
                CommitCall::BaseSync { .. } => false,
                CommitCall::UberWrite { device } => uber.has(device),
                CommitCall::UberSync { .. } => true,
            },
        };
        is_meant && !out.has(call.device())
    }
}
