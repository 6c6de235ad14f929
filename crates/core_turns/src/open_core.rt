// An open pool while calls are under way.
ghost use Rattle.std.specs.Prelude.{◌≡◌, ◌+◌, ◌<◌, ◌↔◌, [], None, IsTrue};
ghost use Rattle.uberblock_ring.specs.Devices.{count_of};
ghost use Rattle.core_turns.specs.Core.{IsCore};

use core_blocks::Blocks;
use core_open::Pool;
use range_locks::Locks;
use reflow_mark::Reflow;
use std::alloc::Global;
use std::marker::Model;
use uberblock_ring::{DeviceSet, Uber};

/// The last answered group's uberblock, the blocks with the sectors that they take, the devices that are out, the
/// front, the holds of the calls under way, the group that was begun last, who makes it where it isn't answered, who
/// copies sectors where a job is under way, who attaches a device, who scrubs, and how many devices the pool reaches
/// to: one more than its width once a device has joined it with a group that isn't answered. A commit that is cut short
/// stays there: too many devices are out then.
#[derive(Drop)]
pub struct Core {
    pub(crate) uber: Uber,
    pub(crate) blocks: Blocks,
    pub(crate) out: DeviceSet,
    pub(crate) done: u64,
    pub(crate) locks: Locks,
    pub(crate) begun: u64,
    pub(crate) committing: Option<u8>,
    pub(crate) copying: Option<u8>,
    pub(crate) attaching: Option<u8>,
    pub(crate) scrubbing: Option<u8>,
    pub(crate) reach: u32,
}

impl Model for Core {
    ghost use Rattle.core_turns.specs.Core.{Core as CoreOf, IsCore};

    ghost Value = { CoreOf };

    ghost view = { λ core. record {
      pool = record { uber = core.uber; blocks = core.blocks; out = core.out; done = core.done };
      holds = core.locks;
      begun = core.begun;
      committing = core.committing;
      copying = core.copying;
      attaching = core.attaching;
      scrubbing = core.scrubbing;
      reach = core.reach;
    } };

    ghost invariant = { λ core. IsCore (record {
      pool = record { uber = core.uber; blocks = core.blocks; out = core.out; done = core.done };
      holds = core.locks;
      begun = core.begun;
      committing = core.committing;
      copying = core.copying;
      attaching = core.attaching;
      scrubbing = core.scrubbing;
      reach = core.reach;
    }) };
}

impl Core {
    /// A pool at rest, of which no call is under way.
    pub fn new(alloc: Global, pool: Pool) -> Core
        ensures { result ≡ record {
          pool = pool;
          holds = [];
          begun = pool.uber.group;
          committing = None;
          copying = None;
          attaching = None;
          scrubbing = None;
          reach = pool.uber.reflow.to;
        } }
    {
        let (uber, blocks, out, done) = pool.into_parts();
        let begun = uber.group();
        let reach = uber.reflow().to;
        Core {
            uber,
            blocks,
            out,
            done,
            locks: Locks::new(alloc),
            begun,
            committing: None,
            copying: None,
            attaching: None,
            scrubbing: None,
            reach,
        }
    }

    /// The devices that are out.
    pub fn out(&self) -> DeviceSet
        ensures { result ≡ self.now.pool.out }
    {
        self.out
    }

    /// The widths of the pool.
    pub fn reflow(&self) -> Reflow
        ensures value { result ≡ self.now.pool.uber.reflow }
        ensures is { IsCore self.now }
    {
        self.uber.reflow()
    }

    /// The group that the next commit makes.
    pub fn open_group(&self) -> u64
        ensures { result ≡ self.now.begun + 1 }
    {
        self.begun + 1
    }

    /// Whether more devices are out than there are parities. Each turn says so then.
    pub fn has_too_many_out(&self) -> bool
        ensures many { IsTrue result ↔ (self.now.pool.uber.parity < count_of self.now.pool.out) }
        ensures is { IsCore self.now }
    {
        self.out.exceeds(self.uber.parity())
    }
}
