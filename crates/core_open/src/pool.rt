// An open pool.
ghost use Rattle.std.specs.Prelude.{◌≡◌};
ghost use Rattle.core_open.specs.Pool.{IsPoolAtRest, first_item, pool_of};

use core_blocks::Blocks;
use core_state::Group;
use std::marker::Model;
use uberblock_ring::{DeviceSet, Uber};

/// A pool of which no call is under way: the last answered group's uberblock, the blocks with the sectors
/// that they take, the devices that are out, which are not called again, and the front: how far, in sectors, a copy to
/// a new width has come since.
#[derive(Drop)]
pub struct Pool {
    pub(crate) uber: Uber,
    pub(crate) blocks: Blocks,
    pub(crate) out: DeviceSet,
    pub(crate) done: u64,
}

impl Model for Pool {
    ghost use Rattle.core_open.specs.Pool.{Pool as PoolOf, IsPoolAtRest};

    ghost Value = { PoolOf };

    ghost view = { λ pool. record {
      uber = pool.uber;
      blocks = pool.blocks;
      out = pool.out;
      done = pool.done;
    } };

    ghost invariant = { λ pool. IsPoolAtRest (record {
      uber = pool.uber;
      blocks = pool.blocks;
      out = pool.out;
      done = pool.done;
    }) };
}

impl Pool {
    /// The uberblock of the last answered group.
    pub fn uber(&self) -> &Uber
        ensures { result.now ≡ self.now.uber }
    {
        &self.uber
    }

    /// The devices that are out.
    pub fn out(&self) -> DeviceSet
        ensures { result ≡ self.now.out }
    {
        self.out
    }

    /// The item with which a journal begins: the group that the pool was opened with.
    pub fn first_item(&self) -> Group
        ensures { result ≡ first_item self.now }
    {
        let reflow = self.uber.reflow();
        Group {
            group: self.uber.group(),
            after: 0,
            from: reflow.from,
            to: reflow.to,
        }
    }

    /// The last answered group's uberblock, the blocks, the devices that are out, and the front.
    pub fn into_parts(self) -> (Uber, Blocks, DeviceSet, u64)
        ensures value { pool_of result.0 result.1 result.2 result.3 ≡ self }
        ensures is { IsPoolAtRest self }
    {
        (self.uber, self.blocks, self.out, self.done)
    }
}
