// A put's block, made up in no turn.
ghost use Rattle.std.specs.Prelude.{◌≡◌, IfOk};
ghost use Rattle.core_turns.specs.Putting.{IsFillable, IsMadeUp};

use crate::getting::OutOfMemory;
use core_client::BlockWrite;
use reflow_mark::Reflow;
use row_layout::Layout;
use sha2::{Digest, Sha256};
use std::alloc::Global;

/// What a put's block is made up for: the sectors that it goes to, how far an expansion had come when the put began,
/// and how many bytes it has.
#[derive(Clone, Copy, Debug, PartialEq, Eq)]
pub struct ToFill {
    pub(crate) layout: Layout,
    pub(crate) reflow: Reflow,
    pub(crate) done: u64,
    pub(crate) len: u32,
}

/// A put's block on its way to the devices, and the digest of its bytes.
#[derive(Drop)]
pub struct Filled {
    pub(crate) write: BlockWrite,
    pub(crate) digest: [u8; 32],
}

/// A block that was made up, and what it was made up for.
#[derive(Drop)]
pub struct MadeUp {
    pub(crate) block: ToFill,
    pub(crate) filled: Filled,
}

impl ToFill {
    /// Makes a block of these bytes up: its columns, the places that they go to, and its digest. Calls no device.
    pub fn make_up(self, alloc: Global, bytes: &[u8]) -> Result<MadeUp, OutOfMemory>
        requires fillable { IsFillable self bytes.now }
        ensures block { IfOk result (λ made. made.block ≡ self) }
        ensures made { IfOk result (λ made. IsMadeUp made.block made.filled bytes.now) }
    {
        let Ok(write) = BlockWrite::new(alloc, &self.layout, &self.reflow, self.done, bytes) else {
            return Err(OutOfMemory);
        };
        Ok(MadeUp {
            block: self,
            filled: Filled {
                write,
                digest: Sha256::digest(bytes),
            },
        })
    }
}
