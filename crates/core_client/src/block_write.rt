// A block that is written, one write at a time.
ghost use Rattle.std.specs.Prelude.{◌≡◌, ◌+◌, ◌<◌, ◌↔◌, All, IfOk, IsTrue, Some, false, length, slice_get, true};
ghost use Rattle.shadow_write.specs.Writes.{writes_of};
ghost use Rattle.shadow_write.specs.declared.write.Write.{Write as WriteOf};
ghost use Rattle.reconstruct.specs.Rows.{sectors_for};
ghost use Rattle.core_state.specs.Committing.{point_of};
ghost use Rattle.core_client.specs.Pool.{IsInPool};
ghost use Rattle.shadow_write.specs.Band.{IsFrontOf};
ghost use Rattle.core_client.specs.Writing.{ChecksPlace, IsOnBank, IsPassedOrMade, IsPlanOf};

use crate::checking::reads_otherwise;
use crate::write_column;
use bank_trait::Bank;
use reconstruct::{Rows, encode};
use reflow_mark::Reflow;
use row_layout::Layout;
use shadow_write::{Write, writes};
use std::alloc::{AllocError, Global};
use std::marker::Model;
use uberblock_ring::DeviceSet;

/// A block on its way to the devices.
#[derive(Drop)]
pub struct BlockWrite {
    run: Box<WrittenSoFar>,
}

/// Its columns, the places that they go to, and how many of these were written or passed over.
#[derive(Drop)]
struct WrittenSoFar {
    rows: Rows,
    writes: Vec<Write>,
    next: usize,
}

impl Model for BlockWrite {
    ghost use Rattle.std.specs.Prelude.{◌≤◌, length};
    ghost use Rattle.core_client.specs.BlockTurns.{BlockWrite as BlockWriteOf};

    ghost Value = { BlockWriteOf };

    ghost view = { λ run. record {
      rows = run.run.value.rows;
      writes = run.run.value.writes.items;
      next = run.run.value.next;
    } };

    ghost invariant = { λ run. run.run.value.next ≤ length run.run.value.writes.items };
}

impl BlockWrite {
    /// A block of these bytes, of which nothing was written yet, while the present job has copied up to
    /// `done`.
    pub fn new(
        alloc: Global,
        layout: &Layout,
        reflow: &Reflow,
        done: u64,
        bytes: &[u8],
    ) -> Result<BlockWrite, AllocError>
        requires pool { IsInPool layout.now reflow.now }
        requires front { IsFrontOf reflow.now done }
        requires len { sectors_for (length bytes.now) ≡ layout.now.sectors }
        ensures plan { IfOk result (λ run.
            IsPlanOf layout.now reflow.now done bytes.now run.rows run.writes) }
        ensures writes { IfOk result (λ run. run.writes ≡ writes_of layout.now reflow.now done) }
        ensures next { IfOk result (λ run. run.next ≡ 0) }
    {
        let rows = encode(alloc, layout, bytes)?;
        let plan = writes(alloc, layout, reflow, done)?;
        let begun = WrittenSoFar {
            rows,
            writes: plan,
            next: 0,
        };
        Ok(BlockWrite {
            run: Box::new(alloc, begun)?,
        })
    }

    /// Whether all writes were made or passed over.
    pub fn is_done(&self) -> bool
        ensures { IsTrue result ↔ (self.now.next ≡ length self.now.writes) }
    {
        self.run.next == self.run.writes.len()
    }

    /// Makes the next write. A device that is out is passed over; one whose write fails is out.
    pub fn step<B: Bank>(&mut self, bank: &mut B, out: &mut DeviceSet)
        requires left { self.old.next < length self.old.writes }
        requires inside { All (IsOnBank self.old.rows out.old (B.disk bank.old)) self.old.writes }
        ensures step { (write : WriteOf) → slice_get self.old.writes self.old.next ≡ Some write
            → IsPassedOrMade self.old.rows write (point_of out.old (B.disk bank.old))
            (point_of out.new (B.disk bank.new)) }
        ensures next { self.new ≡ record self.old { next = self.old.next + 1 } }
    {
        let run = &mut *self.run;
        let write = run.writes[run.next];
        write_column(bank, &run.rows, &write, out);
        run.next += 1;
    }

    /// Looks at the place of the next write, and tells whether it reads otherwise than the block has it. Where it does
    /// not, or its device is out by then, the write is passed over.
    pub fn check<B: Bank>(&mut self, bank: &mut B, out: &mut DeviceSet) -> bool
        requires left { self.old.next < length self.old.writes }
        requires inside { All (IsOnBank self.old.rows out.old (B.disk bank.old)) self.old.writes }
        ensures checks { (write : WriteOf) → slice_get self.old.writes self.old.next ≡ Some write
            → ChecksPlace self.old.rows write result (point_of out.old (B.disk bank.old))
            (point_of out.new (B.disk bank.new)) }
        ensures stays { result ≡ true → self.new ≡ self.old }
        ensures next { result ≡ false → self.new ≡ record self.old { next = self.old.next + 1 } }
    {
        let run = &mut *self.run;
        let write = run.writes[run.next];
        let otherwise = reads_otherwise(bank, &run.rows, &write, out);
        if !otherwise {
            run.next += 1;
        }
        otherwise
    }
}
