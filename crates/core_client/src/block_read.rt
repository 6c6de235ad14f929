// A block that is read, one column at a time.
ghost use Rattle.std.specs.Prelude.{◌≡◌, ◌+◌, ◌^◌, ◌<◌, ◌↔◌, IfOk, IsTrue, IfSome, false, ℕ, ◌≤◌};
ghost use Rattle.bank_trait.specs.Disk.{Unchanged};
ghost use Rattle.row_layout.specs.Layout.{IsLayout, rows_of};
ghost use Rattle.core_state.specs.Outs.{OnlyFailedGoOut};
ghost use Rattle.core_state.specs.Committing.{point_of};
ghost use Rattle.core_state.specs.PoolBank.{HasPool};
ghost use Rattle.core_client.specs.Pool.{IsInPool};
ghost use Rattle.core_client.specs.Got.{IsShapedAs};
ghost use Rattle.core_client.specs.BlockTurns.{IsAtColumn, IsReadBegun, ReadsColumn};

use crate::columns::Columns;
use crate::{ColumnsRead, SharedColumns};
use bank_trait::Bank;
use reflow_mark::Reflow;
use row_layout::Layout;
use std::alloc::{AllocError, Global};
use std::marker::Model;
use uberblock_ring::DeviceSet;

/// A block that is read column by column, row after row, its parity too.
#[derive(Drop)]
pub struct BlockRead {
    run: Box<ReadSoFar>,
}

/// What was read so far, and the column that comes next.
#[derive(Drop)]
struct ReadSoFar {
    layout: Layout,
    columns: Columns,
    row: u32,
    column: u32,
}

impl Model for BlockRead {
    ghost use Rattle.std.specs.Prelude.{◌<◌};
    ghost use Rattle.row_layout.specs.Layout.{rows_of};
    ghost use Rattle.core_client.specs.Got.{IsShapedAs};
    ghost use Rattle.core_client.specs.BlockTurns.{BlockRead as BlockReadOf, IsAtColumn};
    ghost use Rattle.core_client.specs.Shared.{IsOwn, columns_had};

    ghost Value = { BlockReadOf };

    ghost view = { λ run. record {
      layout = run.run.value.layout;
      read = columns_had run.run.value.columns;
      row = run.run.value.row;
      column = run.run.value.column;
    } };

    ghost invariant = { λ run. IsAtColumn (record {
      layout = run.run.value.layout;
      read = columns_had run.run.value.columns;
      row = run.run.value.row;
      column = run.run.value.column;
    }) × (run.run.value.row < rows_of run.run.value.layout → IsOwn run.run.value.columns) };
}

impl BlockRead {
    /// A block of this layout, of which nothing was read yet.
    pub fn new(alloc: Global, layout: &Layout) -> Result<BlockRead, AllocError>
        requires layout { IsLayout layout.now }
        ensures { IfOk result (IsReadBegun layout.now) }
    {
        let read = ColumnsRead::blank(alloc, layout)?;
        let begun = ReadSoFar {
            layout: *layout,
            columns: Columns::Own(read),
            row: 0,
            column: 0,
        };
        Ok(BlockRead {
            run: Box::new(alloc, begun)?,
        })
    }

    /// Whether all columns were read or passed over.
    pub fn is_done(&self) -> bool
        ensures value { IsTrue result ↔ (self.now.row ≡ rows_of self.now.layout) }
        ensures left { result ≡ false → self.now.row < rows_of self.now.layout }
        ensures place { IsAtColumn self.now }
    {
        self.run.row == self.run.layout.rows()
    }

    pub fn layout(&self) -> &Layout
        ensures value { result.now ≡ self.now.layout }
        ensures is { IsLayout self.now.layout }
    {
        &self.run.layout
    }

    /// What was read so far.
    pub fn columns(&self) -> &ColumnsRead
        ensures value { result.now ≡ self.now.read }
        ensures shape { IsShapedAs self.now.layout result.now }
    {
        self.run.columns.as_read()
    }

    /// The columns, for whoever solves them beside the read: once all were read, where there is memory for that.
    pub fn share(&mut self, alloc: Global) -> Option<SharedColumns>
        ensures same { self.new ≡ self.old }
        ensures value { IfSome result (λ shared. shared ≡ self.old.read) }
        ensures shape { IfSome result (IsShapedAs self.old.layout) }
        ensures done { IfSome result (λ _. self.old.row ≡ rows_of self.old.layout) }
    {
        if !self.is_done() {
            return None;
        }
        self.run.columns.share(alloc)
    }

    /// Reads the next column where its row stands. A device that is out is passed over; one whose read
    /// fails is out.
    pub fn step<B: Bank>(&mut self, bank: &mut B, reflow: &Reflow, out: &mut DeviceSet)
        requires left { self.old.row < rows_of self.old.layout }
        requires pool { IsInPool self.old.layout reflow.now }
        requires bank { HasPool reflow.now out.old (B.disk bank.old) }
        ensures step { ReadsColumn reflow.now self.old (point_of out.old (B.disk bank.old))
            self.new (point_of out.new (B.disk bank.new)) }
        ensures place { IsAtColumn self.old }
        ensures unchanged { Unchanged (B.disk bank.old) (B.disk bank.new) }
        ensures out { OnlyFailedGoOut (point_of out.old (B.disk bank.old))
            (point_of out.new (B.disk bank.new)) }
        ensures below { (devices : ℕ) → reflow.now.to ≤ devices → out.old < 2 ^ devices → out.new < 2 ^ devices }
    {
        let run = &mut *self.run;
        let row = run.row;
        let column = run.column;
        run.columns
            .read(bank, &run.layout, reflow, row, column, out);
        if column + 1 < run.layout.columns_in(row) {
            run.column = column + 1;
            return;
        }
        run.row = row + 1;
        run.column = 0;
    }
}
