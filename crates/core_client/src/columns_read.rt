// A block's columns as they were read.
ghost use Rattle.std.specs.Prelude.{◌≡◌, ◌≢◌, ◌⊎◌, ℕ, ◌<◌, ◌≤◌, IfOk, Some, length, false, true, ◌^◌};
ghost use Rattle.bank_trait.specs.Disk.{Unchanged};
ghost use Rattle.reconstruct.specs.Columns.{zero_sector};
ghost use Rattle.row_layout.specs.Layout.{IsColumn, columns_of, rows_of};
ghost use Rattle.uberblock_ring.specs.Devices.{with_device};
ghost use Rattle.core_state.specs.Committing.{point_of};
ghost use Rattle.core_client.specs.Got.{got_of, has_lost, HasReadColumn, IsShapedAs};
ghost use Rattle.core_state.specs.Outs.{OnlyFailedGoOut};
ghost use Rattle.core_state.specs.PoolBank.{HasPool};
ghost use Rattle.core_client.specs.Pool.{IsInPool};
ghost use Rattle.core_client.specs.Reading.{spot_of};

use crate::read_column;
use bank_trait::Bank;
use reconstruct::Rows;
use reflow_mark::Reflow;
use row_layout::Layout;
use smallvec::SmallVec;
use std::alloc::{AllocError, Global};
use uberblock_ring::DeviceSet;

/// A block's columns as far as they are there, and a mask for each row of those that are lost; the masks of
/// blocks of few rows take no memory of their own. What stands in a lost column means nothing.
#[derive(Drop)]
pub struct ColumnsRead {
    pub rows: Rows,
    pub lost: SmallVec<u64, 4>,
}

impl ColumnsRead {
    /// No columns.
    pub(crate) fn none(alloc: Global) -> ColumnsRead {
        ColumnsRead {
            rows: Rows::none(alloc),
            lost: SmallVec::new(alloc),
        }
    }

    /// Zeros in all columns, of which none is lost.
    pub fn blank(alloc: Global, layout: &Layout) -> Result<ColumnsRead, AllocError>
        ensures shape { IfOk result (IsShapedAs layout.now) }
        ensures zero { IfOk result (λ read. (row column : ℕ) → row < rows_of layout.now
            → column < columns_of layout.now → got_of read row column ≡ Some zero_sector) }
    {
        let rows = Rows::blank(alloc, layout)?;
        let lost = SmallVec::from_elem(alloc, 0, layout.rows() as usize)?;
        Ok(ColumnsRead { rows, lost })
    }

    /// Reads a column where its row stands, into its place. It is lost where its device is out, or goes out at this
    /// read.
    pub(crate) fn read<B: Bank>(
        &mut self,
        bank: &mut B,
        layout: &Layout,
        reflow: &Reflow,
        row: u32,
        column: u32,
        out: &mut DeviceSet,
    )
        requires masks { length self.old.lost.items ≡ self.old.rows.rows }
        requires row { row < self.old.rows.rows }
        requires column { column < self.old.rows.cols }
        requires narrow { self.old.rows.cols ≤ 64 }
        requires unread { has_lost self.old row column ≡ false }
        requires pool { IsInPool layout.now reflow.now }
        requires bank { HasPool reflow.now out.old (B.disk bank.old) }
        requires there { IsColumn layout.now row column }
        ensures step { HasReadColumn (spot_of layout.now reflow.now row column) row column
            self.old (point_of out.old (B.disk bank.old)) self.new (point_of out.new (B.disk bank.new)) }
        ensures unchanged { Unchanged (B.disk bank.old) (B.disk bank.new) }
        ensures out { OnlyFailedGoOut (point_of out.old (B.disk bank.old))
            (point_of out.new (B.disk bank.new)) }
        ensures below { (devices : ℕ) → reflow.now.to ≤ devices → out.old < 2 ^ devices → out.new < 2 ^ devices }
    {
        let place = self.rows.column_mut(row, column);
        if !read_column(bank, layout, reflow, row, column, out, place) {
            self.lose(row, column);
        }
    }

    fn lose(&mut self, row: u32, column: u32)
        requires row { row < length self.old.lost.items }
        requires column { column < 64 }
        ensures rows { self.new.rows ≡ self.old.rows }
        ensures masks { length self.new.lost.items ≡ length self.old.lost.items }
        ensures here { has_lost self.new row column ≡ true }
        ensures others { (other_row other : ℕ) → (other_row ≢ row) ⊎ (other ≢ column)
            → has_lost self.new other_row other ≡ has_lost self.old other_row other }
    {
        let row = row as usize;
        self.lost[row] = with_column(self.lost[row], column);
    }
}

/// The mask with a column more.
fn with_column(mask: u64, column: u32) -> u64
    requires { column < 64 }
    ensures { result ≡ with_device mask column }
{
    mask | 1 << column
}
