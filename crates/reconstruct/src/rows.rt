// The columns of a block's rows, in one piece of memory.

ghost use Rattle.std.specs.Prelude.{◌≡◌, ℕ, List, ◌+◌, ◌*◌, ◌<◌, [], length, slice_index_or, IfOk};
ghost use Rattle.row_layout.specs.Layout.{rows_of, columns_of};
ghost use Rattle.reconstruct.specs.Columns.{zero_sector};
ghost use Rattle.reconstruct.specs.Rows.{column_at, with_column, AreFull, AreWide, IsShaped, IsColumnWritten};

use crate::sectors::zero_columns;
use row_layout::Layout;
use std::alloc::{AllocError, Global};
use std::marker::Model;

/// The columns of all rows of a block, as many in each row, 512 bytes in each column.
#[derive(Drop)]
pub struct Rows {
    rows: usize,
    cols: usize,
    columns: Vec<[u8; 512]>,
}

impl Model for Rows {
    ghost use Rattle.std.specs.Prelude.{◌≡◌, ◌*◌, ◌<◌, ◌^◌, ◌≤◌, length};
    ghost use Rattle.reconstruct.specs.Rows.{Rows};

    ghost Value = { Rows };

    ghost view = { λ a. record { rows = a.rows; cols = a.cols; columns = a.columns.items } };

    ghost invariant = { λ a. length a.columns.items ≡ a.rows * a.cols };
}

impl Rows {
    ghost use Rattle.std.specs.Borrow.{sem};
    ghost use Rattle.reconstruct.specs.Lending.{LendsColumn};

    /// No rows.
    pub fn none(alloc: Global) -> Rows
        ensures { result ≡ record { rows = 0; cols = 0; columns = [] } }
    {
        Rows {
            rows: 0,
            cols: 0,
            columns: Vec::new(alloc),
        }
    }

    /// Rows with nothing but zeros.
    pub fn blank(alloc: Global, layout: &Layout) -> Result<Rows, AllocError>
        ensures shape { IfOk result (λ rows. IsShaped layout.now rows) }
        ensures zero { IfOk result (λ rows. (row column : ℕ) → row < rows_of layout.now
            → column < columns_of layout.now → column_at rows row column ≡ zero_sector) }
    {
        let count = layout.rows() as usize * layout.cols() as usize;
        Ok(Rows::of(layout, zero_columns(alloc, count)?))
    }

    /// The rows of these columns, row after row.
    pub(crate) fn of(layout: &Layout, columns: Vec<[u8; 512]>) -> Rows
        requires { length columns.items ≡ rows_of layout.now * columns_of layout.now }
        ensures shape { IsShaped layout.now result }
        ensures columns { result.columns ≡ columns.items }
    {
        Rows {
            rows: layout.rows() as usize,
            cols: layout.cols() as usize,
            columns,
        }
    }

    /// All columns, row after row.
    pub(crate) fn columns(&self) -> &[[u8; 512]]
        ensures value { result.now ≡ self.now.columns }
        ensures long { length result.now ≡ self.now.rows * self.now.cols }
    {
        &self.columns
    }

    /// What stands in a column of a row.
    pub fn column(&self, row: u32, column: u32) -> &[u8; 512]
        requires row { row < self.now.rows }
        requires column { column < self.now.cols }
        ensures value { result.now ≡ column_at self.now row column }
        ensures wide { length result.now ≡ 512 }
        ensures full { AreFull self.now }
    {
        one_of(&self.columns, row as usize * self.cols + column as usize)
    }

    /// A column of a row, to be written in its place.
    pub fn column_mut(&mut self, row: u32, column: u32) -> &mut [u8; 512]
        requires row { row < self.old.rows }
        requires column { column < self.old.cols }
        ensures* lends { sem 𝓛 (LendsColumn self.entry row column result) }
        ensures value { result.now ≡ column_at self.old row column }
        ensures written { (bytes : List ℕ) → IsColumnWritten row column bytes self.old
            (with_column self.old row column bytes) }
    {
        &mut self.columns[row as usize * self.cols + column as usize]
    }
}

fn one_of(columns: &[[u8; 512]], place: usize) -> &[u8; 512]
    requires { place < length columns.now }
    ensures value { result.now ≡ slice_index_or columns.now place [] }
    ensures wide { length result.now ≡ 512 }
    ensures all_wide { AreWide columns.now }
{
    &columns[place]
}
