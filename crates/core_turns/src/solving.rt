// A block that was read, solved in no turn.
ghost use Rattle.std.specs.Prelude.{◌≡◌, ◌↔◌, ℕ, ◌<◌, IfOk, IsTrue, true};
ghost use Rattle.reconstruct.specs.Rows.{column_at, sectors_for};
ghost use Rattle.row_layout.specs.Layout.{columns_of, rows_of};
ghost use Rattle.core_client.specs.Got.{IsShapedAs};
ghost use Rattle.core_client.specs.declared.columns_read.ColumnsRead.{ColumnsRead as ColumnsReadOf};
ghost use Rattle.core_client.specs.declared.widths.Widths.{Widths as WidthsOf};
ghost use Rattle.core_turns.specs.Getting.{AreOfOneBlock, HasSameColumns, HasSameRow, IsAlike, IsSolvable, IsSolved};

use crate::getting::OutOfMemory;
use core_client::{ColumnsRead, FetchRefused, SharedColumns, Widths, checked_bytes};
use core_state::Bytes;
use row_layout::Layout;
use std::alloc::Global;

/// What a read is to solve: the columns that it got, the length and digest of the block's bytes, and the widths at
/// which its sectors may have stood.
#[derive(Drop)]
pub struct ToSolve {
    pub(crate) layout: Layout,
    pub(crate) read: SharedColumns,
    pub(crate) len: u32,
    pub(crate) digest: [u8; 32],
    pub(crate) widths: Widths,
}

/// What the columns that were read come to.
#[derive(Drop)]
pub enum Solved {
    NotYet,
    Bytes(Bytes),
    Damaged,
}

/// What columns came to, and which they were.
#[derive(Drop)]
pub struct SolvedFrom {
    pub(crate) block: ToSolve,
    pub(crate) solved: Solved,
}

impl ToSolve {
    /// Solves the block. Calls no device.
    pub fn solve(self, alloc: Global) -> Result<SolvedFrom, OutOfMemory>
        requires solvable { IsSolvable self }
        ensures block { IfOk result (λ from. from.block ≡ self) }
        ensures solved { IfOk result (λ from. IsSolved from.block from.solved) }
    {
        let solved = solve_columns(
            alloc,
            &self.layout,
            self.read.columns(),
            self.len,
            &self.digest,
            &self.widths,
        )?;
        Ok(SolvedFrom {
            block: self,
            solved,
        })
    }

    /// Whether it is of this block.
    fn is_of(&self, layout: &Layout, len: u32, digest: &[u8; 32]) -> bool
        ensures { (read : ColumnsReadOf) (widths : WidthsOf) → IsTrue result ↔ AreOfOneBlock self.now (record {
          layout = layout.now;
          read = read;
          len = len;
          digest = digest.now;
          widths = widths;
        }) }
    {
        self.layout == *layout && self.len == len && self.digest == *digest
    }

    /// Whether it is of this block, in a pool of these widths.
    fn is_of_read(&self, layout: &Layout, len: u32, digest: &[u8; 32], widths: &Widths) -> bool
        ensures { (read : ColumnsReadOf) → IsTrue result ↔ (AreOfOneBlock self.now (record {
          layout = layout.now;
          read = read;
          len = len;
          digest = digest.now;
          widths = widths.now;
        }) × (self.now.widths ≡ widths.now)) }
    {
        self.is_of(layout, len, digest) && are_same(&self.widths, widths)
    }

    /// Whether both are the same block, of which the same columns were read.
    pub(crate) fn is_alike(
        &self,
        layout: &Layout,
        read: &ColumnsRead,
        len: u32,
        digest: &[u8; 32],
        widths: &Widths,
    ) -> bool
        requires shape { IsShapedAs layout.now read.now }
        requires solvable { IsSolvable self.now }
        ensures { IsTrue result ↔ IsAlike self.now
            (record { layout = layout.now; read = read.now; len = len; digest = digest.now; widths = widths.now }) }
    {
        self.is_of_read(layout, len, digest, widths)
            && has_same_columns(layout, self.read.columns(), read)
    }
}

/// What the columns of a block come to: its bytes, though some columns be lost or wrong, as far as a choice of suspects
/// tells them.
pub(crate) fn solve_columns(
    alloc: Global,
    layout: &Layout,
    read: &ColumnsRead,
    len: u32,
    digest: &[u8; 32],
    widths: &Widths,
) -> Result<Solved, OutOfMemory>
    requires shape { IsShapedAs layout.now read.now }
    requires len { sectors_for len ≡ layout.now.sectors }
    ensures { IfOk result (IsSolved (record {
      layout = layout.now;
      read = read.now;
      len = len;
      digest = digest.now;
      widths = widths.now;
    })) }
{
    match checked_bytes(alloc, layout, read, len as usize, digest, widths) {
        Ok(bytes) => match Bytes::new(alloc, bytes) {
            Ok(bytes) => Ok(Solved::Bytes(bytes)),
            Err(_) => Err(OutOfMemory),
        },
        Err(FetchRefused::NoMemory) => Err(OutOfMemory),
        Err(FetchRefused::Damaged) => Ok(Solved::Damaged),
    }
}

/// Whether both are the same widths.
fn are_same(one: &Widths, other: &Widths) -> bool
    ensures { IsTrue result ↔ (one.now ≡ other.now) }
{
    one.to == other.to && one.mark == other.mark && one.births.is_same(&other.births)
}

/// Whether two readings of a block lost and got the same.
fn has_same_columns(layout: &Layout, one: &ColumnsRead, other: &ColumnsRead) -> bool
    requires one { IsShapedAs layout.now one.now }
    requires other { IsShapedAs layout.now other.now }
    ensures { IsTrue result ↔ HasSameColumns layout.now one.now other.now }
{
    if one.lost != other.lost {
        return false;
    }
    for row in 0..layout.rows() {
        if !has_same_row(layout, one, other, row) {
            return false;
        }
    }
    true
}

/// Whether two readings of a block got the same in a row.
fn has_same_row(layout: &Layout, one: &ColumnsRead, other: &ColumnsRead, row: u32) -> bool
    requires one { IsShapedAs layout.now one.now }
    requires other { IsShapedAs layout.now other.now }
    requires row { row < rows_of layout.now }
    ensures { IsTrue result ↔ HasSameRow layout.now one.now other.now row }
{
    for column in 0..layout.cols() {
        if one.rows.column(row, column) != other.rows.column(row, column) {
            return false;
        }
    }
    true
}
