// A block's bytes from what is left of its rows.

ghost use Rattle.std.specs.Prelude.{◌≡◌, ◌⊎◌, ◌↔◌, ℕ, ◌+◌, ◌*◌, ◌<◌, ◌≤◌, List, [], length, slice_index_or, IfOk};
ghost use Rattle.std.specs.Prelude.{IfSome, IfNone, IsTrue, IsErrOf};
ghost use Rattle.gf_solve.specs.Row.{is_masked, count_lost};
ghost use Rattle.row_layout.specs.Layout.{rows_of, columns_of, columns_in};
ghost use Rattle.row_layout.specs.Standing.{IsWithinLimits};
ghost use Rattle.reconstruct.specs.Columns.{zero_sector};
ghost use Rattle.reconstruct.specs.Rows.{IsShaped, sectors_for};
ghost use Rattle.reconstruct.specs.Lost.{HasTooFew, IsFirstTooFew, IsLeftOver, AreBytes};
ghost use Rattle.reconstruct.specs.SolvedRow.{columns_at, IsSolvedRow, AreSolved};
ghost use Rattle.reconstruct.specs.Solved.{columns_with, is_masked_lost, IsSolution, BeginsSolution};
ghost use Rattle.reconstruct.specs.declared.refusal.DecodeRefused.TheVariants.{TooFew};

use crate::sectors::zero_sector;
use crate::{DecodeRefused, Rows, content};
use gf_solve::{lost_among, solve};
use row_layout::Layout;
use std::alloc::Global;

/// The first `len` bytes of a block, `len` being the block's length, from the columns that are
/// left. `lost` has a mask of columns for each row; what stands in those columns is not looked at.
pub fn decode(
    alloc: Global,
    layout: &Layout,
    rows: &Rows,
    len: usize,
    lost: &[u64],
) -> Result<Vec<u8>, DecodeRefused>
    requires len { sectors_for len ≡ layout.now.sectors }
    requires shape { IsShaped layout.now rows.now }
    requires masks { length lost.now ≡ rows_of layout.now }

    // The rows are looked at before anything else.
    ensures cause_too_few { (row : ℕ) → IsErrOf result (TooFew row)
        ↔ IsFirstTooFew layout.now lost.now row }
    ensures enough { IfOk result (λ _bytes. (row : ℕ) → row < rows_of layout.now
        → HasTooFew layout.now lost.now row → ⊥) }
    ensures len { IfOk result (λ bytes. length bytes.items ≡ len) }

    // Whatever bytes these columns are left of come back.
    ensures back { IfOk result (λ bytes. (wanted : List ℕ) → length wanted ≡ len → AreBytes wanted
        → IsLeftOver layout.now wanted rows.now lost.now → bytes.items ≡ wanted) }

    // The content that is there and the parity that serves suffice, also where other parity
    // columns contradict them. What is given fits these, whatever the columns hold.
    ensures serves { IfOk result (λ bytes. (wanted : List ℕ) → AreBytes wanted
        → IsSolution layout.now (columns_with rows.now lost.now) (is_masked_lost lost.now) len wanted
        → bytes.items ≡ wanted) }
    ensures solves { IfOk result (λ bytes. BeginsSolution layout.now
        (columns_with rows.now lost.now) (is_masked_lost lost.now) bytes.items) }
{
    if let Some(row) = first_too_few(layout, lost) {
        return Err(DecodeRefused::TooFew { row });
    }
    let mut columns = Vec::from_slice(alloc, rows.columns())?;
    solve_rows(layout, &mut columns, lost);
    let solved = Rows::of(layout, columns);
    Ok(content(alloc, layout, &solved, len)?)
}

/// The first row that has lost more columns than it has parity. `lost` has a mask of columns for each row.
pub fn first_too_few(layout: &Layout, lost: &[u64]) -> Option<u32>
    requires { length lost.now ≡ rows_of layout.now }
    ensures some { IfSome result (IsFirstTooFew layout.now lost.now) }
    ensures none { IfNone result ((row : ℕ) → row < rows_of layout.now
        → HasTooFew layout.now lost.now row → ⊥) }
{
    for row in 0..layout.rows() {
        if has_too_few(layout, lost[row as usize], row) {
            return Some(row);
        }
    }
    None
}

fn has_too_few(layout: &Layout, mask: u64, row: u32) -> bool
    requires { row < rows_of layout.now }
    ensures { IsTrue result
        ↔ (layout.now.parity < count_lost (is_masked mask) 0 (columns_in layout.now row)) }
{
    let parity = layout.parity() as usize;
    lost_among(mask, layout.columns_in(row) as usize) > parity
}

fn solve_rows(layout: &Layout, columns: &mut [[u8; 512]], lost: &[u64])
    requires columns { length columns.old ≡ rows_of layout.now * columns_of layout.now }
    requires masks { length lost.now ≡ rows_of layout.now }
    requires enough { (row : ℕ) → row < rows_of layout.now
        → HasTooFew layout.now lost.now row → ⊥ }
    ensures solved { AreSolved layout.now lost.now columns.old columns.new }
    ensures within { IsWithinLimits layout.now }
{
    for row in 0..layout.rows() {
        solve_row_among(layout, row, columns, lost[row as usize]);
    }
}

fn solve_row_among(layout: &Layout, row: u32, columns: &mut [[u8; 512]], mask: u64)
    requires row { row < rows_of layout.now }
    requires columns { length columns.old ≡ rows_of layout.now * columns_of layout.now }
    requires few { count_lost (is_masked mask) 0 (columns_in layout.now row) ≤ layout.now.parity }
    ensures here { IsSolvedRow layout.now row mask (columns_at layout.now columns.old row)
        (columns_at layout.now columns.new row) }
    ensures before { (place : ℕ) → place < row * columns_of layout.now
        → slice_index_or columns.new place [] ≡ slice_index_or columns.old place [] }
    ensures behind { (place : ℕ) → row * columns_of layout.now + columns_of layout.now ≤ place
        → slice_index_or columns.new place [] ≡ slice_index_or columns.old place [] }
{
    let cols = layout.cols() as usize;
    let (_before, rest) = columns.split_at_mut(row as usize * cols);
    let (here, _behind) = rest.split_at_mut(cols);
    solve_row(layout, row, here, mask);
}

fn solve_row(layout: &Layout, row: u32, columns: &mut [[u8; 512]], mask: u64)
    requires row { row < rows_of layout.now }
    requires columns { length columns.old ≡ columns_of layout.now }
    requires few { count_lost (is_masked mask) 0 (columns_in layout.now row) ≤ layout.now.parity }
    ensures { IsSolvedRow layout.now row mask columns.old columns.new }
{
    let parity = layout.parity();
    let present = layout.columns_in(row);
    clear_behind(columns, present as usize);
    let lost = mask & (u64::MAX >> (64 - present));
    solve(parity, columns, lost);
}

/// Missing columns count as zeros, whatever stands there.
fn clear_behind(columns: &mut [[u8; 512]], present: usize)
    requires { present ≤ length columns.old }
    ensures there { (column : ℕ) → column < present
        → slice_index_or columns.new column [] ≡ slice_index_or columns.old column [] }
    ensures missing { (column : ℕ) → present ≤ column → column < length columns.old
        → slice_index_or columns.new column [] ≡ zero_sector }
{
    for column in present..columns.len() {
        columns[column] = zero_sector();
    }
}
