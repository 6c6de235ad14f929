// What is lost of a block where a pair is suspected.

ghost use Rattle.std.specs.Prelude.{◌≡◌, ℕ, ◌<◌, ◌≤◌, length, slice_index, ◌||◌, IfOk};
ghost use Rattle.gf_solve.specs.Row.{is_masked};
ghost use Rattle.row_layout.specs.Layout.{rows_of, columns_in, end_of, sector_of};
ghost use Rattle.row_layout.specs.Standing.{IsWithinLimits};
ghost use Rattle.reconstruct.specs.Suspects.{width_at_end, is_suspect};

use crate::Pair;
use row_layout::Layout;
use std::alloc::{AllocError, Global};

/// The masks of what is lost, and of what the pair suspects.
pub fn with_suspect(
    alloc: Global,
    layout: &Layout,
    lost: &[u64],
    pair: &Pair,
) -> Result<Vec<u64>, AllocError>
    requires masks { length lost.now ≡ rows_of layout.now }
    requires some { 0 < pair.now.width }
    ensures within { IfOk result (λ _masks. IsWithinLimits layout.now) }
    ensures long { IfOk result (λ masks. length masks.items ≡ rows_of layout.now) }
    ensures value { IfOk result (λ masks. (row column : ℕ) → row < rows_of layout.now
        → column < columns_in layout.now row → is_masked (slice_index masks.items row) column
        ≡ (is_masked (slice_index lost.now row) column
        || is_suspect (end_of layout.now row) (sector_of layout.now row column) pair.now)) }
{
    let mut masks = Vec::with_capacity(alloc, lost.len())?;
    for row in 0..layout.rows() {
        masks.push(lost[row as usize] | suspect_mask(layout, row, pair))?;
    }
    Ok(masks)
}

fn suspect_mask(layout: &Layout, row: u32, pair: &Pair) -> u64
    requires row { row < rows_of layout.now }
    requires narrow { columns_in layout.now row ≤ 64 }
    requires some { 0 < pair.now.width }
    ensures { (column : ℕ) → column < columns_in layout.now row
        → is_masked result column ≡ is_suspect (end_of layout.now row) (sector_of layout.now row column) pair.now }
{
    let row_end = layout.end_of(row);
    let mut mask = 0;
    for column in 0..layout.columns_in(row) {
        mask |= u64::from(is_suspect(row_end, layout.sector_of(row, column), pair)) << column;
    }
    mask
}

fn is_suspect(row_end: u64, sector: u64, pair: &Pair) -> bool
    requires { 0 < pair.now.width }
    ensures { result ≡ is_suspect row_end sector pair.now }
{
    sector % u64::from(width_at_end(pair, row_end)) == u64::from(pair.device)
}

/// The width at which a row with this end was read.
fn width_at_end(pair: &Pair, row_end: u64) -> u32
    requires { 0 < pair.now.width }
    ensures value { result ≡ width_at_end pair.now row_end }
    ensures some { 0 < result }
{
    if row_end > pair.mark {
        (pair.width - 1).max(1)
    } else {
        pair.width
    }
}
