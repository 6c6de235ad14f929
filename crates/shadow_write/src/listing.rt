// The writes of a block, in their order.
ghost use Rattle.std.specs.Prelude.{◌≡◌, ◌++◌, ◌+◌, ◌<◌, ◌≤◌, ◌^◌, IfOk, OnOk, option_to_list};
ghost use Rattle.row_layout.specs.Layout.{rows_of, columns_in};
ghost use Rattle.reflow_mark.specs.Reflow.{IsRightReflow};
ghost use Rattle.shadow_write.specs.Required.{IsFrontIn};
ghost use Rattle.row_layout.specs.Standing.{IsWithinLimits};
ghost use Rattle.shadow_write.specs.Writes.{column_writes, row_writes, writes_of, AreRequired, LeaveNoneOut};

use crate::Write;
use crate::cell::Cell;
use reflow_mark::Reflow;
use row_layout::Layout;
use std::alloc::{AllocError, Global};

/// The writes of a block, by row, then column, then old, scratch and new place, while the present
/// phase has copied up to `done`.
pub fn writes(
    alloc: Global,
    layout: &Layout,
    reflow: &Reflow,
    done: u64,
) -> Result<Vec<Write>, AllocError>
    requires from_some { 0 < reflow.now.from }
    requires from_wide { reflow.now.from ≤ 64 }
    requires to_some { 0 < reflow.now.to }
    requires to_wide { reflow.now.to ≤ 64 }
    ensures ok { IfOk result (λ writes. writes.items ≡ writes_of layout.now reflow.now done) }

    // They go to the places at which a column has to be right, and to no others.
    ensures required { IfOk result (λ writes. AreRequired layout.now reflow.now done writes.items) }
    ensures none_out { IsRightReflow reflow.now → IsFrontIn reflow.now.state reflow.now done
        → IfOk result (λ writes. LeaveNoneOut layout.now writes.items) }
{
    let mut writes = Vec::new(alloc);
    for row in 0..layout.rows() {
        push_row(&mut writes, layout, reflow, done, row)?;
    }
    Ok(writes)
}

fn push_row(
    writes: &mut Vec<Write>,
    layout: &Layout,
    reflow: &Reflow,
    done: u64,
    row: u32,
) -> Result<(), AllocError>
    requires from_some { 0 < reflow.now.from }
    requires from_wide { reflow.now.from ≤ 64 }
    requires to_some { 0 < reflow.now.to }
    requires to_wide { reflow.now.to ≤ 64 }
    requires row { row < rows_of layout.now }
    requires within { IsWithinLimits layout.now }
    ensures { OnOk result (writes.new.items
        ≡ writes.old.items
        ++ row_writes layout.now reflow.now done row (columns_in layout.now row)) }
{
    for column in 0..layout.columns_in(row) {
        push_column(writes, layout, reflow, done, row, column)?;
    }
    Ok(())
}

#[tactic(auto, using(crate::proofs::Whole::sector_fits), unfolding(crate::specs::Writes::column_writes))]
fn push_column(
    writes: &mut Vec<Write>,
    layout: &Layout,
    reflow: &Reflow,
    done: u64,
    row: u32,
    column: u32,
) -> Result<(), AllocError>
    requires from_some { 0 < reflow.now.from }
    requires from_wide { reflow.now.from ≤ 64 }
    requires to_some { 0 < reflow.now.to }
    requires to_wide { reflow.now.to ≤ 64 }
    requires row { row < rows_of layout.now }
    requires column { column < columns_in layout.now row }
    requires within { IsWithinLimits layout.now }
    ensures { OnOk result (writes.new.items
        ≡ writes.old.items ++ column_writes layout.now reflow.now done row column) }
{
    let cell = Cell {
        row,
        column,
        sector: layout.sector_of(row, column),
        row_end: layout.end_of(row),
    };
    push_some(writes, cell.old_write(reflow))?;
    push_some(writes, cell.scratch_write(reflow, done))?;
    push_some(writes, cell.new_write(reflow, done))
}

fn push_some(writes: &mut Vec<Write>, write: Option<Write>) -> Result<(), AllocError>
    ensures { OnOk result (writes.new.items ≡ writes.old.items ++ option_to_list write) }
{
    if let Some(write) = write {
        writes.push(write)?;
    }
    Ok(())
}
