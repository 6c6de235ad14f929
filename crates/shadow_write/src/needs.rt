// Which places of a sector have to be right.
ghost use Rattle.std.specs.Prelude.{◌≡◌};
ghost use Rattle.shadow_write.specs.Writes.{needs_old, needs_scratch, needs_new};

use reflow_mark::{Reflow, State};

/// The old place: unless the row, which ends at `row_end`, is wholly below the mark and moved.
pub fn needs_old(reflow: &Reflow, row_end: u64) -> bool
    ensures { result ≡ needs_old reflow.now.state reflow.now.mark row_end }
{
    reflow.state == State::None || reflow.mark < row_end
}

/// The scratch place: what was filled, and in Valid all that goes through the scratch area.
pub fn needs_scratch(reflow: &Reflow, done: u64, sector: u64) -> bool
    ensures { result ≡ needs_scratch reflow.now.state reflow.now done sector }
{
    match reflow.state {
        State::None => reflow.expands() && sector < done,
        State::Valid => sector < reflow.scratch_end(),
        State::Moved => false,
    }
}

/// The new place: what was drained or copied.
pub fn needs_new(reflow: &Reflow, done: u64, sector: u64) -> bool
    ensures { result ≡ needs_new reflow.now.state done sector }
{
    reflow.state != State::None && sector < done
}
