// Reflows of worked rows.
ghost use Rattle.std.specs.Prelude.{◌≡◌};

use reflow_mark::{Reflow, State};

/// Widths 3 to 4 over 64 data rows.
pub fn at_mark(mark: u64, state: State) -> Reflow
    ensures from { result.from ≡ 3 }
    ensures to { result.to ≡ 4 }
    ensures rows { result.rows ≡ 64 }
    ensures mark { result.mark ≡ mark }
{
    Reflow {
        from: 3,
        to: 4,
        rows: 64,
        mark,
        state,
    }
}
