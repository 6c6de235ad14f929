// Where a sector stands while the pool is being widened.
ghost use Rattle.std.specs.Prelude.{◌≡◌, ◌<◌, ◌≤◌};
ghost use Rattle.scratch_area.specs.Scratch.{old_place, new_place, scratch_place};

use reflow_mark::Reflow;
use width_map::{Place, place};

/// The first device sector of the scratch rows.
pub const FIRST_SCRATCH_SECTOR: u64 = 32;

/// The place at the width that the pool has.
pub fn old_place(reflow: &Reflow, sector: u64) -> Place
    requires some { 0 < reflow.now.from }
    requires wide { reflow.now.from ≤ 64 }
    ensures value { result ≡ old_place reflow.now sector }
{
    place(reflow.from, sector)
}

/// The place at the width that it will have.
pub fn new_place(reflow: &Reflow, sector: u64) -> Place
    requires some { 0 < reflow.now.to }
    requires wide { reflow.now.to ≤ 64 }
    ensures value { result ≡ new_place reflow.now sector }
{
    place(reflow.to, sector)
}

/// The place in the scratch area, whose rows are counted from `FIRST_SCRATCH_SECTOR`.
///
/// The area holds the sectors below `Reflow::scratch_end`.
pub fn scratch_place(to: u32, sector: u64) -> Place
    requires some { 0 < to }
    requires wide { to ≤ 64 }
    ensures value { result ≡ scratch_place to sector }
{
    place(to, sector)
}
