// The first run of sectors that fits.
ghost use Rattle.std.specs.Prelude.{◌≡◌, ◌+◌, ◌*◌, ◌<◌, ◌≤◌, ℕ, List, IfNone, IfSome, length};
ghost use Rattle.space_alloc.specs.Fit.{HasBegins, HasWalked, IsLowest, IsSearched, IsSorted, left_of, steps_to};

use crate::walk::{self, Walk};
use range_locks::{Hold, Steps};
use std::sync::ledger::Ledger;

/// The lowest start of a run of `len` sectors below `capacity` that no hold overlaps, or else what hinders the
/// lowest that no shared hold overlaps, if there is any.
///
/// One walk over the free runs and both lists of holds finds it.
pub fn search<L: Ledger>(
    edges: &[u64],
    capacity: u64,
    len: u64,
    shared: &[Hold],
    exclusive: &[Hold],
    steps: &mut Steps<L>,
) -> Result<u64, Option<Hold>>
    requires len { 0 < len }
    requires sorted { IsSorted edges.now shared.now exclusive.now }
    ensures searched { IsSearched edges.now shared.now exclusive.now capacity len result }
    ensures steps { (begins : List ℕ) → HasBegins edges.now capacity begins
        → steps.new ≤ steps.old + 2 * (length begins + (length shared.now + length exclusive.now)) + 1 }
{
    let Some(last) = capacity.checked_sub(len) else {
        return Err(None);
    };
    let mut walk = walk::begin(edges, capacity, steps);
    while walk.start <= last {
        match walk::advance(walk, edges, capacity, len, shared, exclusive, steps) {
            Some(next) => walk = next,
            None => return Ok(walk.start),
        }
    }
    Err(walk.hindered)
}
