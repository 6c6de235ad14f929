// The two moves that go by the scratch area, each from one place to another.
ghost use Rattle.std.specs.Prelude.{◌≡◌, ◌≢◌, ℕ, ◌+◌, ◌<◌, ◌≤◌};
ghost use Rattle.reflow_mark.specs.Reflow.{scratch_end};
ghost use Rattle.scratch_area.specs.Scratch.{old_place, fill_move, drain_move, IsDrained};

use crate::{new_place, old_place, scratch_place};
use reflow_mark::Reflow;
use width_map::Place;

/// From the old place of a sector to its scratch place.
pub fn fill_move(reflow: &Reflow, sector: u64) -> (Place, Place)
    requires from_some { 0 < reflow.now.from }
    requires from_wide { reflow.now.from ≤ 64 }
    requires to_some { 0 < reflow.now.to }
    requires to_wide { reflow.now.to ≤ 64 }
    ensures value { result ≡ fill_move reflow.now sector }
{
    (old_place(reflow, sector), scratch_place(reflow.to, sector))
}

/// From the scratch place of a sector to its new place.
#[tactic(auto, using(crate::proofs::Apart::drained_apart))]
pub fn drain_move(reflow: &Reflow, sector: u64) -> (Place, Place)
    requires some { 0 < reflow.now.to }
    requires wide { reflow.now.to ≤ 64 }
    ensures value { result ≡ drain_move reflow.now sector }

    // A drained sector never lands on one that is still read.
    ensures apart { (kept : ℕ) → IsDrained reflow.now sector
        → scratch_end reflow.now < kept + reflow.now.from → result.1 ≢ old_place reflow.now kept }
{
    (scratch_place(reflow.to, sector), new_place(reflow, sector))
}
