//! The scratch area: where the first sectors stand while their old places are overwritten.
//!
//! Near the front old and new places overlap, so the first sectors go by way of scratch rows that
//! no width uses. Read `specs/Scratch.antt`, then `drain_move`, which says why that is enough.
//! Stands on `width_map` and `reflow_mark`.
#![tactic(auto)]

mod moves;
mod places;

pub use moves::{drain_move, fill_move};
pub use places::{FIRST_SCRATCH_SECTOR, new_place, old_place, scratch_place};
