//! Ranges of sectors that callers hold, shared or exclusive.
//!
//! No exclusive hold overlaps another hold. The shared holds and the exclusive ones stand in a list each, by
//! their start, so that a place is found by halving; `Steps` counts the holds that were looked at, for
//! contracts alone. Read `specs/Holds.antt`, then `Locks`; `specs/Order.antt` says how the lists are kept
//! and how many steps a search takes. Stands on no other crate.
#![tactic(auto)]

mod bound;
mod edit;
mod find;
mod hold;
mod locks;
mod place;
mod refused;
mod steps;
mod uncounted;

pub use hold::{Hold, HoldKind};
pub use locks::Locks;
pub use refused::LockRefused;
pub use steps::Steps;
