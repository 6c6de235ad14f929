//! The laws of a journal that grows: what stands of it stands when an item is listed after it.
//!
//! Read `specs/Moments.antt` for what the devices keep from one item to the next, `specs/Caused.antt` and
//! `specs/NoSpace.antt` for the causes of limits, and `specs/Points.antt` for the point that a read speaks of.
//! No bank and no pool is known here. Stands on the journal of `core_state` and on `client_script`.
#![tactic(auto)]

mod points;

pub use points::point_after;
