//! A commit: the device calls that make a group the last one.
//!
//! The index page goes to each device and is synced there; then an uberblock that names it goes to
//! each device, and is synced. A commit makes one call a step. A device whose call fails is out from
//! then on, and is passed over. Read `specs/Ran.antt` for what was called, `specs/CommitTurns.antt` for
//! the steps, and `core_state`'s `specs/Committing.antt` for what they keep; and `specs/Spread.antt` for
//! a group that is brought to the devices that lack it.
//!
//! A new device may join a commit at the first uberblock write (`JoinRun`, `specs/JoinTurns.antt`). Until then it is
//! laid the page and synced beside the devices of the pool, and a call that fails on it fails on no device of the pool.
//! Then it is decided: where it has not failed and no device of the pool is out, the group is made with it; else
//! without it. Stands on `commit_job`, `attach_ring`, `mark_choice` and `core_state`.
#![tactic(auto)]

mod commit_run;
mod committing;
mod guest;
mod join_run;
mod next_group;

pub use commit_run::{CommitRun, CommitStep};
pub use committing::{TooManyOut, spread};
pub use guest::Guest;
pub use join_run::{JoinRun, JoinStep, WhyDropped};
pub use next_group::next_uber;
