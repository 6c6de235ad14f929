//! The device calls of a commit, in their order.
//!
//! The index goes to every device and is synced there before any uberblock names it; so a stop
//! leaves the group before, or this one. What is left of a commit is a place in the whole plan, so
//! it takes no memory; devices that are out are passed over as they are met. Read
//! `specs/Stages.antt`, then `Commit`. Stands on `uberblock_ring` and `block_record`.
#![tactic(auto)]

mod call;
mod commit;
mod plan;

pub use call::CommitCall;
pub use commit::Commit;
