//! Which reflow a commit records in a pool that is being widened, and which sectors it holds meanwhile.
//!
//! A commit moves the mark towards the front up to which sectors were copied, but never past a sector that
//! somebody reads or writes, and all that its group asks for after a stop is right already. Read
//! `specs/CommitChoice.antt`, then `specs/Clear.antt` and `specs/Advance.antt`; worked rows are in
//! `proofs/CommitRows.antt`. Stands on `shadow_write` and `range_locks`.
#![tactic(auto)]

mod choosing;

pub use choosing::{choose, held_range, next_mark};
