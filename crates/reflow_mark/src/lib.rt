//! How far an expansion has come: its widths, its mark and its state, and which copy of a row is read.
//!
//! A row is judged by its end: while one of its sectors lies above the mark, all of it is read at
//! the old place. Read `specs/Reflow.antt`, then `specs/Standing.antt`. Stands on no other crate.
#![tactic(auto)]

mod reflow;
mod stand;
mod word;

pub use reflow::{Reflow, SCRATCH_ROWS, State};
pub use stand::Stand;
