//! Where each sector of a block has to be written, while the pool is being widened.
//!
//! A write goes to each place at which the sector is read now or may be read after a stop. Read
//! `specs/Required.antt`, then `specs/Writes.antt`, then `writes`. A stop may reopen the pool at its last mark while a
//! job has copied further, and while a commit under way records a later one: all of these ask for places of one band, in
//! which a place serves one sector (`specs/Band.antt`), so what is written for one of them is in no other's way. Stands
//! on `scratch_area` and `row_layout`.
#![tactic(auto)]

mod cell;
mod front;
mod listing;
mod needs;
mod write;

pub use front::front_after_stop;
pub use listing::writes;
pub use write::Write;
