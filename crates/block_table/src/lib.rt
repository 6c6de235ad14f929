//! The table of blocks: for each id the entry that the next index page lists.
//!
//! A finite map, kept in the order of the ids, so that a page is written from it as it stands. A
//! put reserves its id first, and with it the room that it needs; so its end can't fail. Read
//! `specs/Table.antt`, then `Table`. Stands on `block_record`.
#![tactic(auto)]

mod ids;
mod places;
mod reserved;
mod table;

pub use ids::Ids;
pub use table::{MAX_IDS, ReserveRefused, Table};
