//! Where each sector stands, at every width that the pool has had.
//!
//! A sector keeps its number for ever, and the width alone decides its place. So an expansion
//! moves sectors and changes no block. Read `specs/Place.antt`, then `limit`, which says how far a
//! copy may go, and `specs/Births.antt`, which says which width a block has. Stands on no other
//! crate.
#![tactic(auto)]

mod birth;
mod births;
mod copying;
mod placing;
mod position;

pub use birth::Birth;
pub use births::{Births, MAX_BIRTHS, width_at};
pub use copying::limit;
pub use placing::{FIRST_DATA_SECTOR, place};
pub use position::Place;
