//! Uberblocks: their bytes, when one is valid in a slot, and which one is chosen.
//!
//! Each group writes one uberblock to the same slot of every device in use. The grammar of its
//! 512 bytes is what an encoder writes, so bytes tell one uberblock at most. Read
//! `specs/Uberblock.antt`, then `specs/Choice.antt`. Stands on `reflow_mark`, `width_map` and
//! `block_record`.
#![tactic(auto)]

mod alike;
mod births;
mod choice;
mod decode;
mod device_set;
mod encode;
mod header;
mod ring;
mod rules;
mod shown;
mod uber;

pub use alike::are_alike;
pub use choice::choose;
pub use device_set::DeviceSet;
pub use ring::{RING_SLOTS, area_sector, slot};
pub use rules::{MAX_GROUP, MAX_ROWS};
pub use shown::Shown;
pub use uber::Uber;
