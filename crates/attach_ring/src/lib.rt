//! The ring of a device that is to be attached: read slot by slot, and whether it shows an uberblock.
//!
//! A device that shows one, of whatever pool and for whatever device number, is taken, and its lowest such slot is
//! told. An opening asks of each slot what it shows, for whichever device (`uber_in_slot`). Read `specs/Ring.antt`.
//! Stands on `uberblock_ring`.
#![tactic(auto)]

mod ring_read;
mod taken;

pub use ring_read::RingRead;
pub use taken::{SlotUber, uber_in_slot};
