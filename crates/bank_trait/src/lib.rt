//! The outside of the store: a bank of devices, a source of bytes and a sink for them.
//!
//! Each object has one ghost value, and a call is a relation between that value before and after. A
//! bank's value tells, for each moment, what a crash leaves of it. Read `specs/Disk.antt`, then
//! `specs/Regions.antt`. Stands on no other crate.
#![tactic(auto)]

mod bank;
mod gate;
mod stream;

pub use bank::Bank;
pub use gate::{Gate, Point};
pub use stream::{Sink, Source};

/// A call of the outside failed. The object's count of faults has risen.
#[derive(Clone, Copy, Debug, PartialEq, Eq)]
pub struct Failed;
