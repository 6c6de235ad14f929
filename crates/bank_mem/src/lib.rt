//! A bank of devices in memory, and a source and a sink in memory.
//!
//! The bank keeps what its devices first held, what they hold now, and a record of its writes and
//! syncs; what a crash at any moment may leave is computed from that record. Calls can be listed to
//! fail. Read `specs/Record.antt`, `specs/MemBank.antt`, then `specs/Crash.antt`. Stands on
//! `bank_trait`.
#![tactic(auto)]

mod bank;
mod crash;
mod plan;
mod record;
mod refused;
mod shelf;
mod sink;
mod source;

pub use bank::MemBank;
pub use crash::{Tear, Torn};
pub use record::Call;
pub use refused::ImagesRefused;
pub use sink::MemSink;
pub use source::MemSource;
