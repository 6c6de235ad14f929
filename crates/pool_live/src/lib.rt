//! The clients of a script beside one another, each in a thread of its own.
//!
//! The threads share an open pool by a lock, and have it by turns: a turn of a thread is a turn of its client, as
//! `schedule` takes them. So whatever the threads do is one of the lists of turns that the law of turns speaks of. Read
//! `specs/Sharing.antt`. Stands on `schedule` and `turn_lock`.
#![tactic(auto)]

mod batch;
mod beside;
mod gate;
mod host;
mod live;
mod run;

pub use beside::carry_out_beside;
pub use gate::OpenGate;
pub use host::Host;
pub use run::run_pool_beside;
