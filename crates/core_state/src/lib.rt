//! The whole state of a pool, what its journal says, and what the devices keep of it.
//!
//! These are the definitions that the promises of the program rest on. Read them in this order:
//! `specs/Map.antt` and `specs/Legal.antt` for what callers see; `specs/Shown.antt`,
//! `specs/Whole.antt` and `specs/Keeps.antt` for what a stop leaves, `specs/Collision.antt` for the
//! premise that no digest matches by chance; `specs/Certain.antt` and `specs/Committing.antt` for
//! what is certain; `specs/Choosing.antt` and `specs/Opening.antt` for an opening; `specs/JobTurns.antt`
//! for when a job of a reflow may begin. What stands between two turns of an open pool is told by
//! `core_turns` and `schedule`.
#![tactic(auto)]

mod answer;
mod bytes;
mod item;
mod journal;
mod spot;

pub use answer::{Answer, Kind};
pub use bytes::{Bytes, Ids};
pub use item::{Entry, Group, Item};
pub use journal::Journal;
pub use spot::Spot;
