//! A pool's begin, every later opening of it, and what stands once its blocks are loaded.
//!
//! Creating gives each device an empty ring and the first uberblock: read `create`. An opening
//! reads the rings once; the devices that answered choose a pool, and of that pool the greatest
//! group that has a candidate is brought to those that lack it and renewed: read `open`, with
//! `specs/Opens.antt`. A look chooses in the same way and writes nothing: read `look`. `open_pool` opens a pool and
//! takes the sectors of its blocks: read `specs/Pool.antt` and `specs/HoldsGroup.antt`, then `specs/Opening.antt`. What
//! a stop leaves may be opened again: `specs/Stopped.antt`. Stands on `core_commit` and `core_blocks`, and on
//! `core_state`, whose `specs/Create.antt` says what a new pool is, and `specs/Choosing.antt` what is chosen.
#![tactic(auto)]

mod candidates;
mod choice;
mod creating;
mod finding;
mod fitting;
mod index_page;
mod loading;
mod looking;
mod opening;
mod out;
mod page_lack;
mod pool;
mod reading;
mod ring_uber;
mod sight;
mod stopped;
mod votes;
mod why;

pub use creating::{create, data_rows};
pub use finding::{Found, find};
pub use loading::{OpenedPool, open_pool};
pub use looking::look;
pub use opening::{Opened, open};
pub use pool::Pool;
pub use sight::Look;
pub use why::OpenWhy;
