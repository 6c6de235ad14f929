//! Which sectors of the pool are free, and the first run that fits.
//!
//! A freed run is held back until a group begun after the free is answered, and what a shared hold
//! covers is never given out. The taken runs are kept by their start, those held back as they came, and
//! beside both the edges between them and the free runs. Read `specs/Space.antt`, then `Space`;
//! `specs/Entries.antt` and `specs/Edges.antt` say how the runs are kept, and `specs/Fit.antt` how one walk
//! finds the first fit.
//! Stands on `range_locks`.
#![tactic(auto)]

mod edges;
mod entry;
mod fit;
mod gap;
mod held;
mod refused;
mod runs;
mod space;
mod uncounted;
mod walk;

pub use refused::TakeRefused;
pub use space::Space;
