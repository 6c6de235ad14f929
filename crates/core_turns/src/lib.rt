//! An open pool, turn by turn: several calls go on side by side, and a turn makes at most one device
//! call.
//!
//! A call under way is a value that its caller keeps, a `PutRun`, a `GetRun`, a `CommitRun`, a `CopyRound`, a
//! `ScrubRun` or an `AttachRun`. A turn goes on with it in place, until the call is answered. A hold on its sectors
//! keeps others away. Read `specs/Core.antt` and `specs/UnderWay.antt`, then `specs/Getting.antt`,
//! `specs/Putting.antt`, `specs/Scrubbing.antt`, `specs/Committing.antt` and `specs/Copying.antt`. Stands on
//! `core_blocks`, `core_client`, `core_commit`, `core_copy` and `range_locks`, and on the definitions of `core_open`.
#![tactic(auto)]

mod attaching;
mod block_scrub;
mod committing;
mod copying;
mod filling;
mod freeing;
mod getting;
mod open_core;
mod putting;
mod rounds;
mod scrub_run;
mod scrubbing;
mod solving;
mod turn;

pub use attaching::{AttachRun, FreeDevice};
pub use block_scrub::{BlockScrub, BlockStage};
pub use copying::{CopyRun, JobBegin};
pub use filling::{Filled, MadeUp, ToFill};
pub use getting::{GetRun, OutOfMemory};
pub use open_core::Core;
pub use putting::PutRun;
pub use rounds::CopyRound;
pub use scrub_run::ScrubRun;
pub use solving::{Solved, SolvedFrom, ToSolve};
pub use turn::Turn;
