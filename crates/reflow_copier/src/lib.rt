//! The copier's jobs: which sectors each copies, from where and to where.
//!
//! Fill and Drain take the first sectors by way of the scratch area, a chunk takes the next ones
//! straight to their new places. Read `specs/Jobs.antt`. Stands on `scratch_area`.
#![tactic(auto)]

mod due;
mod job;

pub use due::{CHUNK_SECTORS, next_job};
pub use job::{CallKind, Job, JobCall};
