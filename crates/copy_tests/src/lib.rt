//! What the job, its run, the mark's choice and the front come to together on a bank in memory: tests alone.
//!
//! `sectors` says where each sector of the pool stands and what its bytes are, and `rounds` carries jobs and
//! choices out one by one. `part_tests` has the worked rows of single parts, `pool_tests` those of whole pools.
#![tactic(auto)]

#[cfg(test)]
mod attach_tests;
#[cfg(test)]
mod attached;
#[cfg(test)]
mod beside_jobs_tests;
#[cfg(test)]
mod failing_job_tests;
#[cfg(test)]
mod job_tests;
#[cfg(test)]
mod pool_on_bank;
#[cfg(test)]
mod pool_widening_tests;
#[cfg(test)]
mod rounds;
#[cfg(test)]
mod sectors;
#[cfg(test)]
mod stops;
#[cfg(test)]
mod widening_stop_tests;
#[cfg(test)]
mod widening_tests;
