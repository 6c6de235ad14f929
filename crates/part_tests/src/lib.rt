//! Worked rows of the parts that a pool is made of: tests alone, each file of the crate that it is named for.
//!
//! They stand here together, since a crate with tests is proved twice. `pool_tests` has those of whole pools.
#![tactic(auto)]

#[cfg(test)]
mod block_record_tests;
#[cfg(test)]
mod block_table_tests;
#[cfg(test)]
mod client_script_tests;
#[cfg(test)]
mod client_script_text_tests;
#[cfg(test)]
mod commit_job_tests;
#[cfg(test)]
mod file_bank_tests;
#[cfg(test)]
mod gf_parity_tests;
#[cfg(test)]
mod gf_solve_tests;
#[cfg(test)]
mod job_copy_tests;
#[cfg(test)]
mod mark_choice_tests;
#[cfg(test)]
mod plain_places;
#[cfg(test)]
mod plain_solving;
#[cfg(test)]
mod pool_status_tests;
#[cfg(test)]
mod range_locks_tests;
#[cfg(test)]
mod reconstruct_tests;
#[cfg(test)]
mod reflow_copier_tests;
#[cfg(test)]
mod reflow_mark_tests;
#[cfg(test)]
mod reflows;
#[cfg(test)]
mod row_layout_tests;
#[cfg(test)]
mod scratch_area_tests;
#[cfg(test)]
mod shadow_write_tests;
#[cfg(test)]
mod space_alloc_tests;
#[cfg(test)]
mod uberblock_ring_tests;
#[cfg(test)]
mod width_map_tests;
