//! What pools on banks in memory show, without the top call: tests alone, of the crates from a bank to `schedule`.
//!
//! They stand here together, since a crate with tests is proved twice. `test_pools` makes their pools, and carries out,
//! draws and checks their scripts. `part_tests` has the worked rows of single parts, and `call_tests` the tests of
//! whole calls.
#![tactic(auto)]

#[cfg(test)]
mod bank_tests;
#[cfg(test)]
mod commit_tests;
#[cfg(test)]
mod copy_failing_tests;
#[cfg(test)]
mod first_run_tests;
#[cfg(test)]
mod join_tests;
#[cfg(test)]
mod legal_check_tests;
#[cfg(test)]
mod new_device_tests;
#[cfg(test)]
mod opening_tests;
#[cfg(test)]
mod page_tests;
#[cfg(test)]
mod room_tests;
#[cfg(test)]
mod script_failing_tests;
#[cfg(test)]
mod script_stop_tests;
#[cfg(test)]
mod script_tests;
#[cfg(test)]
mod small_pool_tests;
#[cfg(test)]
mod turn_order_tests;
#[cfg(test)]
mod widening_tests;
