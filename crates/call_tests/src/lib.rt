//! What whole calls over banks in memory, and over files there, show: tests alone, of the top call and its threads.
//!
//! They stand here, apart from those of `pool_tests`, since the proof of tests goes over all that they link, and begins
//! once that is proved. `calls` carries commands out; `test_pools` makes their pools, and draws and checks their
//! scripts.
#![tactic(auto)]

#[cfg(test)]
mod attach_call_tests;
#[cfg(test)]
mod beside_tests;
#[cfg(test)]
mod calls;
#[cfg(test)]
mod copy_call_tests;
#[cfg(test)]
mod copy_stop_tests;
#[cfg(test)]
mod create_tests;
#[cfg(test)]
mod drawn_order_tests;
#[cfg(test)]
mod failing_tests;
#[cfg(test)]
mod files_tests;
#[cfg(test)]
mod gate_tests;
#[cfg(test)]
mod hold_tests;
#[cfg(test)]
mod lost_block_tests;
#[cfg(test)]
mod replay_stop_tests;
#[cfg(test)]
mod replay_tests;
#[cfg(test)]
mod run_tests;
#[cfg(test)]
mod status_tests;
#[cfg(test)]
mod stop_tests;
#[cfg(test)]
mod whole_way_tests;
