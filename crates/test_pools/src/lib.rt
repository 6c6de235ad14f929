//! What the tests of pools have in common: new pools on banks in memory, scripts that are carried out on them or drawn
//! from a number, and a plain, slow checker of journals.
//!
//! It stands on `schedule` and knows nothing of the top call, so that tests which want neither it nor its threads are
//! proved without them. Tests alone stand on it, and nothing of it is promised: no program has any of it.
#![tactic(auto)]

pub mod banks;
mod group_check;
pub mod journaled;
mod legal_check;
pub mod plan_check;
pub mod plans;
pub mod runs;
