//! The text of a look at a pool.
//!
//! It tells what the chosen uberblock holds and which devices are out, in five lines. Read
//! `specs/StatusText.antt`, then `print_status`. Stands on `client_script` for writing a text to a
//! sink, on `uberblock_ring`, `width_map` and `reflow_mark` for what is told, and on `bank_trait`
//! for sinks.
#![tactic(auto)]

mod status_text;

pub use status_text::print_status;
