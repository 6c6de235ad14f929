//! Which command the words are.
//!
//! `clap` reads them as one command with a subcommand each. Read `specs/Grammar.antt` for the grammar, `specs/Served.antt`
//! for which command words are, and then `read_command`. Stands on `clap`, and on `itoa` for the spelling of numbers.
#![tactic(auto)]

mod command;
mod grammar;
mod help;
mod numbers;
mod reading;

pub use command::{NewPool, NoCommand, ServedCommand};
pub use numbers::number;
pub use reading::read_command;
