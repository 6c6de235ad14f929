//! The script that clients follow, and the text of a journal.
//!
//! A script's grammar is the text that its calls are spelled as, so a line has one meaning at most,
//! and a script one answer. Read `specs/Lines.antt` for a line, `specs/Script.antt` for a whole
//! script and its refusals, `specs/Texts.antt` for what is printed and `specs/Written.antt` for how
//! it reaches a sink; `specs/FromSource.antt` is for scripts from a source, `specs/InOrder.antt` for
//! calls one after the other, `specs/Copier.antt` for a client that widens the pool. Stands on `core_state` for calls
//! and answers, on `bank_trait` for sources and sinks.
#![tactic(auto)]

mod call;
mod call_fault;
mod copier;
mod cut;
mod hex;
mod hex_lanes;
mod in_order;
mod journal_text;
mod line_fault;
mod meaning;
mod number;
mod output;
mod reading;
mod refused;
mod script;
mod source;
mod text_writer;
mod words;

pub use call::{Fill, ScriptCall};
pub use call_fault::CallFault;
pub use copier::{COPIER, add_copier};
pub use in_order::{CallsInOrder, NumberedCall};
pub use journal_text::{print_journal, write_journal};
pub use line_fault::LineFault;
pub use output::write_all;
pub use reading::parse;
pub use refused::{ParseRefused, ReadRefused};
pub use script::Script;
pub use source::read_script;
pub use text_writer::TextWriter;
