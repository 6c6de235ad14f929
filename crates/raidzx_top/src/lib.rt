//! The top call: what it answers, when, and what it keeps.
//!
//! Read `specs/Served.antt` of `command_words` for the commands, `specs/Causes.antt` for each status,
//! `specs/Promises.antt` for what a run and a replay keep, `specs/Order.antt` for the runs whose turns are taken in
//! order, `specs/StatusCall.antt` for what a status tells, `specs/Bearing.antt` for the failures that have to be borne,
//! and `specs/Reopened.antt` for what is read back of what a stop leaves.
#![tactic(auto)]

mod images;
mod looking;
mod making;
mod order;
mod outcome;
mod report;
mod running;
mod status;
mod top;

pub use images::{Images, MOST_SECTORS, image_words};
pub use outcome::Outcome;
pub use report::write_status;
pub use status::{Status, TOO_MANY_FAILED};
pub use top::raidzx;
