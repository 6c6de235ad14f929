//! Which content and which parity stand in each column of a block's rows.
//!
//! A block fills its columns from the top down, parity columns first, and its rows go round the
//! devices at the width that it was born with. Read `specs/Layout.antt`. Stands on no other crate.
#![tactic(auto)]

mod column;
mod layout;

pub use column::{Column, Holder, Part};
pub use layout::Layout;
