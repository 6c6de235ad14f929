//! A block's rows from its bytes, and its bytes back from what is left of the rows.
//!
//! All columns of a block stand in one piece of memory, row after row, the missing ones zero. What
//! each one holds is told by `specs/Columns.antt`: read it first, then `specs/Rows.antt`. Where
//! bytes don't have the block's digest, pairs of a width and a device are suspected in a fixed
//! order: read `specs/Suspects.antt`, then `specs/Solved.antt`. Stands on `gf_parity`, `gf_solve`,
//! `row_layout` and `width_map`.
#![tactic(auto)]

mod checking;
mod choosing;
mod decoding;
mod encoding;
mod masking;
mod pair;
mod reading;
mod refusal;
mod rows;
mod sectors;
mod suspecting;

pub use checking::decode_matching;
pub use choosing::{decode_checked, decode_suspecting};
pub use decoding::{decode, first_too_few};
pub use encoding::encode;
pub use pair::Pair;
pub use reading::content;
pub use refusal::{CheckRefused, DecodeRefused};
pub use rows::Rows;
pub use suspecting::suspects;
