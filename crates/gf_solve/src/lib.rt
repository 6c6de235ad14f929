//! The lost columns of a row, solved from those that are there.
//!
//! A content column's weight in the parities is a power of its point, 2 to the number of columns
//! behind it. What the parities lack once the columns that are there are taken off is a sum of such
//! multiples of the lost columns, and points differ, so each can be singled out. Read
//! `specs/Row.antt`. Columns are multiplied by lanes; `plain` is the same program byte by byte. Stands
//! on `gf_parity`.
#![tactic(auto)]

mod columns;
mod field;
mod filling;
mod gaps;
mod looking;
pub mod plain;
mod products;
mod singling;
mod solving;

pub use looking::lost_among;
pub use solving::solve;
