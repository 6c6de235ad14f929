//! Parity of a row, in the field of 256 elements.
//!
//! A byte is a polynomial over bits. Sums and products are taken modulo x^8+x^4+x^3+x^2+1, and
//! each parity is a sum of the row's bytes times powers of 1, 2 or 4. Read `specs/Field.antt`, then
//! `specs/Parity.antt`. The sums are made by lanes; `plain` is the same program byte by byte. Stands on
//! no other crate.
#![tactic(auto)]

mod columns;
mod field;
pub mod lanes;
pub mod plain;

pub use columns::{add, parity, parity_p, parity_q, parity_r};
pub use field::{mul, mul2};
