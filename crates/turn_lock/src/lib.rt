//! The lock by which threads take turns on one state, which stands for one history of all their turns.
//!
//! `Turns` is the lock, `Seat` a thread's place at it; `Represents` says which lists of entries a state stands for. The
//! lock stands on the kit's `atomic_table`: one word, twice the number of events and odd while a seat has the turn,
//! and one slot, where the state is at home. The rule is `Rule` of `specs/Turn.antt`; what callers see of a seat is
//! `Sitting` of `specs/Seats.antt`.
#![tactic(auto)]

mod rule;
mod seat;
mod step;
#[cfg(test)]
mod tests;
mod turns;
mod view;

pub use rule::{Law, Represents};
pub use seat::{Held, NewRefused, Seat};
pub use step::Spent;
pub use turns::Turns;
pub use view::{Event, Listed, Member, View};
