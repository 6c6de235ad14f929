// Where a run of threads may be held up between turns.

use std::sync::Wait;

/// Between two turns of a call, or at its end.
#[derive(Clone, Copy, Debug, PartialEq, Eq)]
pub enum Point {
    Turn,
    CallDone,
}

/// Is passed between turns and at the end of each call; one that waits makes its caller wait. It
/// promises nothing, and no clause speaks of it.
pub trait Gate {
    /// `actor` is the caller's number.
    fn pass<R: Wait>(&self, rt: &R, actor: u8, point: Point);
}
