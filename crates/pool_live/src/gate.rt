// The gate between the turns of a run.

use crate::batch::{Batch, Next};
use bank_trait::{Gate, Point};
use std::sync::Wait;

/// The gate of a run that nobody holds up.
#[derive(Clone, Copy, Debug, PartialEq, Eq)]
pub struct OpenGate;

impl Gate for OpenGate {
    fn pass<R: Wait>(&self, _rt: &R, _actor: u8, _point: Point) {}
}

/// Passes the gate behind a batch: once for each call that was answered in it, and once where turns of its client
/// follow.
pub fn pass_behind<R: Wait, G: Gate>(rt: &R, gate: &G, actor: u8, batch: &Batch) {
    for _answered in 0..batch.answered {
        gate.pass(rt, actor, Point::CallDone);
    }
    match batch.next {
        Next::Ended => {}
        Next::GoesOn(_) | Next::Waits => gate.pass(rt, actor, Point::Turn),
    }
}
