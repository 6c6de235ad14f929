// Carrying out `status`.
ghost use Rattle.raidzx_top.specs.Call.{stream_of};
ghost use Rattle.raidzx_top.specs.Looking.{EndsStatus};

use crate::report::refuse;
use crate::status::Status;
use bank_trait::{Bank, Sink};
use core_open::look;
use pool_status::print_status;
use std::alloc::Global;

/// Looks at the pool that the devices show, by reads alone, and writes what it tells.
pub fn tell_status<B: Bank, K: Sink>(alloc: Global, bank: &mut B, out: &mut K) -> Status
    ensures { EndsStatus (B.disk bank.old) (B.disk bank.new)
        (stream_of (K.held out.old) (K.faults out.old))
        (stream_of (K.held out.new) (K.faults out.new)) result }
{
    match look(alloc, bank) {
        Ok(seen) => match print_status(&seen.uber, seen.out, out) {
            Ok(()) => Status::Done,
            Err(_) => Status::SinkFault,
        },
        Err(why) => refuse(out, Status::from(why)),
    }
}
