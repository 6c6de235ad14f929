// Whether the syncs of a bank take long.

use std::sync::atomic::{AtomicU64, Ordering};
use std::time::{Clock, Instant};

/// A sync that takes so many microseconds is a long one. A thread costs some ten, and files in memory and disks that
/// keep what they are given in their own memory sync far faster.
const LONG_MICROSECONDS: u128 = 1_000;

/// So many syncs, one behind the other, have to be long ones before a bank counts as slow: a single one may be long
/// because the machine was busy.
const ENOUGH_LONG_SYNCS: u64 = 4;

/// How long the last syncs of a bank took, of all its images.
#[derive(Drop)]
pub struct Pace {
    /// So many of the last syncs that were measured were long ones, back to the last one that was not.
    long_syncs: AtomicU64,
}

impl Pace {
    /// Of a bank of which no sync was measured: it is not slow.
    pub fn new() -> Pace {
        Pace {
            long_syncs: AtomicU64::new(0),
        }
    }

    pub fn is_slow(&self) -> bool {
        self.long_syncs.load(Ordering::SeqCst) >= ENOUGH_LONG_SYNCS
    }

    /// Notes a sync that was made from this moment on up to now. One that could not be measured is none of the long
    /// ones.
    pub fn note_since<C: Clock>(&self, clock: &C, began: Option<Instant>) {
        let count = if took_long(clock, began) {
            self.long_syncs.load(Ordering::SeqCst).saturating_add(1)
        } else {
            0
        };
        self.long_syncs.store(count, Ordering::SeqCst);
    }
}

fn took_long<C: Clock>(clock: &C, began: Option<Instant>) -> bool {
    let Some(began) = began else {
        return false;
    };
    match began.elapsed(clock) {
        Ok(took) => took.as_micros() >= LONG_MICROSECONDS,
        Err(_) => false,
    }
}
