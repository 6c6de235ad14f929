// Taking with steps that nobody counts.
ghost use Rattle.std.specs.Prelude.{◌≡◌, ◌<◌, ◌≤◌, Contains, IfOk, IfErr, OnErr};
ghost use Rattle.space_alloc.specs.Space.{IsFirstFit, IsTaking, IsTakeCause};

use crate::{Space, TakeRefused};
use range_locks::{Locks, Steps};
use std::marker::Brand;
use std::sync::ledger::{Blank, Ledger};

impl Space {
    /// Takes the lowest run of `len` free sectors that no exclusive hold overlaps, as `take` with a counter of
    /// its own.
    pub fn take_lowest(&mut self, len: u64, locks: &Locks) -> Result<u64, TakeRefused>
        requires len { 1 ≤ len }
        ensures ok { IfOk result (IsFirstFit self.old locks.now len) }
        ensures taken { IfOk result (λ start. IsTaking self.old self.new start len) }
        ensures listed { IfOk result (λ start.
            Contains self.new.taken (record { start = start; len = len })) }
        ensures cause { IfErr result (IsTakeCause self.old locks.now len) }
        ensures err { OnErr result (self.new ≡ self.old) }
    {
        self.take_by::<Brand>(len, locks, Blank::new(1))
    }

    fn take_by<L: Ledger>(
        &mut self,
        len: u64,
        locks: &Locks,
        blank: Blank,
    ) -> Result<u64, TakeRefused>
        requires len { 1 ≤ len }
        requires name { blank.name ≡ L.name }
        requires parts { blank.parts ≡ L.parts }
        requires some { 0 < blank.parts }
        ensures ok { IfOk result (IsFirstFit self.old locks.now len) }
        ensures taken { IfOk result (λ start. IsTaking self.old self.new start len) }
        ensures listed { IfOk result (λ start.
            Contains self.new.taken (record { start = start; len = len })) }
        ensures cause { IfErr result (IsTakeCause self.old locks.now len) }
        ensures err { OnErr result (self.new ≡ self.old) }
    {
        let mut steps = Steps::<L>::new(blank);
        self.take(len, locks, &mut steps)
    }
}
