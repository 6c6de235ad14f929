// Grants whose steps nobody counts.
ghost use Rattle.std.specs.Prelude.{◌≡◌, ◌<◌, IfOk, IfErr, OnErr};
ghost use Rattle.range_locks.specs.declared.hold.HoldKind.{HoldKind};
ghost use Rattle.range_locks.specs.Gaining.{Gains};
ghost use Rattle.range_locks.specs.Holds.{IsClear, IsLockCause};

use crate::{Hold, LockRefused, Locks, Steps};
use std::marker::Brand;
use std::sync::ledger::{Blank, Ledger};

impl Locks {
    /// Holds a range beside other readers, as `try_shared` with a counter of its own.
    pub fn hold_shared(&mut self, lo: u64, hi: u64, actor: u8) -> Result<Hold, LockRefused>
        requires range { lo < hi }
        ensures ok { IfOk result (Gains self.old self.new) }
        ensures hold { IfOk result (λ hold.
            hold ≡ record { lo = lo; hi = hi; actor = actor; kind = HoldKind.Shared }) }
        ensures clear { IfOk result (λ _. IsClear self.old lo hi HoldKind.Shared) }
        ensures cause { IfErr result (IsLockCause self.old lo hi HoldKind.Shared) }
        ensures err { OnErr result (self.new ≡ self.old) }
    {
        self.share_by::<Brand>(lo, hi, actor, Blank::new(1))
    }

    /// Holds a range alone, as `try_exclusive` with a counter of its own.
    pub fn hold_exclusive(&mut self, lo: u64, hi: u64, actor: u8) -> Result<Hold, LockRefused>
        requires range { lo < hi }
        ensures ok { IfOk result (Gains self.old self.new) }
        ensures hold { IfOk result (λ hold.
            hold ≡ record { lo = lo; hi = hi; actor = actor; kind = HoldKind.Exclusive }) }
        ensures clear { IfOk result (λ _. IsClear self.old lo hi HoldKind.Exclusive) }
        ensures cause { IfErr result (IsLockCause self.old lo hi HoldKind.Exclusive) }
        ensures err { OnErr result (self.new ≡ self.old) }
    {
        self.exclude_by::<Brand>(lo, hi, actor, Blank::new(1))
    }

    fn share_by<L: Ledger>(
        &mut self,
        lo: u64,
        hi: u64,
        actor: u8,
        blank: Blank,
    ) -> Result<Hold, LockRefused>
        requires range { lo < hi }
        requires name { blank.name ≡ L.name }
        requires parts { blank.parts ≡ L.parts }
        requires some { 0 < blank.parts }
        ensures ok { IfOk result (Gains self.old self.new) }
        ensures hold { IfOk result (λ hold.
            hold ≡ record { lo = lo; hi = hi; actor = actor; kind = HoldKind.Shared }) }
        ensures clear { IfOk result (λ _. IsClear self.old lo hi HoldKind.Shared) }
        ensures cause { IfErr result (IsLockCause self.old lo hi HoldKind.Shared) }
        ensures err { OnErr result (self.new ≡ self.old) }
    {
        let mut steps = Steps::<L>::new(blank);
        self.try_shared(lo, hi, actor, &mut steps)
    }

    fn exclude_by<L: Ledger>(
        &mut self,
        lo: u64,
        hi: u64,
        actor: u8,
        blank: Blank,
    ) -> Result<Hold, LockRefused>
        requires range { lo < hi }
        requires name { blank.name ≡ L.name }
        requires parts { blank.parts ≡ L.parts }
        requires some { 0 < blank.parts }
        ensures ok { IfOk result (Gains self.old self.new) }
        ensures hold { IfOk result (λ hold.
            hold ≡ record { lo = lo; hi = hi; actor = actor; kind = HoldKind.Exclusive }) }
        ensures clear { IfOk result (λ _. IsClear self.old lo hi HoldKind.Exclusive) }
        ensures cause { IfErr result (IsLockCause self.old lo hi HoldKind.Exclusive) }
        ensures err { OnErr result (self.new ≡ self.old) }
    {
        let mut steps = Steps::<L>::new(blank);
        self.try_exclusive(lo, hi, actor, &mut steps)
    }
}
