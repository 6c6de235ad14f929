// The holds of all actors.
ghost use Rattle.std.specs.Prelude.{◌≡◌, ◌+◌, ◌<◌, ◌≤◌, ◌++◌, [], ◌↔◌, Contains, IfOk, IfErr, OnErr, IsTrue, All};
ghost use Rattle.std.specs.Prelude.{AllPairs, length};
ghost use Rattle.range_locks.specs.Gaining.{Gains};
ghost use Rattle.range_locks.specs.Holds.{AreExclusive, HasSectors, IsClear, IsFirst, IsFirstSharedFrom, Straddles};
ghost use Rattle.range_locks.specs.Holds.{EndsHold, IsLockCause};
ghost use Rattle.range_locks.specs.Order.{EndsBefore, IsInOrder, TakesDigitsOfBoth};

use crate::bound::Bound;
use crate::{Hold, HoldKind, LockRefused, Steps, edit, find, place};
use std::alloc::Global;
use std::marker::Model;
use std::sync::ledger::Ledger;

/// The holds of all actors: the shared ones by start and then by actor, and the exclusive ones by start.
#[derive(Drop, Debug)]
pub struct Locks {
    shared: Vec<Hold>,
    exclusive: Vec<Hold>,
}

impl Model for Locks {
    ghost use Rattle.std.specs.Prelude.{List, ◌++◌};
    ghost use Rattle.range_locks.specs.declared.hold.Hold.{Hold};
    ghost use Rattle.range_locks.specs.Order.{AreInOrder};

    ghost Value = { List Hold };

    ghost view = { λ locks. locks.shared.items ++ locks.exclusive.items };

    ghost invariant = { λ locks. AreInOrder locks.shared.items locks.exclusive.items };
}

impl Locks {
    pub fn new(alloc: Global) -> Locks
        ensures value { result ≡ [] }
    {
        Locks {
            shared: Vec::new(alloc),
            exclusive: Vec::new(alloc),
        }
    }

    /// The shared holds, by start and then by actor, and the exclusive ones, by start.
    pub fn as_slices(&self) -> (&[Hold], &[Hold])
        ensures value { self.now ≡ result.0.now ++ result.1.now }
        ensures are_shared { All (λ hold. hold.kind ≡ HoldKind.Shared) result.0.now }
        ensures are_exclusive { All (λ hold. hold.kind ≡ HoldKind.Exclusive) result.1.now }
        ensures shared_order { AllPairs IsInOrder result.0.now }
        ensures exclusive_order { AllPairs EndsBefore result.1.now }
        ensures exclusive { AreExclusive self.now }
        ensures nonempty { All HasSectors self.now }
    {
        (&self.shared, &self.exclusive)
    }

    /// Holds a range beside other readers.
    pub fn try_shared<L: Ledger>(
        &mut self,
        lo: u64,
        hi: u64,
        actor: u8,
        steps: &mut Steps<L>,
    ) -> Result<Hold, LockRefused>
        requires range { lo < hi }
        ensures ok { IfOk result (Gains self.old self.new) }
        ensures hold { IfOk result (λ hold.
            hold ≡ record { lo = lo; hi = hi; actor = actor; kind = HoldKind.Shared }) }

        // Another actor has a hold in the way exactly where the call says so.
        ensures clear { IfOk result (λ _. IsClear self.old lo hi HoldKind.Shared) }
        ensures cause { IfErr result (IsLockCause self.old lo hi HoldKind.Shared) }
        ensures err { OnErr result (self.new ≡ self.old) }

        // Where the range stands among the exclusive holds and among the shared ones is found by halving.
        ensures steps { TakesDigitsOfBoth self.old steps.old steps.new }
    {
        let hold = Hold {
            lo,
            hi,
            actor,
            kind: HoldKind::Shared,
        };
        let (_, first) = place::place_apart(&self.exclusive, lo, hi, steps);
        if let Some(first) = first {
            return Err(LockRefused::Busy { by: first.actor });
        }
        let at = place::place(&self.shared, &Bound::Before(hold), steps);
        edit::put_in(&mut self.shared, at, hold)
    }

    /// Holds a range alone.
    pub fn try_exclusive<L: Ledger>(
        &mut self,
        lo: u64,
        hi: u64,
        actor: u8,
        steps: &mut Steps<L>,
    ) -> Result<Hold, LockRefused>
        requires range { lo < hi }
        ensures ok { IfOk result (Gains self.old self.new) }
        ensures hold { IfOk result (λ hold.
            hold ≡ record { lo = lo; hi = hi; actor = actor; kind = HoldKind.Exclusive }) }

        // Another actor has a hold in the way exactly where the call says so.
        ensures clear { IfOk result (λ _. IsClear self.old lo hi HoldKind.Exclusive) }
        ensures cause { IfErr result (IsLockCause self.old lo hi HoldKind.Exclusive) }
        ensures err { OnErr result (self.new ≡ self.old) }
        ensures steps { steps.new ≤ steps.old + length self.old + 1 }
    {
        let hold = Hold {
            lo,
            hi,
            actor,
            kind: HoldKind::Exclusive,
        };
        let (at, alone) = place::place_apart(&self.exclusive, lo, hi, steps);
        let shared = place::first_overlap(&self.shared, lo, hi, steps);
        if let Some(first) = find::first_of(shared, alone) {
            return Err(LockRefused::Busy { by: first.actor });
        }
        edit::put_in(&mut self.exclusive, at, hold)
    }

    /// Ends a hold that was granted here.
    pub fn end(&mut self, hold: Hold)
        requires listed { Contains self.old hold }
        ensures ends { EndsHold self.old self.new hold }
    {
        match hold.kind {
            HoldKind::Shared => edit::take_out(&mut self.shared, &hold),
            HoldKind::Exclusive => edit::take_out(&mut self.exclusive, &hold),
        }
    }

    /// The first hold in the way of one of this kind and range, by start and then by actor.
    pub fn blocker(&self, lo: u64, hi: u64, kind: HoldKind) -> Option<Hold>
        ensures value { IsFirst self.now lo hi kind result }
    {
        let shared = find::blocker(&self.shared, lo, hi, kind);
        find::first_of(shared, find::blocker(&self.exclusive, lo, hi, kind))
    }

    /// The lowest start of a shared hold at or above this sector.
    pub fn first_shared_from(&self, from: u64) -> Option<u64>
        ensures value { IsFirstSharedFrom self.now from result }
    {
        find::first_shared_from(&self.shared, from)
    }

    /// Whether a shared hold begins below this sector and ends above it.
    pub fn straddles(&self, sector: u64) -> bool
        ensures value { IsTrue result ↔ Straddles self.now sector }
    {
        find::straddles(&self.shared, sector)
    }
}
