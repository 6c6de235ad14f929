// Places in lists of holds that are in order, found by halving. Looking at one hold is one step.
ghost use Rattle.std.specs.Prelude.{◌≡◌, ◌+◌, ◌<◌, ◌≤◌, All, AllPairs, length};
ghost use Rattle.range_locks.specs.Holds.{HasSectors, IsFirst};
ghost use Rattle.range_locks.specs.Order.{EndsBefore, IsInOrder, IsPassedFirst, IsPlace, TakesDigits};

use crate::bound::Bound;
use crate::{Hold, HoldKind, Steps};
use std::sync::ledger::{Blank, Ledger};

/// How many holds the bound passes over.
pub fn place<L: Ledger>(holds: &[Hold], bound: &Bound, steps: &mut Steps<L>) -> usize
    requires order { AllPairs (IsPassedFirst bound.now) holds.now }
    ensures place { IsPlace holds.now bound.now result }
    ensures steps { TakesDigits (length holds.now) steps.old steps.new }
{
    let mut low = 0;
    let mut high = holds.len();
    while low < high {
        let middle = low + (high - low) / 2;
        steps.tick();
        if bound.passes(&holds[middle]) {
            low = middle + 1;
        } else {
            high = middle;
        }
    }
    low
}

/// Where a range stands among holds that don't overlap one another, and the first of them that it overlaps.
pub fn place_apart<L: Ledger>(
    holds: &[Hold],
    lo: u64,
    hi: u64,
    steps: &mut Steps<L>,
) -> (usize, Option<Hold>)
    requires range { lo < hi }
    requires nonempty { All HasSectors holds.now }
    requires order { AllPairs EndsBefore holds.now }
    ensures place { IsPlace holds.now (Bound.EndedBy lo) result.0 }
    ensures first { IsFirst holds.now lo hi HoldKind.Exclusive result.1 }
    ensures steps { TakesDigits (length holds.now) (steps.old + 1) steps.new }
{
    let at = place(holds, &Bound::EndedBy(lo), steps);
    if at == holds.len() {
        return (at, None);
    }
    steps.tick();
    let behind = holds[at];
    if behind.lo < hi {
        (at, Some(behind))
    } else {
        (at, None)
    }
}

/// The first hold that overlaps a range, by start and then by actor.
pub fn first_overlap<L: Ledger>(
    holds: &[Hold],
    lo: u64,
    hi: u64,
    steps: &mut Steps<L>,
) -> Option<Hold>
    requires order { AllPairs IsInOrder holds.now }
    ensures first { IsFirst holds.now lo hi HoldKind.Exclusive result }
    ensures steps { steps.new ≤ steps.old + length holds.now }
{
    for hold in holds {
        steps.tick();
        if hold.blocks(lo, hi, HoldKind::Exclusive) {
            return Some(*hold);
        }
    }
    None
}

/// How many holds come before this one, in steps that nobody counts.
pub fn position<L: Ledger>(holds: &[Hold], hold: &Hold, blank: Blank) -> usize
    requires name { blank.name ≡ L.name }
    requires parts { blank.parts ≡ L.parts }
    requires some { 0 < blank.parts }
    requires order { AllPairs IsInOrder holds.now }
    ensures { IsPlace holds.now (Bound.Before hold.now) result }
{
    let mut steps = Steps::<L>::new(blank);
    place(holds, &Bound::Before(*hold), &mut steps)
}
