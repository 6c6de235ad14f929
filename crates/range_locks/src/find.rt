// Searches in a list of holds.
ghost use Rattle.std.specs.Prelude.{◌≡◌, ◌↔◌, ◌++◌, ℕ, List, IsTrue};
ghost use Rattle.range_locks.specs.declared.hold.Hold.{Hold as HoldOf};
ghost use Rattle.range_locks.specs.declared.hold.HoldKind.{HoldKind as HoldKindOf};
ghost use Rattle.range_locks.specs.Holds.{IsFirst, IsFirstSharedFrom, Straddles};
ghost use Rattle.range_locks.specs.Search.{IsEarlier, lesser_of};

use crate::{Hold, HoldKind};

/// The first hold in the way of one of this kind and range, by start and then by actor.
pub fn blocker(holds: &[Hold], lo: u64, hi: u64, kind: HoldKind) -> Option<Hold>
    ensures { IsFirst holds.now lo hi kind result }
{
    let mut first = None;
    for hold in holds {
        if hold.blocks(lo, hi, kind) {
            first = Some(earlier(first, *hold));
        }
    }
    first
}

fn earlier(first: Option<Hold>, hold: Hold) -> Hold
    ensures { IsEarlier first hold result }
{
    match first {
        Some(first) if first.precedes(&hold) => first,
        _ => hold,
    }
}

/// Of the first holds in the way in two lists, that of both.
pub fn first_of(one: Option<Hold>, other: Option<Hold>) -> Option<Hold>
    ensures { (holds others : List HoldOf) (lo hi : ℕ) (kind : HoldKindOf) → IsFirst holds lo hi kind one
        → IsFirst others lo hi kind other → IsFirst (holds ++ others) lo hi kind result }
{
    match other {
        Some(hold) => Some(earlier(one, hold)),
        None => one,
    }
}

/// The lowest start of a shared hold at or above a sector.
pub fn first_shared_from(holds: &[Hold], from: u64) -> Option<u64>
    ensures { IsFirstSharedFrom holds.now from result }
{
    let mut first = None;
    for hold in holds {
        if hold.is_shared_from(from) {
            first = Some(lesser(first, hold.lo));
        }
    }
    first
}

fn lesser(first: Option<u64>, sector: u64) -> u64
    ensures { result ≡ lesser_of first sector }
{
    match first {
        Some(first) => first.min(sector),
        None => sector,
    }
}

pub fn straddles(holds: &[Hold], sector: u64) -> bool
    ensures { IsTrue result ↔ Straddles holds.now sector }
{
    holds.iter().any(|hold| hold.kind == HoldKind::Shared && hold.lo < sector && sector < hold.hi)
}
