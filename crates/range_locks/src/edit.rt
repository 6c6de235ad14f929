// Lists of holds, with one put in or taken out.
ghost use Rattle.std.specs.Prelude.{◌≡◌, ◌≤◌, ◌++◌, ◌∷◌, All, AllPairs, Contains, IfOk, IfErr, OnErr, OnOk, length};
ghost use Rattle.std.specs.Prelude.{take, drop};
ghost use Rattle.range_locks.specs.Holds.{EndsHold};
ghost use Rattle.range_locks.specs.Order.{IsInOrder};

use crate::{Hold, LockRefused, place};
use std::marker::Brand;
use std::sync::ledger::Blank;

/// Puts a hold in at its place.
pub fn put_in(holds: &mut Vec<Hold>, at: usize, hold: Hold) -> Result<Hold, LockRefused>
    requires within { at ≤ length holds.old.items }
    ensures ok { IfOk result (λ held. held ≡ hold) }
    ensures items { OnOk result (holds.new.items ≡ take at holds.old.items ++ hold ∷ drop at holds.old.items) }
    ensures cause { IfErr result (λ why. why ≡ LockRefused.NoMemory) }
    ensures err { OnErr result (holds.new.items ≡ holds.old.items) }
{
    if holds.insert(at, hold).is_err() {
        return Err(LockRefused::NoMemory);
    }
    Ok(hold)
}

/// Takes a hold that is listed out of its place.
pub fn take_out(holds: &mut Vec<Hold>, hold: &Hold)
    requires listed { Contains holds.old.items hold.now }
    requires kind { All (λ other. other.kind ≡ hold.now.kind) holds.old.items }
    requires order { AllPairs IsInOrder holds.old.items }
    ensures ends { EndsHold holds.old.items holds.new.items hold.now }
{
    let at = place::position::<Brand>(holds, hold, Blank::new(1));
    holds.remove(at);
}
