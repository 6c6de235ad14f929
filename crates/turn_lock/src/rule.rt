// The rule of the table.
ghost use Rattle.std.specs.Prelude.{ℕ, List, Option};

use crate::view::View;
use atomic_table::{Join, Play, Split, TableRule};
use std::marker::{Brand, PhantomData};

/// Says which lists of entries, after a base, a state represents.
pub trait Represents<K, E> {
    ghost represents: { K → List E → Self → Type 0 };
}

/// What holds of the table between any two steps: `Rule` of `specs/Turn.antt`.
pub struct Law<S, K, E> {
    of: PhantomData<(S, K, E)>,
}

impl<K, E: Drop, S: Represents<K, E>> TableRule<Option<S>, View<E>, K> for Law<S, K, E> {
    ghost use Rattle.turn_lock.specs.Turn.{Rule, StandsFor, alone};

    ghost holds = { λ base s. Rule (StandsFor S.represents base) s };

    ghost first = { λ base. alone };
}

/// The base of a lock. The call that steps picks it.
pub trait Based<K> {
    ghost base: { Option K };
}

impl<K> Based<K> for Brand {
    ghost use Rattle.std.specs.Prelude.{None};

    ghost base = { None };
}

/// A step that takes the turn.
pub struct Takes<S, K, E, J> {
    of: PhantomData<(S, K, E, J)>,
}

impl<K, E: Drop, S: Represents<K, E>, J: Based<K>> Play<Option<S>, View<E>> for Takes<S, K, E, J> {
    ghost use Rattle.turn_lock.specs.Turn.{Acquires, StandsIf};

    ghost then = { λ step me found after. Acquires (StandsIf S.represents J.base) me step.first found after };
}

/// A step that looks how long the history is.
pub struct Looks;

impl<T, E: Drop> Play<T, View<E>> for Looks {
    ghost use Rattle.turn_lock.specs.Turn.{Observes};

    ghost then = { λ step me found after. Observes me found after };
}

/// The entry that a turn tells. The call that ends the turn picks it.
pub trait Told<E> {
    ghost entry: { Option E };
}

impl<E> Told<E> for Brand {
    ghost use Rattle.std.specs.Prelude.{None};

    ghost entry = { None };
}

/// A step that ends the turn.
pub struct Gives<E, J> {
    of: PhantomData<(E, J)>,
}

impl<T, E: Drop, J: Told<E>> Play<T, View<E>> for Gives<E, J> {
    ghost use Rattle.turn_lock.specs.Turn.{Releases};

    ghost then = { λ step me found after. Releases J.entry me after };
}

/// A step that ends all turns.
pub struct Ends;

impl<T, E: Drop> Play<T, View<E>> for Ends {
    ghost use Rattle.turn_lock.specs.Turn.{Closes};

    ghost then = { λ step me found after. Closes me after };
}

/// How a seat is split from another.
pub struct Parts;

impl<E: Drop> Split<View<E>> for Parts {
    ghost use Rattle.turn_lock.specs.Turn.{kept_at_split, made_at_split};

    ghost left = { kept_at_split };

    ghost right = { made_at_split };
}

/// How a seat is joined into another.
pub struct Both;

impl<E: Drop> Join<View<E>> for Both {
    ghost use Rattle.turn_lock.specs.Turn.{joined, spent};

    ghost both = { joined };

    ghost spent = { spent };
}
