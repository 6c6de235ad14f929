// What a seat knows. No value of these types is made: they stand in contracts.
use std::marker::Model;

/// Things, one after the other.
#[derive(Drop)]
pub struct Listed<T: Drop> {
    items: Vec<T>,
}

impl<T: Drop> Model for Listed<T> {
    ghost use Rattle.std.specs.Prelude.{List};

    ghost Value = { List T };

    ghost view = { λ l. l.items.items };
}

/// An entry of the history, and the name of the seat whose turn it was.
#[derive(Drop)]
pub struct Event<E: Drop> {
    pub by: Listed<u64>,
    pub entry: E,
}

/// A seat by its name: how many seats were split from it, the history as it saw it, and its own entries.
#[derive(Drop)]
pub struct Member<E: Drop> {
    pub name: Listed<u64>,
    pub made: u64,
    pub seen: Listed<Event<E>>,
    pub own: Listed<E>,
}

/// A seat, then the seats that were joined into it; whether it holds the turn, and whether it has ended all turns.
#[derive(Drop)]
pub struct View<E: Drop> {
    pub members: Listed<Member<E>>,
    pub holds: bool,
    pub ended: bool,
}
