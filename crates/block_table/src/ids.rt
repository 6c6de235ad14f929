// The ids of a table, one after the other.
ghost use Rattle.std.specs.Prelude.{◌≡◌};
ghost use Rattle.block_table.specs.Table.{ids_of};

use block_record::IndexEntry;
use std::marker::Model;

/// The ids that are left to give, in ascending order; contracts see them as a list.
#[derive(Drop)]
pub struct Ids<'a> {
    entries: &'a [IndexEntry],
}

impl<'a> Model for Ids<'a> {
    ghost use Rattle.std.specs.Prelude.{ℕ, List};
    ghost use Rattle.block_table.specs.Table.{ids_of};

    ghost Value = { List ℕ };

    ghost view = { λ ids. ids_of ids.entries.now };
}

impl<'a> Ids<'a> {
    pub(crate) fn of(entries: &'a [IndexEntry]) -> Ids<'a>
        ensures value { result ≡ ids_of entries.now }
    {
        Ids { entries }
    }
}

impl<'a> Iterator for Ids<'a> {
    type Item = u64;

    ghost use Rattle.std.specs.Iterator.{item_count, YieldsFirst};

    ghost next_gives = { YieldsFirst (λ ids. ids) };

    ghost remaining = { item_count (λ ids. ids) };

    fn next(&mut self) -> Option<u64> {
        let (first, others) = self.entries.split_first()?;
        self.entries = others;
        Some(first.id)
    }
}
