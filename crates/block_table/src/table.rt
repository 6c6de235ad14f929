// The table of blocks.
ghost use Rattle.std.specs.Prelude.{◌≡◌, ◌≢◌, ◌↔◌, ◌<◌, ◌≤◌, ◌++◌, [], ◌∷◌, IfErr, IsErrOf, IsTrue, length};
ghost use Rattle.std.specs.Prelude.{MatchResult, nat_eq, None, OnErr, OnOk, Some, true};
ghost use Rattle.std.specs.Option.{option_copied};
ghost use Rattle.std.specs.Set.{is_member};
ghost use Rattle.block_record.specs.Page.{IsIndex, IsRightEntry};
ghost use Rattle.block_table.specs.declared.table.ReserveRefused.TheVariants.{NoMemory};
ghost use Rattle.block_table.specs.Table.{ChangesOnly, entry_of, ids_of, IsFull, IsTable, without_one};

use crate::{Ids, places, reserved};
use block_record::IndexEntry;
use std::alloc::{AllocError, AllocFailed, Global};
use std::marker::Model;

/// How many ids may be held and reserved.
pub const MAX_IDS: usize = 512;

/// Why an id was not reserved. `Full` where `MAX_IDS` other ids are held or reserved.
#[derive(Clone, Copy, Debug, PartialEq, Eq)]
pub enum ReserveRefused {
    Full,
    NoMemory,
}

/// The blocks by their ids, and the ids that puts under way have reserved.
#[derive(Drop)]
pub struct Table {
    entries: Vec<IndexEntry>,
    reserved: Vec<u64>,
}

impl Model for Table {
    ghost use Rattle.block_table.specs.Table.{Table as TableOf, IsTable, HasRoomForPuts};

    ghost Value = { TableOf };

    ghost view = { λ t. record { entries = t.entries.items; reserved = t.reserved.items } };

    ghost invariant = { λ t. HasRoomForPuts t.entries t.reserved
        × IsTable (record { entries = t.entries.items; reserved = t.reserved.items }) };
}

impl Table {
    pub fn new(alloc: Global) -> Table
        ensures value { result ≡ record { entries = []; reserved = [] } }
    {
        Table {
            entries: Vec::new(alloc),
            reserved: Vec::new(alloc),
        }
    }

    /// The entry with this id.
    pub fn get(&self, id: u64) -> Option<&IndexEntry>
        ensures value { option_copied result ≡ entry_of self.now.entries id }
    {
        places::find(&self.entries, id)
    }

    pub fn len(&self) -> usize
        ensures value { result ≡ length self.now.entries }
        ensures few { result ≤ MAX_IDS }
    {
        self.entries.len()
    }

    pub fn is_empty(&self) -> bool
        ensures value { IsTrue result ↔ (length self.now.entries ≡ 0) }
    {
        self.entries.is_empty()
    }

    /// All entries, in the order of their ids.
    pub fn entries(&self) -> &[IndexEntry]
        ensures value { result.now ≡ self.now.entries }
        ensures table { IsTable self.now }
    {
        &self.entries
    }

    /// The ids that are held, ascending.
    pub fn ids(&self) -> Ids<'_>
        ensures value { result ≡ ids_of self.now.entries }
    {
        Ids::of(&self.entries)
    }

    /// Reserves an id for a put, and the room for its entry. A put may reserve an id that is held,
    /// or that others have reserved.
    pub fn reserve_id(&mut self, id: u64) -> Result<(), ReserveRefused>
        ensures ok { OnOk result (self.new ≡ record self.old {
          reserved = self.old.reserved ++ id ∷ [];
        }) }
        ensures reserved { OnOk result (is_member nat_eq self.new.reserved id ≡ true) }

        // Whether there is room is known before any memory is asked for.
        ensures cause_full { IsErrOf result ReserveRefused.Full ↔ IsFull self.old id }
        ensures err { OnErr result (self.new ≡ self.old) }
    {
        if reserved::is_full(&self.entries, &self.reserved, id) {
            return Err(ReserveRefused::Full);
        }
        self.entries.reserve(self.reserved.len() + 1)?;
        self.reserved.push(id)?;
        Ok(())
    }

    /// Puts an entry whose id is reserved, in the room that was made, and ends that reservation.
    /// Gives what stood there.
    pub fn put(&mut self, entry: IndexEntry) -> Option<IndexEntry>
        requires reserved { is_member nat_eq self.old.reserved entry.id ≡ true }
        requires right { IsRightEntry entry }
        ensures was { result ≡ entry_of self.old.entries entry.id }
        ensures change { ChangesOnly self.old.entries self.new.entries entry.id (Some entry) }
        ensures reserved { self.new.reserved ≡ without_one entry.id self.old.reserved }
    {
        let was = places::put(&mut self.entries, entry);
        reserved::end_one(&mut self.reserved, entry.id);
        was
    }

    /// Ends one reservation of an id without a put.
    pub fn release_id(&mut self, id: u64)
        requires reserved { is_member nat_eq self.old.reserved id ≡ true }
        ensures value { self.new ≡ record self.old {
          reserved = without_one id self.old.reserved;
        } }
    {
        reserved::end_one(&mut self.reserved, id);
    }

    /// Takes an entry away, and gives it.
    pub fn remove(&mut self, id: u64) -> Option<IndexEntry>
        ensures was { result ≡ entry_of self.old.entries id }
        ensures change { ChangesOnly self.old.entries self.new.entries id None }
        ensures reserved { self.new.reserved ≡ self.old.reserved }
    {
        places::remove(&mut self.entries, id)
    }
}

impl From<AllocError> for ReserveRefused {
    ghost from_gives = { λ _ why. why ≡ NoMemory };

    fn from(_error: AllocError) -> ReserveRefused {
        ReserveRefused::NoMemory
    }
}

impl<T: Drop> From<AllocFailed<T>> for ReserveRefused {
    ghost from_gives = { λ _ why. why ≡ NoMemory };

    fn from(_error: AllocFailed<T>) -> ReserveRefused {
        ReserveRefused::NoMemory
    }
}
