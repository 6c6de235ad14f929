// The journal of a run.
ghost use Rattle.std.specs.Prelude.{◌≡◌, ◌==◌, ◌++◌, ◌+◌, ◌<◌, ◌≤◌, [], ◌∷◌, length, OnOk, OnErr};

use crate::answer::Answer;
use crate::bytes::Bytes;
use crate::item::{Entry, Item};
use std::alloc::{AllocError, Global};
use std::marker::Model;

/// So many gets are found again, by their blocks' ids modulo this.
const GETS: usize = 512;

/// What a run answered, in order: its groups and its calls. Contracts see, beside the items, for how
/// many more of them there is room.
///
/// A get that read what the last one of its block had read shares its bytes, so that they are kept once.
#[derive(Drop)]
pub struct Journal {
    items: Vec<Item>,
    room: usize,
    // Where the last get of a block is listed, or any other item.
    gets: Vec<usize>,
}

impl Model for Journal {
    ghost use Rattle.std.specs.Prelude.{◌-◌, ◌≤◌, vec_len};
    ghost use Rattle.std.specs.Vec.{vec_capacity};
    ghost use Rattle.core_state.specs.JournalRoom.{Journal as JournalOf};

    ghost Value = { JournalOf };

    ghost view = { λ j. record {
      items = j.items.items;
      room = j.room;
    } };

    ghost invariant = { λ j. j.room ≤ vec_capacity j.items - vec_len j.items };
}

impl Journal {
    pub fn new(alloc: Global) -> Journal
        ensures { result.items ≡ [] }
    {
        Journal {
            items: Vec::new(alloc),
            room: 0,
            gets: Vec::new(alloc),
        }
    }

    pub fn as_slice(&self) -> &[Item]
        ensures value { result.now ≡ self.now.items }
    {
        self.items.as_slice()
    }

    pub fn len(&self) -> usize
        ensures { result ≡ length self.now.items }
    {
        self.items.len()
    }

    pub fn is_empty(&self) -> bool
        ensures { result ≡ (length self.now.items == 0) }
    {
        self.items.is_empty()
    }

    /// Makes room for so many more items.
    pub fn reserve(&mut self, items: usize) -> Result<(), AllocError>
        ensures same { self.new.items ≡ self.old.items }
        ensures room { OnOk result (items ≤ self.new.room) }
    {
        self.items.reserve(items)?;
        self.gets.resize(GETS, 0)?;
        if self.room < items {
            self.room = items;
        }
        Ok(())
    }

    /// Makes room for so many items beside those that there is room for.
    pub fn reserve_more(&mut self, items: usize) -> Result<(), AllocError>
        ensures same { self.new.items ≡ self.old.items }
        ensures more { OnOk result (self.old.room + items ≤ self.new.room) }
        ensures kept { OnErr result (self.old.room ≤ self.new.room) }
    {
        let Some(room) = self.room.checked_add(items) else {
            return Err(AllocError);
        };
        self.items.reserve(room)?;
        self.room = room;
        Ok(())
    }

    /// Lists one more item, in room that was made. Takes no memory.
    pub fn list(&mut self, item: Item)
        requires room { 0 < self.old.room }
        ensures items { self.new.items ≡ self.old.items ++ item ∷ [] }
        ensures room { self.old.room ≤ self.new.room + 1 }
    {
        let mut item = item;
        if let Item::Call(entry) = &mut item {
            self.share(entry);
        }
        if self.items.push(item).is_err() {
            unreachable!()
        }
        self.room -= 1;
    }

    /// Where an entry that comes next answers a get, it has the bytes of the last one of its block, if they are the same.
    fn share(&mut self, entry: &mut Entry)
        ensures entry { entry.new ≡ entry.old }
        ensures journal { self.new ≡ self.old }
    {
        let Some(id) = entry.id else {
            return;
        };
        let slot = (id % GETS as u64) as usize;
        if slot >= self.gets.len() {
            return;
        }
        let next = self.len();
        if let Answer::Read { bytes } = &mut entry.answer {
            if let Some(before) = bytes_at(&self.items, self.gets[slot]) {
                bytes.share(before);
            }
            self.gets[slot] = next;
        }
    }
}

/// The bytes that a get was answered by which is listed here.
fn bytes_at(items: &[Item], at: usize) -> Option<&Bytes> {
    match items.get(at) {
        Some(Item::Call(entry)) => match &entry.answer {
            Answer::Read { bytes } => Some(bytes),
            _ => None,
        },
        _ => None,
    }
}
