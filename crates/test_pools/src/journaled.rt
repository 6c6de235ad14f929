// A journal beside what it is checked against, and what is looked up in it, each time anew from the first item on.
use crate::plans::{IDS, PlannedCall};
use core_state::{Answer, Group, Item};
use std::alloc::{AllocError, Global};

/// The bytes that an id has.
#[derive(Drop)]
pub struct Held {
    pub id: u64,
    pub bytes: Vec<u8>,
}

/// A journal, and what it is checked against: the opening's group, what was stored then, and the calls that the clients
/// make.
#[derive(Drop)]
pub struct Journaled<'a> {
    pub opening_group: Group,
    pub opening: &'a [Held],
    pub calls: &'a [PlannedCall],
    pub items: &'a [Item],
}

/// What is wrong with an item, or with all of them.
#[derive(Clone, Copy, Debug, PartialEq, Eq)]
pub enum Wrong {
    /// The first item is not the opening's group.
    Opening,
    /// A group doesn't follow the one before it, or has other widths, is no attach's and ends no expansion.
    Group,
    /// A group that the answer behind it doesn't tell of, and no client copies.
    Lone,
    /// No client makes such a call, or not after the call that it was answered last.
    Call,
    /// A call is not answered.
    Unanswered,
    /// An answer is for another kind of call, or tells of something that was lacking.
    Answer,
    /// A read answers no map that it may.
    Read,
    /// A free doesn't tell what was there.
    Free,
    /// A sync doesn't name the group listed just before it, or that one was begun too early.
    Sync,
    /// An attach doesn't name the group listed just before it, that one was begun too early, or it didn't widen the
    /// pool to that width.
    Attach,
    /// An attach tells of an expansion, and the last group before it has none to that width.
    Expanding,
    /// A copy has ended, and the pool hasn't this width or expands.
    Completed,
    /// A copy is paused, and the pool expands no more.
    Paused,
}

/// What an id has at the opening.
fn held_at_first(opening: &[Held], id: u64) -> Option<&[u8]> {
    for held in opening {
        if held.id == id {
            return Some(held.bytes.as_slice());
        }
    }
    None
}

/// The call of a caller that has this number.
pub(crate) fn call_of(calls: &[PlannedCall], caller: u8, number: u64) -> Option<&PlannedCall> {
    for call in calls {
        if call.caller == caller && call.number == number {
            return Some(call);
        }
    }
    None
}

impl<'a> Journaled<'a> {
    /// What an id has after so many items.
    pub(crate) fn block_after(&self, count: u64, id: u64) -> Option<&'a [u8]> {
        let mut block = held_at_first(self.opening, id);
        for (index, item) in self.items.iter().enumerate() {
            if index as u64 >= count {
                break;
            }
            let Item::Call(entry) = item else {
                continue;
            };
            if entry.id != Some(id) {
                continue;
            }
            match entry.answer {
                Answer::Stored => {
                    block = call_of(self.calls, entry.caller, entry.call).map(|call| call
                        .bytes
                        .as_slice());
                }
                Answer::Freed => block = None,
                _ => {}
            }
        }
        block
    }

    /// The group last listed before this index.
    pub(crate) fn group_before(&self, index: usize) -> Option<Group> {
        let mut last = None;
        for (place, item) in self.items.iter().enumerate() {
            if let Item::Group(group) = item
                && place < index
            {
                last = Some(*group);
            }
        }
        last
    }

    /// The group that is listed last.
    pub fn last_group(&self) -> Option<Group> {
        self.group_before(self.items.len())
    }

    /// The index and the number of the caller's last call that is answered before this index, 0 and 0 where there is
    /// none.
    pub(crate) fn previous_of(&self, caller: u8, index: usize) -> (usize, u64) {
        let mut previous = (0, 0);
        for (place, item) in self.items.iter().enumerate() {
            if let Item::Call(entry) = item
                && place < index
                && entry.caller == caller
            {
                previous = (place, entry.call);
            }
        }
        previous
    }

    /// Whether a call is answered.
    pub(crate) fn is_answered(&self, call: &PlannedCall) -> bool {
        for item in self.items {
            if let Item::Call(entry) = item
                && entry.caller == call.caller
                && entry.call == call.number
            {
                return true;
            }
        }
        false
    }

    /// What the ids of plans have after so many items.
    pub fn held_after(&self, alloc: Global, count: u64) -> Result<Vec<Held>, AllocError> {
        let mut all = Vec::new(alloc);
        for id in 0..IDS {
            if let Some(block) = self.block_after(count, id) {
                let bytes = Vec::from_slice(alloc, block)?;
                all.push(Held { id, bytes })?;
            }
        }
        Ok(all)
    }
}
