// What a group of a journal has to be.
use crate::journaled::{Journaled, Wrong};
use core_state::{Answer, Group, Item, Kind};

/// Whether a group turns a pool at rest, as the group before it has it, into one that expands to this width.
pub(crate) fn widens_to(before: &Group, group: &Group, width: u32) -> bool {
    before.from == before.to
        && group.from == before.to
        && group.to == width
        && group.from.wrapping_add(1) == width
}

/// Whether a group has a pool that expands to this width.
pub(crate) fn is_expanding_to(group: &Group, width: u32) -> bool {
    group.to == width && group.from.wrapping_add(1) == width
}

/// Whether a group ends the expansion that the group before it has.
fn ends_expansion(before: &Group, group: &Group) -> bool {
    is_expanding_to(before, before.to) && group.from == before.to && group.to == before.to
}

impl Journaled<'_> {
    /// Whether the item behind the group at this index is an attach's answer that names it.
    fn is_of_attach(&self, index: usize, group: &Group) -> bool {
        let Some(Item::Call(entry)) = self.items.get(index.wrapping_add(1)) else {
            return false;
        };
        match entry.answer {
            Answer::Attached {
                width: _,
                group: named,
            } => named == group.group,
            _ => false,
        }
    }

    /// Whether a group has the widths of the one before it or ends its expansion, or is that of an attach and widens
    /// the pool.
    fn are_widths_right(&self, index: usize, before: &Group, group: &Group) -> bool {
        if self.is_of_attach(index, group) {
            widens_to(before, group, before.to.wrapping_add(1))
        } else {
            group.from == before.from && group.to == before.to || ends_expansion(before, group)
        }
    }

    /// Whether the item behind the group at this index is the answer of a sync that names it, or of an attach that may
    /// have made it.
    fn is_told_of(&self, index: usize, group: &Group) -> bool {
        let Some(Item::Call(entry)) = self.items.get(index.wrapping_add(1)) else {
            return false;
        };
        match entry.answer {
            Answer::Synced { group: named }
            | Answer::Attached {
                width: _,
                group: named,
            } => named == group.group,
            Answer::NewDeviceFailed { device: _ } | Answer::DeviceOut { device: _ } => {
                let (previous, _) = self.previous_of(entry.caller, index);
                (previous as u64) < group.after
            }
            _ => false,
        }
    }

    /// Whether a client copies that may have made the group at this index: its last answer before is not behind the
    /// group's begin.
    fn is_copied(&self, index: usize, group: &Group) -> bool {
        for call in self.calls {
            let (previous, number) = self.previous_of(call.caller, index);
            if call.kind == Kind::Copy
                && call.number == number.wrapping_add(1)
                && (previous as u64) < group.after
            {
                return true;
            }
        }
        false
    }

    /// Whether a group comes of some call: the opening, one whose answer tells of it, or a copy.
    fn is_some_calls(&self, index: usize, group: &Group) -> bool {
        index == 0 || self.is_told_of(index, group) || self.is_copied(index, group)
    }

    /// Whether a group follows the one before it.
    fn is_group_right(&self, index: usize, group: &Group) -> bool {
        let Some(before) = self.group_before(index) else {
            return index == 0;
        };
        group.group == before.group.wrapping_add(1)
            && before.after <= group.after
            && group.after <= index as u64
            && self.are_widths_right(index, &before, group)
    }

    /// What is wrong with a group.
    pub(crate) fn wrong_group(&self, index: usize, group: &Group) -> Option<Wrong> {
        if !self.is_group_right(index, group) {
            return Some(Wrong::Group);
        }
        if self.is_some_calls(index, group) {
            None
        } else {
            Some(Wrong::Lone)
        }
    }
}
