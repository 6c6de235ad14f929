// A plain, slow checker of journals: what each answer has to be, and what is wrong first.
use crate::group_check::{is_expanding_to, widens_to};
use crate::journaled::{Journaled, Wrong, call_of};
use core_state::{Answer, Entry, Item, Kind};
use sha2::{Digest, Sha256};

/// Whether an answer is for such a call, where nothing is lacking.
fn is_answer_of(kind: Kind, answer: &Answer) -> bool {
    match answer {
        Answer::Stored => kind == Kind::Put,
        Answer::Read { bytes: _ } => kind == Kind::Get,
        Answer::Digest { len: _, sha: _ } => kind == Kind::Sum,
        Answer::Freed => kind == Kind::Free,
        Answer::Synced { group: _ } => kind == Kind::Sync,
        Answer::Absent => kind == Kind::Get || kind == Kind::Sum || kind == Kind::Free,
        Answer::Attached { width: _, group: _ } => kind == Kind::Attach,
        Answer::Expanding { to: _ } => kind == Kind::Attach,
        Answer::DeviceOut { device: _ } => kind == Kind::Attach,
        Answer::NoDevice {
            devices: _,
            width: _,
        } => kind == Kind::Attach,
        Answer::NewDeviceFailed { device: _ } => kind == Kind::Attach,
        Answer::Taken { slot: _ } => kind == Kind::Attach,
        Answer::Completed { width: _ } => kind == Kind::Copy,
        Answer::Paused { device: _ } => kind == Kind::Copy,
        _ => false,
    }
}

/// Whether an answer tells this block, or that there is none.
fn is_read_of(block: Option<&[u8]>, answer: &Answer) -> bool {
    match (block, answer) {
        (None, Answer::Absent) => true,
        (Some(block), Answer::Read { bytes }) => bytes.as_slice() == block,
        (Some(block), Answer::Digest { len, sha }) => {
            u64::from(*len) == block.len() as u64 && *sha == Sha256::digest(block)
        }
        _ => false,
    }
}

impl Journaled<'_> {
    fn is_opening_right(&self) -> bool {
        match self.items.first() {
            Some(Item::Group(group)) => *group == self.opening_group,
            _ => false,
        }
    }

    /// Whether the caller makes this call, next after the one that was answered last.
    fn is_call_right(&self, index: usize, entry: &Entry) -> bool {
        let (_, number) = self.previous_of(entry.caller, index);
        match call_of(self.calls, entry.caller, entry.call) {
            Some(call) => {
                entry.call == number.wrapping_add(1)
                    && entry.kind == call.kind
                    && entry.id == call.id
            }
            None => false,
        }
    }

    /// Whether a read answers the map after as many items as it says, not before its caller's last answer.
    fn is_read_right(&self, index: usize, entry: &Entry) -> bool {
        let (previous, _) = self.previous_of(entry.caller, index);
        match (entry.at, entry.id) {
            (Some(at), Some(id)) => {
                (previous as u64) < at
                    && at <= index as u64
                    && is_read_of(self.block_after(at, id), &entry.answer)
            }
            _ => false,
        }
    }

    /// Whether a free tells if there was a block.
    fn is_free_right(&self, index: usize, entry: &Entry) -> bool {
        let Some(id) = entry.id else {
            return false;
        };
        let was_there = self.block_after(index as u64, id).is_some();
        match entry.answer {
            Answer::Freed => was_there,
            Answer::Absent => !was_there,
            _ => false,
        }
    }

    /// Whether a sync names the group listed just before it, which was begun after its caller's last answer.
    fn is_sync_right(&self, index: usize, entry: &Entry) -> bool {
        let (previous, _) = self.previous_of(entry.caller, index);
        let Some(Item::Group(listed)) = self.items.get(index.wrapping_sub(1)) else {
            return false;
        };
        match entry.answer {
            Answer::Synced { group } => listed.group == group && (previous as u64) < listed.after,
            _ => false,
        }
    }

    /// Whether an attach names the group listed just before it, which was begun after its caller's last answer and
    /// widened the pool to this width.
    fn is_attached_right(&self, index: usize, entry: &Entry, width: u32, number: u64) -> bool {
        let (previous, _) = self.previous_of(entry.caller, index);
        let place = index.wrapping_sub(1);
        let Some(Item::Group(listed)) = self.items.get(place) else {
            return false;
        };
        let Some(before) = self.group_before(place) else {
            return false;
        };
        listed.group == number
            && (previous as u64) < listed.after
            && widens_to(&before, listed, width)
    }

    /// Whether the last group before this index has an expansion to this width.
    fn is_expanding_right(&self, index: usize, to: u32) -> bool {
        match self.group_before(index) {
            Some(last) => is_expanding_to(&last, to),
            None => false,
        }
    }

    /// What is wrong with a copy that is answered.
    fn wrong_copy(&self, index: usize, entry: &Entry) -> Option<Wrong> {
        let last = self.group_before(index)?;
        let (is_right, wrong) = match entry.answer {
            Answer::Completed { width } => {
                (last.from == width && last.to == width, Wrong::Completed)
            }
            Answer::Paused { device: _ } => (is_expanding_to(&last, last.to), Wrong::Paused),
            _ => return None,
        };
        if is_right { None } else { Some(wrong) }
    }

    /// What is wrong with an attach that is answered.
    fn wrong_attach(&self, index: usize, entry: &Entry) -> Option<Wrong> {
        let (is_right, wrong) = match entry.answer {
            Answer::Attached { width, group } => {
                (
                    self.is_attached_right(index, entry, width, group),
                    Wrong::Attach,
                )
            }
            Answer::Expanding { to } => (self.is_expanding_right(index, to), Wrong::Expanding),
            _ => return None,
        };
        if is_right { None } else { Some(wrong) }
    }

    /// What is wrong with a call that is answered.
    fn wrong_entry(&self, index: usize, entry: &Entry) -> Option<Wrong> {
        if !self.is_call_right(index, entry) {
            return Some(Wrong::Call);
        }
        if !is_answer_of(entry.kind, &entry.answer) {
            return Some(Wrong::Answer);
        }
        let (is_right, wrong) = match entry.kind {
            Kind::Get | Kind::Sum => (self.is_read_right(index, entry), Wrong::Read),
            Kind::Free => (self.is_free_right(index, entry), Wrong::Free),
            Kind::Sync => (self.is_sync_right(index, entry), Wrong::Sync),
            Kind::Attach => return self.wrong_attach(index, entry),
            Kind::Copy => return self.wrong_copy(index, entry),
            _ => return None,
        };
        if is_right { None } else { Some(wrong) }
    }

    /// What is wrong first, and at which index; at the journal's end where a call is not answered.
    pub fn first_wrong(&self) -> Option<(usize, Wrong)> {
        if !self.is_opening_right() {
            return Some((0, Wrong::Opening));
        }
        for (index, item) in self.items.iter().enumerate() {
            let wrong = match item {
                Item::Group(group) => self.wrong_group(index, group),
                Item::Call(entry) => self.wrong_entry(index, entry),
            };
            if let Some(wrong) = wrong {
                return Some((index, wrong));
            }
        }
        for call in self.calls {
            if !self.is_answered(call) {
                return Some((self.items.len(), Wrong::Unanswered));
            }
        }
        None
    }
}
