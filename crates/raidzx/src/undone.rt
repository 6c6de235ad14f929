// What of a run was not carried out, and what to do then, on standard error.

ghost use Rattle.bank_trait.specs.Disk.{Unchanged};

use crate::room::{Room, room_left};
use bank_trait::Bank;
use core_state::{Answer, Item, Journal};
use std::alloc::Global;

/// How many calls were refused for each reason.
#[derive(Clone, Copy, Debug, PartialEq, Eq)]
struct Undone {
    no_space: u64,
    /// The most free sectors that were wanted side by side.
    sectors: u64,
    full: u64,
    damaged: u64,
    too_many: u64,
    no_memory: u64,
    limit: u64,
}

impl Undone {
    fn none() -> Undone {
        Undone {
            no_space: 0,
            sectors: 0,
            full: 0,
            damaged: 0,
            too_many: 0,
            no_memory: 0,
            limit: 0,
        }
    }

    fn count(&mut self, answer: &Answer) {
        match answer {
            Answer::NoSpace { sectors } => {
                one_more(&mut self.no_space);
                self.sectors = (*sectors).max(self.sectors);
            }
            Answer::Full => one_more(&mut self.full),
            Answer::Damaged => one_more(&mut self.damaged),
            Answer::TooManyFailed { out: _ } => one_more(&mut self.too_many),
            Answer::NoMemory => one_more(&mut self.no_memory),
            Answer::Limit { reached: _ } => one_more(&mut self.limit),
            _ => {}
        }
    }
}

fn one_more(count: &mut u64) {
    *count = (*count).saturating_add(1);
}

/// Tells what calls of a run were refused, and what to do.
#[tactic(auto, using(core_open::proofs::Unchanged::unchanged_none, core_open::proofs::Unchanged::unchanged_then))]
pub fn tell_undone<R: Eprint, B: Bank>(
    rt: &R,
    alloc: Global,
    names: &[String],
    journal: &Journal,
    bank: &mut B,
)
    ensures { Unchanged (B.disk bank.old) (B.disk bank.new) }
{
    let mut undone = Undone::none();
    for item in journal.as_slice() {
        if let Item::Call(entry) = item {
            undone.count(&entry.answer);
            note_widening(rt, names, &entry.answer);
        }
    }
    if undone.no_space > 0 {
        note_no_space(rt, &undone, room_left(alloc, bank));
    }
    note_others(rt, &undone);
}

/// Why no disk was attached, or no more is moved.
fn note_widening<R: Eprint>(rt: &R, names: &[String], answer: &Answer) {
    let _ = match answer {
        Answer::Expanding { to } => eprintln!(rt;
            "raidzx: no disk was attached, as the copy onto {to} disks is not done: copy, then attach"
        ),
        Answer::DeviceOut { device } => eprintln!(rt;
            "raidzx: no disk was attached, as disk {device} is out: a pool grows while all its disks are in use"
        ),
        Answer::NoDevice { devices, width } => eprintln!(rt;
            "raidzx: no disk was attached: {devices} images are named and the pool has {width} disks; name one more \
            behind them, up to 16"
        ),
        Answer::NewDeviceFailed { device } => match names.get(*device as usize) {
            Some(name) => eprintln!(rt;
                "raidzx: {name}: not attached: a call on it failed, or it is shorter than the pool's; no image of the \
                pool is out for it"
            ),
            None => Ok(()),
        },
        Answer::Paused { device } => eprintln!(rt;
            "raidzx: the copy is paused, as disk {device} is out; all blocks are read as before"
        ),
        _ => Ok(()),
    };
}

/// How many puts found no room, and what there is now, if that is too little too: what was not synced takes none.
fn note_no_space<R: Eprint>(rt: &R, undone: &Undone, room: Option<Room>) {
    let wanted = undone.sectors;
    let _ = match room {
        Some(room) if room.widest < wanted => eprintln!(rt;
            "raidzx: puts without room: {}; the largest wanted {wanted} free sectors side by side, and the pool has {} \
            now: free blocks and sync, then put them again",
            undone.no_space, room.widest
        ),
        _ => eprintln!(rt;
            "raidzx: puts without room: {}; the largest wanted {wanted} free sectors side by side: free blocks and \
            sync, then put them again",
            undone.no_space
        ),
    };
}

/// Which other calls were refused.
fn note_others<R: Eprint>(rt: &R, undone: &Undone) {
    if undone.full > 0 {
        let _ = eprintln!(rt;
            "raidzx: puts refused, as the pool has 512 blocks: {}; free others and put them again",
            undone.full
        );
    }
    if undone.damaged > 0 {
        let _ = eprintln!(rt;
            "raidzx: reads of damaged blocks: {}; the manual tells at `damaged` what is left to do",
            undone.damaged
        );
    }
    if undone.too_many > 0 {
        let _ = eprintln!(rt;
            "raidzx: calls not carried out, as too many disks are out: {}; run them again once these are back",
            undone.too_many
        );
    }
    if undone.no_memory > 0 {
        let _ = eprintln!(rt;
            "raidzx: calls not carried out for want of memory: {}; run them again with more memory, or fewer in a \
            script",
            undone.no_memory
        );
    }
    if undone.limit > 0 {
        let _ = eprintln!(rt;
            "raidzx: calls refused, as the last group number is used up: {}; make a new pool and copy the blocks to it",
            undone.limit
        );
    }
}
