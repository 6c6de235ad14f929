// Plans that are replayed, their journals checked item by item, and what is read afterwards.
use crate::journaled::{Held, Journaled};
use crate::plans::{Plan, plan_of_reads};
use crate::runs::{Order, run_into};
use bank_mem::MemBank;
use core_state::{Answer, Group, Item, Journal};
use schedule::{Ended, Ran};
use std::alloc::Global;
use std::test::Fail;
use uberblock_ring::DeviceSet;

/// The group of a new pool's opening.
pub const FIRST_OPENING: Group = Group {
    group: 3,
    after: 0,
    from: 3,
    to: 3,
};

/// What a replay has left: its last group, and the blocks of that.
#[derive(Drop)]
pub struct Left {
    pub last: Group,
    pub held: Vec<Held>,
}

/// The group of the opening that comes after this one.
fn opening_after(last: &Group) -> Group {
    Group {
        group: last.group.wrapping_add(2),
        after: 0,
        from: last.from,
        to: last.to,
    }
}

/// Whether these devices may be out, where this one may fail, or none.
fn may_be_out(failing: Option<u32>, out: DeviceSet) -> bool {
    match failing {
        None => out.is_empty(),
        Some(device) => out.is_empty() || (out.len() == 1 && out.has(device)),
    }
}

/// Whether a copy is paused by no device but the one that may fail.
fn is_paused_rightly(failing: Option<u32>, journal: &Journal) -> bool {
    for item in journal.as_slice() {
        if let Item::Call(entry) = item
            && let Answer::Paused { device } = entry.answer
            && failing != Some(device)
        {
            return false;
        }
    }
    true
}

/// Replays a plan. Each call is answered, and no device is out but the one that may fail.
fn replay_plan(
    alloc: Global,
    bank: &mut MemBank,
    plan: &Plan,
    failing: Option<u32>,
    number: u64,
) -> Result<Journal, Fail> {
    let mut journal = Journal::new(alloc);
    let ran = run_into(
        alloc,
        bank,
        plan.script.as_bytes(),
        Order::AsListed,
        &mut journal,
    )??;
    let Ran { ended, out, .. } = ran;
    if ended != Ended::Whole {
        return Err(Fail::new(format_args!("plan {number}: {ended:?}")));
    }
    if !may_be_out(failing, out) {
        return Err(Fail::new(format_args!("plan {number}: {out:?} are out")));
    }
    if !is_paused_rightly(failing, &journal) {
        return Err(Fail::new(format_args!("plan {number} is paused")));
    }
    Ok(journal)
}

/// Nothing is wrong with a journal, that of a plan or of what is read after it.
fn check_legal(told: &Journaled, number: u64, when: &str) -> Result<(), Fail> {
    match told.first_wrong() {
        None => Ok(()),
        Some((index, wrong)) => {
            Err(Fail::new(format_args!("plan {number}, {when}: {wrong:?} at item {index}")))
        }
    }
}

/// Replays a plan on a new pool, where this device may fail, or none. Its journal is legal.
pub fn check_plan(
    alloc: Global,
    bank: &mut MemBank,
    plan: &Plan,
    failing: Option<u32>,
    number: u64,
) -> Result<Left, Fail> {
    let journal = replay_plan(alloc, bank, plan, failing, number)?;
    let told = Journaled {
        opening_group: FIRST_OPENING,
        opening: &[],
        calls: plan.calls.as_slice(),
        items: journal.as_slice(),
    };
    check_legal(&told, number, "replayed")?;
    let last = told.last_group().ok_or("no group")?;
    let held = told.held_after(alloc, last.after)?;
    Ok(Left { last, held })
}

/// What is read afterwards is the map of the last group, and a copy goes on. It ends where no device may fail.
pub fn check_reads(
    alloc: Global,
    bank: &mut MemBank,
    left: &Left,
    failing: Option<u32>,
    number: u64,
) -> Result<(), Fail> {
    let reads = plan_of_reads(alloc)?;
    let journal = replay_plan(alloc, bank, &reads, failing, number)?;
    let told = Journaled {
        opening_group: opening_after(&left.last),
        opening: left.held.as_slice(),
        calls: reads.calls.as_slice(),
        items: journal.as_slice(),
    };
    check_legal(&told, number, "read afterwards")?;
    let last = told.last_group().ok_or("no group")?;
    if last.to != left.last.to {
        return Err(Fail::new(format_args!("plan {number}, read afterwards: {last:?}")));
    }
    if failing.is_none() && last.from != last.to {
        return Err(Fail::new(format_args!("plan {number}, copied afterwards: {last:?}")));
    }
    Ok(())
}
