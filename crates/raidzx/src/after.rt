// What a user is told once a command over files has ended.
ghost use Rattle.bank_trait.specs.Disk.{Unchanged};

use crate::bank::FileBank;
use crate::files::SyncRuntime;
use crate::notes::{
    note_failed_calls, note_further, note_out, note_taken, note_too_small, note_unknown,
};
use crate::seen::{out_for_good, seen_anywhere, seen_in_place};
use crate::undone::tell_undone;
use bank_trait::Bank;
use core_state::{Answer, Item, Journal};
use raidzx_top::{Outcome, Status};
use std::alloc::Global;
use std::mem::ManuallyDrop;

/// The width that the words of a `create` name.
fn width_of(command: &[String]) -> Option<usize> {
    let [_, name, _, _, _, width, ..] = command else {
        return None;
    };
    if name.as_str() != "create" {
        return None;
    }
    width.as_str().parse::<usize>().ok()
}

/// The images that a new pool of this width has not.
#[tactic(auto, using(core_open::proofs::Unchanged::unchanged_none, core_open::proofs::Unchanged::unchanged_then))]
fn tell_further<R: Eprint, B: Bank>(rt: &R, names: &[String], width: usize, bank: &mut B)
    ensures { Unchanged (B.disk bank.old) (B.disk bank.new) }
{
    for device in 0..bank.devices() {
        let Some(name) = names.get(device as usize) else {
            return;
        };
        if device as usize >= width {
            note_further(rt, name, width, seen_in_place(bank, device));
        }
    }
}

/// What the images show that an attach found taken: each was the one behind the pool's.
#[tactic(auto, using(core_open::proofs::Unchanged::unchanged_none, core_open::proofs::Unchanged::unchanged_then))]
fn tell_taken<R: Eprint, B: Bank>(rt: &R, names: &[String], journal: &Journal, bank: &mut B)
    ensures { Unchanged (B.disk bank.old) (B.disk bank.new) }
{
    let mut width = 0;
    for item in journal.as_slice() {
        match item {
            Item::Group(group) => width = group.to,
            Item::Call(entry) => {
                if let Answer::Taken { slot: _ } = entry.answer {
                    tell_taken_at(rt, names, width, bank);
                }
            }
        }
    }
}

/// What this image shows, which was not attached.
#[tactic(auto, using(core_open::proofs::Unchanged::unchanged_none, core_open::proofs::Unchanged::unchanged_then))]
fn tell_taken_at<R: Eprint, B: Bank>(rt: &R, names: &[String], device: u32, bank: &mut B)
    ensures { Unchanged (B.disk bank.old) (B.disk bank.new) }
{
    let Some(name) = names.get(device as usize) else {
        return;
    };
    if device >= bank.devices() {
        return;
    }
    if let Some(seen) = seen_anywhere(bank, device) {
        note_taken(rt, name, seen);
    }
}

/// What a status leaves to tell, where the command was a `create`.
#[tactic(auto, using(core_open::proofs::Unchanged::unchanged_none, core_open::proofs::Unchanged::unchanged_then))]
fn tell_of_create<R: Eprint, B: Bank>(
    rt: &R,
    names: &[String],
    width: usize,
    status: Status,
    bank: &mut B,
)
    ensures { Unchanged (B.disk bank.old) (B.disk bank.new) }
{
    match status {
        Status::Done => tell_further(rt, names, width, bank),
        Status::TooSmall => note_too_small(rt, names.len(), width, bank.sectors()),
        _ => {}
    }
}

/// What a run has left to tell: which images were taken, and which are out for good.
#[tactic(auto, using(core_open::proofs::Unchanged::unchanged_none, core_open::proofs::Unchanged::unchanged_then))]
fn tell_of_run<R: Eprint, B: Bank>(
    rt: &R,
    alloc: Global,
    names: &[String],
    journal: &Journal,
    bank: &mut B,
)
    ensures { Unchanged (B.disk bank.old) (B.disk bank.new) }
{
    if journal.is_empty() {
        return;
    }
    tell_taken(rt, names, journal, bank);
    tell_undone(rt, alloc, names, journal, bank);
    match out_for_good(alloc, bank, journal) {
        Ok(out) => note_out(rt, names, out),
        Err(_) => note_unknown(rt),
    }
}

/// Tells of each image whose calls failed, and what else a user has to know after this ending of a command. Its journal
/// is not given back answer by answer: the process, which ends, gives all memory back at once.
pub fn tell_files<R: Eprint, H: SyncRuntime>(
    rt: &R,
    alloc: Global,
    names: &[String],
    command: &[String],
    lengths: &[u64],
    outcome: Outcome<FileBank<H>>,
) {
    let mut bank = outcome.bank;
    note_failed_calls(rt, names, lengths, &bank);
    match width_of(command) {
        Some(width) => tell_of_create(rt, names, width, outcome.status, &mut bank),
        None => tell_of_run(rt, alloc, names, &outcome.journal, &mut bank),
    }
    let _kept = ManuallyDrop::new(outcome.journal);
}
