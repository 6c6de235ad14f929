// How often a client has the lock where no other has a call: a gate counts the holds.
use crate::calls::{RUN, RUN_AND_ATTACH, call_held_up};
use bank_mem::MemBank;
use bank_trait::{Gate, Point};
use raidzx_top::Status;
use std::alloc::Global;
use std::process::Abort;
use std::sync::{Mutex, Wait};
use std::test::Fail;
use std::thread::Threads;
use test_pools::banks::{MAKING, bank_of_nine, bank_of_nine_and_a_blank};

/// A gate that counts the holds behind which their client has turns left.
#[derive(Drop)]
struct CountingGate {
    holds: Mutex<u64>,
}

impl Gate for CountingGate {
    fn pass<R: Wait>(&self, rt: &R, _actor: u8, point: Point) {
        if point == Point::Turn {
            let mut holds = self.holds.lock(rt);
            *holds = holds.wrapping_add(1);
        }
    }
}

/// Behind how many holds of the lock turns are left, where these words are carried out over a bank and a script.
fn holds_left<R: Abort + Threads + Wait + Sync>(
    rt: &R,
    alloc: Global,
    words: &str,
    bank: MemBank,
    script: &[u8],
) -> Result<u64, Fail> {
    let gate = CountingGate {
        holds: Mutex::new(0),
    };
    let told = call_held_up(rt, alloc, &gate, words, bank, script)?;
    assert_eq!(rt; told.status, Status::Done);
    Ok(gate.holds.into_inner())
}

const SYNC: &[u8] = b"clients 2\na sync\n";

/// The first turn of a put asks for its block to be filled in, so a hold ends behind it.
const PUT_AND_SYNC: &[u8] = b"clients 2\na puthex 1 61\na sync\n";

const ATTACH: &[u8] = b"clients 2\na attach\n";

const NO_CALLS: &[u8] = b"clients 1\n";

/// Each device is synced twice.
#[test]
fn a_hold_ends_before_each_sync_of_a_device(rt: HostRuntime) -> Result<(), Fail> {
    let alloc = rt.alloc();
    let left = holds_left(&rt, alloc, RUN, bank_of_nine(alloc)?, SYNC)?;
    assert_eq!(rt; left, 3 + 3);
    let left = holds_left(&rt, alloc, RUN, bank_of_nine(alloc)?, PUT_AND_SYNC)?;
    assert_eq!(rt; left, 1 + 3 + 3);
    let mut bank = bank_of_nine(alloc)?;
    bank.fail_from(1, MAKING)?;
    let left = holds_left(&rt, alloc, RUN, bank, SYNC)?;
    assert_eq!(rt; left, 2 + 2, "while a device is out");
    Ok(())
}

/// The new device is synced beside the others. Before the first sync are 35 turns, so one hold ends behind 32 of them.
#[test]
fn a_hold_ends_before_each_sync_of_an_attach(rt: HostRuntime) -> Result<(), Fail> {
    let alloc = rt.alloc();
    let left = holds_left(&rt, alloc, RUN, bank_of_nine_and_a_blank(alloc)?, ATTACH)?;
    assert_eq!(rt; left, 1 + 4 + 4);
    Ok(())
}

/// An attach and the four commits of a copy sync four devices twice each.
#[test]
fn a_hold_ends_before_each_sync_of_a_copy(rt: HostRuntime) -> Result<(), Fail> {
    let alloc = rt.alloc();
    let bank = bank_of_nine_and_a_blank(alloc)?;
    let left = holds_left(&rt, alloc, RUN_AND_ATTACH, bank, NO_CALLS)?;
    assert!(rt; left >= 5 * 8, "{left} holds");
    Ok(())
}
