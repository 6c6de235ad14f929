// Two hundred orders, their journals checked item by item.
use crate::calls::{REPLAY, RUN, call};
use bank_mem::MemBank;
use std::alloc::{AllocError, Global};
use std::process::Abort;
use std::sync::Wait;
use std::test::Fail;
use std::thread::Threads;
use test_pools::banks::bank_of_nine_and_a_blank;
use test_pools::plan_check::{check_plan, check_reads};
use test_pools::plans::{Draw, Plan, plan_of, plan_of_lines};

/// The calls on each device of the pool that make it, and most of those that open it.
const OPENING: u64 = 65;

/// The device that an attach asks for, and the calls on it before: the opening reads its ring.
const NEW_DEVICE: u32 = 3;

const NEW_OPENING: u64 = 32;

/// Of so many calls on a device that come after, one fails; of so many where a client copies.
const AFTER_OPENING: u64 = 45;

const AFTER_OPENING_WITH_COPY: u64 = 300;

/// An order's journal is legal, and what is read afterwards is the map of its last group.
fn check_order(
    rt: &impl Abort,
    alloc: Global,
    bank: &mut MemBank,
    failing: Option<u32>,
    number: u64,
) -> Result<(), Fail> {
    let plan = plan_of(alloc, number)?;
    let left = check_plan(alloc, bank, &plan, failing, number)?;
    if failing.is_none() {
        assert_eq!(rt; left.last.to == 4, plan.attaches(), "order {number}");
    }
    check_reads(alloc, bank, &left, failing, number)
}

/// Checks the orders from this number up to that one.
fn check_orders(rt: &impl Abort, alloc: Global, from: u64, to: u64) -> Result<(), Fail> {
    for number in from..to {
        let mut bank = bank_of_nine_and_a_blank(alloc)?;
        check_order(rt, alloc, &mut bank, None, number)?;
    }
    Ok(())
}

#[test]
fn the_first_fifty_orders_are_answered_rightly(rt: HostRuntime) -> Result<(), Fail> {
    check_orders(&rt, rt.alloc(), 0, 50)
}

#[test]
fn the_second_fifty_orders_are_answered_rightly(rt: HostRuntime) -> Result<(), Fail> {
    check_orders(&rt, rt.alloc(), 50, 100)
}

#[test]
fn the_third_fifty_orders_are_answered_rightly(rt: HostRuntime) -> Result<(), Fail> {
    check_orders(&rt, rt.alloc(), 100, 150)
}

/// A call on a device fails, if it is made, or all from that one on. Gives the device.
fn let_one_fail(bank: &mut MemBank, plan: &Plan, number: u64) -> Result<u32, AllocError> {
    let mut draw = Draw::new(number.wrapping_add(1000));
    let device = draw.below(4) as u32;
    let opening = if device == NEW_DEVICE {
        NEW_OPENING
    } else {
        OPENING
    };
    let after = if plan.copies() {
        draw.below(AFTER_OPENING_WITH_COPY)
    } else {
        draw.below(AFTER_OPENING)
    };
    let call = opening.wrapping_add(after);
    if draw.below(2) == 0 {
        bank.fail_at(&[(device, call)])?;
    } else {
        bank.fail_from(device, call)?;
    }
    Ok(device)
}

#[test]
fn the_last_fifty_orders_are_answered_rightly_past_a_failing_device(
    rt: HostRuntime,
) -> Result<(), Fail> {
    let alloc = rt.alloc();
    for number in 150..200 {
        let mut bank = bank_of_nine_and_a_blank(alloc)?;
        let device = let_one_fail(&mut bank, &plan_of(alloc, number)?, number)?;
        check_order(&rt, alloc, &mut bank, Some(device), number)?;
    }
    Ok(())
}

/// The script of a plan, with its calls in the order of their lines, but all by one client.
fn script_of_one(alloc: Global, plan: &Plan) -> Result<String, AllocError> {
    let mut script = String::from_str(alloc, "clients 1\n")?;
    for line in plan.script.as_str().split('\n') {
        // The line that says how many clients there are begins with no letter of one.
        if let Some((client, call)) = line.split_once(' ')
            && client.len() == 1
        {
            writeln!(script, "a {call}")?;
        }
    }
    Ok(script)
}

/// A run of the scripts from this number up to that one, their calls all by one client, and a replay of them, tell the
/// same and leave the same. Every other one has a device that fails.
fn compare_run_and_replay<R: Abort + Threads + Wait + Sync>(
    rt: &R,
    alloc: Global,
    from: u64,
    to: u64,
) -> Result<(), Fail> {
    for number in from..to {
        let plan = plan_of_lines(alloc, number)?;
        let script = script_of_one(alloc, &plan)?;
        let mut banks = [
            bank_of_nine_and_a_blank(alloc)?,
            bank_of_nine_and_a_blank(alloc)?,
        ];
        if number % 2 == 1 {
            for bank in &mut banks {
                let_one_fail(bank, &plan, number)?;
            }
        }
        let [first, second] = banks;
        let ran = call(rt, alloc, RUN, first, script.as_bytes())?;
        let replayed = call(rt, alloc, REPLAY, second, script.as_bytes())?;
        assert_eq!(rt; ran.status, replayed.status, "script {number}");
        assert_eq!(rt; ran.turns, replayed.turns, "script {number}");
        assert_eq!(rt; ran.items, replayed.items, "script {number}");
        assert_eq!(rt;
            ran.text.as_slice(),
            replayed.text.as_slice(),
            "script {number}"
        );
        let left = ran.bank.crash_at(alloc, ran.bank.clock(), &[])?;
        let other = replayed.bank.crash_at(alloc, replayed.bank.clock(), &[])?;
        assert_eq!(rt; left.as_slice(), other.as_slice(), "script {number}");
    }
    Ok(())
}

#[test]
fn the_first_fifty_runs_are_replays_without_an_order(rt: HostRuntime) -> Result<(), Fail> {
    compare_run_and_replay(&rt, rt.alloc(), 200, 250)
}

#[test]
fn the_second_fifty_runs_are_replays_without_an_order(rt: HostRuntime) -> Result<(), Fail> {
    compare_run_and_replay(&rt, rt.alloc(), 250, 300)
}

#[test]
fn the_third_fifty_runs_are_replays_without_an_order(rt: HostRuntime) -> Result<(), Fail> {
    compare_run_and_replay(&rt, rt.alloc(), 300, 350)
}

#[test]
fn the_last_fifty_runs_are_replays_without_an_order(rt: HostRuntime) -> Result<(), Fail> {
    compare_run_and_replay(&rt, rt.alloc(), 350, 400)
}
