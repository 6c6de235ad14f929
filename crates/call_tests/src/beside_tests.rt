// Clients in threads of their own, their journals checked item by item.
use client_script::{COPIER, parse};
use core_state::{Journal, Kind};
use pool_live::{OpenGate, run_pool_beside};
use schedule::{Ended, PoolRun};
use std::alloc::{AllocError, Global};
use std::process::Abort;
use std::sync::Wait;
use std::test::Fail;
use std::thread::Threads;
use test_pools::banks::bank_of_nine_and_a_blank;
use test_pools::journaled::Journaled;
use test_pools::plan_check::{FIRST_OPENING, Left, check_reads};
use test_pools::plans::{Plan, PlannedCall, plan_of_eight};

/// How many plans are carried out, and how many beside a client that widens the pool.
const PLANS: u64 = 100;

const PLANS_THAT_WIDEN: u64 = 20;

/// The plan with the calls of the client that widens the pool.
fn with_widening(alloc: Global, mut plan: Plan) -> Result<Plan, AllocError> {
    for (number, kind) in [(1, Kind::Attach), (2, Kind::Copy)] {
        plan.calls.push(PlannedCall {
            caller: COPIER,
            number,
            kind,
            id: None,
            bytes: Vec::new(alloc),
        })?;
    }
    Ok(plan)
}

/// The journal of a plan whose clients have threads of their own is legal, with an answer to each call, and what is
/// read afterwards is the map of its last group.
fn check_beside<R: Abort + Threads + Wait + Sync>(
    rt: &R,
    alloc: Global,
    plan: Plan,
    attaches: bool,
    number: u64,
) -> Result<(), Fail> {
    let script = parse(alloc, plan.script.as_bytes())?;
    let mut journal = Journal::new(alloc);
    journal.reserve(1)?;
    let bank = bank_of_nine_and_a_blank(alloc)?;
    let PoolRun {
        ran,
        mut bank,
        journal,
    } = run_pool_beside(rt, alloc, bank, script, attaches, &OpenGate, journal);
    let ran = ran?;
    assert_eq!(rt; ran.ended, Ended::Whole, "plan {number}");
    assert!(rt; ran.out.is_empty(), "plan {number}");
    let told = Journaled {
        opening_group: FIRST_OPENING,
        opening: &[],
        calls: plan.calls.as_slice(),
        items: journal.as_slice(),
    };
    assert_eq!(rt; told.first_wrong(), None, "plan {number}");
    let last = told.last_group().ok_or("no group")?;
    let held = told.held_after(alloc, last.after)?;
    check_reads(alloc, &mut bank, &Left { last, held }, None, number)
}

#[test]
fn clients_in_threads_are_answered_rightly(rt: HostRuntime) -> Result<(), Fail> {
    for number in 0..PLANS {
        let plan = plan_of_eight(rt.alloc(), number)?;
        check_beside(&rt, rt.alloc(), plan, false, number)?;
    }
    Ok(())
}

#[test]
fn clients_are_answered_rightly_while_a_run_widens_its_pool(rt: HostRuntime) -> Result<(), Fail> {
    for number in 0..PLANS_THAT_WIDEN {
        let plan = plan_of_eight(rt.alloc(), number)?;
        let plan = with_widening(rt.alloc(), plan)?;
        check_beside(&rt, rt.alloc(), plan, true, number)?;
    }
    Ok(())
}
