// A run that attaches a device and copies, each call of each device failing in turn.
use bank_mem::MemBank;
use std::alloc::Global;
use std::test::Fail;
use test_pools::banks::{MAKING, bank_of_nine_and_a_blank};
use test_pools::plan_check::{check_plan, check_reads};
use test_pools::plans::plan_of_widening;

/// More calls on a device than the run makes.
const CALLS: u64 = 330;

/// One call of so many fails.
const EVERY: usize = 5;

/// A call on this device fails, of these numbers. The journal is legal, and so are those of later runs, which read and
/// copy: with all devices, and without this one.
fn check_device(alloc: Global, device: u32, first: u64) -> Result<(), Fail> {
    let plan = plan_of_widening(alloc)?;
    for failing in (first..first.wrapping_add(CALLS)).step_by(EVERY) {
        let mut bank = bank_of_nine_and_a_blank(alloc)?;
        bank.fail_at(&[(device, failing)])?;
        let left = check_plan(alloc, &mut bank, &plan, Some(device), failing)?;
        for silent in [device, 4] {
            let images = bank.crash_at(alloc, bank.clock(), &[])?;
            let mut later = MemBank::from_images(alloc, images)?;
            later.fail_from(silent, 0)?;
            check_reads(alloc, &mut later, &left, Some(device), failing)?;
        }
    }
    Ok(())
}

#[test]
fn the_first_device_fails_a_call(rt: HostRuntime) -> Result<(), Fail> {
    check_device(rt.alloc(), 0, MAKING)
}

#[test]
fn the_second_device_fails_a_call(rt: HostRuntime) -> Result<(), Fail> {
    check_device(rt.alloc(), 1, MAKING)
}

#[test]
fn the_third_device_fails_a_call(rt: HostRuntime) -> Result<(), Fail> {
    check_device(rt.alloc(), 2, MAKING)
}

#[test]
fn the_new_device_fails_a_call(rt: HostRuntime) -> Result<(), Fail> {
    check_device(rt.alloc(), 3, 0)
}
