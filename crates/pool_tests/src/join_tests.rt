// A commit that a new device may join, on banks in memory.
use bank_mem::MemBank;
use bank_trait::Bank;
use block_record::encode_index;
use core_commit::{CommitRun, CommitStep, JoinRun, JoinStep, WhyDropped};
use std::alloc::Global;
use std::process::Abort;
use std::test::Fail;
use std::vec::Vec;
use uberblock_ring::{DeviceSet, Uber, slot};

/// A commit of two devices, whose index is empty, that a third device may join.
fn begun(rt: &impl Abort, alloc: Global) -> Result<JoinRun, Fail> {
    let uber = Uber::first(9, 1, 2, 64);
    assert!(rt; uber.is_right() && uber.count() == 0);
    let page = encode_index(alloc, &[])?;
    let uber = Box::new(alloc, uber)?;
    Ok(JoinRun::new(CommitRun::new(uber, Vec::new(alloc), page)))
}

/// Makes a step of it.
fn turn(rt: &impl Abort, bank: &mut MemBank, join: JoinRun, out: &mut DeviceSet) -> JoinStep {
    assert!(rt; bank.devices() == 3 && bank.sectors() == 256);
    assert!(rt; join.run().uber().is_right() && join.run().uber().reflow().to == 2);
    assert!(rt; join.run().uber().parity() == 1 && join.run().uber().count() == 0);
    assert!(rt; join.run().entries().is_empty());
    assert!(rt; out.len() <= 1 && out.bits() < 4);
    join.step(bank, out)
}

/// Makes three steps: the syncs of the two devices and of the third. The decision comes next.
fn laid(
    rt: &impl Abort,
    alloc: Global,
    bank: &mut MemBank,
    out: &mut DeviceSet,
) -> Result<JoinRun, Fail> {
    let join = goes_on(turn(rt, bank, begun(rt, alloc)?, out)).ok_or("first")?;
    let join = goes_on(turn(rt, bank, join, out)).ok_or("second")?;
    let join = goes_on(turn(rt, bank, join, out)).ok_or("third")?;
    Ok(join)
}

fn goes_on(step: JoinStep) -> Option<JoinRun> {
    match step {
        JoinStep::GoesOn(join) => Some(join),
        _ => None,
    }
}

fn joined(step: JoinStep) -> Option<CommitRun> {
    match step {
        JoinStep::Joined(run) => Some(run),
        _ => None,
    }
}

fn dropped(step: JoinStep) -> Option<(CommitRun, WhyDropped)> {
    match step {
        JoinStep::Dropped { run, why } => Some((run, why)),
        _ => None,
    }
}

/// Makes the calls that are left of a second half over so many devices, none of which fails.
fn signed(rt: &impl Abort, bank: &mut MemBank, run: &mut CommitRun, devices: u32, calls: u32) {
    assert!(rt; devices <= 3);
    for _ in 0..calls {
        let mut out = DeviceSet::empty();
        assert!(rt; bank.devices() == 3 && bank.sectors() == 256);
        assert!(rt; run.uber().is_right() && run.uber().reflow().to == devices);
        assert!(rt; run.uber().parity() == 1 && run.uber().count() == 0);
        assert!(rt; run.entries().is_empty() && out.len() <= 1);
        assert!(rt; run.step(bank, &mut out) == CommitStep::Called);
        assert!(rt; out.is_empty());
    }
}

/// The widths that a device's slot shows of a group, before and after the widening.
fn shown(
    rt: &impl Abort,
    bank: &mut MemBank,
    group: u64,
    device: u32,
) -> Result<Option<(u32, u32)>, Fail> {
    assert!(rt; device < bank.devices() && bank.sectors() == 256);
    let mut bytes = [0; 512];
    bank.read(device, u64::from(slot(group)), &mut bytes)?;
    match Uber::decode(&bytes, device, slot(group)) {
        Some(uber) => Ok(Some((uber.reflow().from, uber.reflow().to))),
        None => Ok(None),
    }
}

#[test]
fn a_device_joins_at_the_first_uberblock_write(rt: HostRuntime) -> Result<(), Fail> {
    let mut bank = MemBank::new(rt.alloc(), 3, 256)?;
    let mut out = DeviceSet::empty();
    let join = laid(&rt, rt.alloc(), &mut bank, &mut out)?;
    assert_eq!(rt; join.device(), 2);
    let mut run = joined(turn(&rt, &mut bank, join, &mut out)).ok_or("joins")?;
    assert!(rt; out.is_empty());
    signed(&rt, &mut bank, &mut run, 3, 5);

    for device in 0..3 {
        assert_eq!(rt; shown(&rt, &mut bank, 1, device)?, Some((2, 3)));
    }
    Ok(())
}

#[test]
fn a_device_that_failed_does_not_join(rt: HostRuntime) -> Result<(), Fail> {
    let mut bank = MemBank::new(rt.alloc(), 3, 256)?;
    bank.fail_at(&[(2, 0)])?;
    let mut out = DeviceSet::empty();
    let join = laid(&rt, rt.alloc(), &mut bank, &mut out)?;
    let (mut run, why) = dropped(turn(&rt, &mut bank, join, &mut out)).ok_or("is dropped")?;
    assert!(rt; why == WhyDropped::NewDeviceFailed { device: 2 } && out.is_empty());
    signed(&rt, &mut bank, &mut run, 2, 3);

    assert_eq!(rt; shown(&rt, &mut bank, 1, 1)?, Some((2, 2)));
    assert!(rt; shown(&rt, &mut bank, 1, 2)?.is_none());
    Ok(())
}

#[test]
fn no_device_joins_while_another_is_out(rt: HostRuntime) -> Result<(), Fail> {
    let mut bank = MemBank::new(rt.alloc(), 3, 256)?;
    bank.fail_at(&[(1, 0)])?;
    let mut out = DeviceSet::empty();
    let join = laid(&rt, rt.alloc(), &mut bank, &mut out)?;
    let (run, why) = dropped(turn(&rt, &mut bank, join, &mut out)).ok_or("is dropped")?;
    assert!(rt; why == WhyDropped::DeviceOut { device: 1 });
    assert_eq!(rt; (out.bits(), run.uber().out().bits()), (2, 2));
    assert_eq!(rt; shown(&rt, &mut bank, 1, 0)?, Some((2, 2)));
    Ok(())
}
