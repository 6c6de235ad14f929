// A commit that makes one call a step, on banks in memory.
use bank_mem::MemBank;
use bank_trait::Bank;
use block_record::encode_index;
use core_commit::{CommitRun, CommitStep};
use std::process::Abort;
use std::test::Fail;
use std::vec::Vec;
use uberblock_ring::{DeviceSet, Uber, slot};

/// Makes a step of a commit of two devices, whose index is empty.
fn turn(
    rt: &impl Abort,
    bank: &mut MemBank,
    run: &mut CommitRun,
    out: &mut DeviceSet,
) -> CommitStep {
    assert!(rt; bank.devices() == 2 && bank.sectors() == 256);
    assert!(rt; run.uber().is_right() && run.uber().reflow().to == 2);
    assert!(rt; run.uber().parity() == 1 && run.uber().count() == 0);
    assert!(rt; run.entries().is_empty());
    assert!(rt; out.len() <= 1 && out.bits() < 4);
    run.step(bank, out)
}

/// What a device's slot shows of a group.
fn shown(
    rt: &impl Abort,
    bank: &mut MemBank,
    group: u64,
    device: u32,
) -> Result<Option<Uber>, Fail> {
    assert!(rt; device < bank.devices() && bank.sectors() == 256);
    let mut bytes = [0; 512];
    bank.read(device, u64::from(slot(group)), &mut bytes)?;
    Ok(Uber::decode(&bytes, device, slot(group)))
}

#[test]
fn the_group_lists_a_device_that_failed_in_the_first_half(rt: HostRuntime) -> Result<(), Fail> {
    let mut bank = MemBank::new(rt.alloc(), 2, 256)?;
    bank.fail_at(&[(1, 0)])?;
    let uber = Uber::first(9, 1, 2, 64);
    assert!(rt; uber.is_right() && uber.count() == 0);
    let page = encode_index(rt.alloc(), &[])?;
    let mut run = CommitRun::new(Box::new(rt.alloc(), uber)?, Vec::new(rt.alloc()), page);
    let mut out = DeviceSet::empty();

    assert!(rt; turn(&rt, &mut bank, &mut run, &mut out) == CommitStep::Called);
    assert!(rt; bank.devices() == 2 && bank.sectors() == 256);
    bank.write(0, 200, &[7; 512])?;
    assert!(rt; turn(&rt, &mut bank, &mut run, &mut out) == CommitStep::Called);
    assert_eq!(rt; (out.bits(), run.uber().out().bits()), (2, 0));

    assert!(rt; turn(&rt, &mut bank, &mut run, &mut out) == CommitStep::Called);
    assert_eq!(rt; run.uber().out().bits(), 2);
    assert!(rt; turn(&rt, &mut bank, &mut run, &mut out) == CommitStep::Called);
    assert!(rt; turn(&rt, &mut bank, &mut run, &mut out) == CommitStep::Ended);

    let group = run.uber().group();
    assert!(rt; shown(&rt, &mut bank, group, 0)?.as_ref() == Some(run.uber()));
    assert!(rt; shown(&rt, &mut bank, group, 1)?.is_none());
    assert!(rt; bank.devices() == 2 && bank.sectors() == 256);
    let mut bytes = [0; 512];
    bank.read(0, 200, &mut bytes)?;
    assert!(rt; bytes == [7; 512]);
    Ok(())
}

#[test]
fn the_group_does_not_list_one_that_failed_later(rt: HostRuntime) -> Result<(), Fail> {
    let mut bank = MemBank::new(rt.alloc(), 2, 256)?;
    // its call after the sync of the first half
    bank.fail_at(&[(1, 1)])?;
    let uber = Uber::first(9, 1, 2, 64);
    assert!(rt; uber.is_right() && uber.count() == 0);
    let page = encode_index(rt.alloc(), &[])?;
    let mut run = CommitRun::new(Box::new(rt.alloc(), uber)?, Vec::new(rt.alloc()), page);
    let mut out = DeviceSet::empty();
    for _ in 0..5 {
        assert!(rt; turn(&rt, &mut bank, &mut run, &mut out) == CommitStep::Called);
    }
    assert!(rt; turn(&rt, &mut bank, &mut run, &mut out) == CommitStep::Ended);
    assert_eq!(rt; (out.bits(), run.uber().out().bits()), (2, 0));
    Ok(())
}
