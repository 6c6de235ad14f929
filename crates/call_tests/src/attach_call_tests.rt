// Runs that attach a device: what they answer, and what later runs read.
use crate::calls::{REPLAY, RUN, RUN_AND_ATTACH, STATUS, call};
use bank_mem::MemBank;
use bank_trait::Bank;
use raidzx_top::Status;
use std::alloc::Global;
use std::process::Abort;
use std::test::Fail;
use test_pools::banks::{
    MAKING, OPENING, RING, bank_of_nine, bank_of_nine_and_a_blank, bank_of_sixteen_and_a_blank,
};
use test_pools::runs::run;
use uberblock_ring::{DeviceSet, Uber, slot};

const FIRST: &[u8] = b"clients 1
a put 1 1536 0
a sync
a attach
a attach
";

const FIRST_TOLD: &[u8] = b"0 group 3 after 0
1 a.1 put 1 ok
2 group 4 after 2
3 a.2 sync group 4
4 group 5 after 4
5 a.3 attach width 4 group 5
6 a.4 attach expanding to 4
";

const WIDENED: &[u8] = b"pool 9 parity 1 rows 64 group 5
width 3 to 4 mark 0 state none
births 0:3
out none
blocks 1
";

const LATER: &[u8] = b"clients 1\na sum 1\na attach\n";

const LATER_TOLD: &[u8] = b"0 group 7 after 0
1 a.1 sum 1 at 1 length 1536 sha 423619b406bbdb3265da917e5fe1fbdf7012cda9f127d2dd7b540abb6a1b2ba8
2 a.2 attach expanding to 4
";

const NO_CALLS: &[u8] = b"clients 1\n";

const GONE_ON_TOLD: &[u8] = b"0 group 9 after 0
1 group 10 after 1
2 group 11 after 2
3 group 12 after 3
4 group 13 after 4
5 x.1 copy done width 4
";

const WIDENED_TOLD: &[u8] = b"0 group 3 after 0
1 group 4 after 1
2 x.1 attach width 4 group 4
3 group 5 after 3
4 group 6 after 4
5 group 7 after 5
6 group 8 after 6
7 x.2 copy done width 4
";

const NO_MORE_TOLD: &[u8] = b"0 group 10 after 0
1 x.1 attach no device 4
2 x.2 copy done width 4
";

#[test]
fn a_device_is_attached_once_and_the_pool_is_widened_from_then_on(
    rt: HostRuntime,
) -> Result<(), Fail> {
    let alloc = rt.alloc();
    let told = call(&rt, alloc, RUN, bank_of_nine_and_a_blank(alloc)?, FIRST)?;
    assert_eq!(rt; told.text.as_slice(), FIRST_TOLD);
    assert_eq!(rt; (told.status, told.items), (Status::Done, 7));
    let told = call(&rt, alloc, STATUS, told.bank, b"")?;
    assert_eq!(rt; told.text.as_slice(), WIDENED);
    let told = call(&rt, alloc, REPLAY, told.bank, LATER)?;
    assert_eq!(rt; told.text.as_slice(), LATER_TOLD);
    let told = call(&rt, alloc, RUN, told.bank, NO_CALLS)?;
    assert_eq!(rt; told.text.as_slice(), GONE_ON_TOLD);
    assert_eq!(rt; (told.status, told.items), (Status::Done, 6));
    Ok(())
}

#[test]
fn a_run_attaches_a_device_and_copies(rt: HostRuntime) -> Result<(), Fail> {
    let alloc = rt.alloc();
    let bank = bank_of_nine_and_a_blank(alloc)?;
    let told = call(&rt, alloc, RUN_AND_ATTACH, bank, NO_CALLS)?;
    assert_eq!(rt; told.text.as_slice(), WIDENED_TOLD);
    assert_eq!(rt; (told.status, told.items), (Status::Done, 8));
    let told = call(&rt, alloc, RUN_AND_ATTACH, told.bank, NO_CALLS)?;
    assert_eq!(rt; told.text.as_slice(), NO_MORE_TOLD);
    Ok(())
}

const ATTACH: &[u8] = b"clients 1\na attach\n";

/// Whether an attach on this bank is answered so, while these devices are out.
fn is_refused(
    rt: &impl Abort,
    alloc: Global,
    bank: MemBank,
    out: DeviceSet,
    wanted: &[u8],
) -> Result<(), Fail> {
    let mut bank = bank;
    let told = run(alloc, &mut bank, ATTACH)?;
    assert_eq!(rt; told.text.as_slice(), wanted);
    assert_eq!(rt; told.out(), Some(out));
    Ok(())
}

/// Pool 9 on three devices, and one that shows two uberblocks of pool 5, in slots 3 and 7, for this device number.
fn bank_with_another_pools(rt: &impl Abort, alloc: Global, number: u32) -> Result<MemBank, Fail> {
    let mut bank = bank_of_nine_and_a_blank(alloc)?;
    for group in [7, 35] {
        let mut uber = Uber::first(5, 1, 4, 64);
        uber.set_group(group);
        assert!(rt; uber.is_right() && bank.devices() == 4 && bank.sectors() == 256);
        bank.write(3, u64::from(slot(group)), &uber.encode(number))?;
    }
    Ok(bank)
}

#[test]
fn a_device_that_shows_a_pool_is_taken(rt: HostRuntime) -> Result<(), Fail> {
    let alloc = rt.alloc();
    for number in 0..4 {
        let bank = bank_with_another_pools(&rt, alloc, number)?;
        is_refused(
            &rt,
            alloc,
            bank,
            DeviceSet::empty(),
            b"0 group 3 after 0\n1 a.1 attach taken 3\n",
        )?;
    }
    Ok(())
}

#[test]
fn no_device_is_attached_where_the_bank_or_the_width_ends(rt: HostRuntime) -> Result<(), Fail> {
    let alloc = rt.alloc();
    let none = DeviceSet::empty();
    let text = b"0 group 3 after 0\n1 a.1 attach no device 3\n";
    is_refused(&rt, alloc, bank_of_nine(alloc)?, none, text)?;
    let bank = bank_of_sixteen_and_a_blank(alloc)?;
    let text = b"0 group 3 after 0\n1 a.1 attach no device 16\n";
    is_refused(&rt, alloc, bank, none, text)
}

#[test]
fn no_device_is_attached_while_another_is_out(rt: HostRuntime) -> Result<(), Fail> {
    let alloc = rt.alloc();
    for (device, text) in [
        (0, b"0 group 3 after 0\n1 a.1 attach device out 0\n"),
        (1, b"0 group 3 after 0\n1 a.1 attach device out 1\n"),
        (2, b"0 group 3 after 0\n1 a.1 attach device out 2\n"),
    ] {
        let mut bank = bank_of_nine_and_a_blank(alloc)?;
        bank.fail_from(device, MAKING)?;
        is_refused(&rt, alloc, bank, DeviceSet::from_bits(1 << device), text)?;
    }
    Ok(())
}

/// The first call of the attach's commit on a device of the pool fails, a sync: the group is made without the new
/// device.
#[test]
fn no_device_joins_where_another_fails_in_its_commit(rt: HostRuntime) -> Result<(), Fail> {
    let alloc = rt.alloc();
    let text = b"0 group 3 after 0\n1 group 4 after 1\n2 a.1 attach device out 1\n";
    let mut bank = bank_of_nine_and_a_blank(alloc)?;
    bank.fail_at(&[(1, MAKING + OPENING)])?;
    is_refused(&rt, alloc, bank, DeviceSet::from_bits(2), text)
}

/// Block 1 is synced before the attach, block 2 behind it.
const PUTS: &[u8] = b"clients 1
a puthex 1 61
a sync
a attach
a puthex 2 62
a sync
";

const ATTACHED: &[u8] = b"0 group 3 after 0
1 a.1 put 1 ok
2 group 4 after 2
3 a.2 sync group 4
4 group 5 after 4
5 a.3 attach width 4 group 5
6 a.4 put 2 ok
7 group 6 after 7
8 a.5 sync group 6
";

/// The new device fails while its ring is read, or its last data sector: there is no commit.
const NOT_READ: &[u8] = b"0 group 3 after 0
1 a.1 put 1 ok
2 group 4 after 2
3 a.2 sync group 4
4 a.3 attach new device failed 3
5 a.4 put 2 ok
6 group 5 after 6
7 a.5 sync group 5
";

/// It fails in the commit, before it is a device of the pool.
const NOT_WRITTEN: &[u8] = b"0 group 3 after 0
1 a.1 put 1 ok
2 group 4 after 2
3 a.2 sync group 4
4 group 5 after 4
5 a.3 attach new device failed 3
6 a.4 put 2 ok
7 group 6 after 7
8 a.5 sync group 6
";

/// The calls on the new device: those that the opening makes, which reads its ring; behind those that the attach makes
/// before its commit, which are one more; and behind a write of the page and a sync, with which it joins.
const READ: u64 = RING + RING + 1;

const JOINED: u64 = READ + 2;

/// The same behind the attach's commit and the one of the last sync. A put writes nothing there.
const DONE: u64 = JOINED + 2 + 4;

/// What is answered where the new device fails that call, and whether it is out then.
fn answered(failing: u64) -> (&'static [u8], bool) {
    if failing < RING {
        (ATTACHED, false)
    } else if failing < READ {
        (NOT_READ, false)
    } else if failing < JOINED {
        (NOT_WRITTEN, false)
    } else {
        (ATTACHED, failing < DONE)
    }
}

const READS: &[u8] = b"clients 1\na get 1\na get 2\n";

const READ_BACK: &[u8] = b" after 0\n1 a.1 get 1 at 1 bytes 61\n2 a.2 get 2 at 2 bytes 62\n";

/// Whether both blocks are read by a later run, in which this device fails.
fn are_read_without(alloc: Global, bank: &MemBank, device: u32) -> Result<bool, Fail> {
    let images = bank.crash_at(alloc, bank.clock(), &[])?;
    let mut left = MemBank::from_images(alloc, images)?;
    left.fail_from(device, 0)?;
    let told = run(alloc, &mut left, READS)?;
    Ok(told.text.as_slice().ends_with(READ_BACK))
}

/// One call on the new device fails, of these numbers.
fn check_failing(rt: &impl Abort, alloc: Global, from: u64, to: u64) -> Result<(), Fail> {
    for failing in from..to {
        let (wanted, is_out) = answered(failing);
        let out = DeviceSet::from_bits(if is_out { 8 } else { 0 });
        let mut bank = bank_of_nine_and_a_blank(alloc)?;
        bank.fail_at(&[(3, failing)])?;
        let told = run(alloc, &mut bank, PUTS)?;
        assert_eq!(rt; told.text.as_slice(), wanted, "call {failing}");
        assert_eq!(rt; told.out(), Some(out), "call {failing}");
        for device in 0..5 {
            if is_out && device < 3 {
                continue;
            }
            assert!(rt;
                are_read_without(alloc, &bank, device)?,
                "call {failing}, without {device}"
            );
        }
    }
    Ok(())
}

#[test]
fn a_new_device_that_fails_while_it_is_read_is_refused(rt: HostRuntime) -> Result<(), Fail> {
    check_failing(&rt, rt.alloc(), 0, READ)
}

#[test]
fn a_new_device_that_fails_to_be_written_is_refused_or_out(rt: HostRuntime) -> Result<(), Fail> {
    check_failing(&rt, rt.alloc(), READ, DONE + 1)
}
