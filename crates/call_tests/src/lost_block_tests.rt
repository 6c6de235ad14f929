// A group whose uberblock comes to light late, and the block of the group before it.
use crate::calls::{RUN, call, carry_out};
use bank_mem::{MemBank, Tear, Torn};
use bank_trait::Bank;
use raidzx_top::Status;
use std::alloc::Global;
use std::process::Abort;
use std::sync::Wait;
use std::test::Fail;
use std::thread::Threads;
use test_pools::banks::{MAKING, OPENING, bank_of_nine};
use uberblock_ring::DeviceSet;

/// The sync of block 2 lays its page, and then the uberblock fails on devices 0 and 1.
const CUT_SHORT: &[u8] = b"clients 1\na puthex 1 61\na sync\na puthex 2 62\na sync\n";

const CUT_SHORT_TOLD: &[u8] = b"0 group 3 after 0
1 a.1 put 1 ok
2 group 4 after 2
3 a.2 sync group 4
4 a.3 put 2 ok
5 a.4 sync too many failed 0 1
too many failed 0 1
";

const SYNC: &[u8] = b"clients 1\na sync\n";

const READ: &[u8] = b"clients 1\na get 1\na get 2\n";

/// What device 0 was handed last in the slot of group 5: its uberblock.
const LATE: Torn = Torn {
    device: 0,
    sector: 5,
    how: Tear::Kept,
};

/// The first sector of the page of group 8 on the other devices.
const PAGES: [Torn; 2] = [
    Torn {
        device: 1,
        sector: 64,
        how: Tear::Kept,
    },
    Torn {
        device: 2,
        sector: 64,
        how: Tear::Kept,
    },
];

/// The first sector of the page of group 5.
const LATE_PAGE: u64 = 128;

/// What is read in the end: of group 4, of group 5 and of the two that renew it.
const READ_TOLD: [&[u8]; 4] = [
    b"0 group 6 after 0\n1 a.1 get 1 at 1 bytes 61\n2 a.2 get 2 at 2 absent\n",
    b"0 group 7 after 0\n1 a.1 get 1 at 1 bytes 61\n2 a.2 get 2 at 2 bytes 62\n",
    b"0 group 9 after 0\n1 a.1 get 1 at 1 bytes 61\n2 a.2 get 2 at 2 bytes 62\n",
    b"0 group 10 after 0\n1 a.1 get 1 at 1 bytes 61\n2 a.2 get 2 at 2 bytes 62\n",
];

/// What a stop leaves.
fn stop(alloc: Global, bank: &MemBank, clock: u64, torn: &[Torn]) -> Result<MemBank, Fail> {
    Ok(MemBank::from_images(alloc, bank.crash_at(alloc, clock, torn)?)?)
}

/// Groups 4 and 5 as they stand once two runs were stopped: all devices have both pages, device 0 alone has
/// the uberblock of group 5.
fn bank_with_a_late_uberblock<R: Abort + Threads + Wait + Sync>(
    rt: &R,
    alloc: Global,
) -> Result<MemBank, Fail> {
    let mut bank = bank_of_nine(alloc)?;
    // Device 0 was called for a block of each put, device 1 for one of the first.
    bank.fail_at(&[(0, MAKING + OPENING + 8), (1, MAKING + OPENING + 7)])?;
    let told = call(rt, alloc, RUN, bank, CUT_SHORT)?;
    let out = DeviceSet::from_bits(3);
    assert_eq!(rt; told.text.as_slice(), CUT_SHORT_TOLD);
    assert_eq!(rt; told.status, Status::TooManyFailed { out });
    let mut bank = told.bank;
    let clock = bank.clock();
    // The next opening finds group 4 on each device. Its sync of device 0 fails, after the ring and a page.
    bank.fail_at(&[(0, MAKING + OPENING + 9 + 33)])?;
    let text = b"0 group 6 after 0\n1 group 7 after 1\n2 a.1 sync group 7\n";
    let bank = carry_out(rt, alloc, RUN, bank, SYNC, text)?;
    // It is stopped after two syncs and one uberblock of group 6, which does not stay.
    stop(alloc, &bank, clock.saturating_add(3), &[LATE])
}

#[test]
fn a_synced_block_stays_where_a_late_uberblock_is_opened_and_its_device_fails(
    rt: HostRuntime,
) -> Result<(), Fail> {
    let alloc = rt.alloc();
    // (whether the page of group 5 rots on the other devices, after how many calls group 8 has its pages). No
    // opening writes over it, since each keeps the area of the page that it chose.
    for (rots, pages) in [(false, 14), (true, 18)] {
        let mut bank = bank_with_a_late_uberblock(&rt, alloc)?;
        if rots {
            for device in 1..3 {
                assert!(rt; device < bank.devices() && LATE_PAGE < bank.sectors());
                bank.spoil(device, LATE_PAGE, 0xff)?;
            }
        }
        let text = b"0 group 7 after 0\n1 group 8 after 1\n2 a.1 sync group 8\n";
        let bank = carry_out(&rt, alloc, RUN, bank, SYNC, text)?;
        let mut left = stop(alloc, &bank, pages, &PAGES)?;
        left.fail_from(0, 0)?;
        carry_out(&rt, alloc, RUN, left, READ, READ_TOLD[2])?;
        for clock in 0..bank.clock().saturating_add(1) {
            let mut left = stop(alloc, &bank, clock, &[])?;
            left.fail_from(0, 0)?;
            let told = call(&rt, alloc, RUN, left, READ)?;
            assert!(rt;
                READ_TOLD.contains(&told.text.as_slice()),
                "rots: {rots}, at {clock}"
            );
        }
    }
    Ok(())
}
