// Runs on what a stop or damage left.
use crate::calls::{RUN, call};
use bank_mem::{MemBank, Tear, Torn};
use bank_trait::Bank;
use raidzx_top::Status;
use std::test::Fail;
use test_pools::banks::bank_of_nine;
use uberblock_ring::DeviceSet;

const PUT: &[u8] = b"clients 1\na puthex 1 616263\na sync\n";

const READ: &[u8] = b"clients 1\na get 1\n";

#[test]
fn a_stop_between_uberblocks_leaves_the_group_before_or_this_one(
    rt: HostRuntime,
) -> Result<(), Fail> {
    let alloc = rt.alloc();
    let words = "raidzx create --parity 1 --width 4 --id 9";
    let made = call(&rt, alloc, words, MemBank::new(alloc, 4, 256)?, b"")?;
    let told = call(&rt, alloc, RUN, made.bank, PUT)?;
    assert_eq!(rt; told.status, Status::Done);
    // The last calls of a sync are the uberblocks of four devices and their syncs. It is stopped after the
    // second uberblock, of which the first alone stays.
    let stop = told.bank.clock().saturating_sub(6);
    let torn = [Torn {
        device: 0,
        sector: 4,
        how: Tear::Kept,
    }];
    let rows: [(bool, &[u8]); 2] = [
        (true, b"0 group 5 after 0\n1 a.1 get 1 at 1 absent\n"),
        (false, b"0 group 6 after 0\n1 a.1 get 1 at 1 bytes 616263\n"),
    ];
    for (fails, text) in rows {
        let images = told.bank.crash_at(alloc, stop, &torn)?;
        let mut left = MemBank::from_images(alloc, images)?;
        if fails {
            left.fail_from(0, 0)?;
        }
        let told = call(&rt, alloc, RUN, left, READ)?;
        assert_eq!(rt; told.text.as_slice(), text, "device 0 fails: {fails}");
        assert_eq!(rt; told.status, Status::Done);
    }
    Ok(())
}

#[test]
fn spoiled_sectors_are_passed_over_or_told(rt: HostRuntime) -> Result<(), Fail> {
    let alloc = rt.alloc();
    let read: &[u8] = b"0 group 6 after 0\n1 a.1 get 1 at 1 bytes 616263\n";
    let older: &[u8] = b"0 group 5 after 0\n1 a.1 get 1 at 1 absent\n";
    let damaged: &[u8] = b"0 group 6 after 0\n1 a.1 get 1 at 1 damaged\n";
    // (from which device to which one this sector is spoiled, and which; the text)
    for (first, end, sector, text) in [
        (0, 1, 4, read),
        (0, 2, 64, read),
        (0, 3, 64, older),
        (0, 1, 192, read),
        (1, 2, 192, read),
        (0, 2, 192, damaged),
    ] {
        let mut bank = call(&rt, alloc, RUN, bank_of_nine(alloc)?, PUT)?.bank;
        for device in first..end {
            assert!(rt; device < bank.devices() && sector < bank.sectors());
            bank.spoil(device, sector, 0xff)?;
        }
        let told = call(&rt, alloc, RUN, bank, READ)?;
        assert_eq!(rt; told.text.as_slice(), text, "{sector} of {first} to {end}");
        assert_eq!(rt; told.status, Status::Done, "{sector} of {first} to {end}");
    }
    Ok(())
}

#[test]
fn devices_that_are_exchanged_are_out(rt: HostRuntime) -> Result<(), Fail> {
    let alloc = rt.alloc();
    let bank = call(&rt, alloc, RUN, bank_of_nine(alloc)?, PUT)?.bank;
    let mut images = bank.crash_at(alloc, bank.clock(), &[])?;
    assert_eq!(rt; images.len(), 3);
    images.swap(0, 1);
    let told = call(&rt, alloc, RUN, MemBank::from_images(alloc, images)?, READ)?;
    let out = DeviceSet::from_bits(3);
    assert_eq!(rt; told.status, Status::TooManyFailed { out });
    assert_eq!(rt; told.text.as_slice(), b"too many failed 0 1\n".as_slice());
    Ok(())
}
