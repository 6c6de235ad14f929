// Devices, sinks and sources that fail.
use crate::calls::{MAKE_NINE, REPLAY, RUN, STATUS, call, call_with};
use bank_mem::{MemBank, MemSink, MemSource};
use raidzx_top::Status;
use std::alloc::Global;
use std::sync::Wait;
use std::test::Fail;
use std::thread::Threads;
use test_pools::banks::{MAKING, OPENING, bank_of_nine};
use uberblock_ring::DeviceSet;

#[test]
fn a_bank_without_a_pool_is_no_pool(rt: HostRuntime) -> Result<(), Fail> {
    let alloc = rt.alloc();
    for (devices, sectors) in [(3, 256), (1, 1), (17, 32)] {
        let bank = MemBank::new(alloc, devices, sectors)?;
        let told = call(&rt, alloc, RUN, bank, SCRIPT)?;
        assert_eq!(rt; told.status, Status::NotPool);
        assert_eq!(rt; told.text.as_slice(), b"not a pool\n".as_slice());
        assert_eq!(rt; (told.items, told.bank.clock()), (0, 0));
    }
    Ok(())
}

#[test]
fn a_pool_that_lacks_too_many_devices_is_not_opened(rt: HostRuntime) -> Result<(), Fail> {
    let alloc = rt.alloc();
    let rows: [(u64, &[u8]); 3] = [
        (7, b"too many failed 0 1 2\n"),
        (5, b"too many failed 0 2\n"),
        (6, b"too many failed 1 2\n"),
    ];
    for (bits, text) in rows {
        let out = DeviceSet::from_bits(bits);
        let mut bank = bank_of_nine(alloc)?;
        let clock = bank.clock();
        for device in 0..3 {
            if out.has(device) {
                bank.fail_at(&[(device, MAKING)])?;
            }
        }
        let told = call(&rt, alloc, RUN, bank, SCRIPT)?;
        assert_eq!(rt; told.status, Status::TooManyFailed { out });
        assert_eq!(rt; told.text.as_slice(), text);
        assert_eq!(rt; (told.items, told.bank.clock()), (0, clock));
    }
    Ok(())
}

/// Block 8 has two sectors of content, so that with the parities it has one on each device.
const SCRIPT: &[u8] = b"clients 1\na put 8 1000 5\na sum 8\na sync\n";

const ANSWERED: &[u8] = b"0 group 3 after 0
1 a.1 put 8 ok
2 a.2 sum 8 at 2 length 1000 sha 18249577807d9788926ea4deef2c0c38ddd276c1419f2e5fcb76b7cee66a0b09
3 group 4 after 3
4 a.3 sync group 4
";

const READ: &[u8] = b"clients 1\na sum 8\n";

const READ_ANSWERED: &[u8] = b"0 group 6 after 0
1 a.1 sum 8 at 1 length 1000 sha 18249577807d9788926ea4deef2c0c38ddd276c1419f2e5fcb76b7cee66a0b09
";

/// Pools, each with its parity, its width and how many sets of its devices there are.
const POOLS: [(&str, u32, u32, u64); 3] = [
    (MAKE_NINE, 1, 3, 8),
    ("raidzx create --parity 2 --width 4 --id 9", 2, 4, 16),
    ("raidzx create --parity 3 --width 5 --id 9", 3, 5, 32),
];

/// A new pool, each of these devices failing from this call on.
fn failing_bank<R: Threads + Wait + Sync>(
    rt: &R,
    alloc: Global,
    words: &str,
    width: u32,
    failing: DeviceSet,
    from: u64,
) -> Result<MemBank, Fail> {
    let bank = MemBank::new(alloc, width, 256)?;
    let mut bank = call(rt, alloc, words, bank, b"")?.bank;
    for device in 0..width.min(16) {
        if failing.has(device) {
            bank.fail_from(device, from)?;
        }
    }
    Ok(bank)
}

#[test]
fn all_is_answered_while_no_more_devices_fail_than_there_are_parities(
    rt: HostRuntime,
) -> Result<(), Fail> {
    let alloc = rt.alloc();
    for (words, parity, width, sets) in POOLS {
        for bits in 0..sets {
            let failing = DeviceSet::from_bits(bits);
            if failing.len() != parity {
                continue;
            }
            // They fail from the run's beginning on, or once the put is done.
            for from in [MAKING, MAKING + OPENING + 1] {
                let mut bank = failing_bank(&rt, alloc, words, width, failing, from)?;
                for (script, text) in [(SCRIPT, ANSWERED), (READ, READ_ANSWERED)] {
                    let told = call(&rt, alloc, RUN, bank, script)?;
                    assert_eq!(rt; told.text.as_slice(), text, "{bits} of {words} from {from}");
                    assert_eq!(rt; told.status, Status::Done, "{bits} of {words} from {from}");
                    bank = told.bank;
                }
            }
        }
    }
    Ok(())
}

#[test]
fn a_run_that_loses_too_many_devices_tells_them_last(rt: HostRuntime) -> Result<(), Fail> {
    let alloc = rt.alloc();
    let out = DeviceSet::from_bits(3);
    let text = b"0 group 3 after 0
1 a.1 put 8 ok
2 a.2 sum 8 too many failed 0 1
3 a.3 sync too many failed 0 1
too many failed 0 1
";
    // (the sink's room, the status)
    for (room, status) in [
        (text.len(), Status::TooManyFailed { out }),
        (text.len() - 1, Status::SinkFault),
    ] {
        let bank = failing_bank(&rt, alloc, MAKE_NINE, 3, out, MAKING + OPENING + 1)?;
        let source = MemSource::new(alloc, SCRIPT, &[])?;
        let sink = MemSink::with_room(alloc, room as u64, &[])?;
        let told = call_with(&rt, alloc, RUN, bank, source, sink)?;
        assert_eq!(rt; told.text.as_slice(), text.get(..room).unwrap_or(b""));
        assert_eq!(rt; told.status, status);
        assert_eq!(rt; told.items, 4);
    }
    Ok(())
}

/// Device 0 fails its write of block 2, device 2 its read of block 1, device 3 its write of block 3.
const LOSSES: &[u8] = b"clients 1
a puthex 1 61
a sync
a puthex 2 62
a get 1
a sync
a puthex 3 63
";

const LOSSES_TOLD: &[u8] = b"0 group 3 after 0
1 a.1 put 1 ok
2 group 4 after 2
3 a.2 sync group 4
4 a.3 put 2 ok
5 a.4 get 1 at 5 bytes 61
6 group 5 after 6
7 a.5 sync group 5
8 a.6 put 3 too many failed 0 2 3
too many failed 0 2 3
";

#[test]
fn a_device_that_answers_again_gives_what_was_synced_with_the_others_lost(
    rt: HostRuntime,
) -> Result<(), Fail> {
    let alloc = rt.alloc();
    let words = "raidzx create --parity 2 --width 4 --id 9";
    let mut bank = call(&rt, alloc, words, MemBank::new(alloc, 4, 256)?, b"")?.bank;
    // Beside its writes of blocks a device has four calls for a sync: index, sync, uberblock, sync.
    bank.fail_at(&[
        (0, MAKING + OPENING + 5),
        (2, MAKING + OPENING + 5),
        (3, MAKING + OPENING + 9),
    ])?;
    let told = call(&rt, alloc, RUN, bank, LOSSES)?;
    let out = DeviceSet::from_bits(13);
    assert_eq!(rt; told.text.as_slice(), LOSSES_TOLD);
    assert_eq!(rt; told.status, Status::TooManyFailed { out });
    let mut bank = told.bank;
    bank.fail_from(0, 0)?;
    bank.fail_from(2, 0)?;
    let told = call(
        &rt,
        alloc,
        RUN,
        bank,
        b"clients 1\na get 1\na get 2\na get 3\n",
    )?;
    let text = b"0 group 7 after 0
1 a.1 get 1 at 1 bytes 61
2 a.2 get 2 at 2 bytes 62
3 a.3 get 3 at 3 absent
";
    assert_eq!(rt; told.text.as_slice(), text.as_slice());
    assert_eq!(rt; told.status, Status::Done);
    Ok(())
}

#[test]
fn a_sink_that_fails_has_a_front_of_the_text(rt: HostRuntime) -> Result<(), Fail> {
    let alloc = rt.alloc();
    // (the words, the sink's room, which of its writes fails, the status, what it has)
    let rows: [(&str, u64, u64, Status, &[u8]); 10] = [
        (RUN, 10, 9, Status::SinkFault, b"0 group 3 "),
        (RUN, 1000, 0, Status::SinkFault, b""),
        (REPLAY, 10, 9, Status::SinkFault, b"0 group 3 "),
        (MAKE_NINE, 10, 9, Status::SinkFault, b"pool 9 par"),
        (MAKE_NINE, 1000, 0, Status::SinkFault, b""),
        ("raidzx scrub", 2, 9, Status::Usage, b"us"),
        ("raidzx scrub", 1000, 0, Status::Usage, b""),
        (STATUS, 10, 9, Status::SinkFault, b"pool 9 par"),
        (STATUS, 1000, 0, Status::SinkFault, b""),
        (
            "raidzx create --parity 1 --width 4 --id 9",
            0,
            9,
            Status::TooSmall,
            b"",
        ),
    ];
    for (words, room, number, status, text) in rows {
        let source = MemSource::new(alloc, SCRIPT, &[])?;
        let sink = MemSink::with_room(alloc, room, &[number])?;
        let told = call_with(&rt, alloc, words, bank_of_nine(alloc)?, source, sink)?;
        assert_eq!(rt; told.status, status, "{words} with room for {room}");
        assert_eq!(rt; told.text.as_slice(), text, "{words} with room for {room}");
    }
    Ok(())
}

#[test]
fn what_was_synced_stands_although_it_was_not_told(rt: HostRuntime) -> Result<(), Fail> {
    let alloc = rt.alloc();
    let source = MemSource::new(alloc, SCRIPT, &[])?;
    let sink = MemSink::with_room(alloc, 0, &[])?;
    let told = call_with(&rt, alloc, RUN, bank_of_nine(alloc)?, source, sink)?;
    assert_eq!(rt; (told.status, told.items), (Status::SinkFault, 5));
    let told = call(&rt, alloc, RUN, told.bank, READ)?;
    assert_eq!(rt; told.text.as_slice(), READ_ANSWERED);
    Ok(())
}

#[test]
fn a_source_that_fails_is_told_and_changes_nothing(rt: HostRuntime) -> Result<(), Fail> {
    let alloc = rt.alloc();
    // (the words, which read fails, the status, the text)
    let rows: [(&str, u64, Status, &[u8]); 4] = [
        (RUN, 0, Status::SourceFault, b"source fault\n"),
        (RUN, 1, Status::SourceFault, b"source fault\n"),
        (REPLAY, 0, Status::SourceFault, b"source fault\n"),
        ("raidzx scrub", 0, Status::Usage, b"usage\n"),
    ];
    for (words, number, status, text) in rows {
        let bank = bank_of_nine(alloc)?;
        let clock = bank.clock();
        let source = MemSource::new(alloc, SCRIPT, &[number])?;
        let sink = MemSink::with_room(alloc, 1000, &[])?;
        let told = call_with(&rt, alloc, words, bank, source, sink)?;
        assert_eq!(rt; told.status, status, "{words}, read {number}");
        assert_eq!(rt; told.text.as_slice(), text, "{words}, read {number}");
        assert_eq!(rt; (told.items, told.bank.clock()), (0, clock));
    }
    Ok(())
}
