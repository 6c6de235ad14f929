// What a look at a pool tells, and that it changes nothing.
use crate::calls::{RUN, STATUS, Told, call, call_with};
use bank_mem::{MemBank, MemSink, MemSource};
use raidzx_top::Status;
use reflow_mark::State;
use std::alloc::Global;
use std::process::Abort;
use std::sync::Wait;
use std::test::Fail;
use std::thread::Threads;
use test_pools::banks::{MAKING, bank_of_nine, bank_of_width, bank_on_the_way};
use uberblock_ring::DeviceSet;

/// Looks at the pool on a bank. The source fails at its first read, and none is made.
fn look<R: Abort + Threads + Wait + Sync>(
    rt: &R,
    alloc: Global,
    bank: MemBank,
) -> Result<Told, Fail> {
    let clock = bank.clock();
    let source = MemSource::new(alloc, b"", &[0])?;
    let sink = MemSink::with_room(alloc, 1 << 10, &[])?;
    let told = call_with(rt, alloc, STATUS, bank, source, sink)?;
    assert_eq!(rt; (told.items, told.turns), (0, 0));
    assert_eq!(rt; told.bank.clock(), clock, "a write, or a sync");
    Ok(told)
}

/// The bank of a new pool, of which these devices fail from their first read on.
fn bank_without(alloc: Global, failing: &[u32]) -> Result<MemBank, Fail> {
    let mut bank = bank_of_nine(alloc)?;
    for device in failing {
        bank.fail_from(*device, MAKING)?;
    }
    Ok(bank)
}

/// The bank once three blocks were synced and a fourth was put.
fn bank_with_blocks<R: Threads + Wait + Sync>(rt: &R, alloc: Global) -> Result<MemBank, Fail> {
    let script = b"clients 1\na put 7 3 5\na put 8 1000 5\na put 9 1 1\na sync\na put 10 1 1\n";
    Ok(call(rt, alloc, RUN, bank_of_nine(alloc)?, script)?.bank)
}

#[test]
fn a_pool_is_told_as_it_stands(rt: HostRuntime) -> Result<(), Fail> {
    let alloc = rt.alloc();
    let rows: [(&str, MemBank, &[u8]); 6] = [
        (
            "a new pool",
            bank_of_nine(alloc)?,
            b"pool 9 parity 1 rows 64 group 1\nwidth 3\nbirths 0:3\nout none\nblocks 0\n",
        ),
        (
            "a wide one of three parities",
            bank_of_width(alloc, 3, 16)?,
            b"pool 9 parity 3 rows 64 group 1\nwidth 16\nbirths 0:16\nout none\nblocks 0\n",
        ),
        (
            "one with blocks",
            bank_with_blocks(&rt, alloc)?,
            b"pool 9 parity 1 rows 64 group 4\nwidth 3\nbirths 0:3\nout none\nblocks 3\n",
        ),
        (
            "one without a device",
            bank_without(alloc, &[1])?,
            b"pool 9 parity 1 rows 64 group 1\nwidth 3\nbirths 0:3\nout 1\nblocks 0\n",
        ),
        (
            "one on its way, in the scratch area",
            bank_on_the_way(alloc, (State::Valid, 128))?,
            b"pool 9 parity 1 rows 64 group 1\nwidth 3 to 4 mark 128 state valid\nbirths 0:3\nout none\nblocks 0\n",
        ),
        (
            "one on its way, at its new places",
            bank_on_the_way(alloc, (State::Moved, 128))?,
            b"pool 9 parity 1 rows 64 group 1\nwidth 3 to 4 mark 128 state moved\nbirths 0:3\nout none\nblocks 0\n",
        ),
    ];
    for (name, bank, text) in rows {
        let told = look(&rt, alloc, bank)?;
        assert_eq!(rt; told.status, Status::Done, "{name}");
        assert_eq!(rt; told.text.as_slice(), text, "{name}");
        // A second look tells the same.
        let again = look(&rt, alloc, told.bank)?;
        assert_eq!(rt; again.text.as_slice(), text, "{name}");
    }
    Ok(())
}

#[test]
fn a_look_that_finds_no_pool_or_too_few_devices_tells_so(rt: HostRuntime) -> Result<(), Fail> {
    let alloc = rt.alloc();
    let many = |bits: u64| Status::TooManyFailed {
        out: DeviceSet::from_bits(bits),
    };
    let rows: [(MemBank, Status, &[u8]); 4] = [
        (
            MemBank::new(alloc, 3, 256)?,
            Status::NotPool,
            b"not a pool\n",
        ),
        (MemBank::new(alloc, 1, 1)?, Status::NotPool, b"not a pool\n"),
        (
            bank_without(alloc, &[0, 1, 2])?,
            many(7),
            b"too many failed 0 1 2\n",
        ),
        (
            bank_without(alloc, &[0, 2])?,
            many(5),
            b"too many failed 0 2\n",
        ),
    ];
    for (bank, status, text) in rows {
        let told = look(&rt, alloc, bank)?;
        assert_eq!(rt; told.status, status);
        assert_eq!(rt; told.text.as_slice(), text);
    }
    Ok(())
}

#[test]
fn a_device_that_a_run_put_out_is_told_once_it_answers_again(rt: HostRuntime) -> Result<(), Fail> {
    let alloc = rt.alloc();
    let mut bank = bank_of_nine(alloc)?;
    // It fails the first read of the run, and no call after that.
    bank.fail_at(&[(1, MAKING)])?;
    let told = call(&rt, alloc, RUN, bank, b"clients 1\na sync\n")?;
    assert_eq!(rt; told.status, Status::Done);
    let told = look(&rt, alloc, told.bank)?;
    let text = b"pool 9 parity 1 rows 64 group 4\nwidth 3\nbirths 0:3\nout 1\nblocks 0\n";
    assert_eq!(rt; told.text.as_slice(), text.as_slice());
    Ok(())
}
