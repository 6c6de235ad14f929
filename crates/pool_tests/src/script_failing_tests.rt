// Runs whose devices fail.
use bank_mem::{MemBank, MemSink};
use client_script::TextWriter;
use core_open::OpenWhy;
use std::alloc::Global;
use std::test::Fail;
use test_pools::banks::{MAKING, OPENING, bank_of_width};
use test_pools::runs::run;
use uberblock_ring::DeviceSet;

/// Block 8 has two data sectors, so that with the parities it has one on each device.
const SCRIPT: &[u8] = b"clients 1
a put 8 1000 5
a sum 8
a sync
a puthex 7 61
";

const ANSWERED: &[u8] = b"0 group 3 after 0
1 a.1 put 8 ok
2 a.2 sum 8 at 2 length 1000 sha 18249577807d9788926ea4deef2c0c38ddd276c1419f2e5fcb76b7cee66a0b09
3 group 4 after 3
4 a.3 sync group 4
5 a.4 put 7 ok
";

const READS: &[u8] = b"clients 1
a get 7
a sum 8
";

const READS_ANSWERED: &[u8] = b"0 group 6 after 0
1 a.1 get 7 at 1 absent
2 a.2 sum 8 at 2 length 1000 sha 18249577807d9788926ea4deef2c0c38ddd276c1419f2e5fcb76b7cee66a0b09
";

/// What that script is answered where too many devices are out by the read of block 8, each line up to these.
const READ_REFUSED: [&[u8]; 3] = [
    b"0 group 3 after 0\n1 a.1 put 8 ok\n2 a.2 sum 8 too many failed",
    b"\n3 a.3 sync too many failed",
    b"\n4 a.4 put 7 too many failed",
];

/// The same where they are out by its put.
const PUT_REFUSED: [&[u8]; 4] = [
    b"0 group 3 after 0\n1 a.1 put 8 too many failed",
    b"\n2 a.2 sum 8 too many failed",
    b"\n3 a.3 sync too many failed",
    b"\n4 a.4 put 7 too many failed",
];

/// These lines, each of which ends in these devices.
fn refused(alloc: Global, lines: &[&[u8]], out: DeviceSet) -> Result<MemSink, Fail> {
    let mut text = MemSink::with_room(alloc, 1 << 10, &[])?;
    let mut writer = TextWriter::new();
    for line in lines {
        writer.text(&mut text, line);
        writer.devices(&mut text, out.bits());
    }
    writer.text(&mut text, b"\n");
    writer.finish(&mut text)?;
    Ok(text)
}

/// A new pool, each of these devices failing from the first read of the block on.
fn failing_bank(
    alloc: Global,
    parity: u32,
    width: u32,
    failing: DeviceSet,
) -> Result<MemBank, Fail> {
    let mut bank = bank_of_width(alloc, parity, width)?;
    for device in 0..width {
        if failing.has(device) {
            bank.fail_from(device, MAKING + OPENING + 1)?;
        }
    }
    Ok(bank)
}

/// The parities of a pool, its width, and how many sets of its devices there are.
const POOLS: [(u32, u32, u64); 3] = [(1, 3, 8), (2, 4, 16), (3, 5, 32)];

#[test]
fn all_is_right_while_no_more_devices_fail_than_there_are_parities(
    rt: HostRuntime,
) -> Result<(), Fail> {
    let alloc = rt.alloc();
    for (parity, width, sets) in POOLS {
        for bits in 0..sets {
            let out = DeviceSet::from_bits(bits);
            if out.len() > parity {
                continue;
            }
            let mut bank = failing_bank(alloc, parity, width, out)?;
            for (script, wanted) in [(SCRIPT, ANSWERED), (READS, READS_ANSWERED)] {
                let told = run(alloc, &mut bank, script)?;
                assert_eq!(rt; told.text.as_slice(), wanted, "{bits} of {width}");
                assert_eq!(rt; told.out(), Some(out), "{bits} of {width}");
            }
        }
    }
    Ok(())
}

#[test]
fn one_device_more_is_told_and_no_run_opens_then(rt: HostRuntime) -> Result<(), Fail> {
    let alloc = rt.alloc();
    for (parity, width, sets) in POOLS {
        for bits in 0..sets {
            let out = DeviceSet::from_bits(bits);
            if out.len() != parity + 1 {
                continue;
            }
            let mut bank = failing_bank(alloc, parity, width, out)?;
            let told = run(alloc, &mut bank, SCRIPT)?;
            let wanted = refused(alloc, &READ_REFUSED, out)?;
            assert_eq!(rt;
                told.text.as_slice(),
                wanted.as_slice(),
                "{bits} of {width}"
            );
            assert_eq!(rt; told.out(), Some(out), "{bits} of {width}");
            let told = run(alloc, &mut bank, READS)?;
            assert_eq!(rt; told.text.as_slice(), b"".as_slice(), "{bits} of {width}");
            let why = OpenWhy::TooManyFailed { out };
            assert_eq!(rt; told.ended, Err(why), "{bits} of {width}");
        }
    }
    Ok(())
}

/// All devices fail, from their write of the block on or from their read of it on. Those that aren't called any
/// more are not out.
#[test]
fn no_device_is_called_once_too_many_are_out(rt: HostRuntime) -> Result<(), Fail> {
    let alloc = rt.alloc();
    let cases: [(u64, &[&[u8]]); 2] = [
        (MAKING + OPENING, &PUT_REFUSED),
        (MAKING + OPENING + 1, &READ_REFUSED),
    ];
    // (the parities, the devices, as many of the lowest as are too many)
    for (parity, width, lowest) in [(1, 3, 3), (2, 4, 7), (3, 5, 15)] {
        let out = DeviceSet::from_bits(lowest);
        for (from, lines) in cases {
            let mut bank = bank_of_width(alloc, parity, width)?;
            for device in 0..width {
                bank.fail_from(device, from)?;
            }
            let told = run(alloc, &mut bank, SCRIPT)?;
            let wanted = refused(alloc, lines, out)?;
            assert_eq!(rt;
                told.text.as_slice(),
                wanted.as_slice(),
                "{width} from {from}"
            );
            assert_eq!(rt; told.out(), Some(out), "{width} from {from}");
        }
    }
    Ok(())
}

/// The first devices of a new pool, so many of them.
fn bank_that_lacks_the_last(
    alloc: Global,
    parity: u32,
    width: u32,
    there: usize,
) -> Result<MemBank, Fail> {
    let bank = bank_of_width(alloc, parity, width)?;
    let mut images = bank.crash_at(alloc, bank.clock(), &[])?;
    images.truncate(there);
    Ok(MemBank::from_images(alloc, images)?)
}

#[test]
fn a_bank_may_lack_as_many_devices_as_there_are_parities(rt: HostRuntime) -> Result<(), Fail> {
    let alloc = rt.alloc();
    // (the parities, the devices, how many are there, those that aren't)
    for (parity, width, there, lacking) in [(1, 3, 2, 4), (2, 4, 2, 12), (3, 5, 2, 28)] {
        let mut bank = bank_that_lacks_the_last(alloc, parity, width, there)?;
        for (script, wanted) in [(SCRIPT, ANSWERED), (READS, READS_ANSWERED)] {
            let told = run(alloc, &mut bank, script)?;
            assert_eq!(rt; told.text.as_slice(), wanted, "{there} of {width}");
            assert_eq!(rt;
                told.out(),
                Some(DeviceSet::from_bits(lacking)),
                "{there} of {width}"
            );
        }
    }
    Ok(())
}

#[test]
fn a_bank_that_lacks_one_device_more_has_no_run(rt: HostRuntime) -> Result<(), Fail> {
    let alloc = rt.alloc();
    for (parity, width, lacking) in [(1, 3, 6), (2, 4, 14), (3, 5, 30)] {
        let out = DeviceSet::from_bits(lacking);
        let mut bank = bank_that_lacks_the_last(alloc, parity, width, 1)?;
        let told = run(alloc, &mut bank, SCRIPT)?;
        assert_eq!(rt; told.text.as_slice(), b"".as_slice(), "{width}");
        assert_eq!(rt; told.ended, Err(OpenWhy::TooManyFailed { out }), "{width}");
    }
    Ok(())
}
