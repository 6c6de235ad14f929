// A pool's whole way, each joint of it: made, filled, cut short in a commit, opened again on the bank that was given
// back, widened on a larger bank, stopped in the copy, and copied to the end.
use crate::calls::{MAKE_NINE, RUN, STATUS, call, carry_out};
use crate::copy_stop_tests::all_sectors;
use bank_mem::{MemBank, Tear};
use bank_trait::Bank;
use raidzx_top::Status;
use std::alloc::Global;
use std::process::Abort;
use std::sync::Wait;
use std::test::Fail;
use std::thread::Threads;
use test_pools::banks::{RING, copy_of};
use test_pools::runs::run;
use uberblock_ring::DeviceSet;

const MADE: &[u8] = b"pool 9 parity 1 width 3 rows 64 group 1\n";

/// With their parities the blocks take sectors 0 to 131. The third one lies across 128, where the first mark of the
/// copy is.
const PUTS: &[u8] = b"clients 1
a put 1 1000 5
a put 2 40000 1
a put 3 1536 0
a put 4 512 2
a sync
";

const PUTS_TOLD: &[u8] = b"0 group 3 after 0
1 a.1 put 1 ok
2 a.2 put 2 ok
3 a.3 put 3 ok
4 a.4 put 4 ok
5 group 4 after 5
6 a.5 sync group 4
";

/// Of the fifth block devices 0 and 1 have one sector each.
const CUT_SHORT: &[u8] = b"clients 1\na puthex 5 61\na sync\n";

const CUT_SHORT_TOLD: &[u8] = b"0 group 6 after 0
1 a.1 put 5 ok
2 a.2 sync too many failed 0 1
too many failed 0 1
";

/// The calls on these devices before that sync: the opening's, which reads a page too, and a write.
const BEFORE_SYNC: u64 = RING + 1 + 3 + 1;

const SUMS: &[u8] = b"clients 1
a sum 1
a sum 2
a sum 3
a sum 4
a get 5
";

/// The same, and a commit behind it, whose page is written over that of the group before.
const SUMS_AND_SYNC: &[u8] = b"clients 1
a sum 1
a sum 2
a sum 3
a sum 4
a get 5
a puthex 6 62
a sync
";

const SUMS_TOLD: &str = " after 0
1 a.1 sum 1 at 1 length 1000 sha 18249577807d9788926ea4deef2c0c38ddd276c1419f2e5fcb76b7cee66a0b09
2 a.2 sum 2 at 2 length 40000 sha 0e3bee0674aceec37027bb6d45a1499859ca0239c316987578c4db14f9fa58e5
3 a.3 sum 3 at 3 length 1536 sha 423619b406bbdb3265da917e5fe1fbdf7012cda9f127d2dd7b540abb6a1b2ba8
4 a.4 sum 4 at 4 length 512 sha 9e3abeee3e06d9d7d4b980e96a44dde607601a1f00f1c4728b32d3b0af6ea358
5 a.5 get 5 at 5 ";

/// A new pool once four blocks were synced.
fn filled<R: Abort + Threads + Wait + Sync>(rt: &R, alloc: Global) -> Result<MemBank, Fail> {
    let bank = carry_out(
        rt,
        alloc,
        MAKE_NINE,
        MemBank::new(alloc, 3, 256)?,
        b"",
        MADE,
    )?;
    carry_out(rt, alloc, RUN, bank, PUTS, PUTS_TOLD)
}

/// The bank as a run gives it back whose last sync meets two failed devices, each at this call of the commit on it: a
/// write of the page, a sync, a write of the uberblock, a sync.
fn cut_short<R: Abort + Threads + Wait + Sync>(
    rt: &R,
    alloc: Global,
    bank: &MemBank,
    number: u64,
) -> Result<MemBank, Fail> {
    let mut bank = copy_of(alloc, bank)?;
    let failing = BEFORE_SYNC.wrapping_add(number);
    bank.fail_at(&[(0, failing), (1, failing)])?;
    let told = call(rt, alloc, RUN, bank, CUT_SHORT)?;
    let out = DeviceSet::from_bits(3);
    assert_eq!(rt; told.text.as_slice(), CUT_SHORT_TOLD);
    assert_eq!(rt; told.status, Status::TooManyFailed { out });
    Ok(told.bank)
}

const ABSENT: &str = "absent\n";

const THERE: &str = "bytes 61\n";

/// Whether a run reads the blocks back while this device fails, if there is one of this number. The line of the last
/// block ends in one of these ways.
fn is_read(alloc: Global, bank: MemBank, failing: u32, lasts: &[&str]) -> Result<bool, Fail> {
    let mut bank = bank;
    bank.fail_from(failing, 0)?;
    let told = run(alloc, &mut bank, SUMS)?;
    for last in lasts {
        let wanted = format!(in alloc; "{SUMS_TOLD}{last}")?;
        if told.text.as_slice().ends_with(wanted.as_bytes()) {
            return Ok(told.out().is_some());
        }
    }
    Ok(false)
}

/// The blocks are read back without each device of four, and with all.
fn check_reads(rt: &impl Abort, alloc: Global, bank: &MemBank, last: &str) -> Result<(), Fail> {
    for failing in 0..5 {
        let left = copy_of(alloc, bank)?;
        assert!(rt;
            is_read(alloc, left, failing, &[last])?,
            "without {failing}"
        );
    }
    Ok(())
}

/// Whatever a power cut leaves since this call, the synced blocks are read back without the device that failed first.
fn check_stops(rt: &impl Abort, alloc: Global, bank: &MemBank, begun: u64) -> Result<(), Fail> {
    let kept = all_sectors(alloc, Tear::Kept)?;
    let filled = all_sectors(alloc, Tear::Filled(0xa5))?;
    for clock in begun..bank.clock().saturating_add(1) {
        for torn in [&kept, &filled] {
            let images = bank.crash_at(alloc, clock, torn.as_slice())?;
            let left = MemBank::from_images(alloc, images)?;
            assert!(rt; is_read(alloc, left, 0, &[ABSENT, THERE])?, "at {clock}");
        }
    }
    Ok(())
}

/// On the bank that is given back, without a power cut, the next run reads the blocks and commits, and they are read
/// behind it.
fn go_on<R: Abort + Threads + Wait + Sync>(
    rt: &R,
    alloc: Global,
    bank: MemBank,
    group: u64,
    last: &str,
) -> Result<MemBank, Fail> {
    let next = group.wrapping_add(1);
    let text = format!(in alloc;
        "0 group {group}{SUMS_TOLD}{last}6 a.6 put 6 ok\n7 group {next} after 7\n8 a.7 sync group {next}\n"
    )?;
    let bank = carry_out(rt, alloc, RUN, bank, SUMS_AND_SYNC, text.as_bytes())?;
    check_reads(rt, alloc, &bank, last)?;
    Ok(bank)
}

#[test]
fn a_run_goes_on_where_one_was_cut_short_in_a_commit(rt: HostRuntime) -> Result<(), Fail> {
    let alloc = rt.alloc();
    let filled = filled(&rt, alloc)?;
    // (the call that fails, the group of the next opening, whether the fifth block is there)
    for (number, group, last) in [
        (0, 8, ABSENT),
        (1, 8, ABSENT),
        (2, 8, ABSENT),
        (3, 9, THERE),
    ] {
        let bank = cut_short(&rt, alloc, &filled, number)?;
        let begun = bank.clock();
        let bank = go_on(&rt, alloc, bank, group, last)?;
        check_stops(&rt, alloc, &bank, begun)?;
    }
    Ok(())
}

/// The sectors of a device of the larger bank.
const LARGER: usize = 320;

/// A larger bank that begins with these devices, and a blank one behind them.
fn with_a_blank(alloc: Global, bank: &MemBank) -> Result<MemBank, Fail> {
    let mut images = bank.crash_at(alloc, bank.clock(), &[])?;
    images.push(Vec::new(alloc))?;
    for image in &mut images {
        for _sector in image.len()..LARGER {
            image.push([0; 512])?;
        }
    }
    Ok(MemBank::from_images(alloc, images)?)
}

const ATTACH: &[u8] = b"clients 1\na attach\n";

const ATTACH_TOLD: &[u8] = b"0 group 12 after 0
1 group 13 after 1
2 a.1 attach width 4 group 13
";

const NO_CALLS: &[u8] = b"clients 1\n";

const COPY_TOLD: &[u8] = b"0 group 15 after 0
1 group 16 after 1
2 group 17 after 2
3 group 18 after 3
4 group 19 after 4
5 x.1 copy done width 4
";

/// Stops in the midst of each part of the copy: behind how many of its writes and syncs, and what a look tells of the
/// group and the mark then. Four calls of a commit for each device, beside the opening's three, come between the parts:
/// the fill of 128 sectors, the drain, and 39 and 25 sectors that are moved behind it.
const STOPS: [(u64, &str); 4] = [
    (12 + 64, "15\nwidth 3 to 4 mark 0 state none"),
    (156 + 64, "16\nwidth 3 to 4 mark 128 state valid"),
    (300 + 20, "17\nwidth 3 to 4 mark 128 state moved"),
    (355 + 12, "18\nwidth 3 to 4 mark 167 state moved"),
];

/// Wherever the copy goes on, it ends in the same group.
const COPIED: &[u8] = b"pool 9 parity 1 rows 64 group 21
width 4
births 0:3 23:4
out none
blocks 6
";

/// The pool on the larger bank, of which nothing is copied.
fn attached<R: Abort + Threads + Wait + Sync>(rt: &R, alloc: Global) -> Result<MemBank, Fail> {
    let filled = filled(rt, alloc)?;
    let bank = cut_short(rt, alloc, &filled, 3)?;
    let bank = go_on(rt, alloc, bank, 9, THERE)?;
    let larger = with_a_blank(alloc, &bank)?;
    carry_out(rt, alloc, RUN, larger, ATTACH, ATTACH_TOLD)
}

/// What a stop left is told so and read back, also without a device. The copy goes on there to its end, and behind that
/// the blocks are read back too.
fn copy_on<R: Abort + Threads + Wait + Sync>(
    rt: &R,
    alloc: Global,
    left: MemBank,
    text: &[u8],
) -> Result<(), Fail> {
    let left = carry_out(rt, alloc, STATUS, left, b"", text)?;
    check_reads(rt, alloc, &left, THERE)?;
    let told = call(rt, alloc, RUN, left, NO_CALLS)?;
    assert!(rt; told.text.as_slice().ends_with(b" x.1 copy done width 4\n"));
    let copied = carry_out(rt, alloc, STATUS, told.bank, b"", COPIED)?;
    check_reads(rt, alloc, &copied, THERE)
}

#[test]
fn a_pool_on_a_larger_bank_is_copied_on_where_the_copy_was_stopped(
    rt: HostRuntime,
) -> Result<(), Fail> {
    let alloc = rt.alloc();
    let attached = attached(&rt, alloc)?;
    let begun = attached.clock();
    let copied = carry_out(&rt, alloc, RUN, attached, NO_CALLS, COPY_TOLD)?;
    let kept = all_sectors(alloc, Tear::Kept)?;
    let filled = all_sectors(alloc, Tear::Filled(0xa5))?;
    for (calls, told) in STOPS {
        let text = format!(in alloc;
            "pool 9 parity 1 rows 64 group {told}\nbirths 0:3\nout none\nblocks 6\n"
        )?;
        for torn in [&kept, &filled] {
            let images = copied.crash_at(alloc, begun.wrapping_add(calls), torn.as_slice())?;
            copy_on(
                &rt,
                alloc,
                MemBank::from_images(alloc, images)?,
                text.as_bytes(),
            )?;
        }
    }
    Ok(())
}
