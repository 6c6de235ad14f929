// Replays and their journals, line by line.
use std::alloc::Global;
use std::process::Abort;
use std::test::Fail;
use test_pools::banks::bank_of_nine;
use test_pools::runs::{finished, replay};
use uberblock_ring::DeviceSet;

/// Whether a script that is replayed on a new pool is told this, in so many turns.
fn tells(
    rt: &impl Abort,
    alloc: Global,
    script: &[u8],
    turns: u64,
    wanted: &[u8],
) -> Result<(), Fail> {
    tell_in_turn(rt, alloc, &[(script, turns, wanted)])
}

/// Whether scripts that are replayed one after the other are told this, each in so many turns.
fn tell_in_turn(
    rt: &impl Abort,
    alloc: Global,
    scripts: &[(&[u8], u64, &[u8])],
) -> Result<(), Fail> {
    let mut bank = bank_of_nine(alloc)?;
    for (script, turns, wanted) in scripts {
        let told = replay(alloc, &mut bank, script)?;
        assert_eq!(rt; told.text.as_slice(), *wanted);
        assert_eq!(rt; told.ended, finished(*turns, DeviceSet::empty()));
    }
    Ok(())
}

/// A put of one sector has four turns: its first, two writes, its last. So has a read of it: its first, two columns,
/// its last. After the order's eight turns there is a read.
const TWO_PUTS: &[u8] = b"clients 2
a puthex 7 61
b puthex 7 62
a get 7
order abbbbaaa
";

const TWO_PUTS_TOLD: &[u8] = b"0 group 3 after 0
1 b.1 put 7 ok
2 a.1 put 7 ok
3 a.2 get 7 at 3 bytes 61
";

#[test]
fn of_two_puts_the_later_last_turn_wins(rt: HostRuntime) -> Result<(), Fail> {
    tells(&rt, rt.alloc(), TWO_PUTS, 8 + 4, TWO_PUTS_TOLD)
}

/// All writes of the put are made when the first read begins, which has one turn, as it finds nothing.
const BEFORE_THE_END: &[u8] = b"clients 2
a puthex 7 61
b get 7
b get 7
order aaaba
";

const BEFORE_THE_END_TOLD: &[u8] = b"0 group 3 after 0
1 b.1 get 7 at 1 absent
2 a.1 put 7 ok
3 b.2 get 7 at 3 bytes 61
";

#[test]
fn a_put_is_there_from_its_last_turn_on(rt: HostRuntime) -> Result<(), Fail> {
    tells(&rt, rt.alloc(), BEFORE_THE_END, 5 + 4, BEFORE_THE_END_TOLD)
}

/// The second sync finds the first one under way, three times; these are turns too. A sync of no block on three devices
/// has 11 turns: its first, a sync, a write of the uberblock and a sync for each device, its last.
const TWO_SYNCS: &[u8] = b"clients 2
a sync
b sync
order abbb
";

const TWO_SYNCS_TOLD: &[u8] = b"0 group 3 after 0
1 group 4 after 1
2 a.1 sync group 4
3 group 5 after 3
4 b.1 sync group 5
";

#[test]
fn a_sync_waits_for_another(rt: HostRuntime) -> Result<(), Fail> {
    tells(&rt, rt.alloc(), TWO_SYNCS, 4 + 10 + 11, TWO_SYNCS_TOLD)
}

/// A sync of two blocks has 14 turns: each device's index page is one write more. The read begins once the first sync
/// is answered, and goes on after all else.
const READ_OF_A_FREED_BLOCK: &[u8] = b"clients 2
a put 1 512 0
a put 2 512 1
a sync
a free 1
a put 3 512 2
a sync
a put 4 512 3
b sum 1
order aaaaaaaaaaaaaaaaaaaaaa
order b
order aaaaaaaaaaaaaaaaaaaaaaa
";

const READ_OF_A_FREED_BLOCK_TOLD: &[u8] = b"0 group 3 after 0
1 a.1 put 1 ok
2 a.2 put 2 ok
3 group 4 after 3
4 a.3 sync group 4
5 a.4 free 1 ok
6 a.5 put 3 ok
7 group 5 after 7
8 a.6 sync group 5
9 a.7 put 4 ok
10 b.1 sum 1 at 5 length 512 sha fd2941bab53142007822a059711cfa7f92b5c93c1d16a43b52fbebff72648776
";

#[test]
fn a_read_answers_the_map_of_its_first_turn(rt: HostRuntime) -> Result<(), Fail> {
    tells(
        &rt,
        rt.alloc(),
        READ_OF_A_FREED_BLOCK,
        22 + 1 + 23 + 3,
        READ_OF_A_FREED_BLOCK_TOLD,
    )
}

/// The read's first column is read when the block is freed, and another read begins.
const READ_BESIDE_A_FREE: &[u8] = b"clients 2
a puthex 1 61
a get 1
b free 1
b sum 1
order aaaaaabb
";

const READ_BESIDE_A_FREE_TOLD: &[u8] = b"0 group 3 after 0
1 a.1 put 1 ok
2 b.1 free 1 ok
3 b.2 sum 1 at 3 absent
4 a.2 get 1 at 2 bytes 61
";

#[test]
fn a_read_goes_on_while_its_block_is_freed(rt: HostRuntime) -> Result<(), Fail> {
    tells(
        &rt,
        rt.alloc(),
        READ_BESIDE_A_FREE,
        8 + 2,
        READ_BESIDE_A_FREE_TOLD,
    )
}

/// The put ends while the commit is under way.
const PUT_BESIDE_A_SYNC: &[u8] = b"clients 2
a puthex 7 61
b sync
order abaaa
";

const PUT_BESIDE_A_SYNC_TOLD: &[u8] = b"0 group 3 after 0
1 a.1 put 7 ok
2 group 4 after 1
3 b.1 sync group 4
";

const READ: &[u8] = b"clients 1
a get 7
";

const READ_TOLD: &[u8] = b"0 group 6 after 0
1 a.1 get 7 at 1 absent
";

/// The read and the free come between the commit's turns, and the read ends after it.
const READ_BESIDE_A_SYNC: &[u8] = b"clients 3
a puthex 7 61
a sync
b get 7
c free 7
order aaaaababcaaaaaaaaaaaa
";

const READ_BESIDE_A_SYNC_TOLD: &[u8] = b"0 group 3 after 0
1 a.1 put 7 ok
2 c.1 free 7 ok
3 group 4 after 2
4 a.2 sync group 4
5 b.1 get 7 at 2 bytes 61
";

const READ_BACK_TOLD: &[u8] = b"0 group 6 after 0
1 a.1 get 7 at 1 bytes 61
";

#[test]
fn a_read_and_a_free_go_on_beside_a_commit(rt: HostRuntime) -> Result<(), Fail> {
    tell_in_turn(
        &rt,
        rt.alloc(),
        &[
            (READ_BESIDE_A_SYNC, 21 + 2, READ_BESIDE_A_SYNC_TOLD),
            (READ, 4, READ_BACK_TOLD),
        ],
    )
}

#[test]
fn a_group_has_the_map_of_its_syncs_first_turn(rt: HostRuntime) -> Result<(), Fail> {
    tell_in_turn(
        &rt,
        rt.alloc(),
        &[
            (PUT_BESIDE_A_SYNC, 5 + 10, PUT_BESIDE_A_SYNC_TOLD),
            (READ, 1, READ_TOLD),
        ],
    )
}

/// The calls on a device that make a pool and open it.
const OPENED: u64 = 70;

const SIDE_BY_SIDE: &[u8] = b"clients 2
a puthex 7 61
b puthex 8 62
a get 7
b get 8
order abababab
";

const SIDE_BY_SIDE_TOLD: &[u8] = b"0 group 3 after 0
1 a.1 put 7 ok
2 b.1 put 8 ok
3 a.2 get 7 at 3 bytes 61
4 b.2 get 8 at 4 bytes 62
";

/// Blocks of two sectors have a column on each device: a put and a read of one have five turns.
const READ_BESIDE_A_PUT: &[u8] = b"clients 2
a put 1 1000 5
a sum 1
b put 2 1000 5
order aaaaaababababab
";

const READ_BESIDE_A_PUT_TOLD: &[u8] = b"0 group 3 after 0
1 a.1 put 1 ok
2 a.2 sum 1 at 2 length 1000 sha 18249577807d9788926ea4deef2c0c38ddd276c1419f2e5fcb76b7cee66a0b09
3 b.1 put 2 ok
";

#[test]
fn calls_go_on_side_by_side_past_a_device_that_fails(rt: HostRuntime) -> Result<(), Fail> {
    let alloc = rt.alloc();
    for (script, turns, wanted) in [
        (SIDE_BY_SIDE, 8 + 4 + 4, SIDE_BY_SIDE_TOLD),
        (READ_BESIDE_A_PUT, 15, READ_BESIDE_A_PUT_TOLD),
    ] {
        for device in 0..3 {
            let mut bank = bank_of_nine(alloc)?;
            bank.fail_from(device, OPENED + 1)?;
            let told = replay(alloc, &mut bank, script)?;
            let out = DeviceSet::from_bits(1 << device);
            assert_eq!(rt; told.text.as_slice(), wanted, "without {device}");
            assert_eq!(rt; told.ended, finished(turns, out), "without {device}");
        }
    }
    Ok(())
}
