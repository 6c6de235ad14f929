// Runs that widen a pool: what a copy answers, and where blocks stand then.
use crate::calls::{RUN, STATUS, call, sector_of};
use raidzx_top::Status;
use std::test::Fail;
use test_pools::banks::{
    bank_of_nine, bank_of_nine_and_a_blank, bank_of_nine_and_two_blanks, copy_of,
};
use test_pools::runs::run;
use uberblock_ring::DeviceSet;

/// Block 1 is put before the copy, block 2 in the group behind its last one, and block 3 in the next.
const WHOLE: &[u8] = b"clients 1
a put 1 1536 0
a sync
a attach
a copy
a put 2 1536 0
a sync
a put 3 1536 0
a sync
";

const WHOLE_TOLD: &[u8] = b"0 group 3 after 0
1 a.1 put 1 ok
2 group 4 after 2
3 a.2 sync group 4
4 group 5 after 4
5 a.3 attach width 4 group 5
6 group 6 after 6
7 group 7 after 7
8 group 8 after 8
9 group 9 after 9
10 a.4 copy done width 4
11 a.5 put 2 ok
12 group 10 after 12
13 a.6 sync group 10
14 a.7 put 3 ok
15 group 11 after 15
16 a.8 sync group 11
";

const WIDER: &[u8] = b"pool 9 parity 1 rows 64 group 11
width 4
births 0:3 11:4
out none
blocks 3
";

/// The sum of some of the first sectors of a pattern with seed 0: the parity of these, or one of them.
fn sum_of(places: &[u64]) -> [u8; 512] {
    let mut sum = [0; 512];
    for (at, byte) in sum.iter_mut().enumerate() {
        for place in places {
            let whole = place.wrapping_mul(512).wrapping_add(at as u64);
            let value = whole.wrapping_mul(7).wrapping_add(whole / 256);
            *byte ^= (value % 256) as u8;
        }
    }
    sum
}

/// What the sectors of the pool hold from 0 on: blocks 1 and 2 in rows of three and of two, with a spare sector behind
/// each, and block 3 in a row of four.
const STANDING: [&[u64]; 16] = [
    &[0, 2],
    &[0],
    &[2],
    &[1],
    &[1],
    &[],
    &[0, 2],
    &[0],
    &[2],
    &[1],
    &[1],
    &[],
    &[0, 1, 2],
    &[0],
    &[1],
    &[2],
];

/// Where the entries of the index say that blocks begin, and in which group these were born.
const ENTRIES: [(u8, u8, u8); 3] = [(1, 0, 4), (2, 6, 10), (3, 12, 11)];

#[test]
fn a_widened_pool_has_its_blocks_in_rows_of_four(rt: HostRuntime) -> Result<(), Fail> {
    let alloc = rt.alloc();
    let told = call(&rt, alloc, RUN, bank_of_nine_and_a_blank(alloc)?, WHOLE)?;
    assert_eq!(rt; told.text.as_slice(), WHOLE_TOLD);
    assert_eq!(rt; (told.status, told.items), (Status::Done, 17));
    let told = call(&rt, alloc, STATUS, told.bank, b"")?;
    assert_eq!(rt; told.text.as_slice(), WIDER);
    let mut bank = told.bank;
    for (sector, places) in STANDING.iter().enumerate() {
        if !places.is_empty() {
            let device = (sector % 4) as u32;
            let row = (sector / 4) as u64;
            let found = sector_of(&rt, &mut bank, device, row.wrapping_add(192));
            assert!(rt; found == sum_of(places), "sector {sector}");
        }
    }
    for device in 0..4 {
        let page = sector_of(&rt, &mut bank, device, 128);
        for (entry, (id, start, birth)) in page.chunks_exact(64).zip(ENTRIES) {
            let found = (entry.get(7), entry.get(15), entry.get(27));
            assert_eq!(rt;
                found,
                (Some(&id), Some(&start), Some(&birth)),
                "on {device}"
            );
        }
    }
    Ok(())
}

const SUM: &str =
    "length 1536 sha 423619b406bbdb3265da917e5fe1fbdf7012cda9f127d2dd7b540abb6a1b2ba8";

/// A block is put and synced before each of two widenings.
const TWICE: &[u8] = b"clients 1
a put 1 1536 0
a sync
a attach
a copy
a put 2 1536 0
a sync
a attach
a attach
a copy
a copy
";

const TWICE_TOLD: &[u8] = b"0 group 3 after 0
1 a.1 put 1 ok
2 group 4 after 2
3 a.2 sync group 4
4 group 5 after 4
5 a.3 attach width 4 group 5
6 group 6 after 6
7 group 7 after 7
8 group 8 after 8
9 group 9 after 9
10 a.4 copy done width 4
11 a.5 put 2 ok
12 group 10 after 12
13 a.6 sync group 10
14 group 11 after 14
15 a.7 attach width 5 group 11
16 a.8 attach expanding to 5
17 group 12 after 17
18 group 13 after 18
19 group 14 after 19
20 group 15 after 20
21 group 16 after 21
22 a.9 copy done width 5
23 a.10 copy done width 5
";

const WIDEST: &[u8] = b"pool 9 parity 1 rows 64 group 16
width 5
births 0:3 11:4 18:5
out none
blocks 2
";

/// The two blocks take 12 sectors of 320. Blocks are of width 5 then, with a parity for each four sectors.
const FILLED: &[u8] = b"clients 1
a put 3 65536 0
a put 4 60928 0
a put 4 60416 0
a puthex 5 61
";

const FILLED_TOLD: &[u8] = b"0 group 18 after 0
1 a.1 put 3 ok
2 a.2 put 4 no space 150
3 a.3 put 4 ok
4 a.4 put 5 no space 2
";

#[test]
fn a_pool_is_widened_twice(rt: HostRuntime) -> Result<(), Fail> {
    let alloc = rt.alloc();
    let told = call(&rt, alloc, RUN, bank_of_nine_and_two_blanks(alloc)?, TWICE)?;
    assert_eq!(rt; told.text.as_slice(), TWICE_TOLD);
    let told = call(&rt, alloc, STATUS, told.bank, b"")?;
    assert_eq!(rt; told.text.as_slice(), WIDEST);
    let wanted = format!(in alloc;
        "0 group 18 after 0\n1 a.1 sum 1 at 1 {SUM}\n2 a.2 sum 2 at 2 {SUM}\n"
    )?;
    for failing in 0..6 {
        let mut left = copy_of(alloc, &told.bank)?;
        left.fail_from(failing, 0)?;
        let read = run(alloc, &mut left, b"clients 1\na sum 1\na sum 2\n")?;
        assert_eq!(rt;
            read.text.as_slice(),
            wanted.as_bytes(),
            "without {failing}"
        );
    }
    let told = call(&rt, alloc, RUN, told.bank, FILLED)?;
    assert_eq!(rt; told.text.as_slice(), FILLED_TOLD);
    Ok(())
}

#[test]
fn there_is_nothing_to_copy_at_rest(rt: HostRuntime) -> Result<(), Fail> {
    let alloc = rt.alloc();
    let script = b"clients 1\na copy\na copy\n";
    let text = b" after 0\n1 a.1 copy done width 3\n2 a.2 copy done width 3\n";
    let told = call(&rt, alloc, RUN, bank_of_nine(alloc)?, script)?;
    assert!(rt; told.text.as_slice().ends_with(text));
    assert_eq!(rt; (told.status, told.items), (Status::Done, 3));
    let mut bank = told.bank;
    bank.fail_from(1, 0)?;
    let told = run(alloc, &mut bank, script)?;
    assert!(rt; told.text.as_slice().ends_with(text));
    assert_eq!(rt; told.out(), Some(DeviceSet::from_bits(2)));
    Ok(())
}
