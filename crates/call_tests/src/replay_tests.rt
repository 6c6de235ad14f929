// Replays, and what they say line by line.
use crate::calls::{REPLAY, RUN, call};
use client_script::LineFault;
use raidzx_top::Status;
use std::test::Fail;
use test_pools::banks::{MAKING, OPENING, bank_of_nine};

/// The second put ends first: the later last turn wins. A put of one sector has four turns: its first, two writes, its
/// last. So has a read of it.
const TWO_PUTS: &[u8] = b"clients 2
a puthex 7 61
b puthex 7 62
a get 7
order abbbbaaa
";

const TWO_PUTS_TOLD: &[u8] = b"0 group 3 after 0
1 b.1 put 7 ok
2 a.1 put 7 ok
3 a.2 get 7 at 3 bytes 61
";

/// The second sync waits for the first one, three turns long. A sync of one block on three devices has 14 turns.
const TWO_SYNCS: &[u8] = b"clients 2
a puthex 7 61
a sync
b sync
order aaaaabbb
";

const TWO_SYNCS_TOLD: &[u8] = b"0 group 3 after 0
1 a.1 put 7 ok
2 group 4 after 2
3 a.2 sync group 4
4 group 5 after 4
5 b.1 sync group 5
";

/// The read begins before the free, and goes on after it.
const READ_AND_FREE: &[u8] = b"clients 2
a puthex 7 61
b get 7
a free 7
order aaaabab
";

const READ_AND_FREE_TOLD: &[u8] = b"0 group 3 after 0
1 a.1 put 7 ok
2 a.2 free 7 ok
3 b.1 get 7 at 2 bytes 61
";

/// Without an order each call is carried out whole.
const NO_ORDER: &[u8] = b"clients 2
a puthex 7 61
b puthex 7 62
a get 7
";

const NO_ORDER_TOLD: &[u8] = b"0 group 3 after 0
1 a.1 put 7 ok
2 b.1 put 7 ok
3 a.2 get 7 at 3 bytes 62
";

#[test]
fn calls_are_carried_out_turn_by_turn(rt: HostRuntime) -> Result<(), Fail> {
    let alloc = rt.alloc();
    // (the script, its text, how many turns it takes: the order's, those of calls under way, those of the rest)
    let rows: [(&[u8], &[u8], u64); 4] = [
        (TWO_PUTS, TWO_PUTS_TOLD, 8 + 4),
        (TWO_SYNCS, TWO_SYNCS_TOLD, 8 + 13 + 14),
        (READ_AND_FREE, READ_AND_FREE_TOLD, 7 + 2),
        (NO_ORDER, NO_ORDER_TOLD, 4 + 4 + 4),
    ];
    for (script, text, turns) in rows {
        let told = call(&rt, alloc, REPLAY, bank_of_nine(alloc)?, script)?;
        assert_eq!(rt; told.text.as_slice(), text);
        assert_eq!(rt; told.status, Status::Done);
        assert_eq!(rt; told.turns, turns);
    }
    Ok(())
}

const READ: &[u8] = b"clients 1\na get 7\n";

#[test]
fn a_later_run_reads_the_last_group_of_a_replay(rt: HostRuntime) -> Result<(), Fail> {
    let alloc = rt.alloc();
    let told = call(&rt, alloc, REPLAY, bank_of_nine(alloc)?, TWO_SYNCS)?;
    let told = call(&rt, alloc, RUN, told.bank, READ)?;
    let text = b"0 group 7 after 0\n1 a.1 get 7 at 1 bytes 61\n".as_slice();
    assert_eq!(rt; told.text.as_slice(), text);
    assert_eq!(rt; (told.status, told.turns), (Status::Done, 4));
    Ok(())
}

#[test]
fn a_replay_goes_on_past_a_device_that_fails(rt: HostRuntime) -> Result<(), Fail> {
    let alloc = rt.alloc();
    for device in 0..3 {
        // It fails once the pool is open.
        let mut bank = bank_of_nine(alloc)?;
        bank.fail_from(device, MAKING + OPENING)?;
        let told = call(&rt, alloc, REPLAY, bank, TWO_PUTS)?;
        assert_eq!(rt; told.text.as_slice(), TWO_PUTS_TOLD, "without {device}");
        assert_eq!(rt; told.status, Status::Done, "without {device}");
    }
    Ok(())
}

#[test]
fn a_replay_that_is_refused_says_so(rt: HostRuntime) -> Result<(), Fail> {
    let alloc = rt.alloc();
    let order: &[u8] = b"clients 1\na sync\norder ab\n";
    let rows: [(&str, &[u8], Status, &[u8]); 2] = [
        (
            REPLAY,
            order,
            Status::ScriptFault {
                line: 3,
                why: LineFault::Turns,
            },
            b"script line 3\n",
        ),
        ("raidzx replay x", NO_ORDER, Status::Usage, b"usage\n"),
    ];
    for (words, script, status, text) in rows {
        let told = call(&rt, alloc, words, bank_of_nine(alloc)?, script)?;
        assert_eq!(rt; told.text.as_slice(), text);
        assert_eq!(rt; (told.status, told.items, told.turns), (status, 0, 0));
    }
    Ok(())
}
