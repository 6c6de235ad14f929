// Runs, and what they say line by line.
use crate::calls::{REPLAY, RUN, call, sector_of};
use client_script::{CallFault, LineFault};
use raidzx_top::Status;
use std::test::Fail;
use test_pools::banks::bank_of_nine;

const FIRST: &[u8] = b"clients 1
a put 7 3 5
a get 7
a sync
";

const FIRST_TOLD: &[u8] = b"0 group 3 after 0
1 a.1 put 7 ok
2 a.2 get 7 at 2 bytes 050c13
3 group 4 after 3
4 a.3 sync group 4
";

const READ: &[u8] = b"clients 1\na get 7\n";

#[test]
fn what_was_synced_is_read_in_later_runs_also_without_a_device(
    rt: HostRuntime,
) -> Result<(), Fail> {
    let alloc = rt.alloc();
    let told = call(&rt, alloc, RUN, bank_of_nine(alloc)?, FIRST)?;
    assert_eq!(rt; told.status, Status::Done);
    assert_eq!(rt; told.text.as_slice(), FIRST_TOLD);
    assert_eq!(rt; (told.items, told.turns), (5, 22));
    let told = call(&rt, alloc, RUN, told.bank, READ)?;
    let text = b"0 group 6 after 0\n1 a.1 get 7 at 1 bytes 050c13\n".as_slice();
    assert_eq!(rt; told.status, Status::Done);
    assert_eq!(rt; told.text.as_slice(), text);
    let mut bank = told.bank;
    bank.fail_from(1, 0)?;
    let told = call(&rt, alloc, RUN, bank, READ)?;
    let text = b"0 group 8 after 0\n1 a.1 get 7 at 1 bytes 050c13\n".as_slice();
    assert_eq!(rt; told.status, Status::Done);
    assert_eq!(rt; told.text.as_slice(), text);
    Ok(())
}

/// The block's three bytes, and zeros up to the sector's end.
fn content_of_seven() -> [u8; 512] {
    let mut sector = [0; 512];
    sector[0] = 0x05;
    sector[1] = 0x0c;
    sector[2] = 0x13;
    sector
}

/// The first bytes of the index page: the entry of block 7, at sector 0, three bytes, born in group 4.
const ENTRY: [u8; 28] = [
    0, 0, 0, 0, 0, 0, 0, 7, 0, 0, 0, 0, 0, 0, 0, 0, 0, 0, 0, 3, 0, 0, 0, 0, 0, 0, 0, 4,
];

#[test]
fn content_parity_index_and_uberblock_stand_where_the_format_says(
    rt: HostRuntime,
) -> Result<(), Fail> {
    let alloc = rt.alloc();
    let told = call(&rt, alloc, RUN, bank_of_nine(alloc)?, FIRST)?;
    let mut bank = told.bank;
    // Sector 0 is the parity, on device 0, and sector 1 the content, on device 1.
    for (device, wanted) in [
        (0, content_of_seven()),
        (1, content_of_seven()),
        (2, [0; 512]),
    ] {
        assert!(rt;
            sector_of(&rt, &mut bank, device, 192) == wanted,
            "row 0 of {device}"
        );
        assert!(rt;
            sector_of(&rt, &mut bank, device, 193) == [0; 512],
            "row 1 of {device}"
        );
        let page = sector_of(&rt, &mut bank, device, 64);
        assert!(rt; page.starts_with(&ENTRY), "index of {device}");
        let slot = sector_of(&rt, &mut bank, device, 4);
        assert!(rt;
            slot.starts_with(b"RZXPUB01") && slot[31] == 4,
            "slot 4 of {device}"
        );
        assert!(rt;
            sector_of(&rt, &mut bank, device, 5) == [0; 512],
            "slot 5 of {device}"
        );
    }
    Ok(())
}

/// Block 7 is put twice and synced, then it is freed and 8 is put.
const CHANGES: &[u8] = b"# two clients
clients 2

a get 7
a puthex 7 616263
b get 7
b puthex 7 6465
a sum 7
b sync
a free 7
b get 7
a free 7
b puthex 8 ff
a sum 8
";

const CHANGES_TOLD: &[u8] = b"0 group 3 after 0
1 a.1 get 7 at 1 absent
2 a.2 put 7 ok
3 b.1 get 7 at 3 bytes 616263
4 b.2 put 7 ok
5 a.3 sum 7 at 5 length 2 sha 959a45d44e6fcf58361ed004681556fe50129f2109e817dec098c00c9e5d2578
6 group 4 after 6
7 b.3 sync group 4
8 a.4 free 7 ok
9 b.4 get 7 at 9 absent
10 a.5 free 7 absent
11 b.5 put 8 ok
12 a.6 sum 8 at 12 length 1 sha a8100ae6aa1940d0b663bb31cd466142ebbdbd5187131b92d93818987832eb89
";

const LATER: &[u8] = b"clients 1\na get 7\na get 8\na sum 9\n";

const LATER_TOLD: &[u8] = b"0 group 6 after 0
1 a.1 get 7 at 1 bytes 6465
2 a.2 get 8 at 2 absent
3 a.3 sum 9 at 3 absent
";

#[test]
fn what_was_not_synced_is_gone_in_the_next_run(rt: HostRuntime) -> Result<(), Fail> {
    let alloc = rt.alloc();
    let mut bank = bank_of_nine(alloc)?;
    for (words, script, text) in [(REPLAY, CHANGES, CHANGES_TOLD), (RUN, LATER, LATER_TOLD)] {
        let told = call(&rt, alloc, words, bank, script)?;
        assert_eq!(rt; told.text.as_slice(), text);
        assert_eq!(rt; told.status, Status::Done);
        bank = told.bank;
    }
    Ok(())
}

/// A call that there is not.
const UNKNOWN_CALL: LineFault = LineFault::InCall {
    why: CallFault::UnknownCall,
};

fn script_fault(line: u64, why: LineFault) -> Status {
    Status::ScriptFault { line, why }
}

#[test]
fn a_script_that_breaks_a_rule_is_told_and_changes_nothing(rt: HostRuntime) -> Result<(), Fail> {
    let alloc = rt.alloc();
    let rows: [(&[u8], Status, &[u8]); 7] = [
        (
            b"",
            script_fault(1, LineFault::NoClients),
            b"script line 1\n",
        ),
        (
            b"# nothing\n",
            script_fault(2, LineFault::NoClients),
            b"script line 2\n",
        ),
        (
            b"clients 1\na sync\na sink\n",
            script_fault(3, UNKNOWN_CALL),
            b"script line 3\n",
        ),
        (
            b"clients 1\nb sync\n",
            script_fault(2, LineFault::NoSuchClient { clients: 1 }),
            b"script line 2\n",
        ),
        (
            b"clients 1\na scrub\n",
            script_fault(2, UNKNOWN_CALL),
            b"script line 2\n",
        ),
        (b"clients 9\n", Status::Limit, b"limit\n"),
        (
            b"clients 18446744073709551617\na sink\n",
            Status::Limit,
            b"limit\n",
        ),
    ];
    for (script, status, text) in rows {
        let bank = bank_of_nine(alloc)?;
        let clock = bank.clock();
        let told = call(&rt, alloc, RUN, bank, script)?;
        assert_eq!(rt; told.status, status);
        assert_eq!(rt; told.text.as_slice(), text);
        assert_eq!(rt; told.items, 0);
        assert_eq!(rt; told.bank.clock(), clock);
    }
    Ok(())
}

#[test]
fn a_script_of_no_call_opens_the_pool(rt: HostRuntime) -> Result<(), Fail> {
    let alloc = rt.alloc();
    let told = call(&rt, alloc, RUN, bank_of_nine(alloc)?, b"clients 8\n")?;
    assert_eq!(rt; told.status, Status::Done);
    assert_eq!(rt; told.text.as_slice(), b"0 group 3 after 0\n".as_slice());
    Ok(())
}

#[test]
fn a_put_without_space_is_told_and_the_run_is_done(rt: HostRuntime) -> Result<(), Fail> {
    let alloc = rt.alloc();
    let mut script = Vec::from_slice(alloc, b"clients 1\n")?;
    // The pool has 192 sectors, and each of these blocks takes two.
    for id in 0..97 {
        let line = format!(in alloc; "a puthex {id} 61\n")?;
        script.extend_from_slice(line.as_bytes())?;
    }
    let told = call(&rt, alloc, RUN, bank_of_nine(alloc)?, script.as_slice())?;
    let last = b"\n96 a.96 put 95 ok\n97 a.97 put 96 no space 2\n";
    assert!(rt; told.text.as_slice().ends_with(last));
    assert_eq!(rt; (told.status, told.items), (Status::Done, 98));
    Ok(())
}
