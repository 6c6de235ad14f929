// Runs and their journals, line by line.
use bank_mem::MemBank;
use core_open::OpenWhy;
use std::test::Fail;
use test_pools::banks::bank_of_nine;
use test_pools::runs::run;
use uberblock_ring::DeviceSet;

/// Blocks 7 and 8 are synced, and then 7 is freed, 8 put anew and 9 put.
const ONE_CLIENT: &[u8] = b"clients 1
a puthex 7 616263
a get 7
a sum 7
a get 8
a puthex 8 64
a sync
a sync
a free 7
a get 7
a free 7
a puthex 8 65
a get 8
a puthex 9 66
";

const ONE_CLIENT_TOLD: &[u8] = b"0 group 3 after 0
1 a.1 put 7 ok
2 a.2 get 7 at 2 bytes 616263
3 a.3 sum 7 at 3 length 3 sha ba7816bf8f01cfea414140de5dae2223b00361a396177a9cb410ff61f20015ad
4 a.4 get 8 at 4 absent
5 a.5 put 8 ok
6 group 4 after 6
7 a.6 sync group 4
8 group 5 after 8
9 a.7 sync group 5
10 a.8 free 7 ok
11 a.9 get 7 at 11 absent
12 a.10 free 7 absent
13 a.11 put 8 ok
14 a.12 get 8 at 14 bytes 65
15 a.13 put 9 ok
";

const READS: &[u8] = b"clients 1
a get 7
a get 8
a get 9
";

const READS_TOLD: &[u8] = b"0 group 7 after 0
1 a.1 get 7 at 1 bytes 616263
2 a.2 get 8 at 2 bytes 64
3 a.3 get 9 at 3 absent
";

#[test]
fn what_was_synced_is_there_in_the_next_run_and_the_rest_is_gone(
    rt: HostRuntime,
) -> Result<(), Fail> {
    let alloc = rt.alloc();
    let mut bank = bank_of_nine(alloc)?;
    for (script, wanted) in [(ONE_CLIENT, ONE_CLIENT_TOLD), (READS, READS_TOLD)] {
        let told = run(alloc, &mut bank, script)?;
        assert_eq!(rt; told.text.as_slice(), wanted);
        assert_eq!(rt; told.out(), Some(DeviceSet::empty()));
    }
    Ok(())
}

/// The turns that it asks for are not taken: calls come in the order of their lines.
const TWO_CLIENTS: &[u8] = b"clients 2
order bbbb
a puthex 7 61
b get 7
b puthex 7 62
a get 7
a sync
b free 7
a get 7
a puthex 8 63
b sync
b get 8
";

const TWO_CLIENTS_TOLD: &[u8] = b"0 group 3 after 0
1 a.1 put 7 ok
2 b.1 get 7 at 2 bytes 61
3 b.2 put 7 ok
4 a.2 get 7 at 4 bytes 62
5 group 4 after 5
6 a.3 sync group 4
7 b.3 free 7 ok
8 a.4 get 7 at 8 absent
9 a.5 put 8 ok
10 group 5 after 10
11 b.4 sync group 5
12 b.5 get 8 at 12 bytes 63
";

#[test]
fn clients_take_turns_by_their_lines_and_see_each_others_puts(rt: HostRuntime) -> Result<(), Fail> {
    let alloc = rt.alloc();
    let mut bank = bank_of_nine(alloc)?;
    let told = run(alloc, &mut bank, TWO_CLIENTS)?;
    assert_eq!(rt; told.text.as_slice(), TWO_CLIENTS_TOLD);
    assert_eq!(rt; told.out(), Some(DeviceSet::empty()));
    Ok(())
}

#[test]
fn a_bank_without_a_pool_is_refused_and_nothing_is_told(rt: HostRuntime) -> Result<(), Fail> {
    let alloc = rt.alloc();
    let mut bank = MemBank::new(alloc, 3, 256)?;
    let told = run(alloc, &mut bank, ONE_CLIENT)?;
    assert_eq!(rt; told.ended, Err(OpenWhy::NotPool));
    assert_eq!(rt; told.text.as_slice(), b"".as_slice());
    Ok(())
}
