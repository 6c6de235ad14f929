// Puts that find no room: in the pool, and in its table.
ghost use Rattle.std.specs.Prelude.{◌<◌, ◌^◌};

use bank_mem::MemBank;
use bank_trait::Bank;
use core_open::create;
use std::alloc::{AllocError, Global};
use std::process::Abort;
use std::test::Fail;
use test_pools::plans::letter;
use test_pools::runs::replay;

/// What some clients ask for, in which order, and what they are told.
#[derive(Drop)]
struct Talk {
    calls: String,
    order: String,
    told: String,
}

/// A put of each id below this one, with so many bytes, by clients in turns, under way beside those of the others.
/// One of 512 bytes at most has four turns.
fn talk_of_puts(alloc: Global, clients: u64, ids: u64, len: u64) -> Result<Talk, AllocError>
    requires some { 0 < clients }
    requires few { ids < 2 ^ 32 }
{
    let mut calls = format!(in alloc; "clients {clients}\n")?;
    let mut order = String::from_str(alloc, "order ")?;
    let mut told = String::from_str(alloc, "0 group 3 after 0\n")?;
    for id in 0..ids {
        let client = letter(id % clients);
        let number = id / clients + 1;
        let place = id + 1;
        writeln!(calls, "{client} put {id} {len} 0")?;
        writeln!(told, "{place} {client}.{number} put {id} ok")?;
    }
    for turn in 0..4 * ids {
        order.push(letter(turn % clients))?;
    }
    Ok(Talk { calls, order, told })
}

impl Talk {
    /// More calls, turns and answers, at the end.
    fn go_on(&mut self, calls: &str, order: &str, told: &str) -> Result<(), AllocError> {
        self.calls.push_str(calls)?;
        self.order.push_str(order)?;
        self.told.push_str(told)
    }

    /// Asks all of it on a new pool of three devices of so many sectors.
    fn check(&self, rt: &impl Abort, alloc: Global, sectors: u64) -> Result<(), Fail> {
        let mut bank = MemBank::new(alloc, 3, sectors)?;
        assert!(rt; 256 <= sectors && bank.devices() == 3 && bank.sectors() == sectors);
        create(&mut bank, 1, 3, 9)?;
        let calls = self.calls.as_str();
        let order = self.order.as_str();
        let script = format!(in alloc; "{calls}{order}\n")?;
        let told = replay(alloc, &mut bank, script.as_bytes())?;
        assert_eq!(rt; told.text.as_slice(), self.told.as_bytes());
        Ok(())
    }
}

// The pool has 192 sectors, and each of these blocks takes two.
#[test]
fn the_97th_put_finds_no_space_until_a_block_is_freed_and_synced(
    rt: HostRuntime,
) -> Result<(), Fail> {
    let alloc = rt.alloc();
    let mut talk = talk_of_puts(alloc, 2, 96, 512)?;
    talk.go_on(
        "a put 96 512 0
b put 97 512 0
a free 0
b put 98 512 0
a sync
b put 99 512 0
a put 100 512 0
",
        "ab",
        "97 a.49 put 96 no space 2
98 b.49 put 97 no space 2
99 a.50 free 0 ok
100 b.50 put 98 no space 2
101 group 4 after 101
102 a.51 sync group 4
103 b.51 put 99 ok
104 a.52 put 100 no space 2
",
    )?;
    talk.check(&rt, alloc, 256)
}

// The 512th id is reserved, and its put under way, when the 513th is asked for first.
#[test]
fn a_513th_id_finds_the_table_full_and_a_held_one_is_put(rt: HostRuntime) -> Result<(), Fail> {
    let alloc = rt.alloc();
    let mut talk = talk_of_puts(alloc, 4, 508, 1)?;
    talk.go_on(
        "a put 508 1 0
b put 509 1 0
c put 510 1 0
d put 511 1 0
a put 512 1 0
b put 512 1 0
c put 511 1 9
d get 511
",
        "abcabcabcabcda",
        "509 a.128 put 508 ok
510 b.128 put 509 ok
511 c.128 put 510 ok
512 a.129 put 512 full
513 d.128 put 511 ok
514 b.129 put 512 full
515 c.129 put 511 ok
516 d.129 get 511 at 516 bytes 09
",
    )?;
    talk.check(&rt, alloc, 1024)
}
