// Words, and pools that are made.
use crate::calls::{MAKE_NINE, call};
use bank_mem::MemBank;
use raidzx_top::Status;
use std::test::Fail;
use test_pools::banks::{MAKING, bank_of_nine};
use uberblock_ring::DeviceSet;

#[test]
fn a_pool_is_made_and_told_where_the_bank_is_large_enough(rt: HostRuntime) -> Result<(), Fail> {
    let alloc = rt.alloc();
    let rows: [(&str, u32, u64, Status, &[u8]); 8] = [
        (
            MAKE_NINE,
            3,
            256,
            Status::Done,
            b"pool 9 parity 1 width 3 rows 64 group 1\n",
        ),
        (
            "raidzx create --parity 2 --width 4 --id 9",
            4,
            256,
            Status::Done,
            b"pool 9 parity 2 width 4 rows 64 group 1\n",
        ),
        (
            MAKE_NINE,
            17,
            300,
            Status::Done,
            b"pool 9 parity 1 width 3 rows 108 group 1\n",
        ),
        (
            "raidzx create --parity 1 --width 2 --id 0",
            2,
            256,
            Status::Done,
            b"pool 0 parity 1 width 2 rows 64 group 1\n",
        ),
        (
            "raidzx create --parity 3 --width 16 --id 18446744073709551615",
            16,
            256,
            Status::Done,
            b"pool 18446744073709551615 parity 3 width 16 rows 64 group 1\n",
        ),
        (MAKE_NINE, 3, 255, Status::TooSmall, b"too small\n"),
        (MAKE_NINE, 2, 256, Status::TooSmall, b"too small\n"),
        (
            "raidzx create --parity 2 --width 2 --id 9",
            2,
            256,
            Status::Usage,
            b"usage\n",
        ),
    ];
    for (words, devices, sectors, status, text) in rows {
        let bank = MemBank::new(alloc, devices, sectors)?;
        let told = call(&rt, alloc, words, bank, b"")?;
        assert_eq!(rt; told.status, status, "{words} on {devices} of {sectors}");
        assert_eq!(rt;
            told.text.as_slice(),
            text,
            "{words} on {devices} of {sectors}"
        );
        assert_eq!(rt; (told.items, told.turns), (0, 0));
        let quiet = told.bank.clock() == 0;
        assert_eq!(rt;
            quiet,
            status != Status::Done,
            "{words} on {devices} of {sectors}"
        );
    }
    Ok(())
}

#[test]
fn a_device_that_fails_while_a_pool_is_made_is_told(rt: HostRuntime) -> Result<(), Fail> {
    let alloc = rt.alloc();
    let rows: [(u32, u64, &[u8]); 3] = [
        (0, 0, b"too many failed 0\n"),
        (1, 5, b"too many failed 1\n"),
        (2, MAKING - 1, b"too many failed 2\n"),
    ];
    for (device, number, text) in rows {
        let mut bank = MemBank::new(alloc, 3, 256)?;
        bank.fail_at(&[(device, number)])?;
        let told = call(&rt, alloc, MAKE_NINE, bank, b"")?;
        let out = DeviceSet::from_bits(1 << device);
        assert_eq!(rt; told.status, Status::TooManyFailed { out });
        assert_eq!(rt; told.text.as_slice(), text);
    }
    Ok(())
}

#[test]
fn words_that_are_no_command_are_usage_and_change_nothing(rt: HostRuntime) -> Result<(), Fail> {
    let alloc = rt.alloc();
    for words in [
        "",
        "raidzx",
        "run",
        "raidzx resize",
        "raidzx runs",
        "raidzx  run",
        "raidzx run run",
        "raidzx run --attach now",
        "raidzx run now --attach",
        "raidzx run --scrub",
        "raidzx replay --attach",
        "raidzx status now",
        "raidzx status --attach",
        "raidzx scrub",
        "raidzx load --seed 1 --blocks 2",
        "raidzx create",
        "raidzx create --parity 1 --width 3 --id 9 --parity 1",
        "raidzx create --parity 1 --width 3 --id 09",
        "raidzx create --parity 1 --width 3 --id 18446744073709551616",
        "raidzx create --parity 0 --width 3 --id 9",
        "raidzx create --parity 4 --width 5 --id 9",
        "raidzx create --parity 1 --width 17 --id 9",
        "raidzx create --parity 1 --width 3 --id 9 now",
    ] {
        let bank = bank_of_nine(alloc)?;
        let clock = bank.clock();
        let told = call(&rt, alloc, words, bank, b"clients 1\na sync\n")?;
        assert_eq!(rt; told.status, Status::Usage, "{words}");
        assert_eq!(rt; told.text.as_slice(), b"usage\n".as_slice(), "{words}");
        assert_eq!(rt; (told.items, told.turns), (0, 0), "{words}");
        assert_eq!(rt; told.bank.clock(), clock, "{words}");
    }
    Ok(())
}
