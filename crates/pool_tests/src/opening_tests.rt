// Pools that are found on banks in memory.
use bank_mem::MemBank;
use bank_trait::Bank;
use core_open::{OpenWhy, find, look, open};
use sha2::{Digest, Sha256};
use std::process::Abort;
use std::test::Fail;
use test_pools::banks::{MAKING, RING, bank_of_nine, show};
use uberblock_ring::{DeviceSet, Uber, area_sector, slot};

/// The index page of block 7, three bytes at sector 0, born in group 1.
fn page_of_one() -> [u8; 512] {
    let mut page = [0; 512];
    page[7] = 7;
    page[19] = 3;
    page[27] = 1;
    page
}

/// Group 2 of the pool, with that page in index area 1.
fn second_group() -> Uber {
    let mut uber = Uber::first(9, 1, 3, 64);
    uber.set_group(2);
    let page = page_of_one();
    uber.set_index(1, 1, &Sha256::digest(page));
    uber
}

/// Writes that page to a device.
fn give(rt: &impl Abort, bank: &mut MemBank, device: u32) -> Result<(), Fail> {
    assert!(rt; device < bank.devices() && bank.sectors() == 256);
    bank.write(device, area_sector(1), &page_of_one())?;
    Ok(())
}

#[test]
fn a_new_pool_is_found(rt: HostRuntime) -> Result<(), Fail> {
    let mut bank = bank_of_nine(rt.alloc())?;
    let found = find(rt.alloc(), &mut bank)?;
    assert!(rt; found.uber == Uber::first(9, 1, 3, 64));
    assert_eq!(rt; (found.device, found.entries.len()), (0, 0));
    assert_eq!(rt;
        (
            found.silent.bits(),
            found.out.bits(),
            found.lacks_uber.bits()
        ),
        (0, 0, 0)
    );
    Ok(())
}

#[test]
fn a_device_that_fails_is_silent_and_out(rt: HostRuntime) -> Result<(), Fail> {
    // (the call of device 0 that fails, where)
    for (call, place) in [
        (MAKING, "its first slot"),
        (MAKING + RING - 1, "its last slot"),
    ] {
        let mut bank = bank_of_nine(rt.alloc())?;
        bank.fail_at(&[(0, call)])?;
        let found = find(rt.alloc(), &mut bank)?;
        assert!(rt; found.uber == Uber::first(9, 1, 3, 64), "{place}");
        assert_eq!(rt; found.device, 1, "{place}");
        assert_eq!(rt; (found.silent.bits(), found.out.bits()), (1, 1), "{place}");
    }
    Ok(())
}

#[test]
fn nothing_is_found_on_blank_devices(rt: HostRuntime) -> Result<(), Fail> {
    let mut bank = MemBank::new(rt.alloc(), 3, 256)?;
    assert!(rt; matches!(find(rt.alloc(), &mut bank), Err(OpenWhy::NotPool)));
    bank.fail_from(2, 0)?;
    let out = DeviceSet::from_bits(4);
    match find(rt.alloc(), &mut bank) {
        Err(why) => assert!(rt; why == OpenWhy::TooManyFailed { out }),
        Ok(_) => panic!(rt; "a pool was found"),
    }
    Ok(())
}

#[test]
fn most_devices_choose_the_pool_and_the_lowest_among_equals(rt: HostRuntime) -> Result<(), Fail> {
    // (the pools that the devices show, the one that is found, on which device)
    let cases = [
        ([5, 9, 9], 9, 1),
        ([9, 5, 9], 9, 0),
        ([9, 5, 5], 5, 1),
        ([9, 5, 7], 9, 0),
    ];
    for (pools, wanted, lowest) in cases {
        let mut bank = MemBank::new(rt.alloc(), 3, 256)?;
        for (device, pool) in pools.into_iter().enumerate() {
            show(&mut bank, &Uber::first(pool, 1, 3, 64), device as u32)?;
        }
        let found = find(rt.alloc(), &mut bank)?;
        assert_eq!(rt;
            (found.uber.pool(), found.device),
            (wanted, lowest),
            "{pools:?}"
        );
    }
    Ok(())
}

#[test]
fn a_group_is_found_where_any_device_gives_its_page(rt: HostRuntime) -> Result<(), Fail> {
    let mut bank = bank_of_nine(rt.alloc())?;
    show(&mut bank, &second_group(), 1)?;
    let found = find(rt.alloc(), &mut bank)?;
    assert_eq!(rt;
        (found.uber.group(), found.device),
        (1, 0),
        "no device gives the page"
    );
    give(&rt, &mut bank, 2)?;
    let found = find(rt.alloc(), &mut bank)?;
    assert!(rt; found.uber == second_group());
    assert_eq!(rt; (found.device, found.entries.len()), (1, 1));
    assert_eq!(rt;
        (found.out.bits(), found.lacks_uber.bits()),
        (0, 5),
        "devices 0 and 2 lack it"
    );
    Ok(())
}

#[test]
fn what_any_candidate_of_the_group_lists_is_out(rt: HostRuntime) -> Result<(), Fail> {
    let mut bank = bank_of_nine(rt.alloc())?;
    let mut later = second_group();
    later.set_out(DeviceSet::from_bits(4));
    show(&mut bank, &second_group(), 0)?;
    show(&mut bank, &later, 1)?;
    give(&rt, &mut bank, 0)?;
    let found = find(rt.alloc(), &mut bank)?;
    assert!(rt; found.uber == second_group());
    assert_eq!(rt; (found.out.bits(), found.lacks_uber.bits()), (4, 0));
    Ok(())
}

#[test]
fn a_page_read_that_fails_makes_the_choice_anew(rt: HostRuntime) -> Result<(), Fail> {
    let mut bank = bank_of_nine(rt.alloc())?;
    for device in 0..3 {
        show(&mut bank, &second_group(), device)?;
        give(&rt, &mut bank, device)?;
    }
    bank.fail_at(&[(0, MAKING + 2 + RING)])?; // after the copy, the page and the ring
    let found = find(rt.alloc(), &mut bank)?;
    assert!(rt; found.uber == second_group());
    assert_eq!(rt;
        (found.device, found.silent.bits(), found.out.bits()),
        (1, 1, 1)
    );
    Ok(())
}

#[test]
fn each_opening_takes_two_more(rt: HostRuntime) -> Result<(), Fail> {
    let mut bank = bank_of_nine(rt.alloc())?;
    let opened = open(rt.alloc(), &mut bank)?;
    assert!(rt; opened.uber.group() == 3 && opened.entries.is_empty() && opened.out.is_empty());
    bank.fail_from(1, MAKING + RING + 2)?;
    let opened = open(rt.alloc(), &mut bank)?;
    let mut out = DeviceSet::empty();
    out.insert(1);
    assert!(rt; opened.uber.group() == 5 && opened.out == out && opened.uber.out() == out);
    Ok(())
}

#[test]
fn a_look_tells_the_uberblock_and_who_is_out_and_writes_nothing(
    rt: HostRuntime,
) -> Result<(), Fail> {
    let mut bank = bank_of_nine(rt.alloc())?;
    let mut later = second_group();
    later.set_out(DeviceSet::from_bits(4));
    for device in 0..2 {
        show(&mut bank, &later, device)?;
        give(&rt, &mut bank, device)?;
    }
    let clock = bank.clock();
    let seen = look(rt.alloc(), &mut bank)?;
    assert!(rt; seen.uber == later);
    assert_eq!(rt; (seen.out.bits(), seen.silent.bits()), (4, 0));
    assert_eq!(rt; bank.clock(), clock);
    Ok(())
}

#[test]
fn a_look_is_refused_where_too_many_are_out_and_for_no_number(rt: HostRuntime) -> Result<(), Fail> {
    let mut last = Uber::first(9, 1, 3, 64);
    last.set_group(1 << 62);
    // (the devices that fail in the look, what an opening answers with them)
    let cases = [
        (0, OpenWhy::Limit { group: 1 << 62 }),
        (2, OpenWhy::Limit { group: 1 << 62 }),
        (6, OpenWhy::Limit { group: 1 << 62 }),
    ];
    for (bits, refused) in cases {
        let mut bank = bank_of_nine(rt.alloc())?;
        let out = DeviceSet::from_bits(bits);
        for device in 0..3 {
            show(&mut bank, &last, device)?;
            if out.has(device) {
                bank.fail_from(device, MAKING + 1)?;
            }
        }
        let clock = bank.clock();
        match look(rt.alloc(), &mut bank) {
            Ok(seen) => assert!(rt; out.len() <= 1 && seen.uber == last && seen.out == out),
            Err(why) => {
                assert!(rt;
                    out.len() == 2 && why == OpenWhy::TooManyFailed { out },
                    "{bits}"
                )
            }
        }
        match open(rt.alloc(), &mut bank) {
            Ok(_) => panic!(rt; "a pool was opened with {bits}"),
            Err(why) => assert!(rt; why == refused, "{bits}"),
        }
        assert_eq!(rt; bank.clock(), clock, "{bits}");
    }
    let mut blank = MemBank::new(rt.alloc(), 3, 256)?;
    assert!(rt; matches!(look(rt.alloc(), &mut blank), Err(OpenWhy::NotPool)));
    Ok(())
}
