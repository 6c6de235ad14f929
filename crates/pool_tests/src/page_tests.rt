// Index pages that devices give, lack, or give wrongly, and which blocks fit.
ghost use Rattle.std.specs.Prelude.{◌≤◌};

use bank_mem::MemBank;
use bank_trait::Bank;
use core_open::{find, open};
use sha2::{Digest, Sha256};
use std::alloc::Global;
use std::process::Abort;
use std::test::Fail;
use test_pools::banks::{MAKING, RING, bank_of_nine, bank_of_width, show};
use uberblock_ring::{DeviceSet, Uber, area_sector};

/// Group 4 of pool 9, which records this page of so many blocks in index area 1.
fn fourth_group(parity: u32, width: u32, page: &[u8], count: u32) -> Uber
    requires some { 2 ≤ width }
    requires narrow { width ≤ 16 }
{
    let mut uber = Uber::first(9, parity, width, 64);
    uber.set_group(4);
    uber.set_index(1, count, &Sha256::digest(page));
    uber
}

/// Puts the sectors of a page into index area 1 of a device.
fn give(rt: &impl Abort, bank: &mut MemBank, device: u32, page: &[u8]) -> Result<(), Fail> {
    let mut sector = [0; 512];
    for part in 0..page.len() / 512 {
        assert!(rt; device < bank.devices() && bank.sectors() == 256 && part < 2);
        sector.copy_from_slice(&page[512 * part..512 * part + 512]);
        bank.write(device, area_sector(1) + part as u64, &sector)?;
    }
    Ok(())
}

/// Whether the first sector of index area 1 on a device is this page.
fn has(rt: &impl Abort, bank: &mut MemBank, device: u32, page: &[u8; 512]) -> Result<bool, Fail> {
    assert!(rt; device < bank.devices() && bank.sectors() == 256);
    let mut sector = [0; 512];
    bank.read(device, area_sector(1), &mut sector)?;
    Ok(sector == *page)
}

/// The entry of a block of 512 bytes, by id, start and birth.
fn entry_of(id: u8, start: u64, birth: u64) -> [u8; 64] {
    let mut entry = [0; 64];
    entry[7] = id;
    entry[8..16].copy_from_slice(&start.to_be_bytes());
    entry[18] = 2;
    entry[20..28].copy_from_slice(&birth.to_be_bytes());
    entry
}

/// The page of one block.
fn page_of_one(id: u8) -> [u8; 512] {
    let mut page = [0; 512];
    page[..64].copy_from_slice(&entry_of(id, 0, 4));
    page
}

/// The page of two blocks, by start and birth.
fn page_of_two(one: (u64, u64), other: (u64, u64)) -> [u8; 512] {
    let mut page = [0; 512];
    page[..64].copy_from_slice(&entry_of(0, one.0, one.1));
    page[64..128].copy_from_slice(&entry_of(1, other.0, other.1));
    page
}

/// The page of blocks 1 to 9, each at twice its number, which takes two sectors.
fn page_of_nine() -> [u8; 1024] {
    let mut page = [0; 1024];
    for block in 0..9 {
        let id = block as u8 + 1;
        page[64 * block..64 * block + 64].copy_from_slice(&entry_of(id, 2 * u64::from(id), 4));
    }
    page
}

/// Pool 9 on three devices, which show its group 4 with this page.
fn bank_that_shows(alloc: Global, uber: &Uber) -> Result<MemBank, Fail> {
    let mut bank = bank_of_nine(alloc)?;
    for device in 0..3 {
        show(&mut bank, uber, device)?;
    }
    Ok(bank)
}

// At parity 1 and width 3, of 192 sectors. A block of one content sector takes two.
#[test]
fn blocks_fit_where_they_are_apart_and_inside(rt: HostRuntime) -> Result<(), Fail> {
    // (start and birth of one block, of the other, the group that is found: 1 where they don't fit)
    let cases = [
        ((0, 4), (2, 4), 4),
        ((2, 4), (0, 1), 4),
        ((10, 4), (11, 4), 1),
        ((11, 4), (10, 4), 1),
        ((5, 4), (5, 4), 1),
        ((0, 4), (190, 4), 4),
        ((0, 4), (191, 4), 1),
        ((0, 4), (u64::MAX, 4), 1),
        ((0, 5), (2, 4), 1),
    ];
    for (one, other, wanted) in cases {
        let page = page_of_two(one, other);
        let uber = fourth_group(1, 3, &page, 2);
        let mut bank = bank_that_shows(rt.alloc(), &uber)?;
        give(&rt, &mut bank, 0, &page)?;
        let found = find(rt.alloc(), &mut bank)?;
        assert_eq!(rt; found.uber.group(), wanted, "{one:?} and {other:?}");
    }
    Ok(())
}

#[test]
fn a_page_is_given_where_it_stands(rt: HostRuntime) -> Result<(), Fail> {
    let page = page_of_nine();
    let uber = fourth_group(1, 3, &page, 9);
    let mut bank = bank_that_shows(rt.alloc(), &uber)?;
    give(&rt, &mut bank, 1, &page)?;
    let found = find(rt.alloc(), &mut bank)?;
    assert!(rt; found.uber == uber);
    assert_eq!(rt; found.entries.len(), 9);
    for (index, entry) in found.entries.iter().enumerate() {
        let id = index as u64 + 1;
        assert_eq!(rt;
            (entry.id, entry.start, entry.len, entry.birth),
            (id, 2 * id, 512, 4)
        );
    }
    Ok(())
}

#[test]
fn one_wrong_byte_and_a_page_is_not_given(rt: HostRuntime) -> Result<(), Fail> {
    let page = page_of_nine();
    for place in [7, 511, 529, 1023] {
        let mut spoiled = page;
        spoiled[place] = 99;
        for (uber, why) in [
            (fourth_group(1, 3, &page, 9), "its digest is another"),
            (fourth_group(1, 3, &spoiled, 9), "it is no page"),
        ] {
            let mut bank = bank_that_shows(rt.alloc(), &uber)?;
            give(&rt, &mut bank, 1, &spoiled)?;
            let found = find(rt.alloc(), &mut bank)?;
            assert_eq!(rt; found.uber.group(), 1, "at {place}: {why}");
        }
    }
    Ok(())
}

#[test]
fn a_device_whose_page_fails_in_its_second_sector_is_silent(rt: HostRuntime) -> Result<(), Fail> {
    let page = page_of_nine();
    let uber = fourth_group(1, 3, &page, 9);
    let mut bank = bank_that_shows(rt.alloc(), &uber)?;
    for device in 1..3 {
        give(&rt, &mut bank, device, &page)?;
    }
    // after the uberblock, the page, the ring and the page's first sector
    bank.fail_at(&[(1, MAKING + 1 + 2 + RING + 1)])?;
    let found = find(rt.alloc(), &mut bank)?;
    assert!(rt; found.uber == uber);
    assert_eq!(rt; (found.silent.bits(), found.entries.len()), (2, 9));
    Ok(())
}

#[test]
fn a_page_is_brought_to_devices_with_another_or_none_and_no_others(
    rt: HostRuntime,
) -> Result<(), Fail> {
    let page = page_of_one(1);
    let uber = fourth_group(1, 3, &page, 1);
    // (the devices that have the page, that have another, how many pages an opening writes)
    for (whole, wrong, written) in [(7, 0, 0), (1, 2, 2), (4, 0, 2), (2, 5, 2)] {
        let mut bank = bank_that_shows(rt.alloc(), &uber)?;
        for device in 0..3 {
            if DeviceSet::from_bits(whole).has(device) {
                give(&rt, &mut bank, device, &page)?;
            }
            if DeviceSet::from_bits(wrong).has(device) {
                give(&rt, &mut bank, device, &page_of_one(2))?;
            }
        }
        let clock = bank.clock();
        let opened = open(rt.alloc(), &mut bank)?;
        assert_eq!(rt; (opened.uber.group(), opened.out.bits()), (6, 0));
        // beside the pages: a sync, an uberblock and a sync of each device
        assert_eq!(rt;
            bank.clock(),
            clock.saturating_add(9 + written),
            "{whole} and {wrong}"
        );
        for device in 0..3 {
            assert!(rt; has(&rt, &mut bank, device, &page)?, "{device} of {whole}");
        }
    }
    Ok(())
}

#[test]
fn a_device_whose_page_fails_goes_out_and_one_that_is_out_gets_none(
    rt: HostRuntime,
) -> Result<(), Fail> {
    let page = page_of_one(1);
    let mut uber = fourth_group(2, 4, &page, 1);
    uber.set_out(DeviceSet::from_bits(2));
    let mut bank = bank_of_width(rt.alloc(), 2, 4)?;
    for device in 0..4 {
        show(&mut bank, &uber, device)?;
    }
    give(&rt, &mut bank, 2, &page)?;
    // after the uberblock and the ring: device 2 gives the page by which the group is chosen
    bank.fail_at(&[(3, MAKING + 1 + RING)])?;
    let opened = open(rt.alloc(), &mut bank)?;
    assert_eq!(rt; (opened.out.bits(), opened.silent.bits()), (10, 0));
    for (device, wanted) in [(0, true), (1, false), (2, true), (3, false)] {
        let stands = has(&rt, &mut bank, device, &page)?;
        assert_eq!(rt; stands, wanted, "{device}");
    }
    Ok(())
}
