// What an opening does with the device in the place of the new one of an attach, of which nothing was copied yet.
use bank_mem::MemBank;
use bank_trait::Bank;
use core_open::{look, open};
use reflow_mark::{Reflow, State};
use std::alloc::Global;
use std::process::Abort;
use std::test::Fail;
use test_pools::banks::show;
use uberblock_ring::{DeviceSet, Uber, slot};

/// An uberblock that stands on device 3: its pool, its group, and the number of the device that it is for.
#[derive(Clone, Copy, Debug, PartialEq, Eq)]
struct Standing {
    pool: u64,
    group: u64,
    number: u32,
}

/// A bank of so many devices: what stands on device 3, and whether that is out.
#[derive(Clone, Copy, Debug, PartialEq, Eq)]
struct Case {
    devices: u32,
    stands: [Option<Standing>; 2],
    is_out: bool,
}

/// An uberblock of a pool of three devices that is to have four, of which nothing was moved.
fn widening(pool: u64, group: u64) -> Uber {
    let mut uber = Uber::first(pool, 1, 3, 64);
    uber.set_group(group);
    let births = *uber.births();
    let reflow = Reflow {
        from: 3,
        to: 4,
        rows: 64,
        mark: 0,
        state: State::None,
    };
    uber.set_widths(reflow, births);
    uber
}

/// Pool 9 in its group 2 on devices 0 to 2, and what the case has on device 3.
fn bank_of(rt: &impl Abort, alloc: Global, case: &Case) -> Result<MemBank, Fail> {
    let mut bank = MemBank::new(alloc, case.devices, 256)?;
    for device in 0..3 {
        show(&mut bank, &widening(9, 2), device)?;
    }
    for standing in case.stands.iter().flatten() {
        let uber = widening(standing.pool, standing.group);
        assert!(rt; uber.is_right() && bank.devices() == 4 && bank.sectors() == 256);
        bank.write(
            3,
            u64::from(slot(uber.group())),
            &uber.encode(standing.number),
        )?;
    }
    Ok(bank)
}

/// All sectors of device 3, if the bank has it.
fn sectors_of_new(
    rt: &impl Abort,
    alloc: Global,
    bank: &mut MemBank,
) -> Result<Vec<[u8; 512]>, Fail> {
    let mut sectors = Vec::new(alloc);
    if bank.devices() < 4 {
        return Ok(sectors);
    }
    for sector in 0..256 {
        assert!(rt; bank.devices() == 4 && sector < bank.sectors());
        let mut bytes = [0; 512];
        bank.read(3, sector, &mut bytes)?;
        sectors.push(bytes)?;
    }
    Ok(sectors)
}

/// The uberblock of this group that device 3 shows.
fn shown_on_new(rt: &impl Abort, bank: &mut MemBank, group: u64) -> Result<Option<Uber>, Fail> {
    if bank.devices() < 4 {
        return Ok(None);
    }
    assert!(rt; bank.sectors() == 256);
    let mut bytes = [0; 512];
    bank.read(3, u64::from(slot(group)), &mut bytes)?;
    Ok(Uber::decode(&bytes, 3, slot(group)))
}

/// Opens the case's bank: a device that is out keeps each of its sectors, and any other shows the pool.
fn check(rt: &impl Abort, alloc: Global, case: &Case) -> Result<(), Fail> {
    let out = DeviceSet::from_bits(if case.is_out { 8 } else { 0 });
    let mut bank = bank_of(rt, alloc, case)?;
    assert!(rt; look(alloc, &mut bank)?.out == out, "{case:?}");
    let before = sectors_of_new(rt, alloc, &mut bank)?;
    let opened = open(alloc, &mut bank)?;
    assert!(rt;
        opened.uber.pool() == 9 && opened.uber.group() == 4,
        "{case:?}"
    );
    assert!(rt; opened.out == out && opened.uber.out() == out, "{case:?}");
    let after = sectors_of_new(rt, alloc, &mut bank)?;
    assert!(rt; (after == before) == case.is_out, "{case:?}");
    let shown = shown_on_new(rt, &mut bank, 4)?;
    assert!(rt; (shown == Some(opened.uber)) != case.is_out, "{case:?}");
    Ok(())
}

/// So many devices, and what stands on device 3.
fn case_of(devices: u32, stands: [Option<Standing>; 2], is_out: bool) -> Case {
    Case {
        devices,
        stands,
        is_out,
    }
}

fn an_uberblock(pool: u64, group: u64, number: u32) -> Option<Standing> {
    Some(Standing {
        pool,
        group,
        number,
    })
}

#[test]
fn another_pools_disk_in_the_new_devices_place_is_left_alone(rt: HostRuntime) -> Result<(), Fail> {
    let cases = [
        case_of(4, [None, None], false),
        case_of(4, [an_uberblock(9, 2, 3), None], false),
        case_of(4, [an_uberblock(9, 2, 3), an_uberblock(5, 1, 3)], false),
        case_of(4, [an_uberblock(5, 2, 3), None], true),
        case_of(4, [an_uberblock(9, 2, 1), None], true),
        case_of(4, [an_uberblock(5, 1, 0), an_uberblock(9, 2, 2)], true),
        case_of(3, [None, None], true),
    ];
    for case in cases {
        check(&rt, rt.alloc(), &case)?;
    }
    Ok(())
}
