// What a run reads after a stop in the run before.
use bank_mem::{MemBank, Tear, Torn};
use std::alloc::{AllocError, Global};
use std::test::Fail;
use test_pools::banks::bank_of_nine;
use test_pools::runs::run;
use uberblock_ring::DeviceSet;

const DEVICES: u32 = 3;

const SECTORS: u64 = 256;

/// Fronts of a run: without a call, up to its first sync and with it, up to its second and with it, which
/// is the whole run.
const FRONTS: [&[u8]; 5] = [
    b"clients 1\n",
    b"clients 1\na puthex 7 61\n",
    b"clients 1\na puthex 7 61\na sync\n",
    b"clients 1\na puthex 7 61\na sync\na puthex 8 62\na free 7\n",
    b"clients 1\na puthex 7 61\na sync\na puthex 8 62\na free 7\na sync\n",
];

const READS: &[u8] = b"clients 1\na get 7\na get 8\n";

/// What the reads are told of each group: the new pool's, the opening's, and those of the two syncs.
const GROUPS_TOLD: [&[u8]; 4] = [
    b"0 group 3 after 0\n1 a.1 get 7 at 1 absent\n2 a.2 get 8 at 2 absent\n",
    b"0 group 5 after 0\n1 a.1 get 7 at 1 absent\n2 a.2 get 8 at 2 absent\n",
    b"0 group 6 after 0\n1 a.1 get 7 at 1 bytes 61\n2 a.2 get 8 at 2 absent\n",
    b"0 group 7 after 0\n1 a.1 get 7 at 1 absent\n2 a.2 get 8 at 2 bytes 62\n",
];

/// The bank after a front of the run.
fn bank_after(alloc: Global, front: &[u8]) -> Result<MemBank, Fail> {
    let mut bank = bank_of_nine(alloc)?;
    run(alloc, &mut bank, front)?;
    Ok(bank)
}

/// How many calls are on record in the new pool, and after each front.
#[derive(Drop)]
struct Clocks {
    made: u64,
    opened: u64,
    put: u64,
    synced: u64,
    freed: u64,
    ended: u64,
}

impl Clocks {
    fn of_fronts(alloc: Global) -> Result<Clocks, Fail> {
        let made = bank_of_nine(alloc)?.clock();
        let mut after = [0; 5];
        for (clock, front) in after.iter_mut().zip(FRONTS) {
            *clock = bank_after(alloc, front)?.clock();
        }
        let [opened, put, synced, freed, ended] = after;
        Ok(Clocks {
            made,
            opened,
            put,
            synced,
            freed,
            ended,
        })
    }

    /// What may be told after a stop at this call: of the last group that was answered, or of the one that
    /// was begun then.
    fn may_be_told(&self, call: u64) -> [&'static [u8]; 2] {
        let mut answered: usize = 0;
        for clock in [self.opened, self.synced, self.ended] {
            if clock <= call {
                answered = answered.saturating_add(1);
            }
        }
        let mut begun: usize = 0;
        for clock in [self.made, self.put, self.freed] {
            if clock < call {
                begun = begun.saturating_add(1);
            }
        }
        [answered, begun].map(|group| match GROUPS_TOLD.get(group) {
            Some(told) => *told,
            None => b"",
        })
    }
}

/// The sectors of these devices, torn so.
fn torn_on(alloc: Global, devices: DeviceSet, how: Tear) -> Result<Vec<Torn>, AllocError> {
    let mut torn = Vec::new(alloc);
    for device in 0..DEVICES {
        if devices.has(device) {
            for sector in 0..SECTORS {
                torn.push(Torn {
                    device,
                    sector,
                    how,
                })?;
            }
        }
    }
    Ok(torn)
}

/// What a stop at this call leaves, where these devices fail then.
fn bank_at(
    alloc: Global,
    bank: &MemBank,
    call: u64,
    torn: &[Torn],
    failing: DeviceSet,
) -> Result<MemBank, Fail> {
    let images = bank.crash_at(alloc, call, torn)?;
    let mut left = MemBank::from_images(alloc, images)?;
    for device in 0..DEVICES {
        if failing.has(device) {
            left.fail_from(device, 0)?;
        }
    }
    Ok(left)
}

#[test]
fn a_stop_leaves_the_last_group_or_the_one_that_was_begun(rt: HostRuntime) -> Result<(), Fail> {
    let alloc = rt.alloc();
    let clocks = Clocks::of_fronts(alloc)?;
    let bank = bank_after(alloc, FRONTS[4])?;
    // (the devices of which all sectors are torn, how, the devices that fail after the stop)
    for (devices, how, failing) in [
        (0, Tear::Kept, 0),
        (6, Tear::Kept, 1),
        (1, Tear::Kept, 2),
        (7, Tear::Kept, 4),
        (7, Tear::Filled(0xa5), 0),
    ] {
        let torn = torn_on(alloc, DeviceSet::from_bits(devices), how)?;
        let out = DeviceSet::from_bits(failing);
        for call in clocks.made..clocks.ended.saturating_add(1) {
            let place = (call, devices, how);
            let mut left = bank_at(alloc, &bank, call, torn.as_slice(), out)?;
            let told = run(alloc, &mut left, READS)?;
            let may_be = clocks.may_be_told(call);
            assert!(rt; may_be.contains(&told.text.as_slice()), "{place:?}");
            assert_eq!(rt; told.out(), Some(out), "{place:?}");
        }
    }
    Ok(())
}
