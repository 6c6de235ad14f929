// The first run of a pool, stopped on its way, and what a later run reads without some devices.
use bank_mem::{MemBank, Tear, Torn};
use bank_trait::Bank;
use std::alloc::{AllocError, Global};
use std::process::Abort;
use std::test::Fail;
use test_pools::banks::bank_of_width;
use test_pools::runs::run;
use uberblock_ring::DeviceSet;

/// Fronts of the run: without a call, up to its sync, and the whole run.
const FRONTS: [&[u8]; 3] = [
    b"clients 1\n",
    b"clients 1\na put 7 3 5\na get 7\n",
    b"clients 1\na put 7 3 5\na get 7\na sync\n",
];

const TOLD: &[u8] = b"0 group 3 after 0
1 a.1 put 7 ok
2 a.2 get 7 at 2 bytes 050c13
3 group 4 after 3
4 a.3 sync group 4
";

const READ: &[u8] = b"clients 1\na get 7\n";

/// What the read is told of each group: the new pool's, the opening's, and that of the sync.
const GROUPS_TOLD: [&[u8]; 3] = [
    b"0 group 3 after 0\n1 a.1 get 7 at 1 absent\n",
    b"0 group 5 after 0\n1 a.1 get 7 at 1 absent\n",
    b"0 group 6 after 0\n1 a.1 get 7 at 1 bytes 050c13\n",
];

/// The run, carried out, and how many calls are on record in the new pool and after each front.
#[derive(Drop)]
struct FirstRun {
    bank: MemBank,
    made: u64,
    opened: u64,
    read: u64,
    synced: u64,
}

impl FirstRun {
    fn on(rt: &impl Abort, alloc: Global, parity: u32, width: u32) -> Result<FirstRun, Fail> {
        let made = bank_of_width(alloc, parity, width)?.clock();
        let mut bank = bank_of_width(alloc, parity, width)?;
        let mut after = [0; 3];
        for (clock, front) in after.iter_mut().zip(FRONTS) {
            bank = bank_of_width(alloc, parity, width)?;
            let told = run(alloc, &mut bank, front)?;
            assert!(rt; TOLD.starts_with(told.text.as_slice()));
            *clock = bank.clock();
        }
        let [opened, read, synced] = after;
        Ok(FirstRun {
            bank,
            made,
            opened,
            read,
            synced,
        })
    }

    /// What may be told after a stop at this call: of the last group that was answered, or of the one that
    /// was begun then.
    fn may_be_told(&self, call: u64) -> [&'static [u8]; 2] {
        let answered = usize::from(self.opened <= call) + usize::from(self.synced <= call);
        let begun = usize::from(self.made < call) + usize::from(self.read < call);
        [answered, begun].map(|group| match GROUPS_TOLD.get(group) {
            Some(told) => *told,
            None => b"",
        })
    }

    /// Whether a run that goes on without these devices reads what it has to, where the first one was
    /// stopped at this call.
    fn reads_back(
        &self,
        alloc: Global,
        call: u64,
        torn: &[Torn],
        out: DeviceSet,
    ) -> Result<bool, Fail> {
        let images = self.bank.crash_at(alloc, call, torn)?;
        let mut left = MemBank::from_images(alloc, images)?;
        for device in 0..left.devices().min(16) {
            if out.has(device) {
                left.fail_from(device, 0)?;
            }
        }
        let told = run(alloc, &mut left, READ)?;
        Ok(self.may_be_told(call).contains(&told.text.as_slice()) && told.out() == Some(out))
    }
}

/// The sectors that the run writes: slots of the ring, an index page, and rows of blocks.
const WRITTEN: [u64; 5] = [3, 4, 64, 192, 193];

/// These sectors of so many devices, torn so.
fn torn_on(alloc: Global, width: u32, how: Tear) -> Result<Vec<Torn>, AllocError> {
    let mut torn = Vec::new(alloc);
    for device in 0..width {
        for sector in WRITTEN {
            torn.push(Torn {
                device,
                sector,
                how,
            })?;
        }
    }
    Ok(torn)
}

#[test]
fn a_stop_at_any_call_leaves_the_block_as_it_was_answered(rt: HostRuntime) -> Result<(), Fail> {
    let alloc = rt.alloc();
    let first = FirstRun::on(&rt, alloc, 1, 3)?;
    let none = Vec::new(alloc);
    let kept = torn_on(alloc, 3, Tear::Kept)?;
    let filled = torn_on(alloc, 3, Tear::Filled(0xa5))?;
    for (torn, how) in [
        (none, "none kept"),
        (kept, "all kept"),
        (filled, "all filled"),
    ] {
        for call in first.made..first.synced.saturating_add(1) {
            let out = DeviceSet::empty();
            let reads = first.reads_back(alloc, call, torn.as_slice(), out)?;
            assert!(rt; reads, "{how} at {call}");
        }
    }
    Ok(())
}

#[test]
fn after_a_stop_any_devices_may_fail_that_are_no_more_than_the_parities(
    rt: HostRuntime,
) -> Result<(), Fail> {
    let alloc = rt.alloc();
    // (the parities, the devices, how many sets of them there are)
    for (parity, width, sets) in [(1, 4, 16), (2, 5, 32), (3, 6, 64)] {
        let first = FirstRun::on(&rt, alloc, parity, width)?;
        let kept = torn_on(alloc, width, Tear::Kept)?;
        for bits in 0..sets {
            let out = DeviceSet::from_bits(bits);
            if out.len() > parity {
                continue;
            }
            for call in (first.made..first.synced.saturating_add(1)).step_by(3) {
                let torn = if call % 2 == 0 { kept.as_slice() } else { &[] };
                let reads = first.reads_back(alloc, call, torn, out)?;
                assert!(rt; reads, "{bits} of {width} at {call}");
            }
        }
    }
    Ok(())
}
