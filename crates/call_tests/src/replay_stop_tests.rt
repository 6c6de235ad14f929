// What a run reads after a stop in a replay.
use crate::calls::{REPLAY, RUN, call};
use bank_mem::{MemBank, Tear, Torn};
use raidzx_top::Status;
use std::alloc::{AllocError, Global};
use std::sync::Wait;
use std::test::Fail;
use std::thread::Threads;
use test_pools::banks::bank_of_nine;

/// While the first client's sync is under way the second one puts a block and frees another.
const SCRIPT: &[u8] = b"clients 2
a puthex 7 61
a sync
b puthex 8 62
b free 7
b sync
order aaaaababababab
";

const TOLD: &[u8] = b"0 group 3 after 0
1 a.1 put 7 ok
2 b.1 put 8 ok
3 b.2 free 7 ok
4 group 4 after 2
5 a.2 sync group 4
6 group 5 after 6
7 b.3 sync group 5
";

const READS: &[u8] = b"clients 1\na get 7\na get 8\n";

/// What reads are told of each group: the new pool's, the opening's, and those of the two syncs. The first
/// sync's has the map of its first turn.
const GROUPS_TOLD: [&[u8]; 4] = [
    b"0 group 3 after 0\n1 a.1 get 7 at 1 absent\n2 a.2 get 8 at 2 absent\n",
    b"0 group 5 after 0\n1 a.1 get 7 at 1 absent\n2 a.2 get 8 at 2 absent\n",
    b"0 group 6 after 0\n1 a.1 get 7 at 1 bytes 61\n2 a.2 get 8 at 2 absent\n",
    b"0 group 7 after 0\n1 a.1 get 7 at 1 absent\n2 a.2 get 8 at 2 bytes 62\n",
];

/// How many calls are on record in the new pool, and once its opening, the first put, the first sync and the
/// second one have ended.
#[derive(Drop)]
struct Clocks {
    made: u64,
    opened: u64,
    put: u64,
    synced: u64,
    ended: u64,
}

impl Clocks {
    /// A put of one sector has two writes. The second client's are made while the first sync is under way.
    fn of_replay<R: Threads + Wait + Sync>(
        rt: &R,
        alloc: Global,
        ended: u64,
    ) -> Result<Clocks, Fail> {
        let alone = b"clients 1\na puthex 7 61\na sync\n";
        let opened = clock_after(rt, alloc, b"clients 1\n")?;
        Ok(Clocks {
            made: bank_of_nine(alloc)?.clock(),
            opened,
            put: opened.saturating_add(2),
            synced: clock_after(rt, alloc, alone)?.saturating_add(2),
            ended,
        })
    }

    /// What may be told after a stop at this call: of the last group that was answered, or of the one that
    /// was begun then.
    fn may_be_told(&self, call: u64) -> [&'static [u8]; 2] {
        let mut answered: usize = 0;
        for clock in [self.opened, self.synced, self.ended] {
            if clock <= call {
                answered = answered.saturating_add(1);
            }
        }
        let mut begun: usize = 0;
        for clock in [self.made, self.put, self.synced] {
            if clock < call {
                begun = begun.saturating_add(1);
            }
        }
        [answered, begun].map(|group| match GROUPS_TOLD.get(group) {
            Some(told) => *told,
            None => b"",
        })
    }
}

/// How many calls are on record after a replay on a new pool.
fn clock_after<R: Threads + Wait + Sync>(
    rt: &R,
    alloc: Global,
    script: &[u8],
) -> Result<u64, Fail> {
    let told = call(rt, alloc, REPLAY, bank_of_nine(alloc)?, script)?;
    Ok(told.bank.clock())
}

/// All sectors keep what they were handed last.
fn all_kept(alloc: Global) -> Result<Vec<Torn>, AllocError> {
    let mut torn = Vec::new(alloc);
    for device in 0..3 {
        for sector in 0..256 {
            torn.push(Torn {
                device,
                sector,
                how: Tear::Kept,
            })?;
        }
    }
    Ok(torn)
}

/// What a stop at this call leaves, where this device fails then, if there is one of this number.
fn bank_at(
    alloc: Global,
    bank: &MemBank,
    call: u64,
    torn: &[Torn],
    failing: u32,
) -> Result<MemBank, Fail> {
    let images = bank.crash_at(alloc, call, torn)?;
    let mut left = MemBank::from_images(alloc, images)?;
    left.fail_from(failing, 0)?;
    Ok(left)
}

#[test]
fn a_stop_in_a_replay_leaves_the_last_group_or_the_one_that_was_begun(
    rt: HostRuntime,
) -> Result<(), Fail> {
    let alloc = rt.alloc();
    let told = call(&rt, alloc, REPLAY, bank_of_nine(alloc)?, SCRIPT)?;
    assert_eq!(rt; told.text.as_slice(), TOLD);
    let clocks = Clocks::of_replay(&rt, alloc, told.bank.clock())?;
    let kept = all_kept(alloc)?;
    for torn in [&[], kept.as_slice()] {
        for failing in 0..4 {
            for call_number in clocks.made..clocks.ended.saturating_add(1) {
                let place = (call_number, torn.len(), failing);
                let left = bank_at(alloc, &told.bank, call_number, torn, failing)?;
                let read = call(&rt, alloc, RUN, left, READS)?;
                let may_be = clocks.may_be_told(call_number);
                assert!(rt; may_be.contains(&read.text.as_slice()), "{place:?}");
                assert_eq!(rt; read.status, Status::Done, "{place:?}");
            }
        }
    }
    Ok(())
}
