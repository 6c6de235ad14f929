// A pool is widened by a copier, round by round, while its blocks are read.
use crate::attached::{are_read, attached_pool};
use crate::pool_on_bank::{PoolOnBank, Round};
use crate::rounds::at_mark;
use core_state::Answer;
use reflow_copier::Job;
use reflow_mark::{Reflow, State};
use std::test::Fail;
use width_map::Birth;

/// Blocks of several lengths in bytes. They take sectors 0 to 157.
const LENGTHS: [u64; 20] = [
    1, 6_000, 512, 513, 1_024, 1_025, 1_536, 2_000, 2_560, 3_000, 3_072, 3_500, 4_000, 4_096,
    5_000, 5_120, 511, 700, 100, 2_048,
];

#[test]
fn a_pool_is_widened_while_blocks_are_read(rt: HostRuntime) -> Result<(), Fail> {
    let alloc = rt.alloc();
    let mut pool = attached_pool(alloc, &LENGTHS)?;
    let valid = at_mark(128, State::Valid);
    let moved = at_mark(128, State::Moved);
    // the job of each round, or none where a commit is due, and the reflow behind it
    let rounds = [
        (Some(Job::Fill), at_mark(0, State::None)),
        (None, valid),
        (Some(Job::Drain), valid),
        (None, moved),
        (Some(Job::Chunk { lo: 128, hi: 167 }), moved),
        (None, at_mark(167, State::Moved)),
        (
            Some(Job::Chunk { lo: 167, hi: 192 }),
            at_mark(167, State::Moved),
        ),
        (None, Reflow::at_rest(4, 64)),
    ];
    for (job, reflow) in rounds {
        let copied = match pool.round(alloc)? {
            Round::Copied(job) => Some(job),
            Round::Committed => None,
            _ => return Err("a round is not carried out".into()),
        };
        assert_eq!(rt; copied, job);
        assert_eq!(rt; pool.core.reflow(), reflow);
        assert!(rt; are_read(alloc, &mut pool, &LENGTHS)?, "behind {reflow:?}");
    }
    let told = pool.round(alloc)?;
    assert!(rt; matches!(&told, Round::Answered(Answer::Completed { width: 4 })));
    let uber = pool.last_uber(&rt, alloc)?;
    // A block that was born while the last group was made is of the group after it, and lies at the old width.
    let grown = Birth {
        group: uber.group().saturating_add(2),
        width: 4,
    };
    assert_eq!(rt;
        uber.births().as_slice(),
        [Birth { group: 0, width: 3 }, grown].as_slice()
    );
    let mut again = PoolOnBank::open(alloc, pool.bank)?;
    assert_eq!(rt; again.core.reflow(), Reflow::at_rest(4, 64));
    assert!(rt; are_read(alloc, &mut again, &LENGTHS)?);
    Ok(())
}
