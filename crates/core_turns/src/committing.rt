// Commits, turn by turn.
ghost use Rattle.std.specs.Prelude.{◌≡◌, ◌≤◌, Contains, OnErr, OnOk, Some};
ghost use Rattle.reflow_mark.specs.Reflow.{sectors_of};
ghost use Rattle.range_locks.specs.Holds.{HasSectors, IsClear};
ghost use Rattle.core_state.specs.Outs.{OnlyFailedGoOut};
ghost use Rattle.core_state.specs.Committing.{point_of};
ghost use Rattle.uberblock_ring.specs.Valid.{IsRightUber};
ghost use Rattle.core_blocks.specs.Growing.{MayGrow};
ghost use Rattle.core_open.specs.Answered.{blocks_behind};
ghost use Rattle.core_open.specs.Pool.{Pool as PoolOf};
ghost use Rattle.core_turns.specs.Core.{IsCore, at_disk, HasBankOf};
ghost use Rattle.core_commit.specs.CommitTurns.{CommitRun as RunOf};
ghost use Rattle.core_turns.specs.Committing.{AnswersUber, BeginsCommit, DropsHold, HasTable, IsCommitOf, StepsCommit};
ghost use Rattle.core_turns.specs.Committing.{TakesHold, hold_for};
ghost use Rattle.core_turns.specs.Steps.{turn_with};
ghost use Rattle.core_turns.specs.UnderWay.{TurnGoesOn};

use crate::turn::too_many;
use crate::{Core, OutOfMemory, Turn};
use bank_trait::Bank;
use core_blocks::Blocks;
use core_commit::{CommitRun, CommitStep, next_uber};
use core_copy::front_behind;
use core_state::Answer;
use mark_choice::{choose, held_range};
use range_locks::{Hold, HoldKind, LockRefused, Locks};
use reflow_mark::Reflow;
use std::alloc::Global;
use uberblock_ring::{MAX_GROUP, Uber};

/// Holds the sectors whose standing a choice changes, if there are any.
fn hold_change(
    locks: &mut Locks,
    before: &Reflow,
    chosen: &Reflow,
    actor: u8,
) -> Result<(), OutOfMemory>
    requires rows { before.now.rows ≤ 65536 }
    requires clear { HasSectors (hold_for before.now chosen.now actor)
        → IsClear locks.old (hold_for before.now chosen.now actor).lo
        (hold_for before.now chosen.now actor).hi HoldKind.Exclusive }
    ensures ok { OnOk result (TakesHold locks.old locks.new (hold_for before.now chosen.now actor)) }
    ensures err { OnErr result (locks.new ≡ locks.old) }
{
    let (lo, hi) = held_range(before, chosen);
    if hi <= lo {
        return Ok(());
    }
    match locks.hold_exclusive(lo, hi, actor) {
        Ok(_) => Ok(()),
        Err(LockRefused::Busy { by: _ }) => unreachable!(),
        Err(LockRefused::NoMemory) => Err(OutOfMemory),
    }
}

/// Ends the hold of a commit on the sectors whose standing its choice changed.
fn end_change(locks: &mut Locks, before: &Reflow, chosen: &Reflow, actor: u8)
    requires rows { before.now.rows ≤ 65536 }
    requires held { HasSectors (hold_for before.now chosen.now actor)
        → Contains locks.old (hold_for before.now chosen.now actor) }
    ensures { DropsHold locks.old locks.new (hold_for before.now chosen.now actor) }
{
    let (lo, hi) = held_range(before, chosen);
    if lo < hi {
        locks.end(Hold {
            lo,
            hi,
            actor,
            kind: HoldKind::Exclusive,
        });
    }
}

/// What the answer of a group makes of the blocks: where it ended an expansion the pool has grown, and what was held
/// back until it is free.
fn answer_blocks(blocks: &mut Blocks, before: &Reflow, uber: &Uber)
    requires right { IsRightUber uber.now }
    requires grows { (uber.now.reflow.from ≡ before.now.from → ⊥)
        → MayGrow blocks.old uber.now.group (sectors_of uber.now.reflow) }
    ensures { (pool : PoolOf) → pool.blocks ≡ blocks.old → pool.uber.reflow ≡ before.now
        → blocks.new ≡ blocks_behind pool uber.now }
{
    let chosen = uber.reflow();
    if chosen.from != before.from {
        blocks.grow(uber.group(), chosen.sectors());
    }
    blocks.synced(uber.group());
}

impl Core {
    /// The first turn of a sync: the map as it is becomes the open group's, and the next group is open. Where an
    /// expansion runs, the group records how far sectors were copied, and the commit holds those whose standing that
    /// changes.
    pub fn commit_begin(&mut self, alloc: Global, actor: u8) -> Turn<CommitRun>
        ensures begins { BeginsCommit self.old self.new actor result }
        ensures table { HasTable self.old result }
    {
        if self.has_too_many_out() {
            return Turn::Done(too_many(self.out));
        }
        if let Some(by) = self.committing {
            return Turn::Busy { by };
        }
        if self.begun >= MAX_GROUP - 1 {
            return Turn::Done(Answer::Limit { reached: MAX_GROUP });
        }
        let Ok(page) = self.blocks.page(alloc) else {
            return Turn::Done(Answer::NoMemory);
        };
        let entries = self.blocks.entries();
        let before = self.uber.reflow();
        let chosen = choose(&before, self.done, &self.locks);
        let next = next_uber(&self.uber, &chosen, entries, &page.digest, self.out);
        let Ok(next) = Box::new(alloc, next) else {
            return Turn::Done(Answer::NoMemory);
        };
        let Ok(index) = Vec::from_slice(alloc, entries) else {
            return Turn::Done(Answer::NoMemory);
        };
        let Ok(()) = hold_change(&mut self.locks, &before, &chosen, actor) else {
            return Turn::Done(Answer::NoMemory);
        };
        self.begun += 1;
        self.committing = Some(actor);
        Turn::More(CommitRun::new(next, index, page.bytes))
    }

    /// The next device call of a commit. Where none is left for the devices in use, its group is answered:
    /// what was held back until it is free, and where it ended an expansion the pool has grown.
    pub fn commit_step<B: Bank>(&mut self, bank: &mut B, run: &mut CommitRun) -> Option<Answer>
        requires of { IsCommitOf self.old run.old }
        requires bank { HasBankOf self.old (B.disk bank.old) }
        ensures steps { StepsCommit (at_disk self.old (B.disk bank.old)) run.old
            (at_disk self.new (B.disk bank.new)) (turn_with run.new result) }
        ensures bank { HasBankOf self.new (B.disk bank.new) }
        ensures out { OnlyFailedGoOut (point_of self.old.pool.out (B.disk bank.old))
            (point_of self.new.pool.out (B.disk bank.new)) }
        ensures goes_on { TurnGoesOn (at_disk self.old (B.disk bank.old))
            (at_disk self.new (B.disk bank.new)) }
    {
        self.make_commit_call(bank, run)
    }

    pub(crate) fn make_commit_call<B: Bank>(
        &mut self,
        bank: &mut B,
        run: &mut CommitRun,
    ) -> Option<Answer>
        requires of { IsCommitOf self.old run.old }
        requires bank { HasBankOf self.old (B.disk bank.old) }
        ensures is { IsCore self.old }
        ensures steps { StepsCommit (at_disk self.old (B.disk bank.old)) run.old
            (at_disk self.new (B.disk bank.new)) (turn_with run.new result) }
    {
        if self.has_too_many_out() {
            return Some(too_many(self.out));
        }
        let group = run.uber().group();
        match run.step(bank, &mut self.out) {
            CommitStep::Called => None,
            CommitStep::Ended => {
                let Some(actor) = self.committing else {
                    unreachable!();
                };
                self.answer_group(actor, run.uber());
                Some(Answer::Synced { group })
            }
        }
    }

    /// The group of a commit is the last answered one, and what the commit held is free.
    fn answer_group(&mut self, actor: u8, uber: &Uber)
        requires of { (run : RunOf) × (run.uber ≡ uber.now) × IsCommitOf self.old run }
        requires actor { self.old.committing ≡ Some actor }
        ensures { AnswersUber self.old self.new uber.now }
    {
        let before = self.uber.reflow();
        let chosen = uber.reflow();
        end_change(&mut self.locks, &before, &chosen, actor);
        answer_blocks(&mut self.blocks, &before, uber);
        self.done = front_behind(&before, self.done, &chosen);
        self.uber = *uber;
        self.committing = None;
    }
}
