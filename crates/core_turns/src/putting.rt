// Puts, turn by turn.
ghost use Rattle.std.specs.Prelude.{◌≡◌, ℕ, All, List, false, ◌+◌, ◌<◌, ◌≤◌, ◌^◌, ◌↔◌, IsTrue, OnErr, OnOk, Some};
ghost use Rattle.std.specs.Prelude.{length};
ghost use Rattle.row_layout.specs.Layout.{allocated_of};
ghost use Rattle.range_locks.specs.Holds.{IsClear};
ghost use Rattle.reconstruct.specs.Rows.{sectors_for};
ghost use Rattle.shadow_write.specs.Band.{IsFrontOf};
ghost use Rattle.bank_trait.specs.Disk.{Disk};
ghost use Rattle.core_blocks.specs.Blocks.{IsUnderWay};
ghost use Rattle.core_state.specs.Outs.{OnlyFailedGoOut};
ghost use Rattle.core_state.specs.Committing.{point_of};
ghost use Rattle.core_client.specs.Pool.{IsInPool};
ghost use Rattle.core_turns.specs.declared.filling.Filled.{Filled as FilledOf};
ghost use Rattle.core_turns.specs.Core.{Core as CoreOf, IsCore, at_disk, HasBankOf};
ghost use Rattle.core_turns.specs.Getting.{HasTooManyOut};
ghost use Rattle.core_turns.specs.Putting.{BeginsPutTurn, EndsPut, FillsPut, IsFillable, IsMadeUp, left_to_fill};
ghost use Rattle.core_turns.specs.Putting.{to_fill_of, GivesUp, GivesUpTurn, HoldsRange, IsMorePut, IsPutOf};
ghost use Rattle.core_turns.specs.Putting.{ChecksNext, IsStoppedPut, WritesNext, WritesTurn, mend_at, refused_turn};
ghost use Rattle.core_client.specs.Writing.{IsOnBank};
ghost use Rattle.core_turns.specs.Steps.{turn_with};
ghost use Rattle.core_turns.specs.UnderWay.{TurnGoesOn};
ghost use Rattle.core_turns.specs.declared.turn.Turn.TheVariants.{Done};

use crate::filling::{Filled, MadeUp, ToFill};
use crate::getting::{GetRun, OutOfMemory};
use crate::turn::too_many;
use crate::{Core, Turn};
use bank_trait::Bank;
use core_blocks::{PutRange, PutRefused};
use core_state::Answer;
use range_locks::{Hold, HoldKind, LockRefused, Locks};
use reflow_mark::Reflow;
use std::alloc::Global;
use uberblock_ring::DeviceSet;

/// A put under way. It holds its block's sectors; no other call has one of them.
#[derive(Drop)]
pub struct PutRun {
    pub(crate) hold: Hold,
    range: PutRange,
    len: u32,
    reflow: Reflow,
    done: u64,
    filled: Option<Filled>,
}

/// The turn of a put that is refused.
fn refusal(refused: PutRefused) -> Turn<PutRun>
    ensures { result ≡ refused_turn refused }
{
    match refused {
        PutRefused::Full => Turn::Done(Answer::Full),
        PutRefused::NoSpace { sectors } => Turn::Done(Answer::NoSpace { sectors }),
        PutRefused::Busy { by } => Turn::Busy { by },
        PutRefused::NoMemory => Turn::Done(Answer::NoMemory),
    }
}

/// Holds the sectors that a put has taken, unless memory is exhausted.
fn hold_range(locks: &mut Locks, range: &PutRange, actor: u8) -> Option<Hold>
    requires some { 0 < allocated_of range.now.layout }
    requires end { range.now.layout.start + allocated_of range.now.layout < 2 ^ 64 }
    requires clear { IsClear locks.old range.now.layout.start
        (range.now.layout.start + allocated_of range.now.layout) HoldKind.Shared }
    ensures { HoldsRange locks.old locks.new range.now actor result }
{
    let start = range.layout.start();
    let end = start + range.layout.alloc_size();
    match locks.hold_shared(start, end, actor) {
        Ok(hold) => Some(hold),
        Err(LockRefused::Busy { by: _ }) => unreachable!(),
        Err(LockRefused::NoMemory) => None,
    }
}

impl PutRun {
    /// A put of a block's own bytes to its own sectors, which another call holds. They go to each place that an
    /// expansion
    /// that has come so far asks for.
    pub(crate) fn of_block(read: &GetRun, reflow: Reflow, done: u64) -> PutRun
        ensures { result ≡ mend_at read.now reflow done }
    {
        PutRun {
            hold: read.hold,
            range: PutRange {
                id: read.entry.id,
                birth: read.entry.birth,
                layout: *read.read.layout(),
            },
            len: read.entry.len,
            reflow,
            done,
            filled: None,
        }
    }

    /// How many bytes the block has.
    pub fn len_bytes(&self) -> u32
        ensures { result ≡ self.now.len }
    {
        self.len
    }

    /// Whether the block's bytes were filled in.
    pub fn is_filled(&self) -> bool
        ensures { IsTrue result ↔ (filled : FilledOf) × (self.now.filled ≡ Some filled) }
    {
        self.filled.is_some()
    }

    /// Whether the block was filled in and all its writes were made or passed over. The put is ended then.
    pub fn is_written(&self) -> bool
        ensures value { IsTrue result ↔ (filled : FilledOf) × (self.now.filled ≡ Some filled)
            × (filled.write.next ≡ length filled.write.writes) }
        ensures left { (core : CoreOf) (filled : FilledOf) → IsPutOf core self.now
            → self.now.filled ≡ Some filled → result ≡ false
            → filled.write.next < length filled.write.writes }
    {
        match &self.filled {
            Some(filled) => filled.write.is_done(),
            None => false,
        }
    }

    /// What the block is to be made up for, unless it was filled in.
    pub fn to_fill(&self) -> Option<ToFill>
        ensures { result ≡ left_to_fill self.now self.now.filled }
    {
        match &self.filled {
            Some(_) => None,
            None => Some(self.shape()),
        }
    }

    /// Takes a block that was made up, where it was made up for this put. Tells whether it was.
    pub fn take_block(&mut self, made: MadeUp) -> bool
        ensures value { IsTrue result ↔ (made.block ≡ to_fill_of self.old) }
        ensures fills { (content : List ℕ) → IsTrue result → IsMadeUp made.block made.filled content
            → FillsPut self.old self.new content }
        ensures other { result ≡ false → self.new ≡ self.old }
    {
        if made.block != self.shape() {
            return false;
        }
        self.filled = Some(made.filled);
        true
    }

    /// Fills in the block's bytes: makes its columns up, and its digest. Calls no device, and is no turn.
    pub fn fill(&mut self, alloc: Global, bytes: &[u8]) -> Result<(), OutOfMemory>
        requires fillable { IsFillable (to_fill_of self.old) bytes.now }
        ensures ok { OnOk result (FillsPut self.old self.new bytes.now) }
        ensures of { (core : CoreOf) → IsPutOf core self.old → IsPutOf core self.new }
        ensures err { OnErr result (self.new ≡ self.old) }
    {
        self.fill_in(alloc, bytes)
    }

    fn fill_in(&mut self, alloc: Global, bytes: &[u8]) -> Result<(), OutOfMemory>
        requires fillable { IsFillable (to_fill_of self.old) bytes.now }
        ensures ok { OnOk result (FillsPut self.old self.new bytes.now) }
        ensures err { OnErr result (self.new ≡ self.old) }
    {
        let made = self.shape().make_up(alloc, bytes)?;
        self.filled = Some(made.filled);
        Ok(())
    }

    /// Looks at the next place of a block that was filled in, and tells whether it reads otherwise than the block has
    /// it. Where it does not, or its device is out by then, it is passed over.
    pub(crate) fn check<B: Bank>(&mut self, bank: &mut B, out: &mut DeviceSet) -> bool
        requires left { (filled : FilledOf) × (self.old.filled ≡ Some filled)
            × (filled.write.next < length filled.write.writes) }
        requires inside { (filled : FilledOf) → self.old.filled ≡ Some filled
            → All (IsOnBank filled.write.rows out.old (B.disk bank.old)) filled.write.writes }
        ensures { ChecksNext self.old (point_of out.old (B.disk bank.old)) result self.new
            (point_of out.new (B.disk bank.new)) }
    {
        match &mut self.filled {
            Some(filled) => filled.write.check(bank, out),
            None => unreachable!(),
        }
    }

    /// Makes the next write of a block that was filled in, or passes over it where its device is out.
    pub(crate) fn write_next<B: Bank>(&mut self, bank: &mut B, out: &mut DeviceSet)
        requires left { (filled : FilledOf) × (self.old.filled ≡ Some filled)
            × (filled.write.next < length filled.write.writes) }
        requires inside { (filled : FilledOf) → self.old.filled ≡ Some filled
            → All (IsOnBank filled.write.rows out.old (B.disk bank.old)) filled.write.writes }
        ensures { WritesNext self.old (point_of out.old (B.disk bank.old)) self.new
            (point_of out.new (B.disk bank.new)) }
    {
        match &mut self.filled {
            Some(filled) => filled.write.step(bank, out),
            None => unreachable!(),
        }
    }

    fn shape(&self) -> ToFill
        ensures { result ≡ to_fill_of self.now }
    {
        ToFill {
            layout: self.range.layout,
            reflow: self.reflow,
            done: self.done,
            len: self.len,
        }
    }
}

impl Core {
    /// The first turn of a put of so many bytes under an id: takes the lowest run of free sectors that
    /// fits, and holds it. The block is born in the open group.
    pub fn put_begin(&mut self, actor: u8, id: u64, len: u32) -> Turn<PutRun>
        requires some { 1 ≤ len }
        requires few { len ≤ 65536 }
        ensures begins { BeginsPutTurn self.old self.new actor id len result }
    {
        if self.has_too_many_out() {
            return Turn::Done(too_many(self.out));
        }
        let group = self.begun + 1;
        let range = match self.blocks.begin_put(id, len, group, &self.locks) {
            Ok(range) => range,
            Err(refused) => return refusal(refused),
        };
        let Some(hold) = hold_range(&mut self.locks, &range, actor) else {
            self.blocks.give_up(range);
            return Turn::Done(Answer::NoMemory);
        };
        Turn::More(PutRun {
            hold,
            range,
            len,
            reflow: self.uber.reflow(),
            done: self.done,
            filled: None,
        })
    }

    /// The next write of a put's block, or past it where its device is out; or the answer, where too many devices are,
    /// which ends the put.
    pub fn put_write<B: Bank>(&mut self, bank: &mut B, run: &mut PutRun) -> Option<Answer>
        requires of { IsPutOf self.old run.old }
        requires under_way { IsUnderWay self.old.pool.blocks run.old.range }
        requires left { (filled : FilledOf) × (run.old.filled ≡ Some filled)
            × (filled.write.next < length filled.write.writes) }
        requires bank { HasBankOf self.old (B.disk bank.old) }
        ensures writes { WritesTurn (at_disk self.old (B.disk bank.old)) run.old
            (at_disk self.new (B.disk bank.new)) (turn_with run.new result) }
        ensures of { IsMorePut self.new (turn_with run.new result) }
        ensures goes_on { TurnGoesOn (at_disk self.old (B.disk bank.old))
            (at_disk self.new (B.disk bank.new)) }
        ensures bank { HasBankOf self.new (B.disk bank.new) }
        ensures out { OnlyFailedGoOut (point_of self.old.pool.out (B.disk bank.old))
            (point_of self.new.pool.out (B.disk bank.new)) }
    {
        self.make_next_write(bank, run)
    }

    /// The last turn of a put, all of whose writes were made or passed over: its block stands in the map
    /// from now on, in place of the one that the id had, if it had one.
    pub fn put_end(&mut self, run: &PutRun) -> Answer
        requires of { IsPutOf self.old run.now }
        requires under_way { IsUnderWay self.old.pool.blocks run.now.range }
        requires written { (filled : FilledOf) × (run.now.filled ≡ Some filled)
            × (filled.write.next ≡ length filled.write.writes) }
        ensures ends { EndsPut self.old run.now self.new (Done result) }
    {
        if self.has_too_many_out() {
            return self.stop_put(run);
        }
        let digest = match &run.filled {
            Some(filled) => filled.digest,
            None => unreachable!(),
        };
        self.locks.end(run.hold);
        let group = self.begun + 1;
        let range = PutRange {
            id: run.range.id,
            birth: run.range.birth,
            layout: run.range.layout,
        };
        self.blocks
            .end_put(range.into_entry(run.len, digest), group);
        Answer::Stored
    }

    /// The last turn of a put for whose block memory was exhausted.
    pub fn put_give_up(&mut self, run: &PutRun) -> Answer
        requires of { IsPutOf self.old run.now }
        requires under_way { IsUnderWay self.old.pool.blocks run.now.range }
        ensures gives_up { GivesUpTurn self.old run.now self.new (Done result) }
    {
        if self.has_too_many_out() {
            return self.stop_put(run);
        }
        self.give_up(run);
        Answer::NoMemory
    }

    fn make_next_write<B: Bank>(&mut self, bank: &mut B, run: &mut PutRun) -> Option<Answer>
        requires of { IsPutOf self.old run.old }
        requires under_way { IsUnderWay self.old.pool.blocks run.old.range }
        requires left { (filled : FilledOf) × (run.old.filled ≡ Some filled)
            × (filled.write.next < length filled.write.writes) }
        requires bank { HasBankOf self.old (B.disk bank.old) }
        ensures is { IsCore self.old }
        ensures writes { WritesTurn (at_disk self.old (B.disk bank.old)) run.old
            (at_disk self.new (B.disk bank.new)) (turn_with run.new result) }
    {
        if self.has_too_many_out() {
            return Some(self.stop_put(run));
        }
        run.write_next(bank, &mut self.out);
        None
    }

    /// Ends a put because too many devices are out.
    fn stop_put(&mut self, run: &PutRun) -> Answer
        requires many { HasTooManyOut self.old }
        requires of { IsPutOf self.old run.now }
        requires under_way { IsUnderWay self.old.pool.blocks run.now.range }
        ensures { IsStoppedPut self.old self.new run.now result }
    {
        let out = self.out;
        self.give_up(run);
        too_many(out)
    }

    /// Ends a put without a block: its hold has ended, and its sectors are free.
    fn give_up(&mut self, run: &PutRun)
        requires of { IsPutOf self.old run.now }
        requires under_way { IsUnderWay self.old.pool.blocks run.now.range }
        ensures { GivesUp self.old self.new run.now }
    {
        self.locks.end(run.hold);
        let range = PutRange {
            id: run.range.id,
            birth: run.range.birth,
            layout: run.range.layout,
        };
        self.blocks.give_up(range);
    }
}
