// A block under a scrub, turn by turn.
ghost use Rattle.std.specs.Prelude.{◌≡◌, ◌<◌, ◌↔◌, IsTrue, OnErr, OnOk, Some, false, length};
ghost use Rattle.bank_trait.specs.Disk.{Unchanged};
ghost use Rattle.row_layout.specs.Layout.{rows_of};
ghost use Rattle.core_blocks.specs.Blocks.{IsListed};
ghost use Rattle.core_state.specs.Outs.{OnlyFailedGoOut};
ghost use Rattle.core_state.specs.Committing.{point_of};
ghost use Rattle.core_turns.specs.declared.filling.Filled.{Filled as FilledOf};
ghost use Rattle.core_turns.specs.declared.solving.Solved.TheVariants.{Damaged};
ghost use Rattle.core_turns.specs.Core.{Core as CoreOf, IsCore, at_disk, HasBankOf};
ghost use Rattle.core_turns.specs.Getting.{HasTooManyOut};
ghost use Rattle.core_turns.specs.Scrubbing.{BeginsBlock, DropsOrStands, FindsBlock, IsMoreScrub, IsScrubOf};
ghost use Rattle.core_turns.specs.Scrubbing.{HasPlaceLeft, IsAtStage, LeavesBlock, LooksTurn, MendsTurn, ReadsBlock};
ghost use Rattle.core_turns.specs.Steps.{turn_with};

use crate::getting::{GetRun, OutOfMemory};
use crate::putting::PutRun;
use crate::solving::Solved;
use crate::{Core, Turn};
use bank_trait::Bank;
use block_record::IndexEntry;
use core_state::{Answer, Kind};
use std::alloc::Global;

/// A block under a scrub: it is read as a sum reads it, and then each of its places is looked at. One that reads
/// otherwise than the block has it is written anew.
#[derive(Drop)]
pub struct BlockScrub {
    pub(crate) read: GetRun,
    /// The block's own bytes, on their way to the places where it stands.
    pub(crate) mend: PutRun,
    /// Whether the next place reads otherwise.
    pub(crate) differs: bool,
}

/// What a block under a scrub has next.
#[derive(Clone, Copy, Debug, PartialEq, Eq)]
pub enum BlockStage {
    /// A column is read.
    Reads,
    /// Its bytes are found.
    Finds,
    /// A place is looked at.
    Looks,
    /// The place that was looked at is mended.
    Mends,
    /// It is left: all places were gone over, or it is damaged.
    Leaves,
}

impl BlockScrub {
    /// What comes next. A block that was found damaged is left as one that was gone over is.
    pub(crate) fn stage(&self) -> BlockStage
        requires of { (core : CoreOf) × IsScrubOf core self.now }
        ensures stage { IsAtStage self.now result }
    {
        if !self.read.is_read() {
            return BlockStage::Reads;
        }
        if self.mend.is_written() {
            return BlockStage::Leaves;
        }
        if self.mend.is_filled() {
            return if self.differs {
                BlockStage::Mends
            } else {
                BlockStage::Looks
            };
        }
        if self.is_damaged() {
            BlockStage::Leaves
        } else {
            BlockStage::Finds
        }
    }

    /// Whether no choice of suspects gave its bytes.
    pub(crate) fn is_damaged(&self) -> bool
        ensures { IsTrue result ↔ (self.now.read.solved ≡ Damaged) }
    {
        matches!(self.read.solved, Solved::Damaged)
    }

    /// Whether the next place reads otherwise than the block has it.
    pub(crate) fn differs(&self) -> bool
        ensures value { result ≡ self.now.differs }
    {
        self.differs
    }

    /// The id of the block.
    pub(crate) fn id(&self) -> u64
        ensures { result ≡ self.now.read.entry.id }
    {
        self.read.entry.id
    }

    /// Finds the block's bytes from what was read, and makes them up for its places. Calls no device, and is no turn.
    pub(crate) fn find(&mut self, alloc: Global) -> Result<(), OutOfMemory>
        requires of { (core : CoreOf) × IsScrubOf core self.old }
        ensures ok { OnOk result (FindsBlock self.old self.new) }
        ensures err { OnErr result (self.new ≡ self.old) }
    {
        let solved = self.read.solved_columns(alloc)?;
        if let Solved::Bytes(bytes) = &solved {
            self.mend.fill(alloc, bytes.as_slice())?;
        }
        self.read.solved = solved;
        Ok(())
    }
}

impl Core {
    /// Whether the block of an entry stands in the table still.
    fn stands(&self, entry: &IndexEntry) -> bool
        ensures { IsTrue result ↔ IsListed self.now.pool.blocks.table.entries entry.now }
    {
        match self.blocks.get(entry.id) {
            Some(listed) => *listed == *entry,
            None => false,
        }
    }

    /// The first turn of the scrub that is under way at the block of an id: finds it and holds its sectors.
    pub(crate) fn take_up_block(&mut self, alloc: Global, actor: u8, id: u64) -> Turn<BlockScrub>
        requires scrubs { self.old.scrubbing ≡ Some actor }
        ensures begins { BeginsBlock self.old self.new actor id result }
    {
        let read = match self.get_begin(alloc, actor, Kind::Sum, id) {
            Turn::More(read) => read,
            Turn::Busy { by } => return Turn::Busy { by },
            Turn::Done(answer) => return Turn::Done(answer),
        };
        let reflow = self.uber.reflow();
        let mend = PutRun::of_block(&read, reflow, self.done);
        Turn::More(BlockScrub {
            read,
            mend,
            differs: false,
        })
    }

    /// The next column of a block under a scrub; or the answer, where too many devices are out, which leaves the block.
    pub(crate) fn read_block<B: Bank>(
        &mut self,
        bank: &mut B,
        run: &mut BlockScrub,
    ) -> Option<Answer>
        requires left { run.old.read.read.row < rows_of run.old.read.read.layout }
        requires of { IsScrubOf self.old run.old }
        requires bank { HasBankOf self.old (B.disk bank.old) }
        ensures reads { ReadsBlock (at_disk self.old (B.disk bank.old)) run.old
            (at_disk self.new (B.disk bank.new)) (turn_with run.new result) }
        ensures of { IsMoreScrub self.new (turn_with run.new result) }
        ensures bank { HasBankOf self.new (B.disk bank.new) }
        ensures unchanged { Unchanged (B.disk bank.old) (B.disk bank.new) }
        ensures out { OnlyFailedGoOut (point_of self.old.pool.out (B.disk bank.old))
            (point_of self.new.pool.out (B.disk bank.new)) }
    {
        self.get_read(bank, &mut run.read)
    }

    /// Looks at the next place of a block that was found. Where it reads otherwise than the block has it, it is to be
    /// mended next; else it is gone over. Or leaves the block, which stands no longer, and says so.
    pub(crate) fn look_at_place<B: Bank>(&mut self, bank: &mut B, run: &mut BlockScrub) -> bool
        requires few { HasTooManyOut self.old → ⊥ }
        requires of { IsScrubOf self.old run.old }
        requires left { HasPlaceLeft run.old }
        requires bank { HasBankOf self.old (B.disk bank.old) }
        ensures looks { LooksTurn (at_disk self.old (B.disk bank.old)) run.old
            (at_disk self.new (B.disk bank.new)) run.new result }
    {
        if self.leave_if_gone(run) {
            return true;
        }
        run.differs = run.mend.check(bank, &mut self.out);
        false
    }

    /// Writes the next place of a block anew. Or leaves the block, which stands no longer, and says so.
    pub(crate) fn mend_place<B: Bank>(&mut self, bank: &mut B, run: &mut BlockScrub) -> bool
        requires few { HasTooManyOut self.old → ⊥ }
        requires of { IsScrubOf self.old run.old }
        requires left { HasPlaceLeft run.old }
        requires bank { HasBankOf self.old (B.disk bank.old) }
        ensures mends { MendsTurn (at_disk self.old (B.disk bank.old)) run.old
            (at_disk self.new (B.disk bank.new)) run.new result }
    {
        if self.leave_if_gone(run) {
            return true;
        }
        run.mend.write_next(bank, &mut self.out);
        run.differs = false;
        false
    }

    /// The last turn of a scrub at a block, all of whose places were gone over.
    pub(crate) fn leave_block(&mut self, run: &BlockScrub)
        requires of { IsScrubOf self.old run.now }
        ensures leaves { LeavesBlock self.old self.new run.now }
    {
        self.locks.end(run.read.hold);
    }

    /// Leaves a block that stands no longer, and tells whether it did.
    fn leave_if_gone(&mut self, run: &BlockScrub) -> bool
        requires of { IsScrubOf self.old run.now }
        ensures { DropsOrStands self.old self.new run.now result }
    {
        if self.stands(&run.read.entry) {
            return false;
        }
        self.leave_block(run);
        true
    }
}
