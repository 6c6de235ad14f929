// Scrubs, turn by turn: the blocks of the table, one after the other.
ghost use Rattle.std.specs.Prelude.{◌≡◌, None as NoBlock, Some};
ghost use Rattle.bank_trait.specs.Disk.{Disk};
ghost use Rattle.core_turns.specs.declared.block_scrub.BlockScrub.{BlockScrub as BlockOf};
ghost use Rattle.core_turns.specs.declared.block_scrub.BlockStage.TheVariants.{Finds, Leaves, Looks, Mends, Reads};
ghost use Rattle.core_state.specs.declared.answer.Answer.{Answer as AnswerOf};
ghost use Rattle.core_turns.specs.Core.{HasBankOf, IsCore, at_disk};
ghost use Rattle.core_turns.specs.Getting.{HasTooManyOut};
ghost use Rattle.core_turns.specs.ScrubRun.{BeginsScrub, EndsScrub, GoesOn, IsMoreScrubRun, IsScrubRunOf, StepsScrub};
ghost use Rattle.core_turns.specs.ScrubRun.{StepsToEnd};
ghost use Rattle.core_turns.specs.Scrubbing.{IsAtStage, LeavesBlock};
ghost use Rattle.core_turns.specs.Steps.{turn_with};
ghost use Rattle.core_turns.specs.UnderWay.{TurnGoesOn};

use crate::block_scrub::BlockStage;
use crate::turn::too_many;
use crate::{Core, ScrubRun, Turn};
use bank_trait::Bank;
use core_state::Answer;
use std::alloc::Global;

impl Core {
    /// The first turn of a scrub: it is to go through the blocks that the table has now. One is under way at a time.
    pub fn scrub_begin(&mut self, alloc: Global, actor: u8) -> Turn<ScrubRun>
        ensures begins { BeginsScrub self.old self.new actor result }
        ensures of { IsMoreScrubRun self.new result }
    {
        if self.has_too_many_out() {
            return Turn::Done(too_many(self.out));
        }
        if let Some(by) = self.scrubbing {
            return Turn::Busy { by };
        }
        match ScrubRun::new(alloc, actor, self.blocks.entries()) {
            Ok(run) => {
                self.scrubbing = Some(actor);
                Turn::More(run)
            }
            Err(_) => Turn::Done(Answer::NoMemory),
        }
    }

    /// The next turn of a scrub. The block of the next id is taken up, unless it is gone, and waits where it finds
    /// another's call in its way. A column of it is read; its bytes are found; a place is looked at, or mended; its
    /// hold
    /// ends. The scrub is answered behind the last id, where too many devices are out, and where memory is exhausted.
    pub fn scrub_step<B: Bank>(
        &mut self,
        alloc: Global,
        bank: &mut B,
        run: &mut ScrubRun,
    ) -> Option<Answer>
        requires of { IsScrubRunOf self.old run.old }
        requires bank { HasBankOf self.old (B.disk bank.old) }
        ensures steps { StepsScrub (at_disk self.old (B.disk bank.old)) run.old
            (at_disk self.new (B.disk bank.new)) (turn_with run.new result) }
        ensures of { IsMoreScrubRun self.new (turn_with run.new result) }
        ensures bank { HasBankOf self.new (B.disk bank.new) }
        ensures goes_on { TurnGoesOn (at_disk self.old (B.disk bank.old))
            (at_disk self.new (B.disk bank.new)) }
    {
        match self.take_scrub_turn(alloc, bank, run) {
            None => None,
            Some(answer) => {
                self.scrubbing = None;
                Some(answer)
            }
        }
    }

    fn take_scrub_turn<B: Bank>(
        &mut self,
        alloc: Global,
        bank: &mut B,
        run: &mut ScrubRun,
    ) -> Option<Answer>
        requires of { IsScrubRunOf self.old run.old }
        requires bank { HasBankOf self.old (B.disk bank.old) }
        ensures is { IsCore self.old }
        ensures steps { StepsToEnd (at_disk self.old (B.disk bank.old)) run.old
            (at_disk self.new (B.disk bank.new)) (turn_with run.new result) }
    {
        if self.has_too_many_out() {
            let out = self.out;
            self.stop_scrub(run);
            return Some(too_many(out));
        }
        let Some(block) = &run.block else {
            return self.take_up_next(alloc, run);
        };
        match block.stage() {
            BlockStage::Reads => return self.read_on(bank, run),
            BlockStage::Finds => return self.find_in_hand(alloc, run),
            BlockStage::Looks => self.look_on(bank, run),
            BlockStage::Mends => self.mend_on(bank, run),
            BlockStage::Leaves => self.leave_on(run),
        }
        None
    }

    /// The next block is taken up, waits, or is passed over; or no id is left.
    fn take_up_next(&mut self, alloc: Global, run: &mut ScrubRun) -> Option<Answer>
        requires of { IsScrubRunOf self.old run.old }
        requires few { HasTooManyOut self.old → ⊥ }
        requires none { run.old.block ≡ NoBlock }
        ensures steps { (disk : Disk) → StepsToEnd (at_disk self.old disk) run.old (at_disk self.new disk)
            (turn_with run.new result) }
    {
        let Some(id) = run.next_id() else {
            return Some(run.told(alloc));
        };
        match self.take_up_block(alloc, run.actor, id) {
            Turn::More(block) => run.take(block),
            Turn::Busy { by: _ } => {}
            Turn::Done(Answer::Absent) => run.pass_over(),
            Turn::Done(answer) => return Some(answer),
        }
        None
    }

    /// A column of the block in hand is read.
    fn read_on<B: Bank>(&mut self, bank: &mut B, run: &mut ScrubRun) -> Option<Answer>
        requires of { IsScrubRunOf self.old run.old }
        requires block { (block : BlockOf) × (run.old.block ≡ Some block) × IsAtStage block Reads }
        requires bank { HasBankOf self.old (B.disk bank.old) }
        ensures steps { StepsToEnd (at_disk self.old (B.disk bank.old)) run.old
            (at_disk self.new (B.disk bank.new)) (turn_with run.new result) }
    {
        let Some(block) = &mut run.block else {
            unreachable!();
        };
        self.read_block(bank, block)
    }

    /// The block in hand is found from its columns; or memory is exhausted for that, and it is left.
    fn find_in_hand(&mut self, alloc: Global, run: &mut ScrubRun) -> Option<Answer>
        requires of { IsScrubRunOf self.old run.old }
        requires block { (block : BlockOf) × (run.old.block ≡ Some block) × IsAtStage block Finds }
        ensures steps { (disk : Disk) → StepsToEnd (at_disk self.old disk) run.old (at_disk self.new disk)
            (turn_with run.new result) }
    {
        match run.find(alloc) {
            Ok(()) => None,
            Err(_) => {
                self.leave_in_hand(run);
                Some(Answer::NoMemory)
            }
        }
    }

    /// The next place of the block in hand is looked at; or the block stands no longer, and is left.
    fn look_on<B: Bank>(&mut self, bank: &mut B, run: &mut ScrubRun)
        requires few { HasTooManyOut self.old → ⊥ }
        requires of { IsScrubRunOf self.old run.old }
        requires block { (block : BlockOf) × (run.old.block ≡ Some block) × IsAtStage block Looks }
        requires bank { HasBankOf self.old (B.disk bank.old) }
        ensures goes_on { GoesOn (at_disk self.old (B.disk bank.old)) run.old run.old.block
            (at_disk self.new (B.disk bank.new)) run.new }
    {
        let Some(block) = &mut run.block else {
            unreachable!();
        };
        if self.look_at_place(bank, block) {
            run.put_down();
            return;
        }
        let otherwise = block.differs();
        run.count(otherwise);
    }

    /// The next place of the block in hand is mended; or the block stands no longer, and is left.
    fn mend_on<B: Bank>(&mut self, bank: &mut B, run: &mut ScrubRun)
        requires few { HasTooManyOut self.old → ⊥ }
        requires of { IsScrubRunOf self.old run.old }
        requires block { (block : BlockOf) × (run.old.block ≡ Some block) × IsAtStage block Mends }
        requires bank { HasBankOf self.old (B.disk bank.old) }
        ensures goes_on { GoesOn (at_disk self.old (B.disk bank.old)) run.old run.old.block
            (at_disk self.new (B.disk bank.new)) run.new }
    {
        let Some(block) = &mut run.block else {
            unreachable!();
        };
        if self.mend_place(bank, block) {
            run.put_down();
        }
    }

    /// Nothing of the block in hand is left to do, and its hold ends.
    fn leave_on(&mut self, run: &mut ScrubRun)
        requires of { IsScrubRunOf self.old run.old }
        requires block { (block : BlockOf) × (run.old.block ≡ Some block) × IsAtStage block Leaves }
        ensures goes_on { (disk : Disk) → GoesOn (at_disk self.old disk) run.old run.old.block (at_disk self.new disk)
            run.new }
    {
        self.leave_in_hand(run);
        run.put_down();
    }

    /// Ends the hold of the block in hand, if there is one, because too many devices are out.
    fn stop_scrub(&mut self, run: &ScrubRun)
        requires of { IsScrubRunOf self.old run.now }
        requires many { HasTooManyOut self.old }
        ensures { (disk : Disk) → EndsScrub (at_disk self.old disk) run.now run.now.block (at_disk self.new disk)
            (AnswerOf.TooManyFailed self.old.pool.out) }
    {
        if run.block.is_some() {
            self.leave_in_hand(run);
        }
    }

    /// The hold of the block in hand ends.
    fn leave_in_hand(&mut self, run: &ScrubRun)
        requires of { IsScrubRunOf self.old run.now }
        requires block { (block : BlockOf) × (run.now.block ≡ Some block) }
        ensures leaves { (block : BlockOf) → run.now.block ≡ Some block → LeavesBlock self.old self.new block }
    {
        let Some(block) = &run.block else {
            unreachable!();
        };
        self.leave_block(block);
    }
}
