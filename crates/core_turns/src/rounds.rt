// Copies, turn by turn: rounds of jobs and commits.
ghost use Rattle.std.specs.Prelude.{◌≡◌, ℕ, Option as OptionOf};
ghost use Rattle.bank_trait.specs.Disk.{Disk};
ghost use Rattle.core_state.specs.Outs.{OnlyFailedGoOut};
ghost use Rattle.core_state.specs.Committing.{point_of};
ghost use Rattle.core_commit.specs.CommitTurns.{CommitRun as CommitRunOf};
ghost use Rattle.core_turns.specs.declared.copying.CopyRun.{CopyRun as CopyRunOf};
ghost use Rattle.core_turns.specs.declared.rounds.CopyRound.TheVariants.{Copies as CopiesOf, Commits as CommitsOf};
ghost use Rattle.core_turns.specs.declared.rounds.CopyRound.TheVariants.{Rests as RestsOf};
ghost use Rattle.core_turns.specs.Core.{IsCore, at_disk, HasBankOf};
ghost use Rattle.core_turns.specs.Rounds.{BeginsRound, IsMoreRound, IsRoundOf, StepsCopy};
ghost use Rattle.core_turns.specs.Steps.{turn_with};
ghost use Rattle.core_turns.specs.UnderWay.{TurnGoesOn};

use crate::copying::{CopyRun, JobBegin};
use crate::{Core, Turn};
use bank_trait::Bank;
use core_commit::CommitRun;
use core_state::Answer;
use std::alloc::Global;
use uberblock_ring::DeviceSet;

/// What a copy has under way between two of its turns.
#[derive(Drop)]
pub enum CopyRound {
    /// Nothing: a round of this actor's copy is to begin. Beside it the group that a commit of the copy made in the
    /// turn before, where it did.
    Rests { actor: u8, made: Option<u64> },
    /// A job, which holds the sectors that it copies.
    Copies(CopyRun),
    /// A commit.
    Commits(CommitRun),
}

impl CopyRound {
    /// Whether its next turn syncs a device, where these are out, and not too many. A job reads and writes alone.
    pub fn syncs_next(&self, out: DeviceSet) -> bool {
        match self {
            CopyRound::Rests { .. } | CopyRound::Copies(_) => false,
            CopyRound::Commits(run) => run.syncs_next(out),
        }
    }

    /// Nothing is under way from here on: a round of this actor's copy is to begin, behind a commit that made this
    /// group, if one did.
    fn rest(&mut self, actor: u8, made: Option<u64>)
        ensures { self.new ≡ RestsOf actor made }
    {
        *self = CopyRound::Rests { actor, made };
    }
}

impl Core {
    /// The first turn of a copy: its first round begins, or finds another's call in its way. It is answered where no
    /// expansion runs, while a device is out, and where the commit that is due is refused.
    pub fn copy_begin(&mut self, alloc: Global, actor: u8) -> Turn<CopyRound>
        ensures begins { BeginsRound self.old self.new actor result }
        ensures of { IsMoreRound self.new result }
        ensures bank { (disk : Disk) → HasBankOf self.old disk → HasBankOf self.new disk }
    {
        self.begin_round(alloc, actor)
    }

    /// The next turn of a copy: a round begins as the first one did, and waits where it finds another's call in its
    /// way; a job reads a sector or writes it, has copied all of its sectors, or is given up; a commit makes its next
    /// call, or has made its group.
    pub fn copy_step<B: Bank>(
        &mut self,
        alloc: Global,
        bank: &mut B,
        round: &mut CopyRound,
    ) -> Option<Answer>
        requires of { IsRoundOf self.old round.old }
        requires bank { HasBankOf self.old (B.disk bank.old) }
        ensures steps { StepsCopy (at_disk self.old (B.disk bank.old)) round.old
            (at_disk self.new (B.disk bank.new)) (turn_with round.new result) }
        ensures of { IsMoreRound self.new (turn_with round.new result) }
        ensures bank { HasBankOf self.new (B.disk bank.new) }
        ensures goes_on { TurnGoesOn (at_disk self.old (B.disk bank.old))
            (at_disk self.new (B.disk bank.new)) }
    {
        self.take_copy_turn(alloc, bank, round)
    }

    fn begin_round(&mut self, alloc: Global, actor: u8) -> Turn<CopyRound>
        ensures is { IsCore self.old }
        ensures begins { BeginsRound self.old self.new actor result }
        ensures of { IsMoreRound self.new result }
    {
        match self.job_begin(alloc, actor) {
            JobBegin::More(run) => Turn::More(CopyRound::Copies(run)),
            JobBegin::Busy { by } => Turn::Busy { by },
            JobBegin::Done(answer) => Turn::Done(answer),
            JobBegin::CommitDue => match self.commit_begin(alloc, actor) {
                Turn::More(run) => Turn::More(CopyRound::Commits(run)),
                Turn::Busy { by } => Turn::Busy { by },
                Turn::Done(answer) => Turn::Done(answer),
            },
        }
    }

    fn take_copy_turn<B: Bank>(
        &mut self,
        alloc: Global,
        bank: &mut B,
        round: &mut CopyRound,
    ) -> Option<Answer>
        requires of { IsRoundOf self.old round.old }
        requires bank { HasBankOf self.old (B.disk bank.old) }
        ensures is { IsCore self.old }
        ensures steps { StepsCopy (at_disk self.old (B.disk bank.old)) round.old
            (at_disk self.new (B.disk bank.new)) (turn_with round.new result) }
        ensures of { IsMoreRound self.new (turn_with round.new result) }
    {
        match round {
            CopyRound::Rests { .. } => self.begin_next_round(alloc, round),
            CopyRound::Copies(_) => self.step_copying(bank, round),
            CopyRound::Commits(_) => self.step_commit_of_copy(bank, round),
        }
    }

    /// The next round of a copy that rests begins, or waits.
    fn begin_next_round(&mut self, alloc: Global, round: &mut CopyRound) -> Option<Answer>
        requires rests { (actor : ℕ) × ((made : OptionOf ℕ) × (round.old ≡ RestsOf actor made)) }
        ensures is { IsCore self.old }
        ensures steps { (disk : Disk) → StepsCopy (at_disk self.old disk) round.old (at_disk self.new disk)
            (turn_with round.new result) }
        ensures of { IsMoreRound self.new (turn_with round.new result) }
    {
        let CopyRound::Rests { actor, made: _ } = *round else {
            unreachable!();
        };
        match self.begin_round(alloc, actor) {
            Turn::More(begun) => {
                *round = begun;
                None
            }
            Turn::Busy { by: _ } => {
                round.rest(actor, None);
                None
            }
            Turn::Done(answer) => Some(answer),
        }
    }

    /// The next device call of a copy's job, or its end.
    fn step_copying<B: Bank>(&mut self, bank: &mut B, round: &mut CopyRound) -> Option<Answer>
        requires copies { (run : CopyRunOf) × (round.old ≡ CopiesOf run) }
        requires of { IsRoundOf self.old round.old }
        requires bank { HasBankOf self.old (B.disk bank.old) }
        ensures steps { StepsCopy (at_disk self.old (B.disk bank.old)) round.old
            (at_disk self.new (B.disk bank.new)) (turn_with round.new result) }
        ensures of { IsMoreRound self.new (turn_with round.new result) }
        ensures is { IsCore self.old }
    {
        let CopyRound::Copies(run) = round else {
            unreachable!();
        };
        let actor = run.actor();
        if !self.out.is_empty() {
            if let Some(answer) = self.job_give_up(run) {
                return Some(answer);
            }
            round.rest(actor, None);
            return None;
        }
        if run.is_done() {
            self.job_end(run);
            round.rest(actor, None);
            return None;
        }
        self.job_step(bank, run);
        None
    }

    /// The next device call of a copy's commit, or the answer of its group, behind which the copy goes on.
    fn step_commit_of_copy<B: Bank>(
        &mut self,
        bank: &mut B,
        round: &mut CopyRound,
    ) -> Option<Answer>
        requires commits { (run : CommitRunOf) × (round.old ≡ CommitsOf run) }
        requires of { IsRoundOf self.old round.old }
        requires bank { HasBankOf self.old (B.disk bank.old) }
        ensures steps { StepsCopy (at_disk self.old (B.disk bank.old)) round.old
            (at_disk self.new (B.disk bank.new)) (turn_with round.new result) }
        ensures of { IsMoreRound self.new (turn_with round.new result) }
        ensures is { IsCore self.old }
    {
        let Some(actor) = self.committing else {
            unreachable!();
        };
        let CopyRound::Commits(run) = round else {
            unreachable!();
        };
        match self.commit_step(bank, run) {
            Some(Answer::Synced { group }) => {
                round.rest(actor, Some(group));
                None
            }
            answer => answer,
        }
    }
}
