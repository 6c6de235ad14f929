// A scrub under way.
ghost use Rattle.std.specs.Prelude.{◌≡◌, ◌+◌, ◌<◌, ◌≤◌, IfOk, None as NoBlock, OnErr, OnOk, Some, length};
ghost use Rattle.block_table.specs.Table.{ids_of};
ghost use Rattle.core_state.specs.declared.answer.Answer.{Answer as AnswerOf};
ghost use Rattle.core_turns.specs.declared.block_scrub.BlockScrub.{BlockScrub as BlockOf};
ghost use Rattle.core_turns.specs.Core.{Core as CoreOf};
ghost use Rattle.core_turns.specs.ScrubRun.{FindsInHand, IsBlockOf, begun_scrub, counted_with, next_id};

use crate::BlockScrub;
use crate::getting::OutOfMemory;
use block_record::IndexEntry;
use core_state::{Answer, Ids};
use std::alloc::{AllocError, Global};
use std::marker::Model;
use std::mem::replace;

/// A scrub under way: the ids that the table had when it began, the block that is in hand, and what was found so far.
#[derive(Drop)]
pub struct ScrubRun {
    pub(crate) actor: u8,
    ids: Vec<u64>,
    /// How many of them were passed.
    next: usize,
    pub(crate) block: Option<BlockScrub>,
    blocks: u32,
    repaired: u64,
    damaged: Vec<u64>,
}

impl Model for ScrubRun {
    ghost use Rattle.core_turns.specs.ScrubRun.{ScrubRun as RunOf, IsScrubRun};

    ghost Value = { RunOf };

    ghost view = { λ run. record {
      actor = run.actor;
      ids = run.ids.items;
      next = run.next;
      block = run.block;
      blocks = run.blocks;
      repaired = run.repaired;
      damaged = run.damaged.items;
    } };

    ghost invariant = { λ run. IsScrubRun (record {
      actor = run.actor;
      ids = run.ids.items;
      next = run.next;
      block = run.block;
      blocks = run.blocks;
      repaired = run.repaired;
      damaged = run.damaged.items;
    }) };
}

impl ScrubRun {
    /// A scrub of the blocks of these entries, with room for the ids of those that turn out damaged.
    pub(crate) fn new(
        alloc: Global,
        actor: u8,
        entries: &[IndexEntry],
    ) -> Result<ScrubRun, AllocError>
        requires few { length entries.now ≤ 512 }
        ensures value { IfOk result (λ run. run ≡ begun_scrub actor (ids_of entries.now)) }
    {
        let mut ids = Vec::with_capacity(alloc, entries.len())?;
        for entry in entries {
            ids.push(entry.id)?;
        }
        let damaged = Vec::with_capacity(alloc, entries.len())?;
        Ok(ScrubRun {
            actor,
            ids,
            next: 0,
            block: None,
            blocks: 0,
            repaired: 0,
            damaged,
        })
    }

    /// The id that comes next.
    pub(crate) fn next_id(&self) -> Option<u64>
        ensures { result ≡ next_id self.now }
    {
        self.ids.get(self.next).copied()
    }

    /// The block of the next id is in hand from here on.
    pub(crate) fn take(&mut self, block: BlockScrub)
        requires some { self.old.next < length self.old.ids }
        ensures { self.new ≡ record self.old {
          next = self.old.next + 1;
          block = Some block;
          blocks = self.old.blocks + 1;
        } }
    {
        self.next += 1;
        self.blocks += 1;
        self.block = Some(block);
    }

    /// Passes over an id that is gone.
    pub(crate) fn pass_over(&mut self)
        requires some { self.old.next < length self.old.ids }
        ensures { self.new ≡ record self.old { next = self.old.next + 1 } }
    {
        self.next += 1;
    }

    /// No block is in hand from here on.
    pub(crate) fn put_down(&mut self)
        ensures { self.new ≡ record self.old { block = NoBlock } }
    {
        self.block = None;
    }

    /// Counts a place that reads otherwise.
    pub(crate) fn count(&mut self, otherwise: bool)
        ensures { self.new ≡ record self.old { repaired = counted_with otherwise self.old.repaired } }
    {
        if otherwise {
            self.repaired = self.repaired.saturating_add(1);
        }
    }

    /// Finds the block in hand, and lists its id where it is damaged.
    pub(crate) fn find(&mut self, alloc: Global) -> Result<(), OutOfMemory>
        requires of { (core : CoreOf) × IsBlockOf core self.old.block }
        requires block { (block : BlockOf) × (self.old.block ≡ Some block) }
        ensures ok { (block : BlockOf) → self.old.block ≡ Some block
            → OnOk result (FindsInHand self.old block self.new) }
        ensures err { OnErr result (self.new ≡ self.old) }
    {
        let Some(block) = &mut self.block else {
            unreachable!();
        };
        if self.damaged.reserve(1).is_err() {
            return Err(OutOfMemory);
        }
        block.find(alloc)?;
        if !block.is_damaged() {
            return Ok(());
        }
        match self.damaged.push(block.id()) {
            Ok(()) => Ok(()),
            Err(_) => unreachable!(),
        }
    }

    /// What is answered where all ids were passed. The list of damaged ones is taken from it.
    pub(crate) fn told(&mut self, alloc: Global) -> Answer
        ensures { result ≡ AnswerOf.Scrubbed self.old.blocks self.old.repaired self.old.damaged }
    {
        let damaged = replace(&mut self.damaged, Vec::new(alloc));
        Answer::Scrubbed {
            blocks: self.blocks,
            repaired: self.repaired,
            damaged: Ids::new(damaged),
        }
    }
}
