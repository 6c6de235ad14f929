// Frees: one turn each.
ghost use Rattle.std.specs.Prelude.{◌≡◌, ◌+◌, ◌<◌, ℕ, List};
ghost use Rattle.bank_trait.specs.Disk.{Disk};
ghost use Rattle.block_record.specs.declared.entry.IndexEntry.{IndexEntry};
ghost use Rattle.core_state.specs.Map.{Map};
ghost use Rattle.core_blocks.specs.declared.range.PutRange.{PutRange};
ghost use Rattle.core_blocks.specs.Blocks.{AreUnderWay};
ghost use Rattle.core_blocks.specs.Kept.{NoneFree};
ghost use Rattle.core_open.specs.Pool.{HoldsMap};
ghost use Rattle.core_state.specs.Whole.{Excepted};
ghost use Rattle.core_turns.specs.Core.{at_disk, pool_at, HasBankOf};
ghost use Rattle.core_turns.specs.declared.getting.GetRun.{GetRun};
ghost use Rattle.core_turns.specs.Getting.{IsGetOf};
ghost use Rattle.core_turns.specs.Freeing.{FreesBlock, map_after_free};

use crate::Core;
use crate::turn::too_many;
use core_state::Answer;

impl Core {
    /// Takes the block that an id has away, in one turn. Its sectors are held back until a group begun
    /// after this is answered, and a read of it that is under way goes on.
    pub fn free(&mut self, id: u64) -> Answer
        ensures frees { FreesBlock self.old self.new id result }
        ensures holds { (wrong : Excepted) (map : Map) (disk : Disk) → HoldsMap wrong map (pool_at (at_disk self.old disk))
            → HoldsMap wrong (map_after_free map id result) (pool_at (at_disk self.new disk)) }

        // Reads under way stay so, also of the block that is gone.
        ensures gets { (run : GetRun) → IsGetOf self.old run → IsGetOf self.new run }
        ensures bank { (disk : Disk) → HasBankOf self.old disk
            → HasBankOf self.new disk }

        // Puts under way stay so, and no sector of a block that a group up to now keeps is free.
        ensures under { (ranges : List PutRange) → AreUnderWay self.old.pool.blocks ranges
            → AreUnderWay self.new.pool.blocks ranges }
        ensures kept { (past : ℕ) (kept : List IndexEntry) → past < self.old.begun + 1
            → NoneFree self.old.pool.blocks past kept → NoneFree self.new.pool.blocks past kept }
    {
        if self.has_too_many_out() {
            return too_many(self.out);
        }
        let group = self.begun + 1;
        match self.blocks.remove(id, group) {
            Some(_) => Answer::Freed,
            None => Answer::Absent,
        }
    }
}
