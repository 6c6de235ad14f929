// Reads, turn by turn.
ghost use Rattle.std.specs.Prelude.{◌≡◌, ℕ, List, false, ◌+◌, ◌^◌, ◌<◌, ◌≤◌, ◌↔◌, IfOk, IfSome, IsTrue, OnErr, OnOk};
ghost use Rattle.std.specs.Prelude.{[]};
ghost use Rattle.bank_trait.specs.Disk.{Disk, Unchanged};
ghost use Rattle.row_layout.specs.Layout.{rows_of};
ghost use Rattle.reconstruct.specs.Rows.{sectors_for};
ghost use Rattle.uberblock_ring.specs.Devices.{count_of};
ghost use Rattle.core_state.specs.Map.{Map};
ghost use Rattle.core_state.specs.Index.{layout_of};
ghost use Rattle.shadow_write.specs.Band.{IsFrontOf};
ghost use Rattle.core_client.specs.BlockTurns.{IsAtColumn};
ghost use Rattle.core_state.specs.Outs.{OnlyFailedGoOut};
ghost use Rattle.core_state.specs.Committing.{point_of};
ghost use Rattle.core_open.specs.Pool.{HoldsMap};
ghost use Rattle.core_state.specs.Whole.{Excepted};
ghost use Rattle.core_turns.specs.declared.getting.GetRun.{GetRun as GetRunOf};
ghost use Rattle.core_turns.specs.Core.{Core as CoreOf, CoreState, IsCore, at_disk, pool_at, HasBankOf};
ghost use Rattle.core_turns.specs.Getting.{HasLayout, HoldsGet, FindsGet, KeepsGet, TellsGet, IsAlike, IsGetOf};
ghost use Rattle.core_turns.specs.Getting.{IsMoreOf, IsReadKind, BeginsGet, ReadsTurn, IsSolvable, IsSolved, SolvesGet};
ghost use Rattle.core_turns.specs.Getting.{EndsGetSo, answer_of, to_solve_of, pool_widths};
ghost use Rattle.core_turns.specs.Steps.{turn_with};
ghost use Rattle.core_turns.specs.declared.turn.Turn.TheVariants.{Done};

use crate::solving::{Solved, SolvedFrom, ToSolve, solve_columns};
use crate::turn::too_many;
use crate::{Core, Turn};
use bank_trait::Bank;
use block_record::IndexEntry;
use core_client::{BlockRead, Widths};
use core_state::{Answer, Bytes, Kind};
use range_locks::{Hold, LockRefused};
use row_layout::Layout;
use std::alloc::Global;
use std::mem::replace;
use uberblock_ring::Uber;
use width_map::width_at;

/// A get or a sum under way. It holds its block's sectors, beside other readers.
#[derive(Drop)]
pub struct GetRun {
    kind: Kind,
    pub(crate) hold: Hold,
    pub(crate) entry: IndexEntry,
    pub(crate) read: BlockRead,
    /// The widths of the pool at its first turn.
    widths: Widths,
    pub(crate) solved: Solved,
}

/// No memory was left.
#[derive(Clone, Copy, Debug, PartialEq, Eq)]
pub struct OutOfMemory;

/// The layout of a block of the pool.
fn layout_of(uber: &Uber, entry: &IndexEntry) -> Layout
    requires { HasLayout uber.now entry.now }
    ensures { result ≡ layout_of uber.now.parity uber.now.births entry.now }
{
    Layout::of(
        entry.start,
        (entry.len + 511) / 512,
        uber.parity(),
        width_at(uber.births(), entry.birth),
    )
}

/// The widths of the pool as they are.
fn pool_widths(uber: &Uber) -> Widths
    ensures { result ≡ pool_widths uber.now }
{
    let reflow = uber.reflow();
    Widths {
        births: *uber.births(),
        to: reflow.to,
        mark: reflow.mark,
    }
}

impl GetRun {
    /// Whether all columns were read. The block is solved then, and the read ended.
    pub fn is_read(&self) -> bool
        ensures value { IsTrue result ↔ (self.now.read.row ≡ rows_of self.now.read.layout) }
        ensures left { result ≡ false → self.now.read.row < rows_of self.now.read.layout }
        ensures place { IsAtColumn self.now.read }
    {
        self.read.is_done()
    }

    /// What is to be solved, once all columns were read: the columns are shared. Nothing where memory is exhausted for
    /// that.
    pub fn to_solve(&mut self, alloc: Global) -> Option<ToSolve>
        requires len { sectors_for self.old.entry.len ≡ self.old.read.layout.sectors }
        ensures same { self.new ≡ self.old }
        ensures solvable { IfSome result IsSolvable }
        ensures alike { IfSome result (λ block. IsAlike block (to_solve_of self.old)) }
        ensures read { IfSome result (λ _. self.old.read.row ≡ rows_of self.old.read.layout) }
    {
        let read = self.read.share(alloc)?;
        Some(ToSolve {
            layout: *self.read.layout(),
            read,
            len: self.entry.len,
            digest: self.entry.digest,
            widths: self.widths,
        })
    }

    /// Takes what was solved, where it was solved from what this read has. Tells whether it was.
    pub fn take_solved(&mut self, from: SolvedFrom) -> bool
        requires solvable { IsSolvable from.block }
        requires solved { IsSolved from.block from.solved }
        ensures value { IsTrue result ↔ IsAlike from.block (to_solve_of self.old) }
        ensures solves { IsTrue result → SolvesGet self.old self.new }
        ensures other { result ≡ false → self.new ≡ self.old }
    {
        let block = &from.block;
        if !block.is_alike(
            self.read.layout(),
            self.read.columns(),
            self.entry.len,
            &self.entry.digest,
            &self.widths,
        ) {
            return false;
        }
        self.solved = from.solved;
        true
    }

    /// Solves the block from what was read. Calls no device, and is no turn.
    pub fn solve(&mut self, alloc: Global) -> Result<(), OutOfMemory>
        requires len { sectors_for self.old.entry.len ≡ self.old.read.layout.sectors }
        ensures ok { OnOk result (SolvesGet self.old self.new) }
        ensures keeps { OnOk result ((wrong : Excepted) (content : List ℕ) (state : CoreState)
            → self.old.read.row ≡ rows_of self.old.read.layout → IsGetOf state.core self.old
            → HoldsGet wrong content state self.old → HoldsGet wrong content state self.new) }
        ensures of { (core : CoreOf) → IsGetOf core self.old → IsGetOf core self.new }
        ensures err { OnErr result (self.new ≡ self.old) }
    {
        self.solve_columns_read(alloc)
    }

    fn solve_columns_read(&mut self, alloc: Global) -> Result<(), OutOfMemory>
        requires len { sectors_for self.old.entry.len ≡ self.old.read.layout.sectors }
        ensures ok { OnOk result (SolvesGet self.old self.new) }
        ensures err { OnErr result (self.new ≡ self.old) }
    {
        self.solved = self.solved_columns(alloc)?;
        Ok(())
    }

    /// What the columns that were read come to.
    pub(crate) fn solved_columns(&self, alloc: Global) -> Result<Solved, OutOfMemory>
        requires len { sectors_for self.now.entry.len ≡ self.now.read.layout.sectors }
        ensures { IfOk result (IsSolved (to_solve_of self.now)) }
    {
        solve_columns(
            alloc,
            self.read.layout(),
            self.read.columns(),
            self.entry.len,
            &self.entry.digest,
            &self.widths,
        )
    }
}

impl Core {
    /// The first turn of a get, or a sum, of an id: finds its block and holds its sectors.
    pub fn get_begin(&mut self, alloc: Global, actor: u8, kind: Kind, id: u64) -> Turn<GetRun>
        requires kind { IsReadKind kind }
        ensures begins { BeginsGet self.old self.new actor kind id result }

        // A block that is found is the one of the map, but for what may be wrong.
        ensures finds { (wrong : Excepted) (map : Map) (disk : Disk) → HoldsMap wrong map (pool_at (at_disk self.old disk))
            → FindsGet wrong map (at_disk self.new disk) id result }

        // Other reads go on.
        ensures others { (run : GetRunOf) → IsGetOf self.old run → IsGetOf self.new run }
        ensures bank { (disk : Disk) → HasBankOf self.old disk
            → HasBankOf self.new disk }
    {
        self.find_and_hold(alloc, actor, kind, id)
    }

    /// The next column of a block that is read; or the answer, where too many devices are out, which ends the read.
    pub fn get_read<B: Bank>(&mut self, bank: &mut B, run: &mut GetRun) -> Option<Answer>
        requires left { run.old.read.row < rows_of run.old.read.layout }
        requires of { IsGetOf self.old run.old }
        requires bank { HasBankOf self.old (B.disk bank.old) }
        ensures reads { ReadsTurn (at_disk self.old (B.disk bank.old)) run.old
            (at_disk self.new (B.disk bank.new)) (turn_with run.new result) }
        ensures keeps { (wrong : Excepted) (content : List ℕ)
            → HoldsGet wrong content (at_disk self.old (B.disk bank.old)) run.old
            → KeepsGet wrong content (at_disk self.new (B.disk bank.new)) (turn_with run.new result) }
        ensures of { IsMoreOf self.new (turn_with run.new result) }
        ensures bank { HasBankOf self.new (B.disk bank.new) }
        ensures unchanged { Unchanged (B.disk bank.old) (B.disk bank.new) }
        ensures out { OnlyFailedGoOut (point_of self.old.pool.out (B.disk bank.old))
            (point_of self.new.pool.out (B.disk bank.new)) }
    {
        self.read_next_column(bank, run)
    }

    /// The last turn of a read: tells its block, once it was solved, or that memory was exhausted for that. What was
    /// solved is taken from it.
    pub fn get_end(&mut self, run: &mut GetRun) -> Answer
        requires kind { IsReadKind run.old.kind }
        requires of { IsGetOf self.old run.old }
        ensures ends { EndsGetSo self.old self.new run.old result }
        ensures tells { (content : List ℕ) (disk : Disk) → HoldsGet [] content (at_disk self.old disk) run.old
            → TellsGet content run.old (Done result) }
    {
        self.release_and_tell(run)
    }

    fn find_and_hold(&mut self, alloc: Global, actor: u8, kind: Kind, id: u64) -> Turn<GetRun>
        ensures { BeginsGet self.old self.new actor kind id result }
    {
        if self.has_too_many_out() {
            return Turn::Done(too_many(self.out));
        }
        let Some(entry) = self.blocks.get(id) else {
            return Turn::Done(Answer::Absent);
        };
        let entry = *entry;
        let layout = layout_of(&self.uber, &entry);
        let end = entry.start + layout.alloc_size();
        let widths = pool_widths(&self.uber);
        let Ok(read) = BlockRead::new(alloc, &layout) else {
            return Turn::Done(Answer::NoMemory);
        };
        let hold = match self.locks.hold_shared(entry.start, end, actor) {
            Ok(hold) => hold,
            Err(LockRefused::Busy { by }) => return Turn::Busy { by },
            Err(LockRefused::NoMemory) => return Turn::Done(Answer::NoMemory),
        };
        Turn::More(GetRun {
            kind,
            hold,
            entry,
            read,
            widths,
            solved: Solved::NotYet,
        })
    }

    fn read_next_column<B: Bank>(&mut self, bank: &mut B, run: &mut GetRun) -> Option<Answer>
        requires left { run.old.read.row < rows_of run.old.read.layout }
        requires of { IsGetOf self.old run.old }
        requires bank { HasBankOf self.old (B.disk bank.old) }
        ensures reads { ReadsTurn (at_disk self.old (B.disk bank.old)) run.old
            (at_disk self.new (B.disk bank.new)) (turn_with run.new result) }
        ensures place { result ≡ None → IsAtColumn run.old.read }
        ensures front { IsFrontOf self.old.pool.uber.reflow self.old.pool.done }
        ensures unchanged { Unchanged (B.disk bank.old) (B.disk bank.new) }
        ensures out { OnlyFailedGoOut (point_of self.old.pool.out (B.disk bank.old))
            (point_of self.new.pool.out (B.disk bank.new)) }
    {
        if self.has_too_many_out() {
            self.locks.end(run.hold);
            return Some(too_many(self.out));
        }
        let reflow = self.uber.reflow();
        run.read.step(bank, &reflow, &mut self.out);
        None
    }

    fn release_and_tell(&mut self, run: &mut GetRun) -> Answer
        requires of { IsGetOf self.old run.old }
        ensures { EndsGetSo self.old self.new run.old result }
    {
        self.locks.end(run.hold);
        if self.has_too_many_out() {
            return too_many(self.out);
        }
        match replace(&mut run.solved, Solved::NotYet) {
            Solved::NotYet => Answer::NoMemory,
            Solved::Damaged => Answer::Damaged,
            Solved::Bytes(bytes) => answer_of(run.kind, &run.entry, bytes),
        }
    }
}

/// A get answers the bytes, a sum their length and digest.
fn answer_of(kind: Kind, entry: &IndexEntry, bytes: Bytes) -> Answer
    ensures { result ≡ answer_of kind entry.now bytes }
{
    match kind {
        Kind::Sum => {
            Answer::Digest {
                len: entry.len,
                sha: entry.digest,
            }
        }
        _ => Answer::Read { bytes },
    }
}
