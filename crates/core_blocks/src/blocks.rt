// The blocks of a pool and its free sectors.
ghost use Rattle.std.specs.Prelude.{◌≡◌, ◌↔◌, ◌+◌, ◌≤◌, ◌<◌, ◌^◌, ℕ, ◌++◌, ◌∷◌, [], List, Some, None, All, Contains};
ghost use Rattle.std.specs.Prelude.{IfOk, IfErr, IfSome, IsErrOf, IsTrue, OnErr, length};
ghost use Rattle.std.specs.Option.{option_copied};
ghost use Rattle.width_map.specs.Births.{last_width};
ghost use Rattle.reflow_mark.specs.Reflow.{sectors_of};
ghost use Rattle.uberblock_ring.specs.Uberblock.{Uber};
ghost use Rattle.block_record.specs.declared.entry.IndexEntry.{IndexEntry};
ghost use Rattle.block_record.specs.Page.{IsIndex, IsRightEntry};
ghost use Rattle.block_table.specs.Table.{ChangesOnly, IsFull, IsTable, entry_of, without_one};
ghost use Rattle.space_alloc.specs.Space.{after_group, Gains, IsDropping};
ghost use Rattle.row_layout.specs.Layout.{allocated_of};
ghost use Rattle.core_state.specs.Index.{AreApart, IsFitting, block_end};
ghost use Rattle.core_blocks.specs.Blocks.{AreInStep, AreUnderWay, HasLayouts, IsListed, IsStanding, IsUnderWay};
ghost use Rattle.core_blocks.specs.Blocks.{range_of, put_run};
ghost use Rattle.core_blocks.specs.Growing.{grown_by};
ghost use Rattle.core_blocks.specs.IndexPage.{IsDigestedPage};
ghost use Rattle.core_blocks.specs.declared.range.PutRange.{PutRange};
ghost use Rattle.core_blocks.specs.Puts.{BeginsPut, HoldsBack, IsAsBefore, IsPutCause, IsRangeFor, sectors_taken};
ghost use Rattle.core_blocks.specs.Kept.{NoneFree, SparesAll};
ghost use Rattle.core_blocks.specs.Loading.{IsTakenBy};

use crate::{IndexPage, PutRange, PutRefused, loading, sectors};
use block_record::IndexEntry;
use block_table::Table;
use range_locks::Locks;
use space_alloc::Space;
use std::alloc::{AllocError, Global};
use std::marker::Model;
use width_map::Births;

/// The blocks by their ids, and the sectors that they and the puts under way take. The index page is
/// kept from when it is asked for until a block comes or goes.
#[derive(Drop)]
pub struct Blocks {
    table: Table,
    space: Space,
    parity: u32,
    births: Births,
    page: Option<IndexPage>,
}

impl Model for Blocks {
    ghost use Rattle.std.specs.Prelude.{IfSome};
    ghost use Rattle.core_blocks.specs.Blocks.{Blocks as BlocksOf, AreInStep};
    ghost use Rattle.core_blocks.specs.IndexPage.{IsDigestedPage};

    ghost Value = { BlocksOf };

    ghost view = { λ blocks. record {
      parity = blocks.parity;
      births = blocks.births;
      table = blocks.table;
      space = blocks.space;
    } };

    ghost invariant = { λ blocks. AreInStep (record {
      parity = blocks.parity;
      births = blocks.births;
      table = blocks.table;
      space = blocks.space;
    }) × IfSome blocks.page (IsDigestedPage blocks.table.entries) };
}

impl Blocks {
    /// The blocks of an index that fits a pool of so many sectors. Nothing is reserved or held
    /// back.
    pub fn load(
        alloc: Global,
        parity: u32,
        births: Births,
        capacity: u64,
        entries: &[IndexEntry],
    ) -> Result<Blocks, AllocError>
        requires layouts { HasLayouts parity births }
        requires small { capacity ≤ 2 ^ 54 }
        requires index { IsIndex entries.now }
        requires few { length entries.now ≤ 512 }
        requires below { All (λ entry. block_end parity births entry ≤ capacity) entries.now }
        requires apart { AreApart parity births entries.now }
        ensures parity { IfOk result (λ blocks. blocks.parity ≡ parity) }
        ensures births { IfOk result (λ blocks. blocks.births ≡ births) }
        ensures table { IfOk result (λ blocks.
            blocks.table ≡ record { entries = entries.now; reserved = [] }) }
        ensures space { IfOk result (λ blocks.
            IsTakenBy parity births capacity entries.now blocks.space) }
        ensures under { IfOk result (λ blocks. AreUnderWay blocks []) }
    {
        let table = loading::table_of(alloc, entries)?;
        let space = loading::space_of(alloc, parity, &births, capacity, table.entries())?;
        Ok(Blocks {
            table,
            space,
            parity,
            births,
            page: None,
        })
    }

    /// The entry of a block.
    pub fn get(&self, id: u64) -> Option<&IndexEntry>
        ensures value { option_copied result ≡ entry_of self.now.table.entries id }
        ensures stands { IfSome result (λ entry.
            IsStanding self.now.parity self.now.births self.now.space entry.now) }
        ensures step { AreInStep self.now }
    {
        self.table.get(id)
    }

    /// How many blocks there are.
    pub fn len(&self) -> usize
        ensures value { result ≡ length self.now.table.entries }
        ensures few { result ≤ 512 }
    {
        self.table.len()
    }

    pub fn is_empty(&self) -> bool
        ensures value { IsTrue result ↔ (length self.now.table.entries ≡ 0) }
    {
        self.table.is_empty()
    }

    /// The entries of all blocks, in the order of their ids: the index of the next group.
    pub fn entries(&self) -> &[IndexEntry]
        ensures value { result.now ≡ self.now.table.entries }
        ensures table { IsTable self.now.table }
        ensures step { AreInStep self.now }

        // The index fits each uberblock of the pool whose group is not before a block's birth.
        ensures fitting { (uber : Uber) → uber.parity ≡ self.now.parity
            → uber.births ≡ self.now.births → sectors_of uber.reflow ≡ self.now.space.capacity
            → All (λ entry. entry.birth ≤ uber.group) self.now.table.entries
            → IsFitting uber self.now.table.entries }
        ensures kept { (past : ℕ) → NoneFree self.now past self.now.table.entries }
    {
        self.table.entries()
    }

    /// The index page of the next group. It is encoded and digested once, as long as no block comes
    /// or goes.
    pub fn page(&mut self, alloc: Global) -> Result<IndexPage, AllocError>
        ensures page { IfOk result (IsDigestedPage self.old.table.entries) }
        ensures same { self.new ≡ self.old }
    {
        let page = match self.page.take() {
            Some(page) => page,
            None => IndexPage::of(alloc, self.table.entries())?,
        };
        let copy = page.try_copy(alloc);
        self.page = Some(page);
        copy
    }

    /// Begins a put of so many bytes in this group: reserves its id, and takes the lowest run that
    /// fits.
    pub fn begin_put(
        &mut self,
        id: u64,
        len_bytes: u32,
        group: u64,
        locks: &Locks,
    ) -> Result<PutRange, PutRefused>
        requires some { 1 ≤ len_bytes }
        requires few { len_bytes ≤ 65536 }
        ensures step { AreInStep self.old }
        ensures range { IfOk result (IsRangeFor self.new id len_bytes group) }
        ensures begins { IfOk result (BeginsPut self.old self.new locks.now) }
        ensures under_way { IfOk result (IsUnderWay self.new) }

        // Whether there is room is known before any memory or sector is asked for.
        ensures cause_full { IsErrOf result PutRefused.Full ↔ IsFull self.old.table id }
        ensures cause { IfErr result (IsPutCause self.old locks.now id
            (sectors_taken self.old.parity self.old.births len_bytes group)) }
        ensures err { OnErr result (IsAsBefore self.old self.new) }
        ensures stays { AreInStep self.new }
        ensures under { IfOk result (λ range. (ranges : List PutRange) → AreUnderWay self.old ranges
            → AreUnderWay self.new (ranges ++ range ∷ [])) }
        ensures under_err { OnErr result ((ranges : List PutRange) → AreUnderWay self.old ranges
            → AreUnderWay self.new ranges) }
        ensures kept { (past : ℕ) (kept : List IndexEntry) → NoneFree self.old past kept
            → NoneFree self.new past kept }

        // No put gets a sector of a block that is kept.
        ensures spares { IfOk result (λ range. (past : ℕ) (kept : List IndexEntry)
            → NoneFree self.old past kept
            → SparesAll self.old.parity self.old.births kept (put_run range)) }
    {
        self.table.reserve_id(id)?;
        match sectors::take(
            &mut self.space,
            self.parity,
            &self.births,
            len_bytes,
            group,
            locks,
        ) {
            Ok(layout) => Ok(PutRange {
                id,
                birth: group,
                layout,
            }),
            Err(refused) => {
                self.table.release_id(id);
                Err(refused.into())
            }
        }
    }

    /// Ends a put: its block stands in the table from now on. Gives the entry that it replaces,
    /// whose sectors are held back until a group is answered.
    pub fn end_put(&mut self, entry: IndexEntry, group: u64) -> Option<IndexEntry>
        requires right { IsRightEntry entry }
        requires under_way { IsUnderWay self.old (range_of self.old.parity self.old.births entry) }
        ensures was { result ≡ entry_of self.old.table.entries entry.id }
        ensures stays { AreInStep self.new }
        ensures change { ChangesOnly self.old.table.entries self.new.table.entries entry.id
            (Some entry) }
        ensures reserved { self.new.table.reserved
            ≡ without_one entry.id self.old.table.reserved }
        ensures held { HoldsBack self.old.parity self.old.births self.old.space self.new.space
            group result }
        ensures parity { self.new.parity ≡ self.old.parity }
        ensures births { self.new.births ≡ self.old.births }
        ensures under { (left ranges : List PutRange)
            → Gains left ranges (range_of self.old.parity self.old.births entry)
            → AreUnderWay self.old ranges → AreUnderWay self.new left }
        ensures kept { (past : ℕ) (kept : List IndexEntry) → past < group
            → NoneFree self.old past kept → NoneFree self.new past kept }
    {
        let was = self.table.put(entry);
        self.page = None;
        sectors::hold_back(&mut self.space, self.parity, &self.births, was, group);
        was
    }

    /// Ends a put without a block: its sectors are free at once.
    pub fn give_up(&mut self, range: PutRange)
        requires under_way { IsUnderWay self.old range }
        ensures stays { AreInStep self.new }
        ensures entries { self.new.table.entries ≡ self.old.table.entries }
        ensures reserved { self.new.table.reserved
            ≡ without_one range.id self.old.table.reserved }
        ensures dropped { IsDropping self.old.space self.new.space range.layout.start
            (allocated_of range.layout) }
        ensures parity { self.new.parity ≡ self.old.parity }
        ensures births { self.new.births ≡ self.old.births }
        ensures under { (left ranges : List PutRange) → Gains left ranges range
            → AreUnderWay self.old ranges → AreUnderWay self.new left }
        ensures kept { (past : ℕ) (kept : List IndexEntry)
            → SparesAll self.old.parity self.old.births kept (put_run range)
            → NoneFree self.old past kept → NoneFree self.new past kept }
    {
        self.table.release_id(range.id);
        let layout = &range.layout;
        self.space.drop_run(layout.start(), layout.alloc_size());
    }

    /// Takes a block away, and gives its entry. Its sectors are held back until a group is
    /// answered.
    pub fn remove(&mut self, id: u64, group: u64) -> Option<IndexEntry>
        ensures was { result ≡ entry_of self.old.table.entries id }
        ensures stays { AreInStep self.new }
        ensures change { ChangesOnly self.old.table.entries self.new.table.entries id None }
        ensures reserved { self.new.table.reserved ≡ self.old.table.reserved }
        ensures held { HoldsBack self.old.parity self.old.births self.old.space self.new.space
            group result }
        ensures parity { self.new.parity ≡ self.old.parity }
        ensures births { self.new.births ≡ self.old.births }
        ensures under { (ranges : List PutRange) → AreUnderWay self.old ranges
            → AreUnderWay self.new ranges }
        ensures kept { (past : ℕ) (kept : List IndexEntry) → past < group
            → NoneFree self.old past kept → NoneFree self.new past kept }
    {
        let gone = self.table.remove(id);
        self.page = None;
        sectors::hold_back(&mut self.space, self.parity, &self.births, gone, group);
        gone
    }

    /// Frees what was held back until this group, which is answered, or an earlier one.
    pub fn synced(&mut self, group: u64)
        ensures value { self.new ≡ record self.old { space = after_group self.old.space group } }
        ensures stays { AreInStep self.new }
        ensures under { (ranges : List PutRange) → AreUnderWay self.old ranges
            → AreUnderWay self.new ranges }
        ensures kept { (past : ℕ) (kept : List IndexEntry) → group ≤ past
            → NoneFree self.old past kept → NoneFree self.new past kept }
    {
        self.space.synced(group);
    }

    /// An expansion ended in this group: blocks born two groups later are one device wider, and the
    /// pool has so many sectors. Those that are there, and the puts under way, stay where they are.
    pub fn grow(&mut self, group: u64, capacity: u64)
        requires room { length self.old.births < 16 }
        requires wide { self.old.parity ≤ last_width self.old.births }
        requires narrow { last_width self.old.births < 16 }
        requires group_fits { group ≤ 2 ^ 62 }
        requires larger { self.old.space.capacity ≤ capacity }
        requires small { capacity ≤ 2 ^ 54 }
        requires born { (entry : IndexEntry) → IsListed self.old.table.entries entry
            → entry.birth < group + 2 }
        ensures value { self.new ≡ grown_by self.old group capacity }
        ensures stays { AreInStep self.new }
        ensures under { (ranges : List PutRange) → AreUnderWay self.old ranges
            → AreUnderWay self.new ranges }
        ensures range { (id len birth : ℕ) (range : PutRange) → birth < group + 2
            → IsRangeFor self.old id len birth range → IsRangeFor self.new id len birth range }
        ensures kept { (past : ℕ) (kept : List IndexEntry)
            → ((entry : IndexEntry) → Contains kept entry → entry.birth < group + 2)
            → NoneFree self.old past kept → NoneFree self.new past kept }
    {
        self.births.add(group);
        self.space.enlarge(capacity);
    }
}
