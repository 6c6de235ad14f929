// From an index to its table, and to the sectors that its blocks take.
ghost use Rattle.std.specs.Prelude.{◌≡◌, ◌≤◌, ◌^◌, ◌++◌, ◌∷◌, [], true, nat_eq, All, IfOk, OnOk, length};
ghost use Rattle.std.specs.Set.{is_member};
ghost use Rattle.block_record.specs.Page.{IsIndex, IsRightEntry};
ghost use Rattle.block_table.specs.Table.{IsFull};
ghost use Rattle.core_state.specs.Index.{AreApart, block_end};
ghost use Rattle.core_blocks.specs.Blocks.{HasLayouts};
ghost use Rattle.core_blocks.specs.Loading.{FindSame, IsTakenBy};

use crate::layouts::layout_of;
use block_record::IndexEntry;
use block_table::{ReserveRefused, Table};
use space_alloc::Space;
use std::alloc::{AllocError, Global};
use width_map::Births;

/// A table with these entries.
pub fn table_of(alloc: Global, entries: &[IndexEntry]) -> Result<Table, AllocError>
    requires index { IsIndex entries.now }
    requires few { length entries.now ≤ 512 }
    ensures entries { IfOk result (λ table. FindSame table.entries entries.now) }
    ensures reserved { IfOk result (λ table. table.reserved ≡ []) }
{
    let mut table = Table::new(alloc);
    for entry in entries {
        reserve(&mut table, entry.id)?;
        table.put(*entry);
    }
    Ok(table)
}

/// Reserves an id for which there is room.
fn reserve(table: &mut Table, id: u64) -> Result<(), AllocError>
    requires room { IsFull table.old id → ⊥ }
    ensures ok { OnOk result (table.new ≡ record table.old {
      reserved = table.old.reserved ++ id ∷ [];
    }) }
    ensures reserved { OnOk result (is_member nat_eq table.new.reserved id ≡ true) }
{
    match table.reserve_id(id) {
        Ok(()) => Ok(()),
        Err(ReserveRefused::NoMemory) => Err(AllocError),
        Err(ReserveRefused::Full) => unreachable!(),
    }
}

/// A space of which the blocks of an index have taken their sectors.
pub fn space_of(
    alloc: Global,
    parity: u32,
    births: &Births,
    capacity: u64,
    entries: &[IndexEntry],
) -> Result<Space, AllocError>
    requires layouts { HasLayouts parity births.now }
    requires small { capacity ≤ 2 ^ 54 }
    requires right { All IsRightEntry entries.now }
    requires below { All (λ entry. block_end parity births.now entry ≤ capacity) entries.now }
    requires apart { AreApart parity births.now entries.now }
    ensures value { IfOk result (IsTakenBy parity births.now capacity entries.now) }
{
    let mut space = Space::new(alloc, capacity);
    for entry in entries {
        let sectors = layout_of(parity, births, entry).alloc_size();
        space.claim(entry.start, sectors)?;
    }
    Ok(space)
}
