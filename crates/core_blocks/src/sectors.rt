// The sectors of a block, taken and held back.
ghost use Rattle.std.specs.Prelude.{◌≡◌, ◌<◌, ◌≤◌, ◌^◌, Contains, IfOk, IfErr, IfSome, OnErr};
ghost use Rattle.row_layout.specs.Layout.{allocated_of};
ghost use Rattle.space_alloc.specs.Space.{IsFirstFit, IsTaking, IsTakeCause};
ghost use Rattle.core_blocks.specs.Blocks.{HasLayouts, IsStanding, layout_run};
ghost use Rattle.core_blocks.specs.Puts.{HoldsBack, layout_at, sectors_taken};

use crate::layouts::{layout_at, layout_of};
use block_record::IndexEntry;
use range_locks::Locks;
use row_layout::Layout;
use space_alloc::{Space, TakeRefused};
use width_map::Births;

/// Takes the lowest run that fits a block of so many bytes.
pub fn take(
    space: &mut Space,
    parity: u32,
    births: &Births,
    len_bytes: u32,
    birth: u64,
    locks: &Locks,
) -> Result<Layout, TakeRefused>
    requires layouts { HasLayouts parity births.now }
    requires small { space.old.capacity ≤ 2 ^ 54 }
    requires some { 1 ≤ len_bytes }
    requires few { len_bytes ≤ 65536 }
    ensures layout { IfOk result (λ layout.
        layout ≡ layout_at parity births.now layout.start len_bytes birth) }
    ensures first { IfOk result (λ layout.
        IsFirstFit space.old locks.now (allocated_of layout) layout.start) }
    ensures taken { IfOk result (λ layout.
        IsTaking space.old space.new layout.start (allocated_of layout)) }
    ensures listed { IfOk result (λ layout. Contains space.new.taken (layout_run layout)) }
    ensures some { IfOk result (λ layout. 0 < allocated_of layout) }
    ensures cause { IfErr result (IsTakeCause space.old locks.now
        (sectors_taken parity births.now len_bytes birth)) }
    ensures err { OnErr result (space.new ≡ space.old) }
{
    let sectors = layout_at(parity, births, 0, len_bytes, birth).alloc_size();
    let start = space.take_lowest(sectors, locks)?;
    Ok(layout_at(parity, births, start, len_bytes, birth))
}

/// Holds the sectors of a block that is gone back until a group is answered.
pub fn hold_back(
    space: &mut Space,
    parity: u32,
    births: &Births,
    gone: Option<IndexEntry>,
    group: u64,
)
    requires layouts { HasLayouts parity births.now }
    requires standing { IfSome gone (IsStanding parity births.now space.old) }
    ensures value { HoldsBack parity births.now space.old space.new group gone }
{
    if let Some(entry) = gone {
        let sectors = layout_of(parity, births, &entry).alloc_size();
        space.hold_until(entry.start, sectors, group);
    }
}
