// Layouts of blocks.
ghost use Rattle.std.specs.Prelude.{◌≡◌, ◌<◌, ◌≤◌, ◌^◌};
ghost use Rattle.block_record.specs.Page.{IsRightEntry};
ghost use Rattle.core_state.specs.Index.{layout_of};
ghost use Rattle.core_blocks.specs.Blocks.{HasLayouts};
ghost use Rattle.core_blocks.specs.Puts.{layout_at};

use block_record::IndexEntry;
use row_layout::Layout;
use width_map::{Births, width_at};

/// The layout of a block of so many bytes that starts here, at the width of its birth.
pub fn layout_at(parity: u32, births: &Births, start: u64, len_bytes: u32, birth: u64) -> Layout
    requires layouts { HasLayouts parity births.now }
    requires start { start < 2 ^ 54 }
    requires some { 1 ≤ len_bytes }
    requires few { len_bytes ≤ 65536 }
    ensures value { result ≡ layout_at parity births.now start len_bytes birth }
{
    let sectors = (len_bytes + 511) / 512;
    Layout::of(start, sectors, parity, width_at(births, birth))
}

/// The layout of a block that an index lists.
pub fn layout_of(parity: u32, births: &Births, entry: &IndexEntry) -> Layout
    requires layouts { HasLayouts parity births.now }
    requires right { IsRightEntry entry.now }
    requires start { entry.now.start < 2 ^ 54 }
    ensures value { result ≡ layout_of parity births.now entry.now }
{
    layout_at(parity, births, entry.start, entry.len, entry.birth)
}
