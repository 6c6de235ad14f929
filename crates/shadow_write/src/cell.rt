// A column of a row of a block, and the writes of its sector.
ghost use Rattle.std.specs.Prelude.{◌≡◌, ◌++◌, ◌+◌, ◌<◌, ◌≤◌, ◌^◌, option_to_list};
ghost use Rattle.scratch_area.specs.Scratch.{old_place, scratch_place, new_place, first_scratch_sector};
ghost use Rattle.width_map.specs.Place.{first_data_sector};
ghost use Rattle.shadow_write.specs.Writes.{needs_old, needs_scratch, needs_new, only_if, write_at};

use crate::Write;
use crate::needs::{needs_new, needs_old, needs_scratch};
use reflow_mark::Reflow;
use scratch_area::{FIRST_SCRATCH_SECTOR, new_place, old_place, scratch_place};
use width_map::{FIRST_DATA_SECTOR, Place};

/// A column, its sector, and the sector after its row.
#[derive(Clone, Copy)]
pub struct Cell {
    pub row: u32,
    pub column: u32,
    pub sector: u64,
    pub row_end: u64,
}

impl Cell {
    pub fn old_write(&self, reflow: &Reflow) -> Option<Write>
        requires some { 0 < reflow.now.from }
        requires wide { reflow.now.from ≤ 64 }
        requires fits { self.now.sector < 2 ^ 55 }
        ensures { option_to_list result
            ≡ only_if (needs_old reflow.now.state reflow.now.mark self.now.row_end)
            (write_at first_data_sector (old_place reflow.now self.now.sector)
            self.now.row self.now.column) }
    {
        if needs_old(reflow, self.row_end) {
            Some(self.write_at(FIRST_DATA_SECTOR, old_place(reflow, self.sector)))
        } else {
            None
        }
    }

    pub fn scratch_write(&self, reflow: &Reflow, done: u64) -> Option<Write>
        requires some { 0 < reflow.now.to }
        requires wide { reflow.now.to ≤ 64 }
        requires fits { self.now.sector < 2 ^ 55 }
        ensures { option_to_list result
            ≡ only_if (needs_scratch reflow.now.state reflow.now done self.now.sector)
            (write_at first_scratch_sector (scratch_place reflow.now.to self.now.sector)
            self.now.row self.now.column) }
    {
        if needs_scratch(reflow, done, self.sector) {
            Some(self.write_at(FIRST_SCRATCH_SECTOR, scratch_place(reflow.to, self.sector)))
        } else {
            None
        }
    }

    pub fn new_write(&self, reflow: &Reflow, done: u64) -> Option<Write>
        requires some { 0 < reflow.now.to }
        requires wide { reflow.now.to ≤ 64 }
        requires fits { self.now.sector < 2 ^ 55 }
        ensures { option_to_list result
            ≡ only_if (needs_new reflow.now.state done self.now.sector)
            (write_at first_data_sector (new_place reflow.now self.now.sector)
            self.now.row self.now.column) }
    {
        if needs_new(reflow, done, self.sector) {
            Some(self.write_at(FIRST_DATA_SECTOR, new_place(reflow, self.sector)))
        } else {
            None
        }
    }

    fn write_at(&self, first: u64, place: Place) -> Write
        requires { first + place.row < 2 ^ 64 }
        ensures { result ≡ write_at first place self.now.row self.now.column }
    {
        Write {
            device: place.device,
            device_sector: first + place.row,
            row: self.row,
            column: self.column,
        }
    }
}
