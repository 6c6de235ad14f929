// Where a column is read.
ghost use Rattle.std.specs.Prelude.{◌≡◌, ℕ, ◌+◌, ◌<◌, ◌≤◌, ◌^◌};
ghost use Rattle.width_map.specs.Place.{first_data_sector};
ghost use Rattle.row_layout.specs.Layout.{IsColumn, end_of, sector_of};
ghost use Rattle.shadow_write.specs.Required.{IsFrontIn, IsRequiredPlace};
ghost use Rattle.core_client.specs.Pool.{IsInPool};
ghost use Rattle.core_state.specs.SpotReads.{spot_at};
ghost use Rattle.core_client.specs.Reading.{spot_in, spot_of};

use core_state::Spot;
use reflow_mark::{Reflow, Stand};
use row_layout::Layout;
use scratch_area::{FIRST_SCRATCH_SECTOR, new_place, old_place, scratch_place};
use width_map::{FIRST_DATA_SECTOR, Place};

/// Where a column is read: at the old, scratch or new place of its sector, as its row stands.
pub fn spot_of(layout: &Layout, reflow: &Reflow, row: u32, column: u32) -> Spot
    requires pool { IsInPool layout.now reflow.now }
    requires there { IsColumn layout.now row column }
    ensures value { result ≡ spot_of layout.now reflow.now row column }
    ensures device { result.device < reflow.now.to }
    ensures inside { result.device_sector < first_data_sector + reflow.now.rows }

    // There the column has to be right.
    ensures required { (done : ℕ) → IsFrontIn reflow.now.state reflow.now done
        → IsRequiredPlace reflow.now done (end_of layout.now row)
        (sector_of layout.now row column) result.device result.device_sector }
{
    let sector = layout.sector_of(row, column);
    let stand = reflow.stands(layout.sector_of(row, 0), layout.columns_in(row));
    spot_in(stand, reflow, sector)
}

/// Where a sector is read that stands so.
fn spot_in(stand: Stand, reflow: &Reflow, sector: u64) -> Spot
    requires from_some { 0 < reflow.now.from }
    requires from_few { reflow.now.from ≤ 16 }
    requires to_some { 0 < reflow.now.to }
    requires to_few { reflow.now.to ≤ 16 }
    requires fits { sector < 2 ^ 55 }
    ensures { result ≡ spot_in stand reflow.now sector }
{
    match stand {
        Stand::Old => spot_at(FIRST_DATA_SECTOR, old_place(reflow, sector)),
        Stand::Scratch => spot_at(FIRST_SCRATCH_SECTOR, scratch_place(reflow.to, sector)),
        Stand::New => spot_at(FIRST_DATA_SECTOR, new_place(reflow, sector)),
    }
}

/// The place's sector, where rows begin at `first`.
fn spot_at(first: u64, place: Place) -> Spot
    requires { first + place.row < 2 ^ 64 }
    ensures { result ≡ spot_at first place }
{
    Spot {
        device: place.device,
        device_sector: first + place.row,
    }
}
