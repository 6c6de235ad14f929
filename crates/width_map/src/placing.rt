// From a sector to its place.
ghost use Rattle.std.specs.Prelude.{◌≡◌, ◌<◌, ◌≤◌, ◌^◌};
ghost use Rattle.width_map.specs.Place.{place_of};

use crate::Place;

/// The first device sector of the data rows.
pub const FIRST_DATA_SECTOR: u64 = 192;

/// The place of a sector in a pool of this width, in devices.
pub fn place(width: u32, sector: u64) -> Place
    requires some { 0 < width }
    requires wide { width ≤ 64 }
    ensures value { result ≡ place_of width sector }
{
    let width = u64::from(width);
    Place {
        device: (sector % width) as u32,
        row: sector / width,
    }
}
