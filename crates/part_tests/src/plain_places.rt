// Where a sector has to be right, and whether all of a row is: the definitions computed plainly, place by place. What
// the list of a put's writes is compared with.
ghost use Rattle.std.specs.Prelude.{◌<◌, ◌^◌, ◌≤◌};

use reflow_mark::{Reflow, State};

pub const DEVICES: usize = 4;

pub const SECTORS: usize = 256;

/// Which sector of the pool stands in each sector of each device. `NOTHING` is none.
pub type Image = [[u64; SECTORS]; DEVICES];

pub const NOTHING: u64 = u64::MAX;

pub fn empty() -> Image {
    [[NOTHING; SECTORS]; DEVICES]
}

/// Whether the sector stands there at a width, where rows begin at `first`.
pub fn stands_at(sector: u64, width: u32, first: u64, device: u32, device_sector: u64) -> bool
    requires { 1 ≤ width }
{
    sector % width as u64 == device as u64
        && first <= device_sector
        && device_sector - first == sector / width as u64
}

/// Whether a sector of a row that ends at `row_end` has to be right at this sector of this device.
pub fn is_required(
    reflow: &Reflow,
    done: u64,
    row_end: u64,
    sector: u64,
    device: u32,
    device_sector: u64,
) -> bool
    requires from { 1 ≤ reflow.now.from }
    requires to { 1 ≤ reflow.now.to }
{
    let scratch_end = 32 * (reflow.from as u64 + 1);
    let (old, scratch, new) = match reflow.state {
        State::None => (true, reflow.from < reflow.to && sector < done, false),
        State::Valid => (reflow.mark < row_end, sector < scratch_end, sector < done),
        State::Moved => (reflow.mark < row_end, false, sector < done),
    };
    old && stands_at(sector, reflow.from, 192, device, device_sector)
        || scratch && stands_at(sector, reflow.to, 32, device, device_sector)
        || new && stands_at(sector, reflow.to, 192, device, device_sector)
}

/// At how many places a sector has to be right, and how many of them have something else.
pub fn places_of(image: &Image, reflow: &Reflow, done: u64, row_end: u64, sector: u64) -> (u64, u64)
    requires from { 1 ≤ reflow.now.from }
    requires to { 1 ≤ reflow.now.to }
{
    let mut required: u64 = 0;
    let mut wrong: u64 = 0;
    for device in 0..DEVICES {
        for device_sector in 0..SECTORS {
            if is_required(
                reflow,
                done,
                row_end,
                sector,
                device as u32,
                device_sector as u64,
            ) {
                required = required.saturating_add(1);
                if image[device][device_sector] != sector {
                    wrong = wrong.saturating_add(1);
                }
            }
        }
    }
    (required, wrong)
}

/// Whether a row of three columns is right wherever it has to be.
pub fn is_whole(image: &Image, reflow: &Reflow, done: u64, start: u64) -> bool
    requires from { 1 ≤ reflow.now.from }
    requires to { 1 ≤ reflow.now.to }
    requires start { start < 2 ^ 32 }
{
    for column in 0..3_u64 {
        let (_, wrong) = places_of(image, reflow, done, start + 3, start + column);
        if wrong != 0 {
            return false;
        }
    }
    true
}

/// Writes a sector there, where the image has that place.
pub fn put(image: &mut Image, device: u32, device_sector: u64, sector: u64) {
    if (device as usize) < DEVICES && device_sector < SECTORS as u64 {
        image[device as usize][device_sector as usize] = sector;
    }
}

/// Writes a sector to its data row at a width.
pub fn stand(image: &mut Image, sector: u64, width: u32)
    requires width { 1 ≤ width }
    requires sector { sector < 2 ^ 32 }
{
    put(
        image,
        (sector % width as u64) as u32,
        192 + sector / width as u64,
        sector,
    );
}
