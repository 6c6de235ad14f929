// Worked rows of the writes of a put.
ghost use Rattle.std.specs.Prelude.{◌<◌, ◌^◌, ◌≡◌};

use crate::plain_places::{empty, is_whole, places_of, put, stand};
use crate::reflows::at_mark;
use reflow_mark::{Reflow, State};
use row_layout::Layout;
use shadow_write::{Write, writes};
use std::alloc::{AllocError, Global};
use std::test::Fail;

const fn write(device: u32, device_sector: u64, column: u32) -> Write {
    Write {
        device,
        device_sector,
        row: 0,
        column,
    }
}

// Sectors 126 to 128, across the end of the scratch area.
#[test]
fn a_put_across_the_end_of_the_scratch_area_makes_five_writes(rt: HostRuntime) -> Result<(), Fail> {
    let layout = Layout::of(126, 2, 1, 3);
    let made = writes(rt.alloc(), &layout, &at_mark(128, State::Valid), 0)?;
    let wanted = [
        write(0, 234, 0),
        write(2, 63, 0),
        write(1, 234, 1),
        write(3, 63, 1),
        write(2, 234, 2),
    ];
    assert_eq!(rt; made.as_slice(), &wanted[..]);
    Ok(())
}

#[test]
fn a_row_below_the_mark_is_written_once(rt: HostRuntime) -> Result<(), Fail> {
    let layout = Layout::of(126, 2, 1, 3);
    let made = writes(rt.alloc(), &layout, &at_mark(167, State::Moved), 167)?;
    let wanted = [write(2, 223, 0), write(3, 223, 1), write(0, 224, 2)];
    assert_eq!(rt; made.as_slice(), &wanted[..]);
    Ok(())
}

// The front has come to sector 140, and the row ends at 142.
#[test]
fn what_is_copied_is_written_at_both_places(rt: HostRuntime) -> Result<(), Fail> {
    let layout = Layout::of(139, 2, 1, 3);
    let made = writes(rt.alloc(), &layout, &at_mark(128, State::Moved), 140)?;
    let wanted = [
        write(1, 238, 0),
        write(3, 226, 0),
        write(2, 238, 1),
        write(0, 239, 2),
    ];
    assert_eq!(rt; made.as_slice(), &wanted[..]);
    Ok(())
}

#[test]
fn a_pool_at_rest_has_one_place(rt: HostRuntime) -> Result<(), Fail> {
    let layout = Layout::of(0, 1, 1, 3);
    let made = writes(rt.alloc(), &layout, &Reflow::at_rest(3, 64), 0)?;
    assert_eq!(rt; made.as_slice(), &[write(0, 192, 0), write(1, 192, 1)][..]);
    Ok(())
}

// Whether a put of three columns writes to as many places as the definition has, makes its row whole, and without one
// of its writes does not.
fn writes_what_is_required(
    alloc: Global,
    start: u64,
    reflow: &Reflow,
    done: u64,
) -> Result<bool, AllocError>
    requires start { start < 2 ^ 32 }
    requires from { reflow.now.from ≡ 3 }
    requires to { reflow.now.to ≡ 4 }
{
    let layout = Layout::of(start, 2, 1, 3);
    let made = writes(alloc, &layout, reflow, done)?;
    let mut required: u64 = 0;
    for column in 0..3_u64 {
        let places = places_of(&empty(), reflow, done, start + 3, start + column);
        required = required.saturating_add(places.0);
    }
    if made.len() as u64 != required {
        return Ok(false);
    }
    for left_out in 0..=made.len() {
        let mut image = empty();
        for (place, write) in made.iter().enumerate() {
            if place != left_out {
                put(
                    &mut image,
                    write.device,
                    write.device_sector,
                    start.saturating_add(u64::from(write.column)),
                );
            }
        }
        if is_whole(&image, reflow, done, start) != (left_out == made.len()) {
            return Ok(false);
        }
    }
    Ok(true)
}

#[test]
fn a_row_is_whole_after_all_its_writes_and_no_sooner(rt: HostRuntime) -> Result<(), Fail> {
    let alloc = rt.alloc();
    let valid = at_mark(128, State::Valid);
    let moved = at_mark(128, State::Moved);
    let unmoved = at_mark(0, State::None);
    assert!(rt; writes_what_is_required(alloc, 126, &valid, 0)?);
    assert!(rt; writes_what_is_required(alloc, 126, &valid, 128)?);
    assert!(rt; writes_what_is_required(alloc, 125, &valid, 0)?);
    assert!(rt; writes_what_is_required(alloc, 125, &moved, 167)?);
    assert!(rt; writes_what_is_required(alloc, 126, &moved, 167)?);
    assert!(rt; writes_what_is_required(alloc, 139, &moved, 140)?);
    assert!(rt; writes_what_is_required(alloc, 126, &unmoved, 128)?);
    assert!(rt; writes_what_is_required(alloc, 126, &unmoved, 0)?);
    Ok(())
}

// At mark 128 the last sector that may be copied, 166, lands on the old place of 125. The row that begins there is read
// at its new places by now, and one that begins at 126 keeps its old ones. Sector 168 would take one of these.
#[test]
fn a_chunk_spares_what_is_read_at_its_mark(rt: HostRuntime) -> Result<(), Fail> {
    let mut image = empty();
    for sector in 0..192_u64 {
        stand(&mut image, sector, 3);
    }
    for sector in 0..167_u64 {
        stand(&mut image, sector, 4);
    }
    assert_eq!(rt; image[2][192 + 41], 166);
    let moved = at_mark(128, State::Moved);
    assert!(rt; is_whole(&image, &moved, 128, 125));
    assert!(rt; is_whole(&image, &moved, 167, 125));
    assert!(rt; is_whole(&image, &moved, 128, 126));
    assert!(rt; is_whole(&image, &moved, 167, 126));
    assert!(rt; !is_whole(&image, &at_mark(127, State::Moved), 127, 125));
    stand(&mut image, 168, 4);
    assert!(rt; !is_whole(&image, &moved, 128, 126));
    Ok(())
}
