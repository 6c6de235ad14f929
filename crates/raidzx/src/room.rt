// What room a pool has, and which blocks stand in it.

ghost use Rattle.bank_trait.specs.Disk.{Unchanged};

use bank_trait::Bank;
use block_record::IndexEntry;
use core_open::find;
use row_layout::Layout;
use std::alloc::{AllocError, Global};
use uberblock_ring::{MAX_GROUP, Uber};
use width_map::width_at;

const SECTOR_BYTES: u32 = 512;

/// The most sectors of a block's bytes.
const MOST_SECTORS: u32 = 128;

/// The room of a pool.
#[derive(Clone, Copy, Debug, PartialEq, Eq)]
pub struct Room {
    /// Sectors that blocks take, with their parity.
    pub used: u64,
    pub all: u64,
    /// The most free sectors side by side.
    pub widest: u64,
    /// The bytes of the largest block that fits, 0 for none.
    pub largest: u32,
}

/// The sectors of a block, up to before `end`.
#[derive(Clone, Copy, Debug)]
struct Run {
    start: u64,
    end: u64,
}

/// What room a pool has whose index lists these blocks.
pub fn room_of(alloc: Global, uber: &Uber, entries: &[IndexEntry]) -> Result<Room, AllocError> {
    let all = uber
        .reflow()
        .rows
        .saturating_mul(u64::from(uber.reflow().from));
    let runs = runs_of(alloc, uber, entries)?;
    let mut used: u64 = 0;
    for run in &runs {
        used = used.saturating_add(run.end.saturating_sub(run.start));
    }
    let widest = widest_gap(&runs, all);
    Ok(Room {
        used,
        all,
        widest,
        largest: largest_in(uber, widest),
    })
}

/// The room of the pool that an opening would choose now, if there is one. These are reads alone.
pub fn room_left<B: Bank>(alloc: Global, bank: &mut B) -> Option<Room>
    ensures { Unchanged (B.disk bank.old) (B.disk bank.new) }
{
    match find(alloc, bank) {
        Ok(found) => room_of(alloc, &found.uber, &found.entries).ok(),
        Err(_) => None,
    }
}

fn runs_of(alloc: Global, uber: &Uber, entries: &[IndexEntry]) -> Result<Vec<Run>, AllocError> {
    let mut runs = Vec::with_capacity(alloc, entries.len())?;
    for entry in entries {
        let sectors = entry.len.div_ceil(SECTOR_BYTES);
        runs.push(Run {
            start: entry.start,
            end: entry
                .start
                .saturating_add(taken_by(uber, sectors, entry.birth)),
        })?;
    }
    Ok(runs)
}

/// How many sectors a block of so many sectors of bytes takes that is born with this group.
fn taken_by(uber: &Uber, sectors: u32, birth: u64) -> u64 {
    let parity = uber.parity();
    let width = width_at(uber.births(), birth);
    if 1 <= sectors
        && sectors <= MOST_SECTORS
        && 1 <= parity
        && parity <= 3
        && parity < width
        && width <= 64
    {
        Layout::of(0, sectors, parity, width).alloc_size()
    } else {
        u64::from(sectors)
    }
}

/// The most sectors side by side that no run has.
fn widest_gap(runs: &[Run], all: u64) -> u64 {
    let mut widest = free_from(runs, 0, all);
    for run in runs {
        widest = widest.max(free_from(runs, run.end, all));
    }
    widest
}

/// How many sectors from this one on no run has that begins there or behind it.
fn free_from(runs: &[Run], sector: u64, all: u64) -> u64 {
    let mut end = all;
    for run in runs {
        if sector <= run.start && run.start < end {
            end = run.start;
        }
    }
    end.saturating_sub(sector)
}

/// The bytes of the largest block that takes no more sectors than these.
fn largest_in(uber: &Uber, gap: u64) -> u32 {
    let mut largest = 0;
    for sectors in 1..MOST_SECTORS + 1 {
        if taken_by(uber, sectors, MAX_GROUP) <= gap {
            largest = sectors * SECTOR_BYTES;
        }
    }
    largest
}

/// The ids of blocks, as ranges, each behind a space. They stand in ascending order.
pub fn ranges_of(alloc: Global, entries: &[IndexEntry]) -> Result<String, AllocError> {
    let mut text = String::new(alloc);
    let mut range: Option<(u64, u64)> = None;
    for entry in entries {
        range = match range {
            Some((first, last)) if last.saturating_add(1) == entry.id => Some((first, entry.id)),
            _ => {
                push_range(alloc, &mut text, range)?;
                Some((entry.id, entry.id))
            }
        };
    }
    push_range(alloc, &mut text, range)?;
    Ok(text)
}

fn push_range(
    alloc: Global,
    text: &mut String,
    range: Option<(u64, u64)>,
) -> Result<(), AllocError> {
    match range {
        None => Ok(()),
        Some((first, last)) if first == last => text.push_str(&format!(in alloc; " {first}")?),
        Some((first, last)) => text.push_str(&format!(in alloc; " {first}-{last}")?),
    }
}
