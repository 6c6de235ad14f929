// What a user is told of the images before a command is carried out, on standard error.

use crate::door::{Pool, Survey};
use crate::order::{is_shown, ordered_words, right_order};
use crate::room::{ranges_of, room_of};
use crate::sightings::LOOKED_AT;
use crate::standing::{Known, Standing, standing_of};
use block_record::IndexEntry;
use std::alloc::Global;
use uberblock_ring::DeviceSet;

/// Tells what each image is that is not in use in its place, and what to do where the command is refused.
pub fn tell_survey<R: Eprint>(
    rt: &R,
    alloc: Global,
    names: &[String],
    command: &[String],
    survey: &Survey,
    refused: DeviceSet,
) {
    let (Pool::Chosen(known) | Pool::Likely(known)) = &survey.pool else {
        return;
    };
    let mut some_elsewhere = false;
    for place in 0..known.named.min(LOOKED_AT) {
        let standing = standing_of(&survey.sightings, known, place);
        if let Standing::Elsewhere(_) = standing {
            some_elsewhere = true;
        }
        if let Some(name) = names.get(place as usize) {
            note_standing(rt, name, place, known, standing);
        }
    }
    if !refused.is_empty() {
        let _ = eprintln!(rt;
            "raidzx: nothing was done, as these words would cost disks that may be whole"
        );
    }
    if some_elsewhere || !refused.is_empty() {
        note_remedy(rt, alloc, names, command, survey, known);
    }
}

/// What an image is that is not in use in its place.
fn note_standing<R: Eprint>(rt: &R, name: &str, place: u32, known: &Known, standing: Standing) {
    let pool = known.uber.pool();
    let _ = match standing {
        Standing::Elsewhere(sighting) => eprintln!(rt;
            "raidzx: {name}: is named as image {place}, and shows image {} of pool {pool}",
            sighting.number
        ),
        Standing::OtherLife(uber) => eprintln!(rt;
            "raidzx: {name}: shows image {place} of another pool of the id {pool}: parity {} rows {} group {}",
            uber.parity(),
            uber.reflow().rows,
            uber.group()
        ),
        Standing::LeftBehind { last } => eprintln!(rt;
            "raidzx: {name}: its last group is {last}, the pool's is {}: it missed what was synced since, and is out \
            for good",
            known.uber.group()
        ),
        Standing::Foreign(sighting) if place < known.disks() => eprintln!(rt;
            "raidzx: {name}: shows image {} of pool {}, and is named as image {place} of pool {pool}",
            sighting.number,
            sighting.uber.pool()
        ),
        Standing::Blank if place < known.disks() => eprintln!(rt;
            "raidzx: {name}: shows no pool, and is named as image {place} of pool {pool}"
        ),
        _ => Ok(()),
    };
}

/// Of a status: what each image is that is well, whether the data are safe, and how far a copy has come.
pub fn tell_status<R: Eprint>(rt: &R, alloc: Global, names: &[String], survey: &Survey) {
    match &survey.pool {
        Pool::Chosen(known) => {
            for place in 0..known.named.min(LOOKED_AT) {
                if let Some(name) = names.get(place as usize) {
                    let standing = standing_of(&survey.sightings, known, place);
                    note_plain(rt, name, place, known, standing);
                }
            }
            note_safety(rt, known);
            note_copy(rt, known);
            note_room(rt, alloc, known, &survey.entries);
        }
        Pool::Likely(known) => {
            let _ = eprintln!(rt;
                "raidzx: pool {} cannot be opened as these images stand: of its disks {} may be missing",
                known.uber.pool(),
                known.uber.parity()
            );
        }
        Pool::Untold => {}
    }
}

/// What an image is of which nothing else is told.
fn note_plain<R: Eprint>(rt: &R, name: &str, place: u32, known: &Known, standing: Standing) {
    let _ = match standing {
        Standing::InUse => eprintln!(rt; "raidzx: {name}: in use"),
        Standing::Joining => eprintln!(rt;
            "raidzx: {name}: in use, and nothing was moved onto it yet"
        ),
        Standing::Out => eprintln!(rt; "raidzx: {name}: out of the pool for good"),
        Standing::Unread => eprintln!(rt; "raidzx: {name}: cannot be read"),
        Standing::Foreign(sighting) if place >= known.disks() => eprintln!(rt;
            "raidzx: {name}: none of the pool's {} disks; it shows image {} of pool {}",
            known.disks(),
            sighting.number,
            sighting.uber.pool()
        ),
        Standing::Blank if place >= known.disks() => eprintln!(rt;
            "raidzx: {name}: none of the pool's {} disks; it shows no pool",
            known.disks()
        ),
        _ => Ok(()),
    };
}

/// How many more disks may be lost.
fn note_safety<R: Eprint>(rt: &R, known: &Known) {
    let more = known.uber.parity().saturating_sub(known.out.len());
    let _ = match more {
        0 => eprintln!(rt; "raidzx: all blocks can be read, and no more disk may be lost"),
        1 => eprintln!(rt; "raidzx: all blocks can be read, and 1 more disk may be lost"),
        _ => eprintln!(rt; "raidzx: all blocks can be read, and {more} more disks may be lost"),
    };
}

/// How far an expansion has come.
fn note_copy<R: Eprint>(rt: &R, known: &Known) {
    let reflow = known.uber.reflow();
    if reflow.from < reflow.to {
        let sectors = reflow.rows.saturating_mul(u64::from(reflow.from)).max(1);
        let percent = reflow.mark.saturating_mul(100) / sectors;
        let _ = eprintln!(rt;
            "raidzx: a copy moves the blocks onto {} disks: {} of {sectors} sectors are moved, {percent} percent",
            reflow.to, reflow.mark
        );
    }
}

/// What room the pool has, and which blocks.
fn note_room<R: Eprint>(rt: &R, alloc: Global, known: &Known, entries: &[IndexEntry]) {
    if let Ok(room) = room_of(alloc, &known.uber, entries) {
        let _ = eprintln!(rt;
            "raidzx: {} of {} sectors are used, by {} of at most 512 blocks; the largest that fits has {} bytes",
            room.used,
            room.all,
            entries.len(),
            room.largest
        );
    }
    if entries.is_empty() {
        return;
    }
    if let Ok(ranges) = ranges_of(alloc, entries) {
        let _ = eprintln!(rt; "raidzx: blocks{ranges}");
    }
}

/// The words in their right order, or else which disks no image shows.
fn note_remedy<R: Eprint>(
    rt: &R,
    alloc: Global,
    names: &[String],
    command: &[String],
    survey: &Survey,
    known: &Known,
) {
    if let Ok(Some(order)) = right_order(alloc, survey) {
        if let Ok(line) = ordered_words(alloc, names, command, &order) {
            let _ = eprintln!(rt; "raidzx: the words in their right order:{line}");
            return;
        }
    }
    note_lacking(rt, survey, known);
}

/// The disks that no image shows.
fn note_lacking<R: Eprint>(rt: &R, survey: &Survey, known: &Known) {
    let pool = known.uber.pool();
    for number in 0..known.disks() {
        if !known.listed.has(number) && !is_shown(&survey.sightings.list, known, number) {
            let _ = eprintln!(rt;
                "raidzx: image {number} of pool {pool} is not named: name it in its place, or there a word at which \
                nothing stands, and the pool goes on without it for good"
            );
        }
    }
}
