// What a user is told of each image, on standard error: one line each. A line that can't be written changes nothing.

use crate::bank::FileBank;
use crate::files::SyncRuntime;
use crate::opening::Unopened;
use crate::seen::Seen;
use bank_trait::Bank;
use uberblock_ring::DeviceSet;

/// Why an image could not be opened, and what that means.
pub fn note_unopened<R: Eprint>(rt: &R, name: &str, why: &Unopened) {
    let _ = match why {
        Unopened::Held => eprintln!(rt;
            "raidzx: {name}: another program has it, or it is named twice; nothing was done"
        ),
        Unopened::Refused(error) => eprintln!(rt;
            "raidzx: {name}: cannot be opened: {error}; nothing was done, as the disk may be whole; to go on without \
            it for good, name in its place a word at which nothing stands"
        ),
        Unopened::Failed(error) => eprintln!(rt;
            "raidzx: {name}: cannot be opened: {error}; its disk counts as failed"
        ),
    };
}

/// That a look was made while the images were written.
pub fn note_busy<R: Eprint>(rt: &R) {
    let _ = eprintln!(rt;
        "raidzx: another program writes to these images, and they changed in each look: a disk that is told as out may \
        be in use; look again when it has ended"
    );
}

/// Of a `create`: which images are shorter than the longest, which tells how long the pool's are.
pub fn note_lengths<R: Eprint>(rt: &R, names: &[String], lengths: &[u64]) {
    let mut most = 0;
    for length in lengths {
        most = (*length).max(most);
    }
    for (name, length) in names.iter().zip(lengths.iter()) {
        if 0 < *length && *length < most {
            let _ = eprintln!(rt;
                "raidzx: {name}: has {length} sectors and the longest image {most}; it goes out if the pool goes on \
                past its end"
            );
        }
    }
}

/// Which images end before this sector, where a disk of their pool ends.
pub fn note_short<R: Eprint>(rt: &R, names: &[String], lengths: &[u64], disks: u32, sectors: u64) {
    for (name, length) in names.iter().zip(lengths.iter()).take(disks as usize) {
        if 0 < *length && *length < sectors {
            let _ = eprintln!(rt;
                "raidzx: {name}: has {length} sectors and the pool {sectors}; it goes out if a block lies past its end"
            );
        }
    }
}

/// The images whose calls failed. One that could not be opened is told as such.
pub fn note_failed_calls<R: Eprint, H: SyncRuntime>(
    rt: &R,
    names: &[String],
    lengths: &[u64],
    bank: &FileBank<H>,
) {
    for device in 0..bank.devices() {
        let Some(name) = names.get(device as usize) else {
            return;
        };
        if lengths.get(device as usize) == Some(&0) {
            continue;
        }
        let _ = match bank.faults(device) {
            0 => Ok(()),
            1 => eprintln!(rt; "raidzx: {name}: 1 call failed in this run"),
            count => eprintln!(rt; "raidzx: {name}: {count} calls failed in this run"),
        };
    }
}

/// The images that a group lists as out.
pub fn note_out<R: Eprint>(rt: &R, names: &[String], out: DeviceSet) {
    for device in 0..64u32 {
        if out.has(device) {
            let _ = match names.get(device as usize) {
                Some(name) => eprintln!(rt; "raidzx: {name}: out of the pool for good"),
                None => eprintln!(rt;
                    "raidzx: disk {device}, for which no image is named: out of the pool for good"
                ),
            };
        }
    }
}

/// That nothing is told of which images are out, for want of memory.
pub fn note_unknown<R: Eprint>(rt: &R) {
    let _ = eprintln!(rt; "raidzx: no memory to see which disks are out of the pool for good");
}

/// An image that a new pool of this width does not have, and the pool that stands there.
pub fn note_further<R: Eprint>(rt: &R, name: &str, width: usize, seen: Option<Seen>) {
    let _ = match seen {
        None => eprintln!(rt;
            "raidzx: {name}: not of the new pool, which has the first {width} images"
        ),
        Some(seen) => eprintln!(rt;
            "raidzx: {name}: not of the new pool, which has the first {width} images; it shows pool {}, \
            which a run over all of them may open in its place",
            seen.pool
        ),
    };
}

/// Why no pool was made on so many images, of which the longest has so many sectors.
pub fn note_too_small<R: Eprint>(rt: &R, images: usize, width: usize, sectors: u64) {
    if images < width {
        let _ = eprintln!(rt; "raidzx: {images} images are named, and the width is {width}");
    } else {
        let _ = eprintln!(rt;
            "raidzx: the longest image has {sectors} sectors of 512 bytes, and a pool takes 256: make each 131072 \
            bytes at least"
        );
    }
}

/// What an image shows that was not attached for it.
pub fn note_taken<R: Eprint>(rt: &R, name: &str, seen: Seen) {
    let _ = eprintln!(rt;
        "raidzx: {name}: not attached, as it shows image {} of pool {}; nothing was written to it",
        seen.place, seen.pool
    );
}
