// The words of a command in their right order.

use crate::door::{Pool, Survey};
use crate::sightings::{LOOKED_AT, Sighting, shown_at};
use crate::standing::Known;
use std::alloc::{AllocError, Global};

/// A word that stands for a disk.
#[derive(Clone, Copy, Debug, PartialEq, Eq)]
pub enum Word {
    /// The one that names the image at this place now.
    Image(u32),
    /// One at which nothing stands: the disk is out for good, and has no image.
    Lost,
}

/// The word for a disk that is lost.
const LOST: &str = "none";

/// The number under which the image at a place shows the pool.
fn number_at(sightings: &[Sighting], pool: u64, place: u32) -> Option<u32> {
    match shown_at(sightings, place) {
        Some(sighting) if sighting.uber.pool() == pool => Some(sighting.number),
        _ => None,
    }
}

/// The first image that shows the pool under this number.
fn image_of(sightings: &[Sighting], known: &Known, number: u32) -> Option<u32> {
    for place in 0..known.named.min(LOOKED_AT) {
        if number_at(sightings, known.uber.pool(), place) == Some(number) {
            return Some(place);
        }
    }
    None
}

/// Whether any image shows the disk of this number.
pub fn is_shown(sightings: &[Sighting], known: &Known, number: u32) -> bool {
    image_of(sightings, known, number).is_some()
}

/// The first image from this place on that does not show the pool.
fn next_other(sightings: &[Sighting], known: &Known, first: u32) -> Option<u32> {
    for place in first..known.named.min(LOOKED_AT) {
        if number_at(sightings, known.uber.pool(), place).is_none() {
            return Some(place);
        }
    }
    None
}

/// Whether an image that does not show the pool may be named in this place: one that can't be read, or any where the
/// pool does not count on it.
fn may_be_other(survey: &Survey, known: &Known, image: u32, place: u32) -> bool {
    place >= known.disks() || known.listed.has(place) || survey.sightings.unread.has(image)
}

/// The words for the images in their right order. None where two images show one number, where no image shows a disk
/// that the pool counts on, or where they stand right.
pub fn right_order(alloc: Global, survey: &Survey) -> Result<Option<Vec<Word>>, AllocError> {
    match &survey.pool {
        Pool::Chosen(known) | Pool::Likely(known) => order_of(alloc, survey, known),
        Pool::Untold => Ok(None),
    }
}

fn order_of(
    alloc: Global,
    survey: &Survey,
    known: &Known,
) -> Result<Option<Vec<Word>>, AllocError> {
    let mut order = Vec::new(alloc);
    let mut moved = false;
    let mut used: u32 = 0;
    let mut next = 0;
    let mut last = 0;
    for place in 0..known.named.max(known.disks()).min(LOOKED_AT) {
        let Some(word) = word_for(survey, known, next, place) else {
            return Ok(None);
        };
        order.push(word)?;
        if let Word::Image(image) = word {
            moved = moved || image != place;
            used = used.saturating_add(1);
            last = order.len();
            if number_at(&survey.sightings.list, known.uber.pool(), image).is_none() {
                next = image.saturating_add(1);
            }
        }
    }
    // Behind the last image no word is needed.
    order.truncate(last);
    if moved && used == known.named {
        Ok(Some(order))
    } else {
        Ok(None)
    }
}

/// The word for this place: the image that shows it, or the next that does not show the pool, or none for a disk that
/// the pool goes on without.
fn word_for(survey: &Survey, known: &Known, next: u32, place: u32) -> Option<Word> {
    let sightings = &survey.sightings.list;
    if let Some(image) = image_of(sightings, known, place) {
        return Some(Word::Image(image));
    }
    match next_other(sightings, known, next) {
        Some(image) if may_be_other(survey, known, image, place) => Some(Word::Image(image)),
        None if place < known.disks() && known.listed.has(place) => Some(Word::Lost),
        _ => None,
    }
}

/// Whether a word stands for itself in a shell.
fn is_plain(word: &str) -> bool {
    !word.is_empty() && word.bytes().all(is_plain_byte)
}

fn is_plain_byte(byte: u8) -> bool {
    match byte {
        b'a'..=b'z' | b'A'..=b'Z' | b'0'..=b'9' => true,
        b'.' | b'_' | b'-' | b'/' | b':' | b'+' | b'@' | b'%' | b',' => true,
        _ => false,
    }
}

/// Adds a word as a shell takes it.
fn push_word(line: &mut String, word: &str) -> Result<(), AllocError> {
    line.push(' ')?;
    if is_plain(word) {
        return line.push_str(word);
    }
    line.push('\'')?;
    for letter in word.chars() {
        match letter {
            '\'' => line.push_str("'\\''")?,
            _ => line.push(letter)?,
        }
    }
    line.push('\'')
}

/// The words of a command over these images in this order, each behind a space. `command` begins with the dashes.
pub fn ordered_words(
    alloc: Global,
    names: &[String],
    command: &[String],
    order: &[Word],
) -> Result<String, AllocError> {
    let mut line = String::new(alloc);
    for word in order {
        match word {
            Word::Image(image) => {
                if let Some(name) = names.get(*image as usize) {
                    push_word(&mut line, name.as_str())?;
                }
            }
            Word::Lost => push_word(&mut line, LOST)?,
        }
    }
    for word in command {
        push_word(&mut line, word.as_str())?;
    }
    Ok(line)
}
