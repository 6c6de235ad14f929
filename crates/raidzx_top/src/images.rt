// The words that name the devices.
ghost use Rattle.std.specs.Prelude.{◌≡◌, ◌≢◌, ◌+◌, ◌<◌, ◌≤◌, ◌↔◌, ℕ, All, List, Option, Some, None, length, slice_get};
ghost use Rattle.std.specs.Prelude.{codes, IsTrue, IfSome, IfNone, MatchOption, map, string_bytes};
ghost use Rattle.raidzx_top.specs.Images.{AreImages, EachImage, IsImageWord, IsMemoryOf, IsMemoryWord};

use command_words::number;

/// The most sectors of a device: its head and the most data rows.
pub const MOST_SECTORS: u64 = 65_728;

/// The devices that the words name: the words from the second on, `count` of them. In memory, each of
/// so many sectors; or files.
#[derive(Clone, Copy, Debug, PartialEq, Eq)]
pub struct Images {
    pub memory: Option<u64>,
    pub count: usize,
}

fn is_word(word: &String, text: &str) -> bool
    ensures { IsTrue result ↔ (string_bytes word.now ≡ text.now) }
{
    word.as_str() == text
}

/// The number of words before the first two dashes, the program's name not counted.
fn count_images(words: &[String]) -> Option<usize>
    ensures some { IfSome result (λ count. (1 ≤ count)
        × (count + 1 < length words.now)
        × (slice_get (map string_bytes words.now) (count + 1) ≡ Some (codes "--"))
        × EachImage (map string_bytes words.now) count (λ word. word ≢ codes "--")) }
    ensures none { IfNone result ((memory : Option ℕ) (count : ℕ)
        → AreImages (map string_bytes words.now) memory count → ⊥) }
{
    for index in 1..words.len() {
        if is_word(&words[index], "--") {
            return if index > 1 { Some(index - 1) } else { None };
        }
    }
    None
}

/// The sectors of a device in memory, if the word names one and names it well.
fn memory_of(word: &str) -> Option<u64>
    ensures some { IfSome result (IsMemoryOf word.now) }
    ensures none { IfNone result ((sectors : ℕ) → IsMemoryOf word.now sectors → ⊥) }
{
    let digits = word.strip_prefix("mem:")?;
    let sectors = number(digits)?;
    if sectors < 1 || sectors > MOST_SECTORS {
        return None;
    }
    Some(sectors)
}

fn is_memory_word(word: &String) -> bool
    ensures { IsTrue result ↔ IsMemoryWord (string_bytes word.now) }
{
    word.as_str().starts_with("mem:")
}

/// Whether none of the words from the second on, so many of them, begins as a device in memory does.
fn are_files(words: &[String], count: usize) -> bool
    requires there { count < length words.now }
    ensures { IsTrue result ↔ EachImage (map string_bytes words.now) count (IsImageWord None) }
{
    for index in 1..count + 1 {
        if is_memory_word(&words[index]) {
            return false;
        }
    }
    true
}

fn is_memory_of(word: &String, sectors: u64) -> bool
    ensures { IsTrue result ↔ IsMemoryOf (string_bytes word.now) sectors }
{
    match memory_of(word.as_str()) {
        Some(named) => named == sectors,
        None => false,
    }
}

/// Whether each of the words from the second on, so many of them, is a device in memory of this size.
fn are_memory(words: &[String], count: usize, sectors: u64) -> bool
    requires there { count < length words.now }
    ensures { IsTrue result ↔ EachImage (map string_bytes words.now) count
        (IsImageWord (Some sectors)) }
{
    for index in 1..count + 1 {
        if !is_memory_of(&words[index], sectors) {
            return false;
        }
    }
    true
}

/// The devices that the words name; None where there are none, where files and devices in memory are
/// mixed, or where devices in memory are named badly or differ in size.
pub fn image_words(words: &[String]) -> Option<Images>
    ensures some { IfSome result (λ images.
        AreImages (map string_bytes words.now) images.memory images.count) }
    ensures none { IfNone result ((memory : Option ℕ) (count : ℕ)
        → AreImages (map string_bytes words.now) memory count → ⊥) }
{
    let count = count_images(words)?;
    if are_files(words, count) {
        return Some(Images {
            memory: None,
            count,
        });
    }
    let Some(sectors) = memory_of(words[1].as_str()) else {
        return None;
    };
    if are_memory(words, count, sectors) {
        Some(Images {
            memory: Some(sectors),
            count,
        })
    } else {
        None
    }
}
