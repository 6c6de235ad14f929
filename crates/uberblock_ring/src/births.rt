// The births of an uberblock: how they are read, and when they are right.
ghost use Rattle.std.specs.Prelude.{◌≡◌, ◌+◌, ◌*◌, ◌<◌, ◌≤◌, ◌↔◌, ◌^◌, All, length, take, flat_map, IfSome, IfNone};
ghost use Rattle.std.specs.Prelude.{IsTrue};
ghost use Rattle.width_map.specs.Births.{first_width, last_width, IsGrowing};
ghost use Rattle.uberblock_ring.specs.Header.{FitBirths};
ghost use Rattle.uberblock_ring.specs.Uberblock.{birth_bytes};
ghost use Rattle.uberblock_ring.specs.Valid.{IsBirthsOf};

use block_record::{u32_at, u64_at};
use width_map::{Birth, Births, MAX_BIRTHS};

/// The first `count` births of the table, whose other places are not looked at.
pub fn read_births(bytes: &[u8], count: u32) -> Option<Births>
    requires whole { length bytes.now ≡ 192 }
    ensures counted { IfSome result (λ births. length births ≡ count) }
    ensures fits { IfSome result FitBirths }
    ensures bytes { IfSome result (λ births.
        take (12 * count) bytes.now ≡ flat_map birth_bytes births) }
    ensures none { IfNone result ((0 < count) × (count ≤ 16) → ⊥) }
{
    let count = count as usize;
    if count > MAX_BIRTHS {
        return None;
    }
    let mut births = [Birth { group: 0, width: 0 }; 16];
    for index in 0..count {
        births[index] = Birth {
            group: u64_at(bytes, 12 * index),
            width: u32_at(bytes, 12 * index + 8),
        };
    }
    Births::from_slice(&births[..count])
}

/// Whether they may stand in an uberblock of this parity, present width and group.
pub fn are_births_of(births: &[Birth], parity: u32, width: u32, group: u64) -> bool
    requires some { 0 < length births.now }
    requires few { length births.now ≤ 16 }
    requires parity { parity ≤ 3 }
    requires group { group ≤ 2 ^ 62 }
    ensures value { IsTrue result ↔ IsBirthsOf births.now parity width group }
{
    if !have_ends(births, parity, width) {
        return false;
    }
    if !are_begun(births, group + 2) {
        return false;
    }
    are_growing(births)
}

/// Whether the first width leaves room for the parity, and the last is the present one.
fn have_ends(births: &[Birth], parity: u32, width: u32) -> bool
    requires some { 0 < length births.now }
    requires parity { parity ≤ 3 }
    ensures value { IsTrue result ↔
        ((parity + 1 ≤ first_width births.now) × (last_width births.now ≡ width)) }
{
    births[0].width >= parity + 1 && births[births.len() - 1].width == width
}

fn are_begun(births: &[Birth], group: u64) -> bool
    ensures value { IsTrue result ↔ All (λ birth. birth.group ≤ group) births.now }
{
    births.iter().all(|birth| birth.group <= group)
}

fn are_growing(births: &[Birth]) -> bool
    requires some { 0 < length births.now }
    ensures value { IsTrue result ↔ IsGrowing births.now }
{
    let mut before = births[0];
    if before.group != 0 {
        return false;
    }
    for next in &births[1..] {
        if !grows(&before, next) {
            return false;
        }
        before = *next;
    }
    true
}

fn grows(before: &Birth, next: &Birth) -> bool
    ensures value { IsTrue result ↔
        ((before.now.group < next.now.group) × (next.now.width ≡ before.now.width + 1)) }
{
    before.group < next.group && before.width < next.width && next.width - before.width == 1
}
