// All lost columns of a row, content first.

ghost use Rattle.std.specs.Prelude.{◌≡◌, ◌≢◌, ℕ, ◌+◌, ◌-◌, ◌<◌, ◌≤◌, List, [], length, drop, slice_index_or, true};
ghost use Rattle.std.specs.Prelude.{false};
ghost use Rattle.gf_solve.specs.Row.{AreSectors, IsParityOf, IsRow, IsLeftOf, is_masked, count_lost};
ghost use Rattle.gf_solve.specs.Serving.{AreServingOf, IsServedBy};
ghost use Rattle.gf_solve.specs.Gaps.{IsGap, AgreeBut};
ghost use Rattle.gf_solve.specs.declared.gaps.Gaps.TheVariants.{One, Two};

use crate::filling::{fill_one, fill_three, fill_two};
use crate::gaps::Gaps;
use crate::looking::{gaps, is_lost, next_there};
use gf_parity::parity;

/// Fills the lost columns of a row, of which the first `parity` are parity columns. `lost` is a
/// mask of columns; what stands in them is not looked at.
pub fn solve(parity: u32, columns: &mut [[u8; 512]], lost: u64)
    requires parity { parity ≤ 3 }
    requires content { parity < length columns.old }
    requires narrow { length columns.old ≤ 64 }
    requires few { count_lost (is_masked lost) 0 (length columns.old) ≤ parity }

    // Whatever row these columns are left of is there again.
    ensures solved { (was : List (List ℕ)) → IsRow parity was
        → IsLeftOf was (is_masked lost) columns.old → columns.new ≡ was }

    // Only the parity columns that serve tell the content, also where others contradict them.
    ensures served { (was : List (List ℕ)) → AreSectors was
        → IsServedBy was parity (is_masked lost) columns.old → drop parity columns.new ≡ was }

    // Whatever the columns hold, the content that is found has the parity that serves.
    ensures fits { AreServingOf (drop parity columns.new) columns.old (is_masked lost) parity
        (count_lost (is_masked lost) parity (length columns.old - parity)) }
    ensures made { (which : ℕ) → which < parity → is_masked lost which ≡ true
        → IsParityOf (drop parity columns.new) columns.new which }
    ensures same { (column : ℕ) → column < length columns.old → is_masked lost column ≡ false
        → slice_index_or columns.new column [] ≡ slice_index_or columns.old column [] }
{
    let (parities, content) = columns.split_at_mut(parity as usize);
    fill_content(parities, content, lost, lost >> parity);
    fill_parities(parities, content, lost);
}

fn fill_content(parities: &[[u8; 512]], content: &mut [[u8; 512]], lost: u64, lost_content: u64)
    requires parities { length parities.now ≤ 3 }
    requires narrow { length content.old ≤ 64 }
    requires few { count_lost (is_masked lost) 0 (length parities.now)
        + count_lost (is_masked lost_content) 0 (length content.old) ≤ length parities.now }
    ensures filled { (was : List (List ℕ)) → AreSectors was
        → IsLeftOf was (is_masked lost_content) content.old
        → AreServingOf was parities.now (is_masked lost) (length parities.now)
        (count_lost (is_masked lost_content) 0 (length content.old)) → content.new ≡ was }
    ensures fits { AreServingOf content.new parities.now (is_masked lost) (length parities.now)
        (count_lost (is_masked lost_content) 0 (length content.old)) }
    ensures same { (column : ℕ) → column < length content.old
        → is_masked lost_content column ≡ false
        → slice_index_or content.new column [] ≡ slice_index_or content.old column [] }
{
    match gaps(lost_content, content.len()) {
        Gaps::Whole => {}
        Gaps::One(first) => fill_single(parities, content, first, lost),
        Gaps::Two(first, second) => fill_pair(parities, content, first, second, lost),
        Gaps::Three(first, second, third) => fill_three(parities, content, first, second, third),
    }
}

fn fill_single(parities: &[[u8; 512]], content: &mut [[u8; 512]], first: usize, lost: u64)
    requires parities { length parities.now ≤ 3 }
    requires few { count_lost (is_masked lost) 0 (length parities.now) < length parities.now }
    requires first { first < length content.old }
    ensures filled { (was : List (List ℕ)) → AreSectors was
        → AgreeBut (IsGap (One first)) was content.old
        → AreServingOf was parities.now (is_masked lost) (length parities.now) 1
        → content.new ≡ was }
    ensures fits { AreServingOf content.new parities.now (is_masked lost) (length parities.now) 1 }
    ensures others { (column : ℕ) → column ≢ first
        → slice_index_or content.new column [] ≡ slice_index_or content.old column [] }
{
    if let Some(which) = next_there(lost, 0, parities.len()) {
        fill_one(parities, content, first, which as u32);
    }
}

fn fill_pair(
    parities: &[[u8; 512]],
    content: &mut [[u8; 512]],
    first: usize,
    second: usize,
    lost: u64,
)
    requires parities { length parities.now ≤ 3 }
    requires few { count_lost (is_masked lost) 0 (length parities.now) + 1 < length parities.now }
    requires narrow { length content.old ≤ 64 }
    requires ascend { first < second }
    requires second { second < length content.old }
    ensures filled { (was : List (List ℕ)) → AreSectors was
        → AgreeBut (IsGap (Two first second)) was content.old
        → AreServingOf was parities.now (is_masked lost) (length parities.now) 2
        → content.new ≡ was }
    ensures fits { AreServingOf content.new parities.now (is_masked lost) (length parities.now) 2 }
    ensures others { (column : ℕ) → column ≢ first → column ≢ second
        → slice_index_or content.new column [] ≡ slice_index_or content.old column [] }
{
    if let Some(sooner) = next_there(lost, 0, parities.len()) {
        if let Some(later) = next_there(lost, sooner + 1, parities.len()) {
            fill_two(
                parities,
                content,
                first,
                second,
                sooner as u32,
                later as u32,
            );
        }
    }
}

fn fill_parities(parities: &mut [[u8; 512]], content: &[[u8; 512]], lost: u64)
    requires { length parities.old ≤ 3 }
    ensures filled { (which : ℕ) → which < length parities.old → is_masked lost which ≡ true
        → IsParityOf content.now parities.new which }
    ensures same { (which : ℕ) → which < length parities.old → is_masked lost which ≡ false
        → slice_index_or parities.new which [] ≡ slice_index_or parities.old which [] }
{
    for which in 0..parities.len() {
        if is_lost(lost, which) {
            parity(which as u32, content, &mut parities[which]);
        }
    }
}
