// The gaps of a row's content are filled from what its parities lack.

ghost use Rattle.std.specs.Prelude.{◌≡◌, ◌≢◌, ℕ, ◌<◌, ◌≤◌, List, [], length, slice_index_or};
ghost use Rattle.gf_solve.specs.Row.{AreSectors, IsParityOf};
ghost use Rattle.gf_solve.specs.Gaps.{IsGap, AgreeBut};
ghost use Rattle.gf_solve.specs.declared.gaps.Gaps.TheVariants.{One, Two, Three};

use crate::columns::{lack, zeros};
use crate::field::point_among;
use crate::singling::{single_out_one, single_out_three, single_out_two};

/// Fills one lost content column from the parity column of a number.
pub fn fill_one(parities: &[[u8; 512]], content: &mut [[u8; 512]], first: usize, which: u32)
    requires few { length parities.now ≤ 3 }
    requires which { which < length parities.now }
    requires first { first < length content.old }
    ensures filled { (was : List (List ℕ)) → AreSectors was
        → AgreeBut (IsGap (One first)) was content.old → IsParityOf was parities.now which
        → content.new ≡ was }
    ensures fits { IsParityOf content.new parities.now which }
    ensures others { (column : ℕ) → column ≢ first
        → slice_index_or content.new column [] ≡ slice_index_or content.old column [] }
{
    let count = content.len();
    content[first] = zeros();
    let mut column = lack(which, content, &parities[which as usize]);
    single_out_one(which, point_among(count, first), &mut column);
    content[first] = column;
}

/// Fills two lost content columns from the parity columns of two numbers.
pub fn fill_two(
    parities: &[[u8; 512]],
    content: &mut [[u8; 512]],
    first: usize,
    second: usize,
    sooner: u32,
    later: u32,
)
    requires few { length parities.now ≤ 3 }
    requires order { sooner < later }
    requires later { later < length parities.now }
    requires narrow { length content.old ≤ 64 }
    requires ascend { first < second }
    requires second { second < length content.old }
    ensures filled { (was : List (List ℕ)) → AreSectors was
        → AgreeBut (IsGap (Two first second)) was content.old → IsParityOf was parities.now sooner
        → IsParityOf was parities.now later → content.new ≡ was }
    ensures fits_sooner { IsParityOf content.new parities.now sooner }
    ensures fits_later { IsParityOf content.new parities.now later }
    ensures others { (column : ℕ) → column ≢ first → column ≢ second
        → slice_index_or content.new column [] ≡ slice_index_or content.old column [] }
{
    let count = content.len();
    let blank = zeros();
    content[first] = blank;
    content[second] = blank;
    let mut low = lack(sooner, content, &parities[sooner as usize]);
    let mut high = lack(later, content, &parities[later as usize]);
    let x = point_among(count, first);
    let y = point_among(count, second);
    single_out_two(sooner, later, x, y, &mut low, &mut high);
    content[first] = high;
    content[second] = low;
}

/// Fills three lost content columns from all three parity columns.
pub fn fill_three(
    parities: &[[u8; 512]],
    content: &mut [[u8; 512]],
    first: usize,
    second: usize,
    third: usize,
)
    requires parities { length parities.now ≡ 3 }
    requires narrow { length content.old ≤ 64 }
    requires ascend { first < second }
    requires ascend_more { second < third }
    requires third { third < length content.old }
    ensures filled { (was : List (List ℕ)) → AreSectors was
        → AgreeBut (IsGap (Three first second third)) was content.old
        → ((which : ℕ) → which < 3 → IsParityOf was parities.now which) → content.new ≡ was }
    ensures fits { (which : ℕ) → which < 3 → IsParityOf content.new parities.now which }
    ensures others { (column : ℕ) → column ≢ first → column ≢ second → column ≢ third
        → slice_index_or content.new column [] ≡ slice_index_or content.old column [] }
{
    let count = content.len();
    let blank = zeros();
    content[first] = blank;
    content[second] = blank;
    content[third] = blank;
    let mut p = lack(0, content, &parities[0]);
    let mut q = lack(1, content, &parities[1]);
    let mut r = lack(2, content, &parities[2]);
    let x = point_among(count, first);
    let y = point_among(count, second);
    let z = point_among(count, third);
    single_out_three(x, y, z, &mut p, &mut q, &mut r);
    content[first] = r;
    content[second] = q;
    content[third] = p;
}
