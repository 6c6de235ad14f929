// Lost columns are looked for from the lowest on.

ghost use Rattle.std.specs.Prelude.{◌≡◌, ◌↔◌, ℕ, ◌+◌, ◌-◌, ◌<◌, ◌≤◌, true, false, IsTrue, IfSome, IfNone};
ghost use Rattle.gf_solve.specs.Row.{is_masked, count_lost};
ghost use Rattle.gf_solve.specs.Gaps.{AreGaps};

use crate::gaps::Gaps;

/// Whether the mask has this column.
pub fn is_lost(lost: u64, column: usize) -> bool
    requires { column < 64 }
    ensures { result ≡ is_masked lost column }
{
    (lost >> column) & 1 == 1
}

/// The lowest lost column from one on and below another.
pub fn next_lost(lost: u64, from: usize, to: usize) -> Option<usize>
    requires { to ≤ 64 }
    ensures from { IfSome result (λ column. from ≤ column) }
    ensures below { IfSome result (λ column. column < to) }
    ensures lost_there { IfSome result (λ column. is_masked lost column ≡ true) }
    ensures lowest { IfSome result (λ column. (other : ℕ) → from ≤ other → other < column
        → is_masked lost other ≡ false) }
    ensures none { IfNone result ((other : ℕ) → from ≤ other → other < to
        → is_masked lost other ≡ false) }
{
    for column in from..to {
        if is_lost(lost, column) {
            return Some(column);
        }
    }
    None
}

/// The lowest column that is there, from one on and below another.
pub fn next_there(lost: u64, from: usize, to: usize) -> Option<usize>
    requires { to ≤ 64 }
    ensures from { IfSome result (λ column. from ≤ column) }
    ensures below { IfSome result (λ column. column < to) }
    ensures there { IfSome result (λ column. is_masked lost column ≡ false) }
    ensures lowest { IfSome result (λ column. (other : ℕ) → from ≤ other → other < column
        → is_masked lost other ≡ true) }
    ensures none { IfNone result ((other : ℕ) → from ≤ other → other < to
        → is_masked lost other ≡ true) }
{
    for column in from..to {
        if !is_lost(lost, column) {
            return Some(column);
        }
    }
    None
}

/// How many of the columns below one are lost.
pub fn lost_among(lost: u64, columns: usize) -> usize
    requires { columns ≤ 64 }
    ensures value { result ≡ count_lost (is_masked lost) 0 columns }
    ensures few { result ≤ columns }
{
    let mut count = 0;
    for column in 0..columns {
        if is_lost(lost, column) {
            count += 1;
        }
    }
    count
}

/// The lost columns of those below one.
pub fn gaps(lost: u64, to: usize) -> Gaps
    requires to { to ≤ 64 }
    requires few { count_lost (is_masked lost) 0 to ≤ 3 }
    ensures { AreGaps (is_masked lost) to result }
{
    let Some(first) = next_lost(lost, 0, to) else {
        return Gaps::Whole;
    };
    let Some(second) = next_lost(lost, first + 1, to) else {
        return Gaps::One(first);
    };
    let Some(third) = next_lost(lost, second + 1, to) else {
        return Gaps::Two(first, second);
    };
    Gaps::Three(first, second, third)
}
