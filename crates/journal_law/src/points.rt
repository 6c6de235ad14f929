// The points of a journal that its entries speak of.
ghost use Rattle.std.specs.Prelude.{◌≡◌};
ghost use Rattle.journal_law.specs.Points.{point_after, read_point};

use core_state::{Answer, Kind};

/// The point of the journal that a read speaks of which began after so many items: the map as it was then, unless it
/// was cut short.
fn read_point(items: usize, answer: &Answer) -> Option<u64>
    ensures { result ≡ read_point items answer.now }
{
    match answer {
        Answer::TooManyFailed { out: _ } | Answer::NoMemory => None,
        _ => Some(items as u64),
    }
}

/// The point of the journal that the entry of a call speaks of, which was answered so and began after so many items.
/// Calls that aren't reads speak of none.
pub fn point_after(kind: Kind, items: usize, answer: &Answer) -> Option<u64>
    ensures { result ≡ point_after kind items answer.now }
{
    match kind {
        Kind::Get | Kind::Sum => read_point(items, answer),
        _ => None,
    }
}
