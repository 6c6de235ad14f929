// The front behind a commit.
ghost use Rattle.std.specs.Prelude.{◌≡◌};
ghost use Rattle.core_copy.specs.Behind.{front_behind};

use reflow_mark::{Reflow, State};

/// Where the front stands once the group of a commit is answered: a commit that leaves the state leaves it, one that
/// begins to move has it at the mark, and any other at 0.
pub fn front_behind(before: &Reflow, done: u64, chosen: &Reflow) -> u64
    ensures { result ≡ front_behind before.now done chosen.now }
{
    match (before.state, chosen.state) {
        (State::None, State::None) | (State::Valid, State::Valid) | (State::Moved, State::Moved) =>
            done,
        (State::Valid, State::Moved) => chosen.mark,
        _ => 0,
    }
}
