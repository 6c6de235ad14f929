// How far a job has come.
ghost use Rattle.std.specs.Prelude.{◌≡◌};
ghost use Rattle.shadow_write.specs.Required.{front_after_stop};

use reflow_mark::{Reflow, State};

/// The front after a stop, in sectors of the pool: all below the mark has been copied.
pub fn front_after_stop(reflow: &Reflow) -> u64
    ensures { result ≡ front_after_stop reflow.now }
{
    match reflow.state {
        State::None | State::Valid => 0,
        State::Moved => reflow.mark,
    }
}
