// What a turn of a call comes to.

ghost use Rattle.std.specs.Prelude.{◌≡◌};
ghost use Rattle.core_turns.specs.TurnMap.{ForMore, MapsTurn};

use core_state::Answer;
use uberblock_ring::DeviceSet;

/// A call goes on with another turn, finds another's hold in its way and has changed nothing, or is
/// answered.
#[derive(Drop)]
pub enum Turn<R> {
    More(R),
    Busy { by: u8 },
    Done(Answer),
}

impl<R> Turn<R> {
    /// The same turn, with what it goes on with made into something else.
    pub fn map<W, F: FnOnce(R) -> W>(self, f: F) -> Turn<W>
        requires { ForMore self (F.pre f) }
        ensures { MapsTurn (F.post f) self result }
    {
        match self {
            Turn::More(run) => Turn::More(f(run)),
            Turn::Busy { by } => Turn::Busy { by },
            Turn::Done(answer) => Turn::Done(answer),
        }
    }
}

/// The answer where these devices are out, and they are too many.
pub fn too_many(out: DeviceSet) -> Answer
    ensures { result ≡ Answer.TooManyFailed out }
{
    Answer::TooManyFailed { out: out.bits() }
}
