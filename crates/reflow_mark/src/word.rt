// The reflow's word in the uberblock: the mark in the low 55 bits, the state above.
ghost use Rattle.std.specs.Prelude.{◌≡◌, ◌≤◌, ◌<◌, IfSome, IfNone, Some};
ghost use Rattle.reflow_mark.specs.declared.reflow.Reflow.{Reflow};
ghost use Rattle.reflow_mark.specs.Reflow.{IsRightReflow, IsWordOf, word_of, state_number};

use crate::{Reflow, State};

/// One state in the word, above all marks.
const STATE_UNIT: u64 = 1 << 55;

impl State {
    fn number(self) -> u64
        ensures value { result ≡ state_number self }
        ensures small { result ≤ 2 }
    {
        match self {
            State::None => 0,
            State::Valid => 1,
            State::Moved => 2,
        }
    }

    fn from_number(number: u64) -> Option<State>
        ensures some { IfSome result (λ state. state_number state ≡ number) }
        ensures none { IfNone result (2 < number) }
    {
        match number {
            0 => Some(State::None),
            1 => Some(State::Valid),
            2 => Some(State::Moved),
            _ => None,
        }
    }
}

impl Reflow {
    pub fn pack(&self) -> u64
        requires rows { self.now.rows ≤ 65536 }
        requires right { IsRightReflow self.now }
        ensures value { result ≡ word_of self.now }

        // So it is read as this reflow.
        ensures word { IsWordOf self.now self.now.from self.now.to self.now.rows result }
    {
        self.state.number() * STATE_UNIT + self.mark
    }

    /// The reflow that has this word at these widths and data rows, where there is one.
    pub fn unpack(from: u32, to: u32, rows: u64, word: u64) -> Option<Reflow>
        requires rows_fit { rows ≤ 65536 }
        ensures some { IfSome result (λ reflow. IsWordOf reflow from to rows word) }
        ensures none { IfNone result ((reflow : Reflow) → IsWordOf reflow from to rows word → ⊥) }

        // Each reflow has one word, and no two have the same.
        ensures only { (reflow : Reflow) → IsWordOf reflow from to rows word
            → result ≡ Some reflow }
    {
        let state = State::from_number(word / STATE_UNIT)?;
        let reflow = Reflow {
            from,
            to,
            rows,
            mark: word % STATE_UNIT,
            state,
        };
        if reflow.is_right() {
            Some(reflow)
        } else {
            None
        }
    }
}
