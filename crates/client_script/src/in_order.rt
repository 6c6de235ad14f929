// The calls of a script, one after the other.
ghost use Rattle.std.specs.Prelude.{◌≡◌, ◌≤◌, length, IfSome, IfNone};
ghost use Rattle.client_script.specs.InOrder.{IsNextCall};

use crate::call::ScriptCall;
use crate::script::Script;
use std::marker::Model;

/// Gives the calls of a script in the order of their lines, without copies, and without going over
/// the script again for each.
#[derive(Drop)]
pub struct CallsInOrder<'a> {
    script: &'a Script,
    given: usize,
    // How many calls of each client were given; a client's number is any that a byte holds.
    counts: [usize; 256],
}

impl<'a> Model for CallsInOrder<'a> {
    ghost use Rattle.std.specs.Prelude.{◌≡◌, ◌<◌, ℕ, slice_index};
    ghost use Rattle.client_script.specs.InOrder.{InOrder, given_of};

    ghost Value = { InOrder };

    ghost view = { λ s. record { script = s.script.now; given = s.given } };

    ghost invariant = { λ s. (actor : ℕ) → actor < 256
        → slice_index s.counts actor ≡ given_of s.script.now s.given actor };
}

/// A call, whose it is, and its number among that client's calls, from 1.
#[derive(Clone, Copy)]
pub struct NumberedCall<'a> {
    pub actor: u8,
    pub number: u64,
    pub call: &'a ScriptCall,
}

impl Script {
    /// The calls in the order of their lines.
    pub fn calls_in_order(&self) -> CallsInOrder<'_>
        ensures { result ≡ record { script = self.now; given = 0 } }
    {
        CallsInOrder {
            script: self,
            given: 0,
            counts: [0; 256],
        }
    }
}

impl<'a> CallsInOrder<'a> {
    /// The next call, if there is one more.
    pub fn next_call(&mut self) -> Option<NumberedCall<'a>>
        ensures some { IfSome result (λ next.
            IsNextCall self.old self.new next.actor next.number next.call.now) }
        ensures none { IfNone result
            ((length self.old.script.calls ≤ self.old.given) × (self.new ≡ self.old)) }
    {
        let actor = *self.script.in_line_order().get(self.given)?;
        let client = usize::from(actor);
        let place = self.counts[client];
        let call = &self.script.calls(actor)[place];
        self.counts[client] = place + 1;
        self.given += 1;
        Some(NumberedCall {
            actor,
            number: place as u64 + 1,
            call,
        })
    }
}
