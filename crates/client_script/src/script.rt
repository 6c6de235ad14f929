// What a script asks for.
ghost use Rattle.std.specs.Prelude.{◌≡◌, ◌+◌, ◌<◌, ◌≤◌, ◌++◌, [], ◌∷◌, map, OnOk, OnErr, IfOk};
ghost use Rattle.client_script.specs.Script.{calls_of};

use crate::call::ScriptCall;
use std::alloc::{AllocError, Global};
use std::marker::Model;

/// The calls of some clients, and the order of their turns.
#[derive(Drop)]
pub struct Script {
    clients: u8,
    // The calls of each client.
    calls: Vec<Vec<ScriptCall>>,
    // Whose each call is, in the order in which the calls were given.
    actors: Vec<u8>,
    order: Vec<u8>,
}

impl Model for Script {
    ghost use Rattle.std.specs.Prelude.{◌≡◌, vec_len};
    ghost use Rattle.client_script.specs.Script.{Script as Asked};
    ghost use Rattle.client_script.specs.Grouped.{in_turn, groups_of, HasTurns};

    ghost Value = { Asked };

    ghost view = { λ s. record {
      clients = s.clients;
      calls = in_turn s.actors.items (groups_of s.calls.items);
      order = s.order.items;
    } };

    ghost invariant = { λ s. (vec_len s.calls ≡ s.clients)
        × HasTurns s.actors.items (groups_of s.calls.items) };
}

impl Script {
    /// A script of so many clients, without calls.
    pub fn new(alloc: Global, clients: u8) -> Result<Script, AllocError>
        ensures { IfOk result (λ script.
            script ≡ record { clients = clients; calls = []; order = [] }) }
    {
        let mut calls = Vec::with_capacity(alloc, usize::from(clients))?;
        for _client in 0..clients {
            calls.push(Vec::new(alloc))?;
        }
        Ok(Script {
            clients,
            calls,
            actors: Vec::new(alloc),
            order: Vec::new(alloc),
        })
    }

    pub fn clients(&self) -> u8
        ensures { result ≡ self.now.clients }
    {
        self.clients
    }

    /// The calls of one client, in order.
    pub fn calls(&self, actor: u8) -> &[ScriptCall]
        ensures { result.now ≡ calls_of self.now actor }
    {
        match self.calls.get(usize::from(actor)) {
            Some(calls) => calls.as_slice(),
            None => &[],
        }
    }

    /// Whose each call is, in the order of their lines.
    pub fn in_line_order(&self) -> &[u8]
        ensures { result.now ≡ map (λ placed. placed.actor) self.now.calls }
    {
        self.actors.as_slice()
    }

    /// Whose turn it is, turn by turn.
    pub fn order(&self) -> &[u8]
        ensures { result.now ≡ self.now.order }
    {
        self.order.as_slice()
    }

    /// One more client, without calls.
    pub fn push_client(&mut self, alloc: Global) -> Result<(), AllocError>
        requires { self.old.clients < 255 }
        ensures ok { OnOk result (self.new ≡ record self.old { clients = self.old.clients + 1 }) }
        ensures err { OnErr result (self.new ≡ self.old) }
    {
        self.calls.push(Vec::new(alloc))?;
        self.clients += 1;
        Ok(())
    }

    /// One more call, after all others.
    pub fn push_call(&mut self, actor: u8, call: ScriptCall) -> Result<(), AllocError>
        requires { actor < self.old.clients }
        ensures ok { OnOk result (self.new ≡ record self.old {
          calls = self.old.calls ++ record { actor = actor; call = call } ∷ [];
        }) }
        ensures err { OnErr result (self.new ≡ self.old) }
    {
        push_both(
            &mut self.actors,
            &mut self.calls[usize::from(actor)],
            actor,
            call,
        )
    }

    /// One more turn.
    pub fn push_turn(&mut self, actor: u8) -> Result<(), AllocError>
        ensures ok { OnOk result
            (self.new ≡ record self.old { order = self.old.order ++ actor ∷ [] }) }
        ensures err { OnErr result (self.new ≡ self.old) }
    {
        self.order.push(actor)?;
        Ok(())
    }
}

// Both lists grow, or none does.
fn push_both(
    actors: &mut Vec<u8>,
    calls: &mut Vec<ScriptCall>,
    actor: u8,
    call: ScriptCall,
) -> Result<(), AllocError>
    ensures ok { OnOk result ((actors.new.items ≡ actors.old.items ++ actor ∷ [])
        × (calls.new.items ≡ calls.old.items ++ call ∷ [])) }
    ensures err { OnErr result ((actors.new.items ≡ actors.old.items)
        × (calls.new.items ≡ calls.old.items)) }
{
    actors.push(actor)?;
    if calls.push(call).is_err() {
        actors.pop();
        return Err(AllocError);
    }
    Ok(())
}
