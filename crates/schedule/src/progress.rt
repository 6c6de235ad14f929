// What the clients of a run have come to.
ghost use Rattle.std.specs.Prelude.{◌≡◌, ◌+◌, ◌<◌, ◌≤◌, ℕ, List, IfOk, OnOk, OnErr, Some, false, slice_get};
ghost use Rattle.client_script.specs.declared.call.ScriptCall.{ScriptCall as CallOf};
ghost use Rattle.client_script.specs.Script.{calls_of};
ghost use Rattle.core_state.specs.declared.item.Item.{Item as ItemOf};
ghost use Rattle.core_turns.specs.Core.{CoreState};
ghost use Rattle.schedule.specs.declared.client.Client.{Client as ClientOf};
ghost use Rattle.schedule.specs.declared.computing.ToCompute.TheVariants as to_compute;
ghost use Rattle.schedule.specs.Computing.{IsComputable, IsAskedBy};
ghost use Rattle.schedule.specs.Playing.{IsReady};
ghost use Rattle.schedule.specs.InTurn.{has_left_at, has_turn_at, is_any_busy, is_busy_at};
ghost use Rattle.schedule.specs.Turns.{most_turns, turns_of};
ghost use Rattle.schedule.specs.Replaying.{blank_clients};

use crate::client::Client;
use crate::computing::ToCompute;
use client_script::Script;
use std::alloc::{AllocError, Global};
use uberblock_ring::DeviceSet;

/// Most turns of a run.
const MOST_TURNS: u64 = 1 << 62;

/// No more turns can be counted.
#[derive(Clone, Copy, Debug, PartialEq, Eq)]
pub struct UsedUp;

/// What the clients of a run have come to, and how many turns they took.
#[derive(Drop)]
pub struct Progress {
    pub clients: Vec<Client>,
    pub turns: u64,
}

impl Progress {
    /// So many clients that have begun no call.
    pub fn new(alloc: Global, count: u8) -> Result<Progress, AllocError>
        ensures clients { IfOk result (λ progress. progress.clients.items ≡ blank_clients count) }
        ensures turns { IfOk result (λ progress. progress.turns ≡ 0) }
    {
        let mut clients = Vec::with_capacity(alloc, usize::from(count))?;
        for _client in 0..count {
            clients.push(Client::new())?;
        }
        Ok(Progress { clients, turns: 0 })
    }

    /// Whether the client of this number has a call under way.
    pub fn is_busy(&self, actor: u8) -> bool
        ensures { result ≡ is_busy_at self.now.clients.items actor }
    {
        match self.clients.get(usize::from(actor)) {
            Some(client) => client.under_way.is_some(),
            None => false,
        }
    }

    /// Whether any client has a call under way.
    pub fn is_any_busy(&self) -> bool
        ensures { result ≡ is_any_busy self.now.clients.items }
    {
        self.clients.iter().any(|client| client.under_way.is_some())
    }

    /// Whether the client of this number hasn't begun its call of that number, from 1.
    pub fn has_left(&self, actor: u8, number: u64) -> bool
        ensures { result ≡ has_left_at self.now.clients.items actor number }
    {
        match self.clients.get(usize::from(actor)) {
            Some(client) => (client.begun as u64) < number,
            None => false,
        }
    }

    /// Whether the client of this number has a turn to take: of its call under way, or of a call of the script that it
    /// hasn't begun.
    pub fn has_turn(&self, script: &Script, actor: u8) -> bool
        ensures { result ≡ has_turn_at script.now self.now.clients.items actor }
    {
        self.is_busy(actor) || self.has_left(actor, script.calls(actor).len() as u64)
    }

    /// Whether the next turn of the client of this number syncs a device, where these are out, and not too many.
    pub fn syncs_next(&self, actor: u8, out: DeviceSet) -> bool {
        match self.clients.get(usize::from(actor)) {
            Some(client) => client.syncs_next(out),
            None => false,
        }
    }

    /// Whether the next turn of the call that a client has under way asks for something to be computed.
    pub fn asks(&self, actor: u8) -> bool
        ensures { result ≡ false → (calls : List CallOf) (client : ClientOf)
            → slice_get self.now.clients.items actor ≡ Some client → IsAskedBy calls client to_compute.Nothing }
    {
        match self.clients.get(usize::from(actor)) {
            Some(client) => client.asks(),
            None => false,
        }
    }

    /// What the next turn of the call that a client has under way asks to be computed. What a read got is shared for
    /// that.
    pub fn to_compute(&mut self, alloc: Global, script: &Script, actor: u8) -> ToCompute
        requires ready { (state : CoreState) × (items : List ItemOf) × (room : ℕ)
            × IsReady script.now (turns_of state items self.old.clients.items) room }
        ensures same { self.new.clients.items ≡ self.old.clients.items }
        ensures turns { self.new.turns ≡ self.old.turns }
        ensures can { IsComputable (calls_of script.now actor) result }
        ensures asked { (client : ClientOf) → slice_get self.old.clients.items actor ≡ Some client
            → IsAskedBy (calls_of script.now actor) client result }
    {
        match self.clients.get_mut(usize::from(actor)) {
            Some(client) => client.to_compute(alloc, script.calls(actor)),
            None => ToCompute::Nothing,
        }
    }

    /// Counts a turn that is taken next, if it can be counted.
    pub fn count(&mut self) -> Result<(), UsedUp>
        ensures clients { self.new.clients.items ≡ self.old.clients.items }
        ensures turns { OnOk result (self.new.turns ≡ self.old.turns + 1) }
        ensures below { OnOk result (self.old.turns < most_turns) }
        ensures most { OnErr result (most_turns ≤ self.new.turns) }
        ensures same { OnErr result (self.new.turns ≡ self.old.turns) }
    {
        if self.turns >= MOST_TURNS {
            return Err(UsedUp);
        }
        self.turns += 1;
        Ok(())
    }
}
