// The sectors of the pool that are in use.
ghost use Rattle.std.specs.Prelude.{◌≡◌, ◌+◌, ◌*◌, ◌≤◌, ◌<◌, [], Contains, IfOk, IfErr, OnOk, OnErr, length};
ghost use Rattle.space_alloc.specs.Fit.{refusal_of};
ghost use Rattle.space_alloc.specs.Space.{IsFreeRun, IsFirstFit, IsTaking, IsDropping, IsHolding, IsTakeCause};
ghost use Rattle.space_alloc.specs.Space.{LooksAtEach, after_group};

use crate::entry::Entry;
use crate::held::{self, HeldEntry};
use crate::runs::Runs;
use crate::{TakeRefused, edges, fit};
use range_locks::{Hold, Locks, Steps};
use std::alloc::{AllocError, Global};
use std::marker::Model;
use std::sync::ledger::Ledger;

/// The runs of sectors that are taken, by their start, those that are held back, in the order in which they were
/// given back, and beside both the edges between what is free and what is in use.
///
/// A taken run that is given back leaves a dead entry in its place, which the next run that is taken beside it gets.
/// There is always room to hold back all that are taken.
#[derive(Drop, Debug)]
pub struct Space {
    capacity: u64,
    taken: Runs,
    held: Vec<HeldEntry>,
    edges: Vec<u64>,
}

impl Model for Space {
    ghost use Rattle.space_alloc.specs.Space.{Space};
    ghost use Rattle.space_alloc.specs.Entries.{space_of};
    ghost use Rattle.space_alloc.specs.Edges.{AreKept};

    ghost Value = { Space };

    ghost view = { λ space. space_of space.capacity space.taken space.held.items };

    ghost invariant = { λ space. AreKept space.taken space.held space.edges };
}

impl Space {
    /// A pool of so many sectors, all free.
    pub fn new(alloc: Global, capacity: u64) -> Space
        ensures value { result ≡ record { capacity = capacity; taken = []; held = [] } }
    {
        Space {
            capacity,
            taken: Runs::new(alloc),
            held: Vec::new(alloc),
            edges: Vec::new(alloc),
        }
    }

    /// How many entries its lists of runs have, the dead ones too.
    pub fn places(&self) -> usize
        ensures enough { length self.now.taken + length self.now.held ≤ result }
        ensures most { result ≤ 2 * length self.now.taken + length self.now.held + 64 }
    {
        self.taken.places() + self.held.len()
    }

    /// Takes the lowest run of `len` free sectors that no exclusive hold overlaps.
    ///
    /// Looking at one free run or one hold is one step.
    pub fn take<L: Ledger>(
        &mut self,
        len: u64,
        locks: &Locks,
        steps: &mut Steps<L>,
    ) -> Result<u64, TakeRefused>
        requires len { 1 ≤ len }
        ensures ok { IfOk result (IsFirstFit self.old locks.now len) }
        ensures taken { IfOk result (λ start. IsTaking self.old self.new start len) }
        ensures listed { IfOk result (λ start.
            Contains self.new.taken (record { start = start; len = len })) }
        ensures cause { IfErr result (IsTakeCause self.old locks.now len) }
        ensures err { OnErr result (self.new ≡ self.old) }
        ensures steps { LooksAtEach self.old locks.now steps.old steps.new }
    {
        let (shared, exclusive) = locks.as_slices();
        let found = fit::search(&self.edges, self.capacity, len, shared, exclusive, steps);
        let start = match found {
            Ok(start) => start,
            Err(hindered) => return Err(refusal(len, hindered)),
        };
        if self.claim(start, len).is_err() {
            return Err(TakeRefused::NoMemory);
        }
        Ok(start)
    }

    /// Takes a run whose sectors are free, as the map of an opened pool says.
    pub fn claim(&mut self, start: u64, len: u64) -> Result<(), AllocError>
        requires len { 1 ≤ len }
        requires free { IsFreeRun self.old [] start len }
        ensures ok { OnOk result (IsTaking self.old self.new start len) }
        ensures listed { OnOk result (
            Contains self.new.taken (record { start = start; len = len })) }
        ensures err { OnErr result (self.new ≡ self.old) }
    {
        let places = self.places();
        self.held.reserve(self.taken.places() + 1)?;
        self.edges.reserve(2 * places + 4)?;
        self.taken.insert(Entry { start, len })?;
        edges::flip_run(&mut self.edges, start, start + len);
        Ok(())
    }

    /// Gives back a taken run at once.
    pub fn drop_run(&mut self, start: u64, len: u64)
        requires taken { Contains self.old.taken (record { start = start; len = len }) }
        ensures value { IsDropping self.old self.new start len }
    {
        let entry = Entry { start, len };
        self.taken.remove(&entry);
        edges::flip_run(&mut self.edges, start, entry.end());
    }

    /// Gives back a taken run when this group is answered.
    pub fn hold_until(&mut self, start: u64, len: u64, group: u64)
        requires taken { Contains self.old.taken (record { start = start; len = len }) }
        ensures value { IsHolding self.old self.new start len group }
    {
        let entry = Entry { start, len };
        self.taken.remove(&entry);
        self.held.push_reserved(HeldEntry {
            entry,
            until: group,
        });
    }

    /// Frees what was held back until this group, which is answered, or an earlier one.
    pub fn synced(&mut self, group: u64)
        ensures value { self.new ≡ after_group self.old group }
    {
        edges::flip_until(&mut self.edges, &self.held, group);
        held::remove_until(&mut self.held, group);
    }

    /// The pool has so many sectors from now on.
    pub fn enlarge(&mut self, capacity: u64)
        ensures value { self.new ≡ record self.old { capacity = capacity } }
    {
        self.capacity = capacity;
    }
}

/// Why no run of `len` sectors is given out, from what hinders the lowest that is free.
fn refusal(len: u64, hindered: Option<Hold>) -> TakeRefused
    ensures { result ≡ refusal_of len hindered }
{
    match hindered {
        Some(hold) => TakeRefused::Busy { by: hold.actor },
        None => TakeRefused::NoSpace { sectors: len },
    }
}
