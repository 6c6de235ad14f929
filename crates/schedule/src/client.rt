// What a client has come to.
ghost use Rattle.std.specs.Prelude.{◌≡◌, ◌≤◌, ◌↔◌, ℕ, List, IsTrue, Some, None, false, slice_get};
ghost use Rattle.client_script.specs.declared.call.ScriptCall.{ScriptCall as CallOf};
ghost use Rattle.core_turns.specs.Core.{Core as CoreOf};
ghost use Rattle.schedule.specs.declared.client.UnderWay.{UnderWay as UnderWayOf};
ghost use Rattle.schedule.specs.declared.computing.ToCompute.TheVariants as to_compute;
ghost use Rattle.schedule.specs.Computing.{IsComputable, IsAskedBy, IsAskedOf, MayGoOnAs};
ghost use Rattle.schedule.specs.Turned.{MayGoOn};
ghost use Rattle.schedule.specs.Works.{MakesCommit, made_by, made_in};

use crate::computing::ToCompute;
use client_script::ScriptCall;
use core_commit::CommitRun;
use core_turns::{AttachRun, CopyRound, GetRun, PutRun};
use std::alloc::Global;
use uberblock_ring::DeviceSet;

/// What a call under way does.
#[derive(Drop)]
pub enum Work {
    Put(PutRun),
    Read(GetRun),
    Sync(CommitRun),
    Attach(AttachRun),
    Copy(CopyRound),
}

impl Work {
    /// Whether it makes a commit, which was begun.
    pub fn makes_commit(&self) -> bool
        ensures { IsTrue result ↔ MakesCommit self.now }
    {
        matches!(
            self,
            Work::Sync(_)
                | Work::Attach(AttachRun::Joins(_) | AttachRun::Signs { .. })
                | Work::Copy(CopyRound::Commits(_))
        )
    }

    /// The group that a commit of a copy made in the turn before, where it did. The copy goes on.
    pub fn made(&self) -> Option<u64>
        ensures { result ≡ made_in self.now }
    {
        match self {
            Work::Copy(CopyRound::Rests { actor: _, made }) => *made,
            _ => None,
        }
    }

    /// The group of an attach's commit, once its uberblocks are being written.
    pub fn group(&self) -> Option<u64>
        ensures { result ≡ made_by self.now }
    {
        match self {
            Work::Attach(AttachRun::Signs { run, why: _ }) => Some(run.uber().group()),
            _ => None,
        }
    }

    /// Whether its next turn syncs a device, where these are out, and not too many.
    fn syncs_next(&self, out: DeviceSet) -> bool {
        match self {
            Work::Put(_) | Work::Read(_) => false,
            Work::Sync(run) => run.syncs_next(out),
            Work::Attach(run) => run.syncs_next(out),
            Work::Copy(round) => round.syncs_next(out),
        }
    }

    /// Whether its next turn asks for something to be computed, where there is memory for that: a put for its block,
    /// until it is filled in, and a read for its, once it has all columns.
    fn asks(&self) -> bool
        ensures { result ≡ false → (number : ℕ) → IsAskedOf number self.now to_compute.Nothing }
    {
        match self {
            Work::Put(run) => !run.is_filled(),
            Work::Read(run) => run.is_read(),
            _ => false,
        }
    }

    /// What its next turn asks to be computed, of the call of this number, from 0. What a read got is shared for that.
    fn to_compute(&mut self, alloc: Global, call: &ScriptCall, number: usize) -> ToCompute
        requires may { (core : CoreOf) × MayGoOn core call.now self.old }
        ensures same { self.new ≡ self.old }
        ensures can { (calls : List CallOf) → slice_get calls number ≡ Some call.now → IsComputable calls result }
        ensures asked { IsAskedOf number self.old result }
    {
        match self {
            Work::Put(run) => match run.to_fill() {
                Some(block) => ToCompute::Fill {
                    call: number,
                    block,
                },
                None => ToCompute::Nothing,
            },
            Work::Read(run) => match run.to_solve(alloc) {
                Some(block) => ToCompute::Solve(block),
                None => ToCompute::Nothing,
            },
            _ => ToCompute::Nothing,
        }
    }
}

/// A call under way, and how many items the journal had before its first turn; of an attach, before the first turn of
/// its commit, once that was begun.
#[derive(Drop)]
pub struct UnderWay {
    pub at: usize,
    pub work: Work,
}

impl UnderWay {
    /// What its next turn asks to be computed, where it is the call of this number, from 0, among these.
    fn to_compute(&mut self, alloc: Global, calls: &[ScriptCall], number: usize) -> ToCompute
        requires may { (core : CoreOf) × ((call : CallOf) → slice_get calls.now number ≡ Some call
            → MayGoOn core call self.old.work) }
        ensures same { self.new ≡ self.old }
        ensures can { IsComputable calls.now result }
        ensures asked { (call : CallOf) → slice_get calls.now number ≡ Some call
            → IsAskedOf number self.old.work result }
    {
        match calls.get(number) {
            Some(call) => self.work.to_compute(alloc, call, number),
            None => ToCompute::Nothing,
        }
    }
}

/// How many of a client's calls were begun, and the last of these while it is under way.
#[derive(Drop)]
pub struct Client {
    pub begun: usize,
    pub under_way: Option<UnderWay>,
}

impl Client {
    /// A client that has begun no call.
    pub fn new() -> Client
        ensures { result ≡ record { begun = 0; under_way = None } }
    {
        Client {
            begun: 0,
            under_way: None,
        }
    }

    /// Its call under way has ended.
    pub fn end_call(&mut self)
        ensures { self.new ≡ record self.old { under_way = None } }
    {
        self.under_way = None;
    }

    /// Whether its next turn syncs a device, where these are out, and not too many. A call's first turn syncs none.
    pub fn syncs_next(&self, out: DeviceSet) -> bool {
        match &self.under_way {
            Some(under_way) => under_way.work.syncs_next(out),
            None => false,
        }
    }

    /// Whether the next turn of its call under way asks for something to be computed, if it has one.
    pub fn asks(&self) -> bool
        ensures { result ≡ false → (calls : List CallOf) → IsAskedBy calls self.now to_compute.Nothing }
    {
        match &self.under_way {
            Some(under_way) => under_way.work.asks(),
            None => false,
        }
    }

    /// What the next turn of its call under way asks to be computed, if it has one, of a client with these calls.
    /// What a read got is shared for that.
    pub fn to_compute(&mut self, alloc: Global, calls: &[ScriptCall]) -> ToCompute
        requires begun { (under : UnderWayOf) → self.old.under_way ≡ Some under → 1 ≤ self.old.begun }
        requires may { MayGoOnAs calls.now self.old }
        ensures same { self.new ≡ self.old }
        ensures can { IsComputable calls.now result }
        ensures asked { IsAskedBy calls.now self.old result }
    {
        match &mut self.under_way {
            Some(under_way) => under_way.to_compute(alloc, calls, self.begun - 1),
            None => ToCompute::Nothing,
        }
    }
}
