// A commit that makes one device call a step, so that other calls may come between.
ghost use Rattle.std.specs.Prelude.{◌≡◌, ◌+◌, ◌^◌, ◌<◌, ◌≤◌, Some, IsTrue, length, slice_get};
ghost use Rattle.bank_trait.specs.Disk.{Wrote};
ghost use Rattle.block_record.specs.Page.{index_page, page_sectors, IsIndex};
ghost use Rattle.uberblock_ring.specs.Devices.{count_of};
ghost use Rattle.uberblock_ring.specs.Uberblock.{area_sector};
ghost use Rattle.uberblock_ring.specs.Valid.{IsRightUber};
ghost use Rattle.commit_job.specs.declared.call.CommitCall.{CommitCall as CallOf};
ghost use Rattle.commit_job.specs.Stages.{calls_left, plan_of};
ghost use Rattle.core_commit.specs.declared.commit_run.Stage.TheVariants.{Lays};
ghost use Rattle.core_commit.specs.CommitTurns.{IsMadeReady, CommitSteps};
ghost use Rattle.core_commit.specs.Widening.{widened_run};
ghost use Rattle.core_commit.specs.Ran.{FitsBank, IsLaying, IsSigning, index_part};
ghost use Rattle.core_state.specs.Committing.{point_of};
ghost use Rattle.core_commit.specs.Spared.{HaveGoneOut, SparesData};

use crate::committing::{is_signing, make, write_part};
use bank_trait::{Bank, Failed};
use block_record::{IndexEntry, page_sectors};
use commit_job::{Commit, CommitCall};
use reflow_mark::Reflow;
use std::marker::Model;
use uberblock_ring::{DeviceSet, Uber};

/// The half of a commit that comes next: the index page and its syncs, or the uberblock and its own.
#[derive(Clone, Copy, Debug, PartialEq, Eq)]
pub enum Stage {
    Lays,
    Signs,
}

/// What a step of a commit did: it made a device call, or none was left and the group is the last one.
#[derive(Clone, Copy, Debug, PartialEq, Eq)]
pub enum CommitStep {
    Called,
    Ended,
}

/// A commit under way: the group that is made, its index with the page that each device is given, and
/// the calls that are still to be made.
#[derive(Drop)]
pub struct CommitRun {
    uber: Box<Uber>,
    entries: Vec<IndexEntry>,
    page: Vec<u8>,
    calls: Commit,
    stage: Stage,
}

impl Model for CommitRun {
    ghost use Rattle.std.specs.Prelude.{◌≡◌};
    ghost use Rattle.block_record.specs.Page.{index_page};
    ghost use Rattle.core_commit.specs.CommitTurns.{CommitRun as RunOf, IsCommitRun};

    ghost Value = { RunOf };

    ghost view = { λ run. record {
      uber = run.uber.value;
      entries = run.entries.items;
      calls = run.calls;
      stage = run.stage;
    } };

    ghost invariant = { λ run. IsCommitRun (record {
      uber = run.uber.value;
      entries = run.entries.items;
      calls = run.calls;
      stage = run.stage;
    }) × (run.page.items ≡ index_page run.entries.items) };
}

/// Whether the first half of a commit is done where this call comes next.
fn is_laid(next: Option<CommitCall>) -> bool
    ensures done { IsTrue result → (call : CallOf) → next ≡ Some call → IsSigning call }
    ensures goes_on { (IsTrue result → ⊥) → (call : CallOf) × (next ≡ Some call) × IsLaying call }
{
    match next {
        Some(call) => is_signing(call),
        None => true,
    }
}

impl CommitRun {
    /// The commit of a group with its index and the index page; no call is made yet.
    pub fn new(uber: Box<Uber>, entries: Vec<IndexEntry>, page: Vec<u8>) -> CommitRun
        requires right { IsRightUber uber.value }
        requires index { IsIndex entries.items }
        requires page { page.items ≡ index_page entries.items }
        requires counted { length entries.items ≡ uber.value.count }
        ensures value { result ≡ record {
          uber = uber.value;
          entries = entries.items;
          calls = plan_of uber.value.reflow.to uber.value.count;
          stage = Lays;
        } }
    {
        let calls = Commit::new(uber.reflow().to, uber.count());
        CommitRun {
            uber,
            entries,
            page,
            calls,
            stage: Stage::Lays,
        }
    }

    /// The uberblock of the group, which counts its index.
    pub fn uber(&self) -> &Uber
        ensures value { result.now ≡ self.now.uber }
        ensures counted { length self.now.entries ≡ self.now.uber.count }
    {
        &self.uber
    }

    /// The index of the group.
    pub fn entries(&self) -> &[IndexEntry]
        ensures value { result.now ≡ self.now.entries }
    {
        &self.entries
    }

    /// The next call, where these devices are out.
    pub fn next_call(&self, out: DeviceSet) -> Option<CommitCall>
        ensures value { result ≡ slice_get (calls_left out self.now.calls) 0 }
    {
        self.calls.next(out)
    }

    /// Whether the next call syncs a device, where these are out.
    pub fn syncs_next(&self, out: DeviceSet) -> bool {
        matches!(
            self.next_call(out),
            Some(CommitCall::BaseSync { .. } | CommitCall::UberSync { .. })
        )
    }

    /// How many sectors the index page has.
    pub(crate) fn index_sectors(&self) -> u64
        ensures value { result ≡ page_sectors self.now.uber.count }
    {
        page_sectors(self.uber.count() as usize)
    }

    /// Writes a sector of the index page, from 0, to a device that the group does not have.
    pub fn lay_on<B: Bank>(&self, bank: &mut B, device: u32, part: u64) -> Result<(), Failed>
        requires part { part < page_sectors self.now.uber.count }
        requires device { device < (B.disk bank.old).devices }
        requires sectors { 192 ≤ (B.disk bank.old).sectors }
        ensures value { Wrote (B.disk bank.old) (B.disk bank.new) device
            (area_sector self.now.uber.area + part) (index_part self.now.entries part) result }
    {
        write_part(
            bank,
            &self.uber,
            &self.entries,
            Some(&self.page),
            device,
            part,
        )
    }

    /// The second half of the same group with one device more, to which nothing is moved yet. A device joins only
    /// where none is out.
    pub fn widened(self, out: DeviceSet) -> CommitRun
        requires rest { self.uber.reflow.to ≡ self.uber.reflow.from }
        requires room { self.uber.reflow.to < 16 }
        requires whole { out ≡ 0 }
        ensures value { result ≡ widened_run self }
    {
        let CommitRun {
            mut uber,
            entries,
            page,
            calls: _,
            stage: _,
        } = self;
        let reflow = uber.reflow();
        let to = reflow.to + 1;
        let births = *uber.births();
        uber.set_widths(Reflow { to, ..reflow }, births);
        uber.set_out(out);
        CommitRun {
            uber,
            entries,
            page,
            calls: Commit::signing(to),
            stage: Stage::Signs,
        }
    }

    /// The next call. Where the first half is done by now, the second one begins, and the uberblock
    /// lists the devices that are out.
    fn ready(&mut self, out: DeviceSet) -> Option<CommitCall>
        requires few { count_of out ≤ self.old.uber.parity }
        requires below { out < 2 ^ self.old.uber.reflow.to }
        ensures value { result ≡ slice_get (calls_left out self.old.calls) 0 }
        ensures ready { IsMadeReady out self.old self.new }
        ensures right { IsRightUber self.new.uber }
    {
        let next = self.calls.next(out);
        if self.stage == Stage::Lays && is_laid(next) {
            self.uber.set_out(out);
            self.stage = Stage::Signs;
        }
        next
    }

    /// Makes the next device call, and puts its device out where it fails. The uberblock lists the
    /// devices that are out as the first half ends.
    pub fn step<B: Bank>(&mut self, bank: &mut B, out: &mut DeviceSet) -> CommitStep
        requires fits { FitsBank self.old.uber self.old.entries out.old (B.disk bank.old) }
        requires few { count_of out.old ≤ self.old.uber.parity }
        requires below { out.old < 2 ^ self.old.uber.reflow.to }
        ensures steps { CommitSteps self.old (point_of out.old (B.disk bank.old)) self.new
            (point_of out.new (B.disk bank.new)) result }
        ensures gone { HaveGoneOut (point_of out.old (B.disk bank.old)) out.old
            (point_of out.new (B.disk bank.new)) }
        ensures spares { SparesData (point_of out.old (B.disk bank.old))
            (point_of out.new (B.disk bank.new)) }
        ensures fits { FitsBank self.new.uber self.new.entries out.new (B.disk bank.new) }
        ensures below { out.new < 2 ^ self.new.uber.reflow.to }
    {
        let Some(call) = self.ready(*out) else {
            return CommitStep::Ended;
        };
        let _ = self.calls.advance(*out);
        make(bank, &self.uber, &self.entries, Some(&self.page), call, out);
        CommitStep::Called
    }
}
