// A commit that a new device may join, one device call a step.
ghost use Rattle.std.specs.Prelude.{◌≡◌, ◌≢◌, ◌+◌, ◌^◌, ◌<◌, ◌≤◌, IfSome, None};
ghost use Rattle.block_record.specs.Page.{page_sectors};
ghost use Rattle.uberblock_ring.specs.Devices.{count_of};
ghost use Rattle.core_state.specs.Committing.{point_of};
ghost use Rattle.core_commit.specs.declared.commit_run.Stage.TheVariants.{Lays};
ghost use Rattle.core_commit.specs.Ran.{FitsBank};
ghost use Rattle.core_commit.specs.Widening.{widened_uber};
ghost use Rattle.core_commit.specs.declared.guest.Guest.TheVariants.{Laid, Lost};
ghost use Rattle.core_commit.specs.declared.guest.JoinTurn.TheVariants.{PoolCall, GuestWrite, GuestSync, Decision};
ghost use Rattle.core_commit.specs.JoinTurns.{FitsJoin, FitsStep, HasCalledPool, HasLaidGuest, HasSyncedGuest};
ghost use Rattle.core_commit.specs.JoinTurns.{IsNextTurnOf, IsWhy, JoinSteps};

use crate::CommitRun;
use crate::guest::{Guest, JoinTurn, next_turn};
use bank_trait::Bank;
use std::marker::Model;
use uberblock_ring::DeviceSet;

/// A commit in its first half that the device behind the pool's may join, and how far that has come.
#[derive(Drop)]
pub struct JoinRun {
    run: CommitRun,
    guest: Guest,
}

impl Model for JoinRun {
    ghost use Rattle.core_commit.specs.JoinRun.{IsJoinRun, JoinRun as JoinRunOf};

    ghost Value = { JoinRunOf };

    ghost view = { λ join. record { run = join.run; guest = join.guest } };

    ghost invariant = { λ join. IsJoinRun (record { run = join.run; guest = join.guest }) };
}

/// Why a device has not joined: a call on it failed, or this one of the pool is out, the lowest.
#[derive(Clone, Copy, Debug, PartialEq, Eq)]
pub enum WhyDropped {
    NewDeviceFailed { device: u32 },
    DeviceOut { device: u32 },
}

/// What a step did. The first half goes on; or it was done, and the first uberblock write was made, with the device in
/// the pool, or without it.
#[derive(Drop)]
pub enum JoinStep {
    GoesOn(JoinRun),
    Joined(CommitRun),
    Dropped { run: CommitRun, why: WhyDropped },
}

/// Why this device, the one behind the pool's, may not join.
fn why_dropped(guest: Guest, device: u32, out: DeviceSet) -> Option<WhyDropped>
    ensures why { IfSome result (IsWhy guest device out) }
    ensures joins { result ≡ None → out ≡ 0 }
    ensures works { result ≡ None → guest ≢ Lost }
{
    if guest == Guest::Lost {
        return Some(WhyDropped::NewDeviceFailed { device });
    }
    match out.lowest() {
        Some(lowest) => Some(WhyDropped::DeviceOut { device: lowest }),
        None => None,
    }
}

impl JoinRun {
    /// A commit of which no call is made yet, of a group at rest, that the device behind the group's may join.
    pub fn new(run: CommitRun) -> JoinRun
        requires rest { run.uber.reflow.to ≡ run.uber.reflow.from }
        requires room { run.uber.reflow.to < 16 }
        requires lays { run.stage ≡ Lays }
        ensures value { result ≡ record { run = run; guest = Laid 0 } }
    {
        JoinRun {
            run,
            guest: Guest::Laid { parts: 0 },
        }
    }

    /// The device that may join: the one behind the pool's.
    pub fn device(&self) -> u32
        ensures value { result ≡ self.now.run.uber.reflow.to }
    {
        self.run.uber().reflow().to
    }

    /// The pool's commit, and with it the group.
    pub fn run(&self) -> &CommitRun
        ensures value { result.now ≡ self.now.run }
    {
        &self.run
    }

    /// What comes next.
    fn turn(&self, out: DeviceSet) -> JoinTurn
        ensures turn { IsNextTurnOf self.now out result }
    {
        next_turn(
            self.run.next_call(out),
            self.guest,
            self.run.index_sectors(),
        )
    }

    /// Whether the next step syncs a device, where these are out. The decision syncs none.
    pub fn syncs_next(&self, out: DeviceSet) -> bool {
        match self.turn(out) {
            JoinTurn::PoolCall => self.run.syncs_next(out),
            JoinTurn::GuestSync => true,
            JoinTurn::GuestWrite { .. } | JoinTurn::Decision => false,
        }
    }

    /// Makes the next call of the pool's first half.
    fn call_pool<B: Bank>(self, bank: &mut B, out: &mut DeviceSet) -> JoinRun
        requires turn { IsNextTurnOf self out.old PoolCall }
        requires fits { FitsJoin self out.old (B.disk bank.old) }
        requires few { count_of out.old ≤ self.run.uber.parity }
        ensures called { HasCalledPool self (point_of out.old (B.disk bank.old)) result
            (point_of out.new (B.disk bank.new)) }
        ensures fits { FitsJoin result out.new (B.disk bank.new) }
    {
        let JoinRun { mut run, guest } = self;
        let _ = run.step(bank, out);
        JoinRun { run, guest }
    }

    /// Writes a sector of the index page to the device that may join.
    fn lay_guest<B: Bank>(self, bank: &mut B, out: DeviceSet, part: u64) -> JoinRun
        requires turn { IsNextTurnOf self out (GuestWrite part) }
        requires fits { FitsJoin self out (B.disk bank.old) }
        ensures laid { HasLaidGuest self (point_of out (B.disk bank.old)) result
            (point_of out (B.disk bank.new)) }
        ensures fits { FitsJoin result out (B.disk bank.new) }
    {
        let device = self.device();
        let JoinRun { run, guest: _ } = self;
        let guest = match run.lay_on(bank, device, part) {
            Ok(()) => Guest::Laid { parts: part + 1 },
            Err(_) => Guest::Lost,
        };
        JoinRun { run, guest }
    }

    /// Syncs the device that may join.
    fn sync_guest<B: Bank>(self, bank: &mut B, out: DeviceSet) -> JoinRun
        requires turn { IsNextTurnOf self out GuestSync }
        requires fits { FitsJoin self out (B.disk bank.old) }
        ensures synced { HasSyncedGuest self (point_of out (B.disk bank.old)) result
            (point_of out (B.disk bank.new)) }
        ensures fits { FitsJoin result out (B.disk bank.new) }
    {
        let device = self.device();
        let JoinRun { run, guest: _ } = self;
        let guest = match bank.sync(device) {
            Ok(()) => Guest::Settled,
            Err(_) => Guest::Lost,
        };
        JoinRun { run, guest }
    }

    /// Decides whether the device joins, and makes the first uberblock write.
    fn decide<B: Bank>(self, bank: &mut B, out: &mut DeviceSet) -> JoinStep
        requires turn { IsNextTurnOf self out.old Decision }
        requires fits { FitsJoin self out.old (B.disk bank.old) }
        requires few { count_of out.old ≤ self.run.uber.parity }
        ensures steps { JoinSteps self (point_of out.old (B.disk bank.old)) result
            (point_of out.new (B.disk bank.new)) }
        ensures fits { FitsStep result out.new (B.disk bank.new) }
    {
        let device = self.device();
        let JoinRun { mut run, guest } = self;
        match why_dropped(guest, device, *out) {
            Some(why) => {
                let _ = run.step(bank, out);
                JoinStep::Dropped { run, why }
            }
            None => {
                let mut wider = run.widened(*out);
                let _ = wider.step(bank, out);
                JoinStep::Joined(wider)
            }
        }
    }

    /// Makes the next device call. A call that fails on a device of the pool puts it out; one that fails on the device
    /// that may join is kept for the decision, and none is made there any more.
    pub fn step<B: Bank>(self, bank: &mut B, out: &mut DeviceSet) -> JoinStep
        requires fits { FitsJoin self out.old (B.disk bank.old) }
        requires few { count_of out.old ≤ self.run.uber.parity }
        ensures steps { JoinSteps self (point_of out.old (B.disk bank.old)) result
            (point_of out.new (B.disk bank.new)) }
        ensures fits { FitsStep result out.new (B.disk bank.new) }
    {
        match self.turn(*out) {
            JoinTurn::PoolCall => JoinStep::GoesOn(self.call_pool(bank, out)),
            JoinTurn::GuestWrite { part } => JoinStep::GoesOn(self.lay_guest(bank, *out, part)),
            JoinTurn::GuestSync => JoinStep::GoesOn(self.sync_guest(bank, *out)),
            JoinTurn::Decision => self.decide(bank, out),
        }
    }
}
