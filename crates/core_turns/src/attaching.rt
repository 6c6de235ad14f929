// Attaches, turn by turn.
ghost use Rattle.std.specs.Prelude.{◌≡◌, ◌≢◌, ◌+◌, ◌<◌, ◌≤◌, IfSome, None as NoWhy, Option as OptionOf, Some};
ghost use Rattle.bank_trait.specs.Disk.{Disk};
ghost use Rattle.attach_ring.specs.Ring.{RingRead as RingReadOf};
ghost use Rattle.core_state.specs.Outs.{OnlyFailedGoOut};
ghost use Rattle.core_state.specs.Committing.{point_of};
ghost use Rattle.core_commit.specs.CommitTurns.{CommitRun as CommitRunOf};
ghost use Rattle.core_commit.specs.JoinRun.{JoinRun as JoinRunOf};
ghost use Rattle.core_commit.specs.declared.join_run.WhyDropped.{WhyDropped as WhyOf};
ghost use Rattle.core_turns.specs.declared.attaching.AttachRun.TheVariants.{Reads as ReadsOf, Checked as CheckedOf};
ghost use Rattle.core_turns.specs.declared.attaching.AttachRun.TheVariants.{Joins as JoinsOf, Signs as SignsOf};
ghost use Rattle.core_turns.specs.declared.attaching.FreeDevice.{FreeDevice as FreeDeviceOf};
ghost use Rattle.core_turns.specs.Core.{IsCore, at_disk, HasBankOf};
ghost use Rattle.core_turns.specs.Getting.{HasTooManyOut};
ghost use Rattle.core_turns.specs.Attaching.{AttachGoesOn, BeginsAttach, HasNewDevice, IsAttachable, IsAttachRunOf};
ghost use Rattle.core_turns.specs.Attaching.{IsMoreAttach, IsNotAttachable, StepsAttach, attach_answer};
ghost use Rattle.core_turns.specs.Steps.{turn_with};

use crate::turn::too_many;
use crate::{Core, Turn};
use attach_ring::RingRead;
use bank_trait::Bank;
use core_commit::{CommitRun, JoinRun, JoinStep, WhyDropped};
use core_state::Answer;
use std::alloc::Global;
use std::mem::replace;
use uberblock_ring::DeviceSet;
use width_map::FIRST_DATA_SECTOR;

/// Most devices of a pool.
const MOST_DEVICES: u32 = 16;

/// A device that may join: its ring shows no uberblock, and it has as many data rows as the pool.
#[derive(Drop)]
pub struct FreeDevice {
    ring: RingRead,
    /// The first byte that its last data sector has: so it has one.
    last: u8,
}

/// An attach under way. It holds no sectors.
#[derive(Drop)]
pub enum AttachRun {
    /// The ring of the new device is read, a slot a turn.
    Reads(RingRead),
    /// It may join: a commit is to begin.
    Checked(FreeDevice),
    /// The first half of that commit, which the device may join.
    Joins(JoinRun),
    /// The second half: with the device, or why it has not joined.
    Signs {
        run: CommitRun,
        why: Option<WhyDropped>,
    },
}

impl AttachRun {
    /// Whether its next turn syncs a device, where these are out, and not too many.
    pub fn syncs_next(&self, out: DeviceSet) -> bool {
        match self {
            AttachRun::Reads(_) | AttachRun::Checked(_) => false,
            AttachRun::Joins(join) => join.syncs_next(out),
            AttachRun::Signs { run, why: _ } => run.syncs_next(out),
        }
    }

    /// Takes its commit's first half, whose turn gives it back: a ring of which nothing was read stands in its place.
    fn take(&mut self) -> AttachRun
        ensures { result ≡ self.old }
    {
        replace(self, AttachRun::Reads(RingRead::new(0)))
    }
}

/// What is answered with the group of an attach's commit, which left this width.
fn answer_with(why: Option<WhyDropped>, width: u32, group: u64) -> Answer
    ensures { result ≡ attach_answer why width group }
{
    match why {
        None => Answer::Attached { width, group },
        Some(WhyDropped::NewDeviceFailed { device }) => Answer::NewDeviceFailed { device },
        Some(WhyDropped::DeviceOut { device }) => Answer::DeviceOut { device },
    }
}

impl Core {
    /// Why no device may be attached to this pool on a bank of so many devices, if so.
    fn why_not_attachable(&self, devices: u32) -> Option<Answer>
        ensures why { IfSome result (IsNotAttachable self.now devices) }
        ensures may { result ≡ NoWhy → IsAttachable self.now devices }
    {
        let reflow = self.uber.reflow();
        let width = reflow.to;
        if width != reflow.from {
            return Some(Answer::Expanding { to: width });
        }
        if let Some(device) = self.out.lowest() {
            return Some(Answer::DeviceOut { device });
        }
        if width == MOST_DEVICES || devices <= width {
            return Some(Answer::NoDevice { devices, width });
        }
        None
    }

    /// The first turn of an attach: the device behind the pool's is to join it.
    pub fn attach_begin<B: Bank>(&mut self, bank: &B, actor: u8) -> Turn<AttachRun>
        ensures begins { BeginsAttach self.old self.new (B.disk bank.now).devices actor result }
        ensures there { IsMoreAttach self.new (B.disk bank.now) result }
    {
        if self.has_too_many_out() {
            return Turn::Done(too_many(self.out));
        }
        if let Some(by) = self.attaching {
            return Turn::Busy { by };
        }
        if let Some(by) = self.committing {
            return Turn::Busy { by };
        }
        match self.why_not_attachable(bank.devices()) {
            Some(answer) => Turn::Done(answer),
            None => {
                self.attaching = Some(actor);
                Turn::More(AttachRun::Reads(RingRead::new(self.uber.reflow().to)))
            }
        }
    }

    /// The next turn of an attach: a slot of the new device's ring is read; the ring is whole, and shows an uberblock,
    /// or the device's last data sector is read; or a turn of the commit that the device may join, which waits for
    /// another's commit.
    pub fn attach_step<B: Bank>(
        &mut self,
        alloc: Global,
        bank: &mut B,
        run: &mut AttachRun,
    ) -> Option<Answer>
        requires of { IsAttachRunOf self.old run.old }
        requires there { HasNewDevice (B.disk bank.old) run.old }
        requires bank { HasBankOf self.old (B.disk bank.old) }
        ensures steps { StepsAttach (at_disk self.old (B.disk bank.old)) run.old
            (at_disk self.new (B.disk bank.new)) (turn_with run.new result) }
        ensures of { IsMoreAttach self.new (B.disk bank.new) (turn_with run.new result) }
        ensures bank { HasBankOf self.new (B.disk bank.new) }
        ensures out { OnlyFailedGoOut (point_of self.old.pool.out (B.disk bank.old))
            (point_of self.new.pool.out (B.disk bank.new)) }
        ensures goes_on { AttachGoesOn (at_disk self.old (B.disk bank.old))
            (at_disk self.new (B.disk bank.new)) }
    {
        self.take_attach_turn(alloc, bank, run)
    }

    fn take_attach_turn<B: Bank>(
        &mut self,
        alloc: Global,
        bank: &mut B,
        run: &mut AttachRun,
    ) -> Option<Answer>
        requires of { IsAttachRunOf self.old run.old }
        requires there { HasNewDevice (B.disk bank.old) run.old }
        requires bank { HasBankOf self.old (B.disk bank.old) }
        ensures is { IsCore self.old }
        ensures steps { StepsAttach (at_disk self.old (B.disk bank.old)) run.old
            (at_disk self.new (B.disk bank.new)) (turn_with run.new result) }
        ensures of { IsMoreAttach self.new (B.disk bank.new) (turn_with run.new result) }
    {
        if self.has_too_many_out() {
            return self.stop_attach(too_many(self.out));
        }
        match run {
            AttachRun::Reads(ring) => {
                if ring.is_whole() {
                    self.check_device(bank, run)
                } else {
                    self.read_slot(bank, ring)
                }
            }
            AttachRun::Checked(_) => self.begin_joining(alloc, run),
            AttachRun::Joins(_) => self.step_join(bank, run),
            AttachRun::Signs { .. } => self.step_signing(bank, run),
        }
    }

    /// The attach is answered, and none is under way.
    fn stop_attach(&mut self, answer: Answer) -> Option<Answer>
        ensures core { self.new ≡ record self.old { attaching = NoWhy } }
        ensures value { result ≡ Some answer }
    {
        self.attaching = None;
        Some(answer)
    }

    /// Reads the next slot of the new device's ring.
    fn read_slot<B: Bank>(&mut self, bank: &mut B, ring: &mut RingRead) -> Option<Answer>
        requires of { IsAttachRunOf self.old (ReadsOf ring.old) }
        requires there { HasNewDevice (B.disk bank.old) (ReadsOf ring.old) }
        requires bank { HasBankOf self.old (B.disk bank.old) }
        requires few { HasTooManyOut self.old → ⊥ }
        requires left { ring.old.slots < 32 }
        ensures steps { StepsAttach (at_disk self.old (B.disk bank.old)) (ReadsOf ring.old)
            (at_disk self.new (B.disk bank.new)) (turn_with (ReadsOf ring.new) result) }
        ensures of { IsMoreAttach self.new (B.disk bank.new) (turn_with (ReadsOf ring.new) result) }
    {
        match ring.step(bank) {
            Ok(()) => None,
            Err(_) => self.stop_attach(Answer::NewDeviceFailed {
                device: ring.device(),
            }),
        }
    }

    /// Looks whether the ring shows an uberblock; else reads the new device's last data sector, which one that is too
    /// small has not.
    fn check_device<B: Bank>(&mut self, bank: &mut B, run: &mut AttachRun) -> Option<Answer>
        requires whole { (ring : RingReadOf) × (run.old ≡ ReadsOf ring) × (ring.slots ≡ 32) }
        requires of { IsAttachRunOf self.old run.old }
        requires there { HasNewDevice (B.disk bank.old) run.old }
        requires bank { HasBankOf self.old (B.disk bank.old) }
        requires few { HasTooManyOut self.old → ⊥ }
        ensures steps { StepsAttach (at_disk self.old (B.disk bank.old)) run.old
            (at_disk self.new (B.disk bank.new)) (turn_with run.new result) }
        ensures of { IsMoreAttach self.new (B.disk bank.new) (turn_with run.new result) }
    {
        let AttachRun::Reads(ring) = run else {
            unreachable!();
        };
        if let Some(slot) = ring.taken() {
            return self.stop_attach(Answer::Taken { slot });
        }
        let device = ring.device();
        let last = FIRST_DATA_SECTOR + self.uber.reflow().rows - 1;
        let mut bytes = [0; 512];
        match bank.read(device, last, &mut bytes) {
            Ok(()) => {
                let ring = replace(ring, RingRead::new(device));
                *run = AttachRun::Checked(FreeDevice {
                    ring,
                    last: bytes[0],
                });
                None
            }
            Err(_) => self.stop_attach(Answer::NewDeviceFailed { device }),
        }
    }

    /// Begins the commit that the new device may join, unless another is under way.
    fn begin_joining(&mut self, alloc: Global, run: &mut AttachRun) -> Option<Answer>
        requires checked { (device : FreeDeviceOf) × (run.old ≡ CheckedOf device) }
        requires of { IsAttachRunOf self.old run.old }
        requires few { HasTooManyOut self.old → ⊥ }
        ensures steps { (disk : Disk) → StepsAttach (at_disk self.old disk) run.old (at_disk self.new disk)
            (turn_with run.new result) }
        ensures of { (disk : Disk) → HasNewDevice disk run.old
            → IsMoreAttach self.new disk (turn_with run.new result) }
    {
        let Some(actor) = self.attaching else {
            unreachable!();
        };
        match self.commit_begin(alloc, actor) {
            Turn::More(commit) => {
                *run = AttachRun::Joins(JoinRun::new(commit));
                None
            }
            Turn::Busy { by: _ } => None,
            Turn::Done(answer) => self.stop_attach(answer),
        }
    }

    /// The next call of the first half. Where it is done, it is decided whether the device joins, and the first
    /// uberblock write is made.
    fn step_join<B: Bank>(&mut self, bank: &mut B, run: &mut AttachRun) -> Option<Answer>
        requires joins { (join : JoinRunOf) × (run.old ≡ JoinsOf join) }
        requires of { IsAttachRunOf self.old run.old }
        requires there { HasNewDevice (B.disk bank.old) run.old }
        requires bank { HasBankOf self.old (B.disk bank.old) }
        requires few { HasTooManyOut self.old → ⊥ }
        ensures steps { StepsAttach (at_disk self.old (B.disk bank.old)) run.old
            (at_disk self.new (B.disk bank.new)) (turn_with run.new result) }
        ensures of { IsMoreAttach self.new (B.disk bank.new) (turn_with run.new result) }
    {
        let AttachRun::Joins(join) = run.take() else {
            unreachable!();
        };
        match join.step(bank, &mut self.out) {
            JoinStep::GoesOn(join) => {
                *run = AttachRun::Joins(join);
                None
            }
            JoinStep::Joined(commit) => {
                self.reach += 1;
                *run = AttachRun::Signs {
                    run: commit,
                    why: None,
                };
                None
            }
            JoinStep::Dropped { run: commit, why } => {
                *run = AttachRun::Signs {
                    run: commit,
                    why: Some(why),
                };
                None
            }
        }
    }

    /// The next call of the second half; where none is left the group is answered, and the attach with it.
    fn step_signing<B: Bank>(&mut self, bank: &mut B, run: &mut AttachRun) -> Option<Answer>
        requires signs { (commit : CommitRunOf) × ((because : OptionOf WhyOf) × (run.old ≡ SignsOf commit because)) }
        requires of { IsAttachRunOf self.old run.old }
        requires bank { HasBankOf self.old (B.disk bank.old) }
        requires few { HasTooManyOut self.old → ⊥ }
        ensures steps { StepsAttach (at_disk self.old (B.disk bank.old)) run.old
            (at_disk self.new (B.disk bank.new)) (turn_with run.new result) }
        ensures of { IsMoreAttach self.new (B.disk bank.new) (turn_with run.new result) }
    {
        let AttachRun::Signs { run: commit, why } = run else {
            unreachable!();
        };
        match self.make_commit_call(bank, commit) {
            None => None,
            Some(Answer::Synced { group }) => {
                let width = self.uber.reflow().to;
                self.stop_attach(answer_with(*why, width, group))
            }
            Some(_) => unreachable!(),
        }
    }
}
