// An open pool on a bank in memory, and its calls turn by turn.
ghost use Rattle.std.specs.Prelude.{◌≡◌, IfOk, IfSome, Some};
ghost use Rattle.bank_mem.specs.MemBank.{mem_disk};
ghost use Rattle.core_blocks.specs.Blocks.{IsUnderWay};
ghost use Rattle.core_turns.specs.declared.copying.CopyRun.{CopyRun as CopyRunOf};
ghost use Rattle.core_turns.specs.declared.filling.Filled.{Filled};
ghost use Rattle.core_turns.specs.Attaching.{HasNewDevice, IsAttachRunOf};
ghost use Rattle.core_turns.specs.Committing.{IsCommitOf};
ghost use Rattle.core_turns.specs.Copying.{IsJobOf};
ghost use Rattle.core_turns.specs.Getting.{IsGetOf, IsReadKind};
ghost use Rattle.core_turns.specs.Putting.{IsPutOf};
ghost use Rattle.core_turns.specs.Core.{HasBankOf};

use crate::sectors::held;
use crate::stops::copy_of;
use bank_mem::MemBank;
use core_commit::CommitRun;
use core_open::open_pool;
use core_state::{Answer, Kind};
use core_turns::{AttachRun, CopyRun, Core, GetRun, JobBegin, PutRun, Turn};
use reflow_copier::Job;
use reflow_mark::Reflow;
use std::alloc::Global;
use std::process::Abort;
use std::test::Fail;
use uberblock_ring::{Uber, slot};

/// The actor whose puts, gets and commits these are.
pub const CLIENT: u8 = 0;

/// The actor who attaches a device, and copies.
pub const COPIER: u8 = 8;

/// More turns than any call of these pools has.
const MOST_TURNS: u64 = 300;

/// A pool and the bank that it was opened on.
#[derive(Drop)]
pub struct PoolOnBank {
    pub core: Core,
    pub bank: MemBank,
    ghost has_bank: { HasBankOf core (mem_disk bank) },
}

/// What a round of a copy came to: a job was carried out, a commit was, or the round was answered at once.
#[derive(Drop)]
pub enum Round {
    Copied(Job),
    Committed,
    Busy { by: u8 },
    Answered(Answer),
    /// A device failed meanwhile. What was answered as the job was given up, if anything was.
    GivenUp(Option<Answer>),
}

/// The bytes that a get is answered by.
fn bytes_read(alloc: Global, answer: Answer) -> Result<Vec<u8>, Fail> {
    let Answer::Read { bytes } = answer else {
        return Err("a block is not read".into());
    };
    Ok(Vec::from_slice(alloc, bytes.as_slice())?)
}

impl PoolOnBank {
    /// Opens the pool that the devices show.
    pub fn open(alloc: Global, bank: MemBank) -> Result<PoolOnBank, Fail> {
        let mut bank = bank;
        let opened = open_pool(alloc, &mut bank)?;
        let core = Core::new(alloc, opened.pool);
        Ok(PoolOnBank { core, bank })
    }

    /// The first turn of a put. Its bytes are filled in.
    pub fn begin_put(&mut self, alloc: Global, id: u64, bytes: &[u8]) -> Result<PutRun, Fail>
        ensures of { IfOk result (λ run. IsPutOf self.new.core run) }
        ensures under_way { IfOk result (λ run. IsUnderWay self.new.core.pool.blocks run.range) }
        ensures filled { IfOk result (λ run. (filled : Filled) × (run.filled ≡ Some filled)) }
    {
        if bytes.is_empty() || bytes.len() > 65536 {
            return Err("no block has so many bytes".into());
        }
        let Turn::More(run) = self.core.put_begin(CLIENT, id, bytes.len() as u32) else {
            return Err("a put does not begin".into());
        };
        let mut run = run;
        if run.fill(alloc, bytes).is_err() {
            return Err("no memory for a block".into());
        }
        Ok(run)
    }

    /// The other turns of a put that is filled in.
    pub fn end_put(&mut self, run: PutRun) -> Result<(), Fail>
        requires of { IsPutOf self.old.core run }
        requires under_way { IsUnderWay self.old.core.pool.blocks run.range }
        requires filled { (filled : Filled) × (run.filled ≡ Some filled) }
    {
        let mut run = run;
        for _ in 0..MOST_TURNS {
            if run.is_written() {
                return match self.core.put_end(&run) {
                    Answer::Stored => Ok(()),
                    _ => Err("a put is not answered".into()),
                };
            }
            match self.core.put_write(&mut self.bank, &mut run) {
                None => {}
                Some(_) => return Err("a put does not go on".into()),
            }
        }
        Err("a put has no end".into())
    }

    /// A whole put.
    pub fn put(&mut self, alloc: Global, id: u64, bytes: &[u8]) -> Result<(), Fail> {
        let run = self.begin_put(alloc, id, bytes)?;
        self.end_put(run)
    }

    /// The first turn of a get.
    pub fn begin_get(&mut self, alloc: Global, id: u64) -> Result<GetRun, Fail>
        ensures of { IfOk result (λ run. IsGetOf self.new.core run) }
        ensures kind { IfOk result (λ run. IsReadKind run.kind) }
        ensures jobs { (job : CopyRunOf) → IsJobOf self.old.core job → IsJobOf self.new.core job }
    {
        match self.core.get_begin(alloc, CLIENT, Kind::Get, id) {
            Turn::More(run) => Ok(run),
            _ => Err("a get does not begin".into()),
        }
    }

    /// The other turns of a get, and the bytes that it answers.
    pub fn end_get(&mut self, alloc: Global, run: GetRun) -> Result<Vec<u8>, Fail>
        requires of { IsGetOf self.old.core run }
        requires kind { IsReadKind run.kind }
    {
        let mut run = run;
        for _ in 0..MOST_TURNS {
            if run.is_read() {
                run.solve(alloc)?;
                return bytes_read(alloc, self.core.get_end(&mut run));
            }
            match self.core.get_read(&mut self.bank, &mut run) {
                None => {}
                Some(_) => return Err("a get does not go on".into()),
            }
        }
        Err("a get has no end".into())
    }

    /// A whole get, and the bytes that it answers.
    pub fn get(&mut self, alloc: Global, id: u64) -> Result<Vec<u8>, Fail> {
        let run = self.begin_get(alloc, id)?;
        self.end_get(alloc, run)
    }

    /// A get of a block, up to the turn behind which more devices are out than the pool bears. It is never ended.
    pub fn meet_failures(&mut self, alloc: Global, id: u64) -> Result<(), Fail>
        ensures jobs { IfOk result (λ _. (job : CopyRunOf) → IsJobOf self.old.core job → IsJobOf self.new.core job) }
    {
        let mut run = self.begin_get(alloc, id)?;
        for _ in 0..MOST_TURNS {
            if self.core.has_too_many_out() {
                return Ok(());
            }
            if run.is_read() {
                return Err("a block is read".into());
            }
            match self.core.get_read(&mut self.bank, &mut run) {
                None => {}
                Some(_) => return Err("a get does not go on".into()),
            }
        }
        Err("a get has no end".into())
    }

    /// A whole commit. Gives the reflow that its group records.
    pub fn commit(&mut self, alloc: Global) -> Result<Reflow, Fail> {
        let Turn::More(run) = self.core.commit_begin(alloc, CLIENT) else {
            return Err("a commit does not begin".into());
        };
        let recorded = run.uber().reflow();
        self.end_commit(run)?;
        Ok(recorded)
    }

    /// The other turns of a commit.
    fn end_commit(&mut self, run: CommitRun) -> Result<(), Fail>
        requires { IsCommitOf self.old.core run }
    {
        let mut run = run;
        for _ in 0..MOST_TURNS {
            match self.core.commit_step(&mut self.bank, &mut run) {
                None => (),
                Some(Answer::Synced { group: _ }) => return Ok(()),
                Some(_) => return Err("a commit is not answered".into()),
            }
        }
        Err("a commit has no end".into())
    }

    /// A whole attach, and what it is answered.
    pub fn attach(&mut self, alloc: Global) -> Result<Answer, Fail> {
        match self.core.attach_begin(&self.bank, COPIER) {
            Turn::More(run) => self.end_attach(alloc, run),
            Turn::Done(answer) => Ok(answer),
            Turn::Busy { by: _ } => Err("another call is in the way of an attach".into()),
        }
    }

    /// The other turns of an attach, and what it is answered.
    fn end_attach(&mut self, alloc: Global, run: AttachRun) -> Result<Answer, Fail>
        requires of { IsAttachRunOf self.old.core run }
        requires there { HasNewDevice (mem_disk self.old.bank) run }
    {
        let mut run = run;
        for _ in 0..MOST_TURNS {
            if let Some(answer) = self.core.attach_step(alloc, &mut self.bank, &mut run) {
                return Ok(answer);
            }
        }
        Err("an attach has no end".into())
    }

    /// The other turns of a job: until it has copied all its sectors, or a device fails.
    pub fn end_job(&mut self, run: CopyRun) -> Result<Round, Fail>
        requires { IsJobOf self.old.core run }
    {
        let mut run = run;
        for _ in 0..MOST_TURNS {
            if !self.core.out().is_empty() {
                return Ok(Round::GivenUp(self.core.job_give_up(&run)));
            }
            if run.is_done() {
                self.core.job_end(&run);
                return Ok(Round::Copied(run.job()));
            }
            self.core.job_step(&mut self.bank, &mut run);
        }
        Err("a job has no end".into())
    }

    /// Who is in the way of the job that is due. None where nobody is; the job may have begun then.
    pub fn who_is_in_the_way(&mut self, alloc: Global) -> Option<u8>
        ensures { IfSome result (λ _. self.new.core ≡ self.old.core) }
    {
        match self.core.job_begin(alloc, COPIER) {
            JobBegin::Busy { by } => Some(by),
            _ => None,
        }
    }

    /// A round of a copy: the job that is due, or the commit.
    pub fn round(&mut self, alloc: Global) -> Result<Round, Fail> {
        match self.core.job_begin(alloc, COPIER) {
            JobBegin::More(run) => self.end_job(run),
            JobBegin::Busy { by } => Ok(Round::Busy { by }),
            JobBegin::Done(answer) => Ok(Round::Answered(answer)),
            JobBegin::CommitDue => {
                self.commit(alloc)?;
                Ok(Round::Committed)
            }
        }
    }

    /// The uberblock of the last group, as the first device shows it.
    pub fn last_uber(&self, rt: &impl Abort, alloc: Global) -> Result<Uber, Fail> {
        let place = slot(self.core.open_group().saturating_sub(1));
        let mut left = copy_of(alloc, &self.bank)?;
        let bytes = held(rt, &mut left, (0, u64::from(place)))?;
        match Uber::decode(&bytes, 0, place) {
            Some(uber) => Ok(uber),
            None => Err("no uberblock stands there".into()),
        }
    }

    /// Lets all calls on a device fail from now on.
    pub fn fail(&mut self, device: u32) -> Result<(), Fail> {
        self.bank.fail_from(device, 0)?;
        Ok(())
    }
}
